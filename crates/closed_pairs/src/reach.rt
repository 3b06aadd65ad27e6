ghost use Rattle.std.specs.Prelude.{◌≡◌, ◌<◌, length, map, IfOk};
ghost use Rattle.std.specs.List.{list_any};
ghost use Rattle.spoc_base.specs.Shown.{cidr_of, box_of};
ghost use Rattle.permit_set.specs.Shown.{permit_of};
ghost use Rattle.nat_view.specs.Sights.{sight_of};
ghost use Rattle.permit_lines.specs.Given.{AreKnown};
ghost use Rattle.permit_lines.specs.Pieces.{permit_line};
ghost use Rattle.permit_lines.specs.Seen.{lines_of_covers};
ghost use Rattle.closed_pairs.specs.Seen.{pair_seen, ends_seen, has_line};
ghost use Rattle.closed_pairs.specs.Reaching.{AreBelow, line_reaches, ends_between, reaches_pair};

use crate::pairs::{Ends, PairPermits, PermitLine};
use crate::parts::reaches;
use nat_view::View;
use permit_lines::{PermitCover, pair_covers};
use permit_set::Permit;
use spoc_base::{NetId, NoMemory, Prefix};
use std::alloc::Global;

// The prefixes of the networks where the view is.
fn ends_in(view: View<'_>, src: NetId, dst: NetId) -> Ends
    requires src { src.0 < length (sight_of view).policy.nets }
    requires dst { dst.0 < length (sight_of view).policy.nets }
    ensures { ends_seen result ≡ ends_between (sight_of view.entry).policy (sight_of view.entry).tags (record { src = src.0; dst = dst.0 }) }
{
    Ends {
        src: view.seen_prefix(src),
        dst: view.seen_prefix(dst),
    }
}

// Whether one of a permit's lines from this source reaches into a pair with these ends, past its own
// lines.
fn from_reaches(cover: &PermitCover, src: Prefix, ends: Ends, own: &[PermitCover]) -> bool
    ensures { result ≡ list_any (λ dst. line_reaches (ends_seen ends) (lines_of_covers own.now) (permit_line (box_of cover.now.t) (cidr_of src) (cidr_of dst))) cover.now.dsts }
{
    let t = cover.t;
    cover.dsts.items().iter().any(|dst| reaches(&PermitLine { src, dst: *dst, t }, ends, own))
}

// Whether one of a permit's lines does.
fn cover_reaches(cover: &PermitCover, ends: Ends, own: &[PermitCover]) -> bool
    ensures { result ≡ has_line (line_reaches (ends_seen ends) (lines_of_covers own.now)) cover.now }
{
    cover
        .srcs
        .items()
        .iter()
        .any(|src| from_reaches(cover, *src, ends, own))
}

// Whether one of the lines of some permits does.
fn any_reaches(lines: &[PermitCover], ends: Ends, own: &[PermitCover]) -> bool
    ensures { result ≡ list_any (λ cover. has_line (line_reaches (ends_seen ends) (lines_of_covers own.now)) cover) lines.now }
{
    lines.iter().any(|cover| cover_reaches(cover, ends, own))
}

/// Whether one of these lines reaches into the pair where the view is: limited to the pair's prefixes
/// it isn't empty, and none of the pair's own lines permits all of it.
pub(crate) fn reaches_in(
    alloc: Global,
    view: View<'_>,
    permits: &[Permit],
    lines: &[PermitCover],
    inner: &PairPermits<'_>,
) -> Result<bool, NoMemory>
    requires known { AreKnown (sight_of view).policy (map permit_of permits.now) }
    requires inner { AreBelow (length permits.now) (pair_seen inner.now) }
    requires src { inner.now.src.0 < length (sight_of view).policy.nets }
    requires dst { inner.now.dst.0 < length (sight_of view).policy.nets }
    ensures { IfOk result (λ is. is ≡ list_any (reaches_pair (sight_of view.entry).policy (sight_of view.entry).tags (map permit_of permits.now) (pair_seen inner.now)) (lines_of_covers lines.now)) }
{
    let own = pair_covers(alloc, view, permits, inner.forward, inner.mirrored)?;
    Ok(any_reaches(lines, ends_in(view, inner.src, inner.dst), &own))
}
