ghost use Rattle.std.specs.Prelude.{◌≡◌, ◌∷◌, [], option_map, option_to_list};
ghost use Rattle.std.specs.List.{list_any};
ghost use Rattle.spoc_base.specs.Address.{is_inside};
ghost use Rattle.spoc_base.specs.Boxes.{box_covers};
ghost use Rattle.spoc_base.specs.Shown.{cidr_of, box_of};
ghost use Rattle.policy_model.specs.Blocks.{limited_to};
ghost use Rattle.permit_lines.specs.Seen.{lines_of_covers};
ghost use Rattle.closed_pairs.specs.Seen.{line_seen, ends_seen, permits_line};
ghost use Rattle.closed_pairs.specs.Reaching.{limited_line, part_of, line_reaches};

use crate::pairs::{Ends, PermitLine};
use box_algebra::{Box4, covers};
use permit_lines::PermitCover;
use spoc_base::{Prefix, TBox};

// What a prefix shares with the prefix of a network, if that isn't hidden.
fn common_part(end: Option<Prefix>, prefix: Prefix) -> Option<Prefix>
    ensures { option_to_list (option_map cidr_of result) ≡ limited_to (option_map cidr_of end) (cidr_of prefix ∷ []) }
{
    let end = end?;
    if end.inside(prefix) {
        Some(end)
    } else if prefix.inside(end) {
        Some(prefix)
    } else {
        None
    }
}

// The line with its ends limited to those of a pair, unless it is empty.
fn limited(line: &PermitLine, ends: Ends) -> Option<PermitLine>
    ensures { option_map line_seen result ≡ part_of (limited_line (ends_seen ends) (line_seen line.now)) }
{
    let src = common_part(ends.src, line.src)?;
    let dst = common_part(ends.dst, line.dst)?;
    Some(PermitLine {
        src,
        dst,
        t: line.t,
    })
}

// Whether the set holds each transport that the line permits. The boxes that are compared have the
// same addresses, so that only their transports decide.
fn transport_covers(t: TBox, part: &PermitLine) -> bool
    ensures { result ≡ box_covers (box_of t) (box_of part.now.t) }
{
    let range = part.src.range();
    let first = Box4 {
        src: range,
        dst: range,
        t,
    };
    let second = Box4 {
        src: range,
        dst: range,
        t: part.t,
    };
    covers(&first, &second)
}

// Whether one of the prefixes holds all addresses of this one.
fn is_inside_one(prefix: Prefix, outer: &[Prefix]) -> bool
    ensures { result ≡ list_any (λ q. is_inside (cidr_of prefix) (cidr_of q)) outer.now }
{
    outer.iter().any(|q| prefix.inside(*q))
}

// Whether one of the permit's lines permits all that the part permits: one of its sources holds the
// part's source, one of its destinations holds the part's destination, and it has the transports.
fn cover_permits(cover: &PermitCover, part: &PermitLine) -> bool
    ensures { result ≡ permits_line cover.now part.now }
{
    is_inside_one(part.src, cover.srcs.items())
        && is_inside_one(part.dst, cover.dsts.items())
        && transport_covers(cover.t, part)
}

// Whether one of the lines permits all that the part permits.
fn is_covered(own: &[PermitCover], part: &PermitLine) -> bool
    ensures { result ≡ list_any (λ cover. permits_line cover part.now) own.now }
{
    own.iter().any(|cover| cover_permits(cover, part))
}

/// Whether a line reaches into a pair with these ends, past its own lines.
pub(crate) fn reaches(line: &PermitLine, ends: Ends, own: &[PermitCover]) -> bool
    ensures { result ≡ line_reaches (ends_seen ends) (lines_of_covers own.now) (line_seen line.now) }
{
    match limited(line, ends) {
        Some(part) => !is_covered(own, &part),
        None => false,
    }
}
