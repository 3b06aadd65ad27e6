ghost use Rattle.std.specs.Prelude.{◌≡◌, ◌<◌, ◌≤◌, if◌then◌else◌, [], length, map, IfOk};
ghost use Rattle.std.specs.List.{All, AllPairs};
ghost use Rattle.zone_graph.specs.Grouped.{row_items};
ghost use Rattle.permit_set.specs.Shown.{permit_of};
ghost use Rattle.nat_view.specs.Sights.{sight_of};
ghost use Rattle.permit_lines.specs.Given.{AreKnown};
ghost use Rattle.closed_pairs.specs.Seen.{pair_seen};
ghost use Rattle.rule_distribute.specs.Pairs.{IsBefore};
ghost use Rattle.rule_distribute.specs.Placed.{row_at, HaveRows, AreLess, numbers_at, told_closed};
ghost use Rattle.rule_distribute.specs.Shown.{pairs_seen};

use crate::blocks::{Joined, Place, nets_of};
use closed_pairs::{PairPermits, closed_among};
use nat_view::View;
use permit_set::Permit;
use spoc_base::{NetId, NoMemory};
use std::alloc::Global;

// A row, or nothing of it.
fn told_row(rows: &[Vec<u32>], w: usize, told: bool) -> &[u32]
    requires { w < length rows.now }
    ensures { result.now ≡ (if told then row_at (row_items rows.now) w else []) }
{
    if told { &rows[w] } else { &[] }
}

// The permits of a pair.
fn permits_at<'j>(joined: &'j Joined, told: bool, w: usize) -> PairPermits<'j>
    requires below { w < length joined.now.pairs.items }
    requires forward { length joined.now.forward.items ≡ length joined.now.pairs.items }
    requires replied { length joined.now.replied.items ≡ length joined.now.pairs.items }
    ensures { pair_seen result ≡ numbers_at (pairs_seen joined.now) told w }
{
    let (src, dst) = nets_of(joined, w);
    PairPermits {
        src: NetId(src),
        dst: NetId(dst),
        forward: told_row(&joined.forward, w, true),
        mirrored: told_row(&joined.replied, w, told),
    }
}

// The permits of each pair of a row.
fn row_permits<'j>(
    alloc: Global,
    joined: &'j Joined,
    told: bool,
    row: &[usize],
) -> Result<Vec<PairPermits<'j>>, NoMemory>
    requires below { All (λ w. w < length joined.now.pairs.items) row.now }
    requires forward { length joined.now.forward.items ≡ length joined.now.pairs.items }
    requires replied { length joined.now.replied.items ≡ length joined.now.pairs.items }
    ensures { IfOk result (λ v. map pair_seen v.items ≡ map (numbers_at (pairs_seen joined.now) told) row.now) }
{
    let mut pairs = Vec::new(alloc);
    for w in row {
        let pair = permits_at(joined, told, *w);
        pairs.push(pair)?;
    }
    Ok(pairs)
}

// The pairs of a row, each with whether it is closed.
fn with_flags(alloc: Global, row: &[usize], flags: &[bool]) -> Result<Vec<Place>, NoMemory>
    requires { length flags.now ≡ length row.now }
    ensures places { IfOk result (λ v. map (λ e. e.0) v.items ≡ row.now) }
    ensures flags { IfOk result (λ v. map (λ e. e.1) v.items ≡ flags.now) }
{
    let mut places = Vec::new(alloc);
    for k in 0..row.len() {
        places.push((row[k], flags[k]))?;
    }
    Ok(places)
}

/// The pairs of a row, each with whether a line of another one of them reaches into it, so that
/// it has to be closed.
pub(crate) fn closed_places(
    alloc: Global,
    view: View<'_>,
    permits: &[Permit],
    joined: &Joined,
    told: bool,
    row: &[usize],
) -> Result<Vec<Place>, NoMemory>
    requires known { AreKnown (sight_of view).policy (map permit_of permits.now) }
    requires rows { HaveRows (sight_of view).policy (pairs_seen joined.now) }
    requires numbers { AreLess (length permits.now) (pairs_seen joined.now) }
    requires order { AllPairs IsBefore joined.now.pairs.items }
    requires below { All (λ w. w < length joined.now.pairs.items) row.now }
    requires rising { AllPairs (λ a b. a < b) row.now }
    ensures { IfOk result (λ v. v.items ≡ told_closed (sight_of view.entry).policy (sight_of view.entry).tags (map permit_of permits.now) (pairs_seen joined.now) told row.now) }
{
    let pairs = row_permits(alloc, joined, told, row)?;
    let flags = closed_among(alloc, view, permits, &pairs)?;
    let places = with_flags(alloc, row, &flags)?;
    Ok(places)
}
