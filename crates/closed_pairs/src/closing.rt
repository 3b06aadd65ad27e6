ghost use Rattle.std.specs.Prelude.{◌≡◌, ◌↔◌, ◌&&◌, [], length, map, IfOk, OnOk, IsTrue};
ghost use Rattle.std.specs.List.{All, AllPairs};
ghost use Rattle.permit_set.specs.Shown.{permit_of};
ghost use Rattle.nat_view.specs.Sights.{sight_of};
ghost use Rattle.permit_lines.specs.Given.{AreKnown};
ghost use Rattle.permit_lines.specs.Seen.{lines_of_covers};
ghost use Rattle.closed_pairs.specs.Seen.{pair_seen, nets_seen};
ghost use Rattle.closed_pairs.specs.Reaching.{AreBelow, AreThere, IsBefore, encloses_in, is_closed_among};
ghost use Rattle.closed_pairs.specs.Flags.{enters, is_reached, same_nets, key_of, AreGiven, AreMarked};

use crate::inside::pairs_inside;
use crate::keys::{keys_of, place_of};
use crate::pairs::PairPermits;
use crate::reach::reaches_in;
use nat_view::View;
use permit_lines::{PermitCover, pair_covers};
use permit_set::Permit;
use spoc_base::{NetId, NoMemory};
use std::alloc::Global;

// Whether the pair has no permits, so that it has no lines.
fn is_idle(pair: &PairPermits<'_>) -> bool
    ensures { IsTrue result ↔ ((pair.now.forward.now ≡ []) × (pair.now.mirrored.now ≡ [])) }
{
    pair.forward.is_empty() && pair.mirrored.is_empty()
}

// Sets the flag of a pair, where it is one of the given pairs and one of these lines reaches into it.
fn close_one(
    alloc: Global,
    view: View<'_>,
    permits: &[Permit],
    pairs: &[PairPermits<'_>],
    keys: &[(u32, u32)],
    lines: &[PermitCover],
    inner: (NetId, NetId),
    flags: &mut [bool],
) -> Result<(), NoMemory>
    requires known { AreKnown (sight_of view).policy (map permit_of permits.now) }
    requires given { AreGiven (sight_of view).policy (length permits.now) (map pair_seen pairs.now) }
    requires keys { keys.now ≡ map key_of (map pair_seen pairs.now) }
    requires flags { length flags.old ≡ length pairs.now }
    ensures { OnOk result (AreMarked (λ e. same_nets (nets_seen inner) e.pair && is_reached (sight_of view.entry).policy (sight_of view.entry).tags (map permit_of permits.now) (lines_of_covers lines.now) e) (map pair_seen pairs.now) flags.old flags.new) }
{
    let Some(k) = place_of(keys, inner) else {
        return Ok(());
    };
    if flags[k] {
        return Ok(());
    }
    flags[k] = reaches_in(alloc, view, permits, lines, &pairs[k])?;
    Ok(())
}

// Sets the flags of the given pairs that lie inside the outer pair and into which a line of it
// reaches.
fn close_inside(
    alloc: Global,
    view: View<'_>,
    permits: &[Permit],
    pairs: &[PairPermits<'_>],
    keys: &[(u32, u32)],
    outer: &PairPermits<'_>,
    flags: &mut [bool],
) -> Result<(), NoMemory>
    requires known { AreKnown (sight_of view).policy (map permit_of permits.now) }
    requires given { AreGiven (sight_of view).policy (length permits.now) (map pair_seen pairs.now) }
    requires keys { keys.now ≡ map key_of (map pair_seen pairs.now) }
    requires outer { AreBelow (length permits.now) (pair_seen outer.now) }
    requires there { AreThere (sight_of view).policy (pair_seen outer.now).pair }
    requires flags { length flags.old ≡ length pairs.now }
    ensures { OnOk result (AreMarked (λ e. encloses_in (sight_of view.entry).policy (sight_of view.entry).tags (pair_seen outer.now).pair e.pair && enters (sight_of view.entry).policy (sight_of view.entry).tags (map permit_of permits.now) (pair_seen outer.now) e) (map pair_seen pairs.now) flags.old flags.new) }
{
    if is_idle(outer) {
        return Ok(());
    }
    let lines = pair_covers(alloc, view, permits, outer.forward, outer.mirrored)?;
    let inside = pairs_inside(alloc, view, outer.src, outer.dst)?;
    for inner in &inside {
        close_one(alloc, view, permits, pairs, keys, &lines, *inner, flags)?;
    }
    Ok(())
}

/// Which of some pairs must be closed where the view is: for each pair whether another one of them
/// encloses it and has a line that reaches into it. The pairs come in order, by source and then by
/// destination, each once.
pub fn closed_among(
    alloc: Global,
    view: View<'_>,
    permits: &[Permit],
    pairs: &[PairPermits<'_>],
) -> Result<Vec<bool>, NoMemory>
    requires known { AreKnown (sight_of view).policy (map permit_of permits.now) }
    requires below { All (λ e. AreBelow (length permits.now) (pair_seen e)) pairs.now }
    requires there { All (λ e. AreThere (sight_of view).policy (pair_seen e).pair) pairs.now }
    requires order { AllPairs (λ a b. IsBefore (pair_seen a).pair (pair_seen b).pair) pairs.now }
    ensures { IfOk result (λ v. v.items ≡ map (λ e. is_closed_among (sight_of view.entry).policy (sight_of view.entry).tags (map permit_of permits.now) (map pair_seen pairs.now) (pair_seen e)) pairs.now) }
{
    let keys = keys_of(alloc, pairs)?;
    let mut flags = vec![in alloc; false; pairs.len()]?;
    for outer in pairs {
        close_inside(alloc, view, permits, pairs, &keys, outer, &mut flags)?;
    }
    Ok(flags)
}
