ghost use Rattle.std.specs.Prelude.{◌≡◌, ◌<◌, length, map, flat_map, option_map, IfOk, OnOk, IfSome};
ghost use Rattle.std.specs.List.{All};
ghost use Rattle.policy_model.specs.Blocks.{permit_lines, permit_at};
ghost use Rattle.permit_set.specs.Shown.{permit_of};
ghost use Rattle.nat_view.specs.Sights.{sight_of};
ghost use Rattle.permit_lines.specs.Given.{IsKnown, AreKnown};
ghost use Rattle.permit_lines.specs.Pieces.{forward_lines, mirrored_lines, reply_lines, some_lines, numbered_lines};
ghost use Rattle.permit_lines.specs.Seen.{lines_of_covers, GrowsBy};

use crate::cover::{PermitCover, cover_of};
use nat_view::View;
use permit_set::{Permit, mirrors};
use spoc_base::NoMemory;
use std::alloc::Global;

// Puts the lines of a permit behind the others.
fn push_permit(
    alloc: Global,
    view: View<'_>,
    q: &Permit,
    covers: &mut Vec<PermitCover>,
) -> Result<(), NoMemory>
    requires { IsKnown (sight_of view).policy (permit_of q.now) }
    ensures { OnOk result (GrowsBy (permit_lines (sight_of view.entry).policy (sight_of view.entry).tags (permit_of q.now)) covers.old.items covers.new.items) }
{
    let cover = cover_of(alloc, view, q)?;
    covers.push(cover)?;
    Ok(())
}

// Puts the lines of a permit behind the others, where there is one.
fn push_some(
    alloc: Global,
    view: View<'_>,
    q: Option<Permit>,
    covers: &mut Vec<PermitCover>,
) -> Result<(), NoMemory>
    requires { IfSome (option_map permit_of q) (IsKnown (sight_of view).policy) }
    ensures { OnOk result (GrowsBy (some_lines (sight_of view.entry).policy (sight_of view.entry).tags (option_map permit_of q)) covers.old.items covers.new.items) }
{
    match q {
        Some(q) => push_permit(alloc, view, &q, covers),
        None => Ok(()),
    }
}

// Puts the lines of the replies to a permit behind the others.
fn push_replies(
    alloc: Global,
    view: View<'_>,
    q: &Permit,
    covers: &mut Vec<PermitCover>,
) -> Result<(), NoMemory>
    requires { IsKnown (sight_of view).policy (permit_of q.now) }
    ensures { OnOk result (GrowsBy (reply_lines (sight_of view.entry).policy (sight_of view.entry).tags (permit_of q.now)) covers.old.items covers.new.items) }
{
    let [first, second] = mirrors(q);
    push_some(alloc, view, first, covers)?;
    push_some(alloc, view, second, covers)?;
    Ok(())
}

// The permit of this number.
fn at(permits: &[Permit], k: u32) -> &Permit
    requires { k < length permits.now }
    ensures { permit_of result.now ≡ permit_at (map permit_of permits.now) k }
{
    &permits[k as usize]
}

// Puts the lines of the permits of these numbers behind the others.
#[tactic(auto, using(crate::proofs::Growing::known_at))]
fn push_forward(
    alloc: Global,
    view: View<'_>,
    permits: &[Permit],
    numbers: &[u32],
    covers: &mut Vec<PermitCover>,
) -> Result<(), NoMemory>
    requires known { AreKnown (sight_of view).policy (map permit_of permits.now) }
    requires below { All (λ k. k < length permits.now) numbers.now }
    ensures { OnOk result (GrowsBy (flat_map (forward_lines (sight_of view.entry).policy (sight_of view.entry).tags (map permit_of permits.now)) numbers.now) covers.old.items covers.new.items) }
{
    for k in numbers {
        let q = at(permits, *k);
        push_permit(alloc, view, q, covers)?;
    }
    Ok(())
}

// Puts the lines of the replies to the permits of these numbers behind the others.
#[tactic(auto, using(crate::proofs::Growing::known_at))]
fn push_mirrored(
    alloc: Global,
    view: View<'_>,
    permits: &[Permit],
    numbers: &[u32],
    covers: &mut Vec<PermitCover>,
) -> Result<(), NoMemory>
    requires known { AreKnown (sight_of view).policy (map permit_of permits.now) }
    requires below { All (λ k. k < length permits.now) numbers.now }
    ensures { OnOk result (GrowsBy (flat_map (mirrored_lines (sight_of view.entry).policy (sight_of view.entry).tags (map permit_of permits.now)) numbers.now) covers.old.items covers.new.items) }
{
    for k in numbers {
        let q = at(permits, *k);
        push_replies(alloc, view, q, covers)?;
    }
    Ok(())
}

/// The lines of a pair of networks where the view is, permit by permit: those of the permits from
/// its source to its destination, by their numbers, and then those of the replies to permits of the
/// way back. A permit at a hidden network has none.
pub fn pair_covers(
    alloc: Global,
    view: View<'_>,
    permits: &[Permit],
    forward: &[u32],
    mirrored: &[u32],
) -> Result<Vec<PermitCover>, NoMemory>
    requires known { AreKnown (sight_of view).policy (map permit_of permits.now) }
    requires forward { All (λ k. k < length permits.now) forward.now }
    requires mirrored { All (λ k. k < length permits.now) mirrored.now }
    ensures { IfOk result (λ covers. lines_of_covers covers.items ≡ numbered_lines (sight_of view.entry).policy (sight_of view.entry).tags (map permit_of permits.now) forward.now mirrored.now) }
{
    let mut covers = Vec::new(alloc);
    push_forward(alloc, view, permits, forward, &mut covers)?;
    push_mirrored(alloc, view, permits, mirrored, &mut covers)?;
    Ok(covers)
}
