ghost use Rattle.std.specs.Prelude.{◌≡◌, ◌<◌, ◌++◌, ◌∷◌, [], if◌then◌else◌, length, filter, IfOk, OnOk};
ghost use Rattle.std.specs.List.{All};
ghost use Rattle.policy_model.specs.Blocks.{is_seen as are_seen};
ghost use Rattle.nat_view.specs.Sights.{sight_of};
ghost use Rattle.rule_distribute.specs.Nested.{named};
ghost use Rattle.rule_distribute.specs.Placed.{HaveRows, is_seen_at};
ghost use Rattle.rule_distribute.specs.Shown.{pairs_seen};

use crate::blocks::{Joined, nets_of};
use crate::pairs::Pair;
use nat_view::View;
use spoc_base::{NetId, NoMemory};
use std::alloc::Global;

// Whether neither network of a pair is hidden in a view.
fn is_seen(view: View<'_>, pair: Pair) -> bool
    requires src { pair.0 < length (sight_of view).policy.nets }
    requires dst { pair.1 < length (sight_of view).policy.nets }
    ensures { result ≡ are_seen (sight_of view.entry).policy (sight_of view.entry).tags (named pair) }
{
    !view.hidden(NetId(pair.0)) && !view.hidden(NetId(pair.1))
}

// Puts the place of a pair behind the others, unless one of its networks is hidden.
fn push_seen(
    view: View<'_>,
    joined: &Joined,
    places: &mut Vec<usize>,
    w: usize,
) -> Result<(), NoMemory>
    requires rows { HaveRows (sight_of view).policy (pairs_seen joined.now) }
    requires below { w < length joined.now.pairs.items }
    ensures { OnOk result (places.new.items ≡ places.old.items ++ (if is_seen_at (sight_of view.entry).policy (sight_of view.entry).tags (pairs_seen joined.now) w then w ∷ [] else [])) }
{
    if !is_seen(view, nets_of(joined, w)) {
        return Ok(());
    }
    places.push(w)?;
    Ok(())
}

/// Those pairs of a row whose networks both are seen in a view: one with a hidden network has no
/// block there, and no line of it reaches into another.
pub(crate) fn seen_row(
    alloc: Global,
    view: View<'_>,
    joined: &Joined,
    row: &[usize],
) -> Result<Vec<usize>, NoMemory>
    requires rows { HaveRows (sight_of view).policy (pairs_seen joined.now) }
    requires below { All (λ w. w < length joined.now.pairs.items) row.now }
    ensures { IfOk result (λ v. v.items ≡ filter (is_seen_at (sight_of view.entry).policy (sight_of view.entry).tags (pairs_seen joined.now)) row.now) }
{
    let mut places = Vec::new(alloc);
    for w in row {
        push_seen(view, joined, &mut places, *w)?;
    }
    Ok(places)
}
