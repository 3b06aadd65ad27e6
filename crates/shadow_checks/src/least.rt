ghost use Rattle.std.specs.Prelude.{◌≡◌, ◌<◌, ℕ, length, map, IsTrue, IfOk, MatchOption};
ghost use Rattle.std.specs.List.{All};
ghost use Rattle.spoc_base.specs.Address.{addresses, interval_covers, prefix_holds};
ghost use Rattle.spoc_base.specs.Shown.{interval_of};
ghost use Rattle.policy_model.specs.Policy.{net_of};
ghost use Rattle.policy_model.specs.Permits.{one_address};
ghost use Rattle.nat_view.specs.Seen.{AreApartIn};
ghost use Rattle.nat_view.specs.Sights.{sight_of};
ghost use Rattle.shadow_checks.specs.Lying.{HaveNets};
ghost use Rattle.shadow_checks.specs.Shadows.{HasNoShadow, IsLeastShadow, IsOther, IsOtherPlace, IsFirstOf, NoneBefore};

use crate::walk::lies_at;
use nat_view::View;
use spoc_base::{Addr, AddrRange, NetId, NoMemory};
use std::alloc::Global;

// The network at which an address of the view is placed, if it isn't `n`.
fn other_place(view: View<'_>, n: NetId, a: Addr) -> Option<NetId>
    ensures { MatchOption result ((m : ℕ) → IsOtherPlace (sight_of view.entry).policy (sight_of view.entry).tags n.0 a.0 m → ⊥) (λ m. IsOtherPlace (sight_of view.entry).policy (sight_of view.entry).tags n.0 a.0 m.0) }
{
    match view.place(a) {
        Some(m) if m.0 != n.0 => Some(m),
        _ => None,
    }
}

// The first of the networks that isn't `n` and at which an address of the range is placed.
fn first_of(view: View<'_>, n: NetId, nets: &[NetId], range: AddrRange) -> Option<NetId>
    requires there { All (λ m. m.0 < length (sight_of view).policy.nets) nets.now }
    requires nets { HaveNets (sight_of view).policy }
    requires apart { AreApartIn (sight_of view).policy (sight_of view).tags }
    ensures { MatchOption result (NoneBefore (IsOther (sight_of view.entry).policy (sight_of view.entry).tags n.0 (interval_of range)) (map (λ m. m.0) nets.now) (length nets.now)) (λ m. IsFirstOf (IsOther (sight_of view.entry).policy (sight_of view.entry).tags n.0 (interval_of range)) (map (λ m. m.0) nets.now) m.0) }
{
    for k in 0..nets.len() {
        let m = nets[k];
        if m.0 != n.0 && lies_at(view, m, range) {
            return Some(m);
        }
    }
    None
}

/// The least network, if any, at which an own address of the network `n` lies that isn't `n`.
pub(crate) fn address_shadow(view: View<'_>, n: NetId, a: Addr) -> Option<NetId>
    requires there { n.0 < length (sight_of view).policy.nets }
    requires inside { IsTrue (prefix_holds (net_of (sight_of view).policy n.0).own a.0) }
    ensures { MatchOption result (HasNoShadow (sight_of view.entry).policy (sight_of view.entry).tags n.0 (one_address a.0)) (λ m. IsLeastShadow (sight_of view.entry).policy (sight_of view.entry).tags n.0 (one_address a.0) m.0) }
{
    let seen = view.to_view(n, a)?;
    other_place(view, n, seen)
}

// The same for all addresses of a range. The networks at which they may lie are inside the prefix
// of `n`. There are none where `n` is hidden.
fn least_inside(
    alloc: Global,
    view: View<'_>,
    n: NetId,
    range: AddrRange,
) -> Result<Option<NetId>, NoMemory>
    requires there { n.0 < length (sight_of view).policy.nets }
    requires inside { IsTrue (interval_covers (addresses (net_of (sight_of view).policy n.0).own) (interval_of range)) }
    requires nets { HaveNets (sight_of view).policy }
    requires apart { AreApartIn (sight_of view).policy (sight_of view).tags }
    ensures { IfOk result (λ found. MatchOption found (HasNoShadow (sight_of view.entry).policy (sight_of view.entry).tags n.0 (interval_of range)) (λ m. IsLeastShadow (sight_of view.entry).policy (sight_of view.entry).tags n.0 (interval_of range) m.0)) }
{
    let Some(here) = view.seen_prefix(n) else {
        return Ok(None);
    };
    let Some(seen) = view.range_in(n, range) else {
        return Ok(None);
    };
    let near = view.inside(alloc, here)?;
    Ok(first_of(view, n, &near, seen))
}

/// The least network, if any, at which an own address of the network `n` in the range lies, and
/// that isn't `n`.
pub(crate) fn range_shadow(
    alloc: Global,
    view: View<'_>,
    n: NetId,
    range: AddrRange,
) -> Result<Option<NetId>, NoMemory>
    requires there { n.0 < length (sight_of view).policy.nets }
    requires inside { IsTrue (interval_covers (addresses (net_of (sight_of view).policy n.0).own) (interval_of range)) }
    requires nets { HaveNets (sight_of view).policy }
    requires apart { AreApartIn (sight_of view).policy (sight_of view).tags }
    ensures { IfOk result (λ found. MatchOption found (HasNoShadow (sight_of view.entry).policy (sight_of view.entry).tags n.0 (interval_of range)) (λ m. IsLeastShadow (sight_of view.entry).policy (sight_of view.entry).tags n.0 (interval_of range) m.0)) }
{
    let first = range.lo();
    if first.0 == range.hi().0 {
        return Ok(address_shadow(view, n, first));
    }
    least_inside(alloc, view, n, range)
}
