ghost use Rattle.std.specs.Prelude.{◌≡◌, ◌+◌, ◌<◌, ◌≤◌, ◌↔◌, length, IsTrue, MatchOption, Some};
ghost use Rattle.spoc_base.specs.Address.{size_of, prefix_holds};
ghost use Rattle.spoc_base.specs.Shown.{cidr_of, interval_of};
ghost use Rattle.policy_model.specs.Places.{holds_in, place};
ghost use Rattle.nat_view.specs.Seen.{AreApartIn};
ghost use Rattle.nat_view.specs.Sights.{sight_of};
ghost use Rattle.shadow_checks.specs.Lying.{HaveNets, HasOneAt, NoneBetween, IsCommon};

use nat_view::View;
use spoc_base::{Addr, AddrRange, NetId, Prefix};

// The addresses that are in both ranges, from the first to before the second.
fn common(one: AddrRange, other: AddrRange) -> (u64, u64)
    ensures common { IsCommon (interval_of one) (interval_of other) result.0 result.1 }
    ensures small { result.1 ≤ 4294967296 }
{
    let start = u64::from(one.lo().0).max(u64::from(other.lo().0));
    let end = u64::from(one.hi().0).min(u64::from(other.hi().0)) + 1;
    (start, end)
}

// The number behind the last address of a prefix.
fn end_of(prefix: Prefix) -> u64
    ensures { result ≡ (cidr_of prefix).net + size_of (cidr_of prefix) }
{
    u64::from(prefix.range().hi().0) + 1
}

// Where to go on from an address of a network's prefix that isn't placed at the network: no address
// before is placed there. `None` exactly where the address is.
fn next_after(view: View<'_>, m: NetId, at: u32) -> Option<u64>
    requires there { m.0 < length (sight_of view).policy.nets }
    requires nets { HaveNets (sight_of view).policy }
    requires apart { AreApartIn (sight_of view).policy (sight_of view).tags }
    requires held { IsTrue (holds_in (sight_of view).policy (sight_of view).tags m.0 at) }
    ensures { MatchOption result (place (sight_of view.entry).policy (sight_of view.entry).tags at ≡ Some m.0) (λ next. (at < next) × NoneBetween (sight_of view.entry).policy (sight_of view.entry).tags m.0 at next) }
{
    match view.place(Addr(at)) {
        Some(k) if k.0 == m.0 => None,
        Some(k) => Some(end_of(view.prefix_in(k))),
        None => Some(u64::from(at) + 1),
    }
}

/// Whether some address of the range is placed at the network. None is where the network is hidden.
/// The walk jumps over each deeper network that it meets.
pub(crate) fn lies_at(view: View<'_>, m: NetId, range: AddrRange) -> bool
    requires there { m.0 < length (sight_of view).policy.nets }
    requires nets { HaveNets (sight_of view).policy }
    requires apart { AreApartIn (sight_of view).policy (sight_of view).tags }
    ensures { IsTrue result ↔ HasOneAt (sight_of view.entry).policy (sight_of view.entry).tags (interval_of range) m.0 }
{
    let Some(prefix) = view.seen_prefix(m) else {
        return false;
    };
    let (start, end) = common(range, prefix.range());
    let mut at = start;
    while at < end {
        match next_after(view, m, at as u32) {
            Some(next) => at = next,
            None => return true,
        }
    }
    false
}
