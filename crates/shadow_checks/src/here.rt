ghost use Rattle.std.specs.Prelude.{◌≡◌, ◌<◌, length, option_map, IfOk, MatchOption};
ghost use Rattle.policy_model.specs.FirstFault.{address_at};
ghost use Rattle.policy_laws.specs.Shaped.{IsShaped};
ghost use Rattle.topology.specs.View.{policy_of};
ghost use Rattle.nat_view.specs.Seen.{AreApartIn};
ghost use Rattle.nat_view.specs.Sights.{sight_of};
ghost use Rattle.shadow_checks.specs.Holders.{HasNoHostShadow, IsLeastHostShadow, HasNoIfaceShadow, IsLeastIfaceShadow, HasNoAddress, IsFirstAddress, HaveNoHosts, HaveNoIfaces, HasNoneHere, IsFirstHere};

use crate::least::{address_shadow, range_shadow};
use nat_view::View;
use spoc_base::{Addr, HostId, IfId, NetId, NoMemory};
use std::alloc::Global;
use topology::Topo;

/// What has addresses: a host, or an interface by its own or by its shared one.
#[derive(Clone, Copy)]
pub(crate) enum Holder {
    Host(HostId),
    Iface { iface: IfId, shared: bool },
}

/// An address of the holder lies at the network, which isn't the holder's.
#[derive(Clone, Copy)]
pub(crate) struct Shadow {
    pub holder: Holder,
    pub net: NetId,
}

// The least network, if any, at which an address of the host lies.
fn host_shadow(
    alloc: Global,
    topo: Topo<'_>,
    view: View<'_>,
    h: HostId,
) -> Result<Option<NetId>, NoMemory>
    requires there { h.0 < length (policy_of topo).hosts }
    requires seen { (sight_of view).policy ≡ policy_of topo }
    requires shaped { IsShaped (policy_of topo) }
    requires apart { AreApartIn (policy_of topo) (sight_of view).tags }
    ensures { IfOk result (λ found. MatchOption found (HasNoHostShadow (policy_of topo.entry) (sight_of view.entry).tags h.0) (λ m. IsLeastHostShadow (policy_of topo.entry) (sight_of view.entry).tags h.0 m.0)) }
{
    let host = topo.host(h);
    range_shadow(alloc, view, host.net, host.range)
}

// The shared address of the interface, or its own.
fn iface_address(topo: Topo<'_>, i: IfId, shared: bool) -> Option<Addr>
    requires { i.0 < length (policy_of topo).ifaces }
    ensures { option_map (λ a. a.0) result ≡ address_at (policy_of topo.entry) i.0 shared }
{
    let iface = topo.iface(i);
    if shared { iface.shared } else { iface.addr }
}

// The least network, if any, at which this address of the interface lies.
fn iface_shadow(topo: Topo<'_>, view: View<'_>, i: IfId, shared: bool) -> Option<NetId>
    requires there { i.0 < length (policy_of topo).ifaces }
    requires seen { (sight_of view).policy ≡ policy_of topo }
    ensures { MatchOption result (HasNoIfaceShadow (policy_of topo.entry) (sight_of view.entry).tags i.0 shared) (λ m. IsLeastIfaceShadow (policy_of topo.entry) (sight_of view.entry).tags i.0 shared m.0) }
{
    let address = iface_address(topo, i, shared);
    match address {
        Some(a) => address_shadow(view, topo.iface(i).net, a),
        None => None,
    }
}

// Whether it is the shared address, and the least network, of the first address of the interface
// that is at another network, if any. The own address comes before the shared one.
fn first_address(topo: Topo<'_>, view: View<'_>, i: IfId) -> Option<(bool, NetId)>
    requires there { i.0 < length (policy_of topo).ifaces }
    requires seen { (sight_of view).policy ≡ policy_of topo }
    ensures { MatchOption result (HasNoAddress (policy_of topo.entry) (sight_of view.entry).tags i.0) (λ found. IsFirstAddress (policy_of topo.entry) (sight_of view.entry).tags i.0 found.0 found.1.0) }
{
    if let Some(net) = iface_shadow(topo, view, i, false) {
        return Some((false, net));
    }
    match iface_shadow(topo, view, i, true) {
        Some(net) => Some((true, net)),
        None => None,
    }
}

// The first host, if any, that has an address at another network.
fn first_host(alloc: Global, topo: Topo<'_>, view: View<'_>) -> Result<Option<Shadow>, NoMemory>
    requires seen { (sight_of view).policy ≡ policy_of topo }
    requires shaped { IsShaped (policy_of topo) }
    requires apart { AreApartIn (policy_of topo) (sight_of view).tags }
    ensures { IfOk result (λ found. MatchOption found (HaveNoHosts (policy_of topo.entry) (sight_of view.entry).tags (length (policy_of topo.entry).hosts)) (λ s. IsFirstHere (policy_of topo.entry) (sight_of view.entry).tags s.holder s.net.0)) }
{
    for h in 0..topo.hosts().len() as u32 {
        if let Some(net) = host_shadow(alloc, topo, view, HostId(h))? {
            let holder = Holder::Host(HostId(h));
            return Ok(Some(Shadow { holder, net }));
        }
    }
    Ok(None)
}

// The first interface, if any, that has an address at another network, where no host has one.
fn first_iface(topo: Topo<'_>, view: View<'_>) -> Option<Shadow>
    requires seen { (sight_of view).policy ≡ policy_of topo }
    requires shaped { IsShaped (policy_of topo) }
    requires hosts { HaveNoHosts (policy_of topo) (sight_of view).tags (length (policy_of topo).hosts) }
    ensures { MatchOption result (HaveNoIfaces (policy_of topo.entry) (sight_of view.entry).tags (length (policy_of topo.entry).ifaces)) (λ s. IsFirstHere (policy_of topo.entry) (sight_of view.entry).tags s.holder s.net.0) }
{
    for i in 0..topo.ifaces().len() as u32 {
        if let Some((shared, net)) = first_address(topo, view, IfId(i)) {
            let iface = IfId(i);
            let holder = Holder::Iface { iface, shared };
            return Some(Shadow { holder, net });
        }
    }
    None
}

/// The first holder, if any, that has an address at another network: hosts come before interfaces,
/// each by number, and an interface's own address before its shared one.
pub(crate) fn first_here(
    alloc: Global,
    topo: Topo<'_>,
    view: View<'_>,
) -> Result<Option<Shadow>, NoMemory>
    requires seen { (sight_of view).policy ≡ policy_of topo }
    requires shaped { IsShaped (policy_of topo) }
    requires apart { AreApartIn (policy_of topo) (sight_of view).tags }
    ensures { IfOk result (λ found. MatchOption found (HasNoneHere (policy_of topo.entry) (sight_of view.entry).tags) (λ s. IsFirstHere (policy_of topo.entry) (sight_of view.entry).tags s.holder s.net.0)) }
{
    if let Some(shadow) = first_host(alloc, topo, view)? {
        return Ok(Some(shadow));
    }
    Ok(first_iface(topo, view))
}
