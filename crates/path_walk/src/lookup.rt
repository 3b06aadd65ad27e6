ghost use Rattle.std.specs.Prelude.{◌≡◌, ◌<◌, ◌&&◌, not, ℕ, length, map, filter, nat_lt, Bool, IsTrue, true};
ghost use Rattle.policy_model.specs.Policy.{Policy, router_at, net_at, is_managed};
ghost use Rattle.policy_model.specs.Zones.{zone_at};
ghost use Rattle.policy_model.specs.Walks.{is_crossing};
ghost use Rattle.topology.specs.View.{policy_of};
ghost use Rattle.topology.specs.Kept.{ifaces_of};
ghost use Rattle.zone_graph.specs.Grouped.{IsGraphOf};
ghost use Rattle.path_walk.specs.Seen.{site_of, step_seen};
ghost use Rattle.path_walk.specs.Search.{doors_in};

use crate::step::Step;
use spoc_base::{IfId, NetId, RouterId, ZoneId};
use topology::Topo;
use zone_graph::ZoneGraph;

/// The network at which an interface stands; the first one where there is no such interface.
fn net_at(topo: Topo<'_>, i: IfId) -> NetId
    ensures { result.0 ≡ net_at (policy_of topo.entry) i.0 }
{
    match topo.ifaces().get(i.0 as usize) {
        Some(iface) => iface.net,
        None => NetId(0),
    }
}

/// The router of an interface; the first one where there is no such interface.
pub(crate) fn router_at(topo: Topo<'_>, i: IfId) -> RouterId
    ensures { result.0 ≡ router_at (policy_of topo.entry) i.0 }
{
    match topo.ifaces().get(i.0 as usize) {
        Some(iface) => iface.router,
        None => RouterId(0),
    }
}

/// The zone in which an interface stands; the first one where there is no such interface.
pub(crate) fn zone_at(topo: Topo<'_>, graph: &ZoneGraph, i: IfId) -> ZoneId
    requires { IsGraphOf (policy_of topo) graph.now }
    ensures { result.0 ≡ zone_at (site_of (policy_of topo.entry) graph.now) i.0 }
{
    let n = net_at(topo, i);
    if n.0 as usize >= topo.nets().len() {
        return ZoneId(0);
    }
    graph.zone_of(n)
}

/// Whether a router is managed.
fn is_managed(topo: Topo<'_>, r: RouterId) -> bool
    ensures { result ≡ is_managed (policy_of topo.entry) r.0 }
{
    match topo.routers().get(r.0 as usize) {
        Some(router) => router.device.is_some(),
        None => false,
    }
}

/// Whether there is an interface of this number.
fn is_iface(topo: Topo<'_>, i: IfId) -> bool
    ensures { result ≡ nat_lt i.0 (length (policy_of topo.entry).ifaces) }
{
    (i.0 as usize) < topo.ifaces().len()
}

/// Whether it is a way through a managed router, between two zones.
pub(crate) fn is_crossing(topo: Topo<'_>, graph: &ZoneGraph, c: Step) -> bool
    requires { IsGraphOf (policy_of topo) graph.now }
    ensures { result ≡ is_crossing (site_of (policy_of topo.entry) graph.now) (step_seen c) }
{
    is_iface(topo, c.enter)
        && is_iface(topo, c.leave)
        && router_at(topo, c.enter) == router_at(topo, c.leave)
        && is_managed(topo, router_at(topo, c.enter))
        && zone_at(topo, graph, c.enter) != zone_at(topo, graph, c.leave)
}

/// The interfaces of managed routers in a zone, by number: none where there is no such zone.
pub(crate) fn doors_in<'g>(topo: Topo<'_>, graph: &'g ZoneGraph, z: ZoneId) -> &'g [IfId]
    requires { IsGraphOf (policy_of topo) graph.now }
    ensures { map (λ i. i.0) result.now ≡ doors_in (site_of (policy_of topo.entry) graph.now) z.0 }
{
    if z.0 >= graph.count() {
        return &[];
    }
    graph.doors(z)
}

/// The interfaces of a router, by number: none where there is no such router.
pub(crate) fn ifs_of<'a>(topo: Topo<'a>, r: RouterId) -> &'a [IfId]
    ensures { map (λ i. i.0) result.now ≡ ifaces_of (policy_of topo.entry) r.0 }
{
    if r.0 as usize >= topo.routers().len() {
        return &[];
    }
    topo.ifs_of(r)
}
