ghost use Rattle.std.specs.Prelude.{◌≡◌, ◌<◌, length};
ghost use Rattle.policy_model.specs.Policy.{router_at, net_at};
ghost use Rattle.policy_model.specs.Routes.{is_static as is_fixed};
ghost use Rattle.policy_model.specs.Zones.{zone_at, zone_of};
ghost use Rattle.topology.specs.View.{policy_of};
ghost use Rattle.zone_graph.specs.Grouped.{IsGraphOf};
ghost use Rattle.path_walk.specs.Seen.{site_of};

use spoc_base::{IfId, NetId, RouterId, ZoneId};
use topology::Topo;
use zone_graph::ZoneGraph;

/// The network at which an interface stands.
pub(crate) fn net_at(topo: Topo<'_>, i: IfId) -> NetId
    requires { i.0 < length (policy_of topo).ifaces }
    ensures value { result.0 ≡ net_at (policy_of topo.entry) i.0 }
    ensures below { result.0 < length (policy_of topo.entry).nets }
{
    topo.iface(i).net
}

/// The router of an interface.
pub(crate) fn router_at(topo: Topo<'_>, i: IfId) -> RouterId
    requires { i.0 < length (policy_of topo).ifaces }
    ensures value { result.0 ≡ router_at (policy_of topo.entry) i.0 }
    ensures below { result.0 < length (policy_of topo.entry).routers }
{
    topo.iface(i).router
}

/// Whether a router gets static routes.
pub(crate) fn is_static(topo: Topo<'_>, r: RouterId) -> bool
    requires { r.0 < length (policy_of topo).routers }
    ensures { result ≡ is_fixed (policy_of topo.entry) r.0 }
{
    match topo.router(r).device {
        Some(device) => device.fixed,
        None => false,
    }
}

/// The zone of a network.
pub(crate) fn zone_of(topo: Topo<'_>, graph: &ZoneGraph, n: NetId) -> ZoneId
    requires graph { IsGraphOf (policy_of topo) graph.now }
    requires there { n.0 < length (policy_of topo).nets }
    ensures { result.0 ≡ zone_of (site_of (policy_of topo.entry) graph.now) n.0 }
{
    graph.zone_of(n)
}

/// The zone in which an interface stands.
pub(crate) fn zone_at(topo: Topo<'_>, graph: &ZoneGraph, i: IfId) -> ZoneId
    requires graph { IsGraphOf (policy_of topo) graph.now }
    requires there { i.0 < length (policy_of topo).ifaces }
    ensures { result.0 ≡ zone_at (site_of (policy_of topo.entry) graph.now) i.0 }
{
    zone_of(topo, graph, net_at(topo, i))
}
