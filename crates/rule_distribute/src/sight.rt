ghost use Rattle.std.specs.Prelude.{◌≡◌, ◌<◌, length};
ghost use Rattle.policy_model.specs.Policy.{net_at};
ghost use Rattle.policy_model.specs.Zones.{zone_at};
ghost use Rattle.policy_model.specs.Tags.{zone_view};
ghost use Rattle.topology.specs.View.{policy_of};
ghost use Rattle.zone_graph.specs.Grouped.{IsGraphOf};
ghost use Rattle.nat_view.specs.Sights.{sight_of};
ghost use Rattle.nat_view.specs.Views.{seen_of};
ghost use Rattle.permit_lines.specs.Given.{site_with};

use nat_view::{View, Views};
use spoc_base::{IfId, NetId, ZoneId};
use topology::Topo;
use zone_graph::ZoneGraph;

// The network at which an interface stands.
fn net_of(topo: Topo<'_>, i: IfId) -> NetId
    requires { i.0 < length (policy_of topo).ifaces }
    ensures value { result.0 ≡ net_at (policy_of topo.entry) i.0 }
    ensures below { result.0 < length (policy_of topo.entry).nets }
{
    topo.iface(i).net
}

/// The zone in which an interface stands.
pub(crate) fn zone_at(topo: Topo<'_>, graph: &ZoneGraph, i: IfId) -> ZoneId
    requires graph { IsGraphOf (policy_of topo) graph.now }
    requires there { i.0 < length (policy_of topo).ifaces }
    ensures value { result.0 ≡ zone_at (site_with (policy_of topo.entry) graph.now) i.0 }
    ensures below { result.0 < length graph.now.nets }
{
    graph.zone_of(net_of(topo, i))
}

/// The view of the zone in which an interface stands.
pub(crate) fn view_at<'v>(
    topo: Topo<'_>,
    graph: &ZoneGraph,
    views: &'v Views<'_>,
    i: IfId,
) -> View<'v>
    requires graph { IsGraphOf (policy_of topo) graph.now }
    requires zones { length (seen_of views.now).views.zones ≡ length graph.now.nets }
    requires there { i.0 < length (policy_of topo).ifaces }
    ensures { sight_of result ≡ record { policy = (seen_of views.now).policy; tags = zone_view (seen_of views.now).views (zone_at (site_with (policy_of topo.entry) graph.now) i.0) } }
{
    views.zone(zone_at(topo, graph, i))
}
