ghost use Rattle.std.specs.Prelude.{◌≡◌, ◌<◌, length, IsTrue};
ghost use Rattle.spoc_base.specs.declared.place.Kind.TheVariants as kind;
ghost use Rattle.policy_model.specs.Policy.{router_of};
ghost use Rattle.policy_model.specs.FirstFault.{SamePrefix, is_there};
ghost use Rattle.topology.specs.Texts.{name_span};
ghost use Rattle.topology.specs.Told.{IsNameOf, IsNetName, IsPlaceName, IsTold, IsZoneName};
ghost use Rattle.topology.specs.View.{policy_of, sources_of};
ghost use Rattle.zone_graph.specs.Grouped.{IsGraphOf};
ghost use Rattle.nat_view.specs.Fails.{place_seen};
ghost use Rattle.view_faults.specs.Sites.{site_of};

use nat_view::ViewAt;
use spoc_base::{Fault, Kind, Named, NetId, RouterId, Span, ZoneId};
use topology::Topo;
use zone_graph::ZoneGraph;

// How a network is called.
fn net_name(topo: Topo<'_>, n: NetId) -> Named
    requires { n.0 < length (policy_of topo).nets }
    ensures { IsNetName (sources_of topo.entry) (policy_of topo.entry) n.0 result }
{
    topo.net(n).name
}

// How a router is called.
fn router_name(topo: Topo<'_>, r: RouterId) -> Named
    requires { r.0 < length (policy_of topo).routers }
    ensures { IsNameOf kind.Router (sources_of topo.entry) (router_of (policy_of topo.entry) r.0).name result }
{
    topo.router(r).name
}

// The span of a name.
fn span_of(name: Named) -> Span
    ensures { result ≡ name_span name }
{
    match name {
        Named::Plain(_, span) => span,
        Named::Iface(span, _) => span,
    }
}

// How a zone is called: by the name of its least network.
fn zone_name(topo: Topo<'_>, graph: &ZoneGraph, z: ZoneId) -> Named
    requires graph { IsGraphOf (policy_of topo) graph.now }
    requires there { z.0 < length graph.now.nets }
    ensures { IsZoneName (sources_of topo.entry) (site_of topo.entry graph.now) z.0 result }
{
    Named::Plain(Kind::Zone, span_of(net_name(topo, graph.first_net(z))))
}

// How the zone or the router of a view is called.
fn place_name(topo: Topo<'_>, graph: &ZoneGraph, at: ViewAt) -> Named
    requires graph { IsGraphOf (policy_of topo) graph.now }
    requires there { IsTrue (is_there (site_of topo graph.now) (place_seen at)) }
    ensures { IsPlaceName (sources_of topo.entry) (site_of topo.entry graph.now) (place_seen at) result }
{
    match at {
        ViewAt::Zone(z) => zone_name(topo, graph, z),
        ViewAt::Router(r) => router_name(topo, r),
    }
}

/// The fault of two networks with one prefix.
pub(crate) fn same_fault(topo: Topo<'_>, graph: &ZoneGraph, at: ViewAt, n: NetId, m: NetId) -> Fault
    requires graph { IsGraphOf (policy_of topo) graph.now }
    requires there { IsTrue (is_there (site_of topo graph.now) (place_seen at)) }
    requires first { n.0 < length (policy_of topo).nets }
    requires second { m.0 < length (policy_of topo).nets }
    ensures { IsTold (sources_of topo.entry) (site_of topo.entry graph.now) (SamePrefix n.0 m.0 (place_seen at)) result }
{
    Fault::SamePrefix {
        first: net_name(topo, n),
        second: net_name(topo, m),
        at: place_name(topo, graph, at),
    }
}
