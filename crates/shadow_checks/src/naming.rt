ghost use Rattle.std.specs.Prelude.{◌≡◌, ◌<◌, length};
ghost use Rattle.policy_model.specs.Policy.{host_of, router_of};
ghost use Rattle.topology.specs.Texts.{name_span};
ghost use Rattle.topology.specs.Told.{IsNameOf, IsNetName, IsIfaceName, IsZoneName, IsPlaceName};
ghost use Rattle.topology.specs.View.{policy_of, sources_of};
ghost use Rattle.spoc_base.specs.declared.place.Kind.TheVariants as kind;
ghost use Rattle.zone_graph.specs.Grouped.{IsGraphOf};
ghost use Rattle.nat_view.specs.Fails.{place_seen};
ghost use Rattle.shadow_checks.specs.Names.{IsHolderIn, IsPlaceIn, IsHolderName};
ghost use Rattle.shadow_checks.specs.Sightings.{site_of};

use crate::here::Holder;
use nat_view::ViewAt;
use spoc_base::{HostId, IfId, Kind, Named, NetId, RouterId, Span, ZoneId};
use topology::Topo;
use zone_graph::ZoneGraph;

/// How a network is called.
pub(crate) fn net_name(topo: Topo<'_>, n: NetId) -> Named
    requires { n.0 < length (policy_of topo).nets }
    ensures { IsNetName (sources_of topo.entry) (policy_of topo.entry) n.0 result }
{
    topo.net(n).name
}

fn host_name(topo: Topo<'_>, h: HostId) -> Named
    requires { h.0 < length (policy_of topo).hosts }
    ensures { IsNameOf kind.Host (sources_of topo.entry) (host_of (policy_of topo.entry) h.0).name result }
{
    topo.host(h).name
}

fn iface_name(topo: Topo<'_>, i: IfId) -> Named
    requires { i.0 < length (policy_of topo).ifaces }
    ensures { IsIfaceName (sources_of topo.entry) (policy_of topo.entry) i.0 result }
{
    topo.iface(i).name
}

/// How a host or an interface is called.
pub(crate) fn holder_name(topo: Topo<'_>, holder: Holder) -> Named
    requires { IsHolderIn (policy_of topo) holder }
    ensures { IsHolderName (sources_of topo.entry) (policy_of topo.entry) holder result }
{
    match holder {
        Holder::Host(h) => host_name(topo, h),
        Holder::Iface { iface, .. } => iface_name(topo, iface),
    }
}

// The span of a name.
fn span_of(name: Named) -> Span
    ensures { result ≡ name_span name }
{
    match name {
        Named::Plain(_, span) => span,
        Named::Iface(span, _) => span,
    }
}

// How a zone is called: by the name of its least network.
fn zone_name(topo: Topo<'_>, graph: &ZoneGraph, z: ZoneId) -> Named
    requires graph { IsGraphOf (policy_of topo) graph.now }
    requires there { z.0 < length graph.now.nets }
    ensures { IsZoneName (sources_of topo.entry) (site_of topo.entry graph.now) z.0 result }
{
    Named::Plain(Kind::Zone, span_of(net_name(topo, graph.first_net(z))))
}

fn router_name(topo: Topo<'_>, r: RouterId) -> Named
    requires { r.0 < length (policy_of topo).routers }
    ensures { IsNameOf kind.Router (sources_of topo.entry) (router_of (policy_of topo.entry) r.0).name result }
{
    topo.router(r).name
}

/// How a place with a view is called.
pub(crate) fn place_name(topo: Topo<'_>, graph: &ZoneGraph, at: ViewAt) -> Named
    requires graph { IsGraphOf (policy_of topo) graph.now }
    requires there { IsPlaceIn (policy_of topo) (length graph.now.nets) (place_seen at) }
    ensures { IsPlaceName (sources_of topo.entry) (site_of topo.entry graph.now) (place_seen at) result }
{
    match at {
        ViewAt::Zone(z) => zone_name(topo, graph, z),
        ViewAt::Router(r) => router_name(topo, r),
    }
}
