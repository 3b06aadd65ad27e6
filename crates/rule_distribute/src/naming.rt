ghost use Rattle.std.specs.Prelude.{◌≡◌, ◌<◌, length};
ghost use Rattle.topology.specs.Texts.{name_span};
ghost use Rattle.topology.specs.Told.{IsNetName, IsZoneName};
ghost use Rattle.topology.specs.View.{policy_of, sources_of};
ghost use Rattle.zone_graph.specs.Grouped.{IsGraphOf};
ghost use Rattle.permit_lines.specs.Given.{site_with};

use spoc_base::{Kind, Named, NetId, Span, ZoneId};
use topology::Topo;
use zone_graph::ZoneGraph;

/// How a network is called.
pub(crate) fn net_name(topo: Topo<'_>, n: NetId) -> Named
    requires { n.0 < length (policy_of topo).nets }
    ensures { IsNetName (sources_of topo.entry) (policy_of topo.entry) n.0 result }
{
    topo.net(n).name
}

// The span of a name.
fn span_of(name: Named) -> Span
    ensures { result ≡ name_span name }
{
    match name {
        Named::Plain(_, span) => span,
        Named::Iface(span, _) => span,
    }
}

/// How a zone is called: by the name of its least network.
pub(crate) fn zone_name(topo: Topo<'_>, graph: &ZoneGraph, z: ZoneId) -> Named
    requires graph { IsGraphOf (policy_of topo) graph.now }
    requires there { z.0 < length graph.now.nets }
    ensures { IsZoneName (sources_of topo.entry) (site_with (policy_of topo.entry) graph.now) z.0 result }
{
    Named::Plain(Kind::Zone, span_of(net_name(topo, graph.first_net(z))))
}
