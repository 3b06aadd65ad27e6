ghost use Rattle.std.specs.Prelude.{◌≡◌, ◌<◌, ◌≤◌, ◌==◌, length};
ghost use Rattle.std.specs.List.{list_any};
ghost use Rattle.policy_model.specs.Policy.{router_at};
ghost use Rattle.policy_model.specs.Zones.{zone_at};
ghost use Rattle.policy_model.specs.Tags.{binds};
ghost use Rattle.topology.specs.View.{policy_of};
ghost use Rattle.zone_graph.specs.Grouped.{IsGraphOf};
ghost use Rattle.nat_domains.specs.Marks.{site_of};

use spoc_base::{IfId, RouterId, TagId, ZoneId};
use topology::Topo;
use zone_graph::ZoneGraph;

/// The zone in which an interface stands.
pub(crate) fn zone_of_iface(topo: Topo<'_>, graph: &ZoneGraph, i: IfId) -> ZoneId
    requires graph { IsGraphOf (policy_of topo) graph.now }
    requires there { i.0 < length (policy_of topo).ifaces }
    ensures value { result.0 ≡ zone_at (site_of topo.entry graph.now) i.0 }
    ensures below { result.0 < length graph.now.nets }
{
    graph.zone_of(topo.iface(i).net)
}

/// The router of an interface.
pub(crate) fn router_of_iface(topo: Topo<'_>, i: IfId) -> RouterId
    requires { i.0 < length (policy_of topo).ifaces }
    ensures value { result.0 ≡ router_at (policy_of topo.entry) i.0 }
    ensures below { result.0 < length (policy_of topo.entry).routers }
{
    topo.iface(i).router
}

/// Whether an interface binds a tag.
pub(crate) fn is_bound(topo: Topo<'_>, i: IfId, tag: TagId) -> bool
    requires { i.0 < length (policy_of topo).ifaces }
    ensures { result ≡ binds (policy_of topo.entry) i.0 tag.0 }
{
    has_tag(topo.iface(i).binds, tag)
}

fn has_tag(tags: &[TagId], tag: TagId) -> bool
    ensures { result ≡ list_any (λ x. x.0 == tag.0) tags.now }
{
    tags.iter().any(|x| x.0 == tag.0)
}

/// How many interfaces there are.
pub(crate) fn iface_count(topo: Topo<'_>) -> u32
    ensures { result ≡ length (policy_of topo.entry).ifaces }
{
    topo.ifaces().len() as u32
}

/// How many routers there are.
pub(crate) fn router_count(topo: Topo<'_>) -> u32
    ensures { result ≡ length (policy_of topo.entry).routers }
{
    topo.routers().len() as u32
}

/// How many tags there are.
pub(crate) fn tag_count(topo: Topo<'_>) -> u32
    ensures { result ≡ length (policy_of topo.entry).tags }
{
    topo.tags().len() as u32
}

/// How many networks there are.
pub(crate) fn net_count(topo: Topo<'_>) -> u32
    ensures { result ≡ length (policy_of topo.entry).nets }
{
    topo.nets().len() as u32
}
