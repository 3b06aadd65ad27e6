ghost use Rattle.std.specs.Prelude.{◌≡◌, ◌<◌, ℕ, length, map, flat_map, IfOk, OnOk, []};
ghost use Rattle.spoc_base.specs.Shown.{box_of};
ghost use Rattle.policy_model.specs.Permits.{has_replies as are_replied};
ghost use Rattle.topology.specs.View.{policy_of};
ghost use Rattle.zone_graph.specs.Grouped.{IsGraphOf};
ghost use Rattle.permit_set.specs.Shown.{permit_of};
ghost use Rattle.path_walk.specs.Seen.{site_of};
ghost use Rattle.static_routes.specs.Chains.{pair_order};
ghost use Rattle.static_routes.specs.Found.{with_keys};
ghost use Rattle.static_routes.specs.Ways.{way_of, permit_ways, AreAtNets};

use crate::lookup::zone_of;
use permit_set::Permit;
use spoc_base::{NetId, NoMemory, TBox};
use std::alloc::Global;
use std::collections::BTreeSet;
use topology::Topo;
use zone_graph::ZoneGraph;

/// A zone from which traffic comes, and the network to which it goes, by number.
pub(crate) type Traffic = (u32, u32);

// Whether there are replies to what is in the set.
fn has_replies(t: TBox) -> bool
    ensures { result ≡ are_replied (box_of t) }
{
    match t {
        TBox::Any | TBox::Tcp { .. } | TBox::Udp { .. } => true,
        TBox::Icmp { .. } | TBox::Other { .. } => false,
    }
}

// The traffic from one network to another, where their zones differ.
fn add_way(
    topo: Topo<'_>,
    graph: &ZoneGraph,
    ways: &mut BTreeSet<Traffic>,
    u: NetId,
    v: NetId,
) -> Result<(), NoMemory>
    requires graph { IsGraphOf (policy_of topo) graph.now }
    requires first { u.0 < length (policy_of topo).nets }
    requires second { v.0 < length (policy_of topo).nets }
    ensures { OnOk result (ways.new.keys ≡ with_keys pair_order ways.old.keys (way_of (site_of (policy_of topo.entry) graph.now) u.0 v.0)) }
{
    let from = zone_of(topo, graph, u);
    if from.0 == zone_of(topo, graph, v).0 {
        return Ok(());
    }
    ways.insert((from.0, v.0))?;
    Ok(())
}

// The traffic of a permit, and its replies.
fn add_permit(
    topo: Topo<'_>,
    graph: &ZoneGraph,
    ways: &mut BTreeSet<Traffic>,
    q: Permit,
) -> Result<(), NoMemory>
    requires graph { IsGraphOf (policy_of topo) graph.now }
    requires src { q.src.net.0 < length (policy_of topo).nets }
    requires dst { q.dst.net.0 < length (policy_of topo).nets }
    ensures { OnOk result (ways.new.keys ≡ with_keys pair_order ways.old.keys (permit_ways (site_of (policy_of topo.entry) graph.now) (permit_of q))) }
{
    add_way(topo, graph, ways, q.src.net, q.dst.net)?;
    if !has_replies(q.t) {
        return Ok(());
    }
    add_way(topo, graph, ways, q.dst.net, q.src.net)
}

// The traffic of all permits, in a set.
fn add_permits(
    topo: Topo<'_>,
    graph: &ZoneGraph,
    ways: &mut BTreeSet<Traffic>,
    permits: &[Permit],
) -> Result<(), NoMemory>
    requires graph { IsGraphOf (policy_of topo) graph.now }
    requires nets { AreAtNets (policy_of topo) permits.now }
    ensures { OnOk result (ways.new.keys ≡ with_keys pair_order ways.old.keys (flat_map (permit_ways (site_of (policy_of topo.entry) graph.now)) (map permit_of permits.now))) }
{
    for q in permits {
        add_permit(topo, graph, ways, *q)?;
    }
    Ok(())
}

// What is in a set, in order.
fn listed(alloc: Global, ways: &BTreeSet<Traffic>) -> Result<Vec<Traffic>, NoMemory>
    ensures { IfOk result (λ list. list.items ≡ ways.now.keys) }
{
    let mut list = Vec::new(alloc);
    for way in ways {
        list.push(*way)?;
    }
    Ok(list)
}

/// Where the traffic of permits and its replies go, from zone to zone, each once.
pub(crate) fn ways_of(
    alloc: Global,
    topo: Topo<'_>,
    graph: &ZoneGraph,
    permits: &[Permit],
) -> Result<Vec<Traffic>, NoMemory>
    requires graph { IsGraphOf (policy_of topo) graph.now }
    requires nets { AreAtNets (policy_of topo) permits.now }
    ensures { IfOk result (λ list. list.items ≡ with_keys pair_order [] (flat_map (permit_ways (site_of (policy_of topo.entry) graph.now)) (map permit_of permits.now))) }
{
    let mut ways = BTreeSet::new(alloc);
    add_permits(topo, graph, &mut ways, permits)?;
    listed(alloc, &ways)
}
