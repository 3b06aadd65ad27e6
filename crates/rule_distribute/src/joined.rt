ghost use Rattle.std.specs.Prelude.{◌≡◌, ◌<◌, ◌++◌, ℕ, length, map, filter, flat_map, IfOk, OnOk};
ghost use Rattle.std.specs.List.{AllPairs};
ghost use Rattle.policy_model.specs.Blocks.{is_joined_pair};
ghost use Rattle.policy_model.specs.Lists.{pairs_of};
ghost use Rattle.policy_model.specs.Policy.{all_nets};
ghost use Rattle.topology.specs.View.{policy_of};
ghost use Rattle.zone_graph.specs.Grouped.{IsGraphOf};
ghost use Rattle.permit_set.specs.Shown.{permit_of};
ghost use Rattle.permit_lines.specs.Given.{site_with, AreKnown};
ghost use Rattle.rule_distribute.specs.Pairs.{IsBefore};
ghost use Rattle.rule_distribute.specs.Rows.{HasAll, net_arcs};

use crate::pairs::{Pair, once_each};
use permit_set::Permit;
use spoc_base::NoMemory;
use std::alloc::Global;
use topology::Topo;
use zone_graph::ZoneGraph;

// Puts the networks of a permit behind the others, both ways round, if their zones differ.
fn push_nets(graph: &ZoneGraph, pairs: &mut Vec<Pair>, q: Permit) -> Result<(), NoMemory>
    requires src { q.src.net.0 < length graph.now.zones }
    requires dst { q.dst.net.0 < length graph.now.zones }
    ensures { OnOk result (pairs.new.items ≡ pairs.old.items ++ net_arcs graph.now.zones (permit_of q)) }
{
    if graph.zone_of(q.src.net).0 == graph.zone_of(q.dst.net).0 {
        return Ok(());
    }
    pairs.push((q.src.net.0, q.dst.net.0))?;
    pairs.push((q.dst.net.0, q.src.net.0))?;
    Ok(())
}

// The networks of each permit between two zones, both ways round.
fn joined_nets(
    alloc: Global,
    topo: Topo<'_>,
    graph: &ZoneGraph,
    permits: &[Permit],
) -> Result<Vec<Pair>, NoMemory>
    requires graph { IsGraphOf (policy_of topo) graph.now }
    requires permits { AreKnown (policy_of topo) (map permit_of permits.now) }
    ensures { IfOk result (λ v. v.items ≡ flat_map (λ q. net_arcs graph.now.zones (permit_of q)) permits.now) }
{
    let mut pairs = Vec::new(alloc);
    for q in permits {
        push_nets(graph, &mut pairs, *q)?;
    }
    Ok(pairs)
}

/// The pairs of networks of different zones that a permit joins, one way or the other, in order.
pub(crate) fn net_pairs(
    alloc: Global,
    topo: Topo<'_>,
    graph: &ZoneGraph,
    permits: &[Permit],
) -> Result<Vec<Pair>, NoMemory>
    requires graph { IsGraphOf (policy_of topo) graph.now }
    requires permits { AreKnown (policy_of topo) (map permit_of permits.now) }
    ensures order { IfOk result (λ v. AllPairs IsBefore v.items) }
    ensures all { IfOk result (λ v. HasAll graph.now.zones v.items (map permit_of permits.now)) }
    ensures pairs { IfOk result (λ v. v.items ≡ filter (λ e. is_joined_pair (site_with (policy_of topo.entry) graph.now) (map permit_of permits.now) (record { src = e.0; dst = e.1 })) (pairs_of (all_nets (policy_of topo.entry)) (all_nets (policy_of topo.entry)))) }
{
    let mut pairs = joined_nets(alloc, topo, graph, permits)?;
    once_each(&mut pairs);
    Ok(pairs)
}
