ghost use Rattle.std.specs.Prelude.{◌≡◌, ◌<◌, ◌==◌, ◌++◌, not, length, map, flat_map, slice_index, IfOk, OnOk};
ghost use Rattle.std.specs.List.{All, AllPairs};
ghost use Rattle.policy_model.specs.Tags.{zone_view};
ghost use Rattle.topology.specs.View.{policy_of};
ghost use Rattle.zone_graph.specs.Grouped.{IsGraphOf};
ghost use Rattle.nat_view.specs.Sights.{sight_of};
ghost use Rattle.nat_view.specs.Views.{seen_of};
ghost use Rattle.permit_set.specs.Shown.{permit_of};
ghost use Rattle.closed_pairs.specs.Seen.{nets_seen};
ghost use Rattle.rule_distribute.specs.Concerned.{concerned_pairs};
ghost use Rattle.permit_lines.specs.Given.{site_with, AreKnown};
ghost use Rattle.rule_distribute.specs.Nested.{AreNets, numbers_of, parted, nested_in};
ghost use Rattle.rule_distribute.specs.Pairs.{IsBefore};
ghost use Rattle.rule_distribute.specs.Rows.{HasAll};

use crate::joined::net_pairs;
use crate::pairs::{Pair, once_each};
use closed_pairs::pairs_inside;
use nat_view::{View, Views};
use permit_set::Permit;
use spoc_base::{NetId, NoMemory, ZoneId};
use std::alloc::Global;
use topology::Topo;
use zone_graph::ZoneGraph;

// Whether the networks lie in different zones.
fn are_parted(graph: &ZoneGraph, src: NetId, dst: NetId) -> bool
    requires src { src.0 < length graph.now.zones }
    requires dst { dst.0 < length graph.now.zones }
    ensures { result ≡ not (slice_index graph.now.zones src.0 == slice_index graph.now.zones dst.0) }
{
    graph.zone_of(src).0 != graph.zone_of(dst).0
}

// Puts those of the pairs behind the others whose networks lie in different zones.
fn push_parted(
    graph: &ZoneGraph,
    inside: &[(NetId, NetId)],
    pairs: &mut Vec<Pair>,
) -> Result<(), NoMemory>
    requires { All (λ e. AreNets (length graph.now.zones) (numbers_of (nets_seen e))) inside.now }
    ensures { OnOk result (pairs.new.items ≡ pairs.old.items ++ parted graph.now.zones (map nets_seen inside.now)) }
{
    for (src, dst) in inside {
        if are_parted(graph, *src, *dst) {
            pairs.push((src.0, dst.0))?;
        }
    }
    Ok(())
}

// Puts the pairs of different zones that lie inside a pair in a view behind the others.
fn push_nested(
    alloc: Global,
    graph: &ZoneGraph,
    view: View<'_>,
    outer: Pair,
    pairs: &mut Vec<Pair>,
) -> Result<(), NoMemory>
    requires nets { length graph.now.zones ≡ length (sight_of view).policy.nets }
    requires outer { AreNets (length graph.now.zones) outer }
    ensures { OnOk result (pairs.new.items ≡ pairs.old.items ++ nested_in graph.now.zones (sight_of view.entry).policy (sight_of view.entry).tags outer) }
{
    let inside = pairs_inside(alloc, view, NetId(outer.0), NetId(outer.1))?;
    push_parted(graph, &inside, pairs)
}

// Puts those that lie inside one of the joined pairs in a view behind the others.
fn push_seen(
    alloc: Global,
    graph: &ZoneGraph,
    view: View<'_>,
    joined: &[Pair],
    pairs: &mut Vec<Pair>,
) -> Result<(), NoMemory>
    requires nets { length graph.now.zones ≡ length (sight_of view).policy.nets }
    requires joined { All (AreNets (length graph.now.zones)) joined.now }
    ensures { OnOk result (pairs.new.items ≡ pairs.old.items ++ flat_map (nested_in graph.now.zones (sight_of view.entry).policy (sight_of view.entry).tags) joined.now) }
{
    for outer in joined {
        push_nested(alloc, graph, view, *outer, pairs)?;
    }
    Ok(())
}

// The pairs of different zones that lie inside one of the joined pairs in one of the zones.
fn nested_pairs(
    alloc: Global,
    graph: &ZoneGraph,
    views: &Views<'_>,
    zones: &[ZoneId],
    joined: &[Pair],
) -> Result<Vec<Pair>, NoMemory>
    requires nets { length graph.now.zones ≡ length (seen_of views.now).policy.nets }
    requires zones { All (λ z. z.0 < length (seen_of views.now).views.zones) zones.now }
    requires joined { All (AreNets (length graph.now.zones)) joined.now }
    ensures { IfOk result (λ v. v.items ≡ flat_map (λ z. flat_map (nested_in graph.now.zones (seen_of views.now).policy (zone_view (seen_of views.now).views z.0)) joined.now) zones.now) }
{
    let mut pairs = Vec::new(alloc);
    for z in zones {
        push_seen(alloc, graph, views.zone(*z), joined, &mut pairs)?;
    }
    Ok(pairs)
}

/// The pairs of networks of different zones that a permit joins, one way or the other, and those
/// that lie inside such a pair as some zone sees them, in order.
pub(crate) fn concerned(
    alloc: Global,
    topo: Topo<'_>,
    graph: &ZoneGraph,
    views: &Views<'_>,
    permits: &[Permit],
) -> Result<Vec<Pair>, NoMemory>
    requires graph { IsGraphOf (policy_of topo) graph.now }
    requires policy { (seen_of views.now).policy ≡ policy_of topo }
    requires zones { length (seen_of views.now).views.zones ≡ length graph.now.nets }
    requires permits { AreKnown (policy_of topo) (map permit_of permits.now) }
    ensures order { IfOk result (λ v. AllPairs IsBefore v.items) }
    ensures all { IfOk result (λ v. HasAll graph.now.zones v.items (map permit_of permits.now)) }
    ensures pairs { IfOk result (λ v. v.items ≡ concerned_pairs (site_with (policy_of topo.entry) graph.now) (seen_of views.now).views (map permit_of permits.now)) }
{
    let mut pairs = net_pairs(alloc, topo, graph, permits)?;
    let zones = views.first_zones(alloc)?;
    let mut nested = nested_pairs(alloc, graph, views, &zones, &pairs)?;
    if nested.is_empty() {
        return Ok(pairs);
    }
    pairs.append(&mut nested)?;
    once_each(&mut pairs);
    Ok(pairs)
}
