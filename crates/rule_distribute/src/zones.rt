ghost use Rattle.std.specs.Prelude.{◌≡◌, List, length, map, IfOk};
ghost use Rattle.std.specs.List.{All};
ghost use Rattle.policy_model.specs.Blocks.{zone_pairs as pairs_of_zones};
ghost use Rattle.policy_model.specs.Permits.{Permit as Permitted};
ghost use Rattle.policy_model.specs.Tags.{Views as Tagged};
ghost use Rattle.topology.specs.View.{policy_of};
ghost use Rattle.zone_graph.specs.Grouped.{IsGraphOf};
ghost use Rattle.nat_view.specs.Views.{seen_of};
ghost use Rattle.permit_set.specs.Shown.{permit_of};
ghost use Rattle.permit_lines.specs.Given.{site_with, AreKnown};
ghost use Rattle.rule_distribute.specs.Nested.{AreNets, zones_of};
ghost use Rattle.rule_distribute.specs.Pairs.{AreOnce};
ghost use Rattle.rule_distribute.specs.Placed.{HaveRows, ArePairsOf};
ghost use Rattle.rule_distribute.specs.Shown.{pairs_seen, zones_seen};

use crate::blocks::Joined;
use crate::concerned::concerned;
use crate::pairs::{Pair, once_each};
use nat_view::Views;
use permit_set::Permit;
use spoc_base::{NetId, NoMemory, ZoneId};
use std::alloc::Global;
use topology::Topo;
use zone_graph::ZoneGraph;

// The zones of each pair of networks.
fn zones_between(alloc: Global, graph: &ZoneGraph, nets: &[Pair]) -> Result<Vec<Pair>, NoMemory>
    requires { All (AreNets (length graph.now.zones)) nets.now }
    ensures { IfOk result (λ v. v.items ≡ map (zones_of graph.now.zones) nets.now) }
{
    let mut pairs = Vec::new(alloc);
    for pair in nets {
        let from = graph.zone_of(NetId(pair.0));
        let to = graph.zone_of(NetId(pair.1));
        pairs.push((from.0, to.0))?;
    }
    Ok(pairs)
}

// The pairs as zones.
fn as_zones(alloc: Global, pairs: &[Pair]) -> Result<Vec<(ZoneId, ZoneId)>, NoMemory>
    ensures { IfOk result (λ v. map zones_seen v.items ≡ pairs.now) }
{
    let mut zones = Vec::new(alloc);
    for pair in pairs {
        zones.push((ZoneId(pair.0), ZoneId(pair.1)))?;
    }
    Ok(zones)
}

// The zones of pairs of networks, in order and each pair once.
fn zones_once(
    alloc: Global,
    graph: &ZoneGraph,
    nets: &[Pair],
) -> Result<Vec<(ZoneId, ZoneId)>, NoMemory>
    requires { All (AreNets (length graph.now.zones)) nets.now }
    ensures { IfOk result (λ v. AreOnce (map (zones_of graph.now.zones) nets.now) (map zones_seen v.items)) }
{
    let mut pairs = zones_between(alloc, graph, nets)?;
    once_each(&mut pairs);
    let zones = as_zones(alloc, &pairs)?;
    Ok(zones)
}

impl Joined {
    /// The ordered pairs of zones whose walks the lists depend on, ascending and each once: those of
    /// the pairs of networks.
    pub fn zone_pairs(
        &self,
        alloc: Global,
        topo: Topo<'_>,
        graph: &ZoneGraph,
    ) -> Result<Vec<(ZoneId, ZoneId)>, NoMemory>
        requires graph { IsGraphOf (policy_of topo) graph.now }
        requires rows { HaveRows (policy_of topo) (pairs_seen self.now) }
        ensures { IfOk result (λ v. (tags : Tagged) (permits : List Permitted) → ArePairsOf (site_with (policy_of topo.entry) graph.now) tags permits (pairs_seen self.now) → map zones_seen v.items ≡ pairs_of_zones (site_with (policy_of topo.entry) graph.now) tags permits) }
    {
        zones_once(alloc, graph, &self.pairs)
    }
}

/// The ordered pairs of zones whose walks the lists depend on, ascending and each once: those of
/// the networks that a permit joins, one way or the other, and of the pairs that lie inside such a
/// pair as some zone sees them.
pub fn zone_pairs(
    alloc: Global,
    topo: Topo<'_>,
    graph: &ZoneGraph,
    views: &Views<'_>,
    permits: &[Permit],
) -> Result<Vec<(ZoneId, ZoneId)>, NoMemory>
    requires graph { IsGraphOf (policy_of topo) graph.now }
    requires policy { (seen_of views.now).policy ≡ policy_of topo }
    requires zones { length (seen_of views.now).views.zones ≡ length graph.now.nets }
    requires permits { AreKnown (policy_of topo) (map permit_of permits.now) }
    ensures { IfOk result (λ v. map zones_seen v.items ≡ pairs_of_zones (site_with (policy_of topo.entry) graph.now) (seen_of views.now).views (map permit_of permits.now)) }
{
    let nets = concerned(alloc, topo, graph, views, permits)?;
    zones_once(alloc, graph, &nets)
}
