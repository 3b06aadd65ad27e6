ghost use Rattle.std.specs.Prelude.{◌≡◌, ◌≢◌, ◌+◌, ◌<◌, ◌≤◌, ℕ, length, IfOk, slice_index};
ghost use Rattle.policy_model.specs.Zones.{AreZones};
ghost use Rattle.topology.specs.View.{policy_of};
ghost use Rattle.zone_graph.specs.Forest.{IsForest};
ghost use Rattle.zone_graph.specs.Labels.{AreLabels, AreNumbers, IsLabelled};

use crate::forest::{forest, net_count};
use spoc_base::NoMemory;
use std::alloc::Global;
use topology::Topo;

// The number of a network's zone: the next one where it points to itself, else that of the network
// to which it points. Gives the count of zones too.
fn label(topo: Topo<'_>, parents: &[u32], zones: &[u32], count: u32) -> (u32, u32)
    requires forest { IsForest (policy_of topo) parents.now }
    requires labels { AreLabels (policy_of topo) parents.now zones.now count }
    requires left { length zones.now < length parents.now }
    requires few { count ≤ length zones.now }
    ensures labelled { IsLabelled (policy_of topo.entry) parents.now zones.now result.0 result.1 }
    ensures few { result.1 ≤ length zones.now + 1 }
{
    let n = zones.len();
    let parent = parents[n] as usize;
    if parent == n {
        (count, count + 1)
    } else {
        (zones[parent], count)
    }
}

/// The number of each network's zone, and the count of zones.
pub(crate) fn labels(alloc: Global, topo: Topo<'_>) -> Result<(Vec<u32>, u32), NoMemory>
    ensures table { IfOk result (λ found. AreZones (policy_of topo.entry) found.0.items) }
    ensures numbers { IfOk result (λ found. AreNumbers found.0.items found.1) }
    ensures few { IfOk result (λ found. length found.0.items ≤ 65535) }
{
    let parents = forest(alloc, topo)?;
    let mut zones = Vec::new(alloc);
    let mut count = 0;
    for _ in 0..net_count(topo) {
        let (zone, next) = label(topo, &parents, &zones, count);
        zones.push(zone)?;
        count = next;
    }
    Ok((zones, count))
}
