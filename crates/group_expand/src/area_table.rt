ghost use Rattle.std.specs.Prelude.{◌≡◌, ◌<◌, ℕ, List, false, [], length, map, IfOk, IfErr};
ghost use Rattle.policy_model.specs.Objects.{AreAreas};
ghost use Rattle.policy_model.specs.FirstFault.{AreaSplit};
ghost use Rattle.topology.specs.First.{IsRefusalOf};
ghost use Rattle.topology.specs.Told.{IsTold};
ghost use Rattle.topology.specs.View.{policy_of, sources_of};
ghost use Rattle.zone_graph.specs.Grouped.{IsGraphOf};
ghost use Rattle.group_expand.specs.Seen.{site_of, numbers_of};
ghost use Rattle.group_expand.specs.Areas.{AreFirstRows, AreWhole, IsAreaRow, TellsSplit, is_cut_off};

use crate::area::{AreaFail, Areas};
use crate::border::zones_of_area;
use spoc_base::{Fault, IfId, Refusal, ZoneId};
use std::alloc::Global;
use topology::Topo;
use zone_graph::ZoneGraph;

// The fault of an area that is split at a border.
fn split_fault(topo: Topo<'_>, k: u32, i: IfId) -> Fault
    requires area { k < length (policy_of topo).areas }
    requires border { i.0 < length (policy_of topo).ifaces }
    ensures { (zones : List ℕ) → IsTold (sources_of topo.entry) (record { policy = policy_of topo.entry; zones = zones }) (AreaSplit k i.0) result }
{
    Fault::AreaSplit {
        area: topo.area(k).name,
        border: topo.iface(i).name,
    }
}

// The zones of an area, ascending. The areas before it aren't split.
fn row(alloc: Global, topo: Topo<'_>, graph: &ZoneGraph, k: u32) -> Result<Vec<ZoneId>, Refusal>
    requires graph { IsGraphOf (policy_of topo) graph.now }
    requires there { k < length (policy_of topo).areas }
    ensures zones { IfOk result (λ zones. IsAreaRow (site_of topo.entry graph.now) k (numbers_of zones.items)) }
    ensures whole { IfOk result (λ zones. (i : ℕ) → is_cut_off (site_of topo.entry graph.now) k (numbers_of zones.items) i ≡ false) }
    ensures split { IfErr result (IsRefusalOf (λ fault. (rows : List (List ℕ)) → AreFirstRows (site_of topo.entry graph.now) rows k → TellsSplit topo.entry (site_of topo.entry graph.now) fault)) }
{
    match zones_of_area(alloc, topo, graph, k) {
        Ok(zones) => Ok(zones),
        Err(AreaFail::Split(i)) => Err(Refusal::Policy(split_fault(topo, k, i))),
        Err(AreaFail::Memory) => Err(Refusal::Memory),
    }
}

// How many areas there are.
fn area_count(topo: Topo<'_>) -> u32
    ensures { result ≡ length (policy_of topo.entry).areas }
{
    topo.areas().len() as u32
}

/// The zones of each area, unless an area is split: a border's zone isn't among its zones.
pub fn areas(alloc: Global, topo: Topo<'_>, graph: &ZoneGraph) -> Result<Areas, Refusal>
    requires { IsGraphOf (policy_of topo) graph.now }
    ensures areas { IfOk result (λ areas. AreAreas (site_of topo.entry graph.now) areas) }
    ensures whole { IfOk result (λ areas. AreWhole (site_of topo.entry graph.now) areas) }
    ensures split { IfErr result (IsRefusalOf (TellsSplit topo.entry (site_of topo.entry graph.now))) }
{
    let mut rows = Vec::new(alloc);
    for k in 0..area_count(topo) {
        match row(alloc, topo, graph, k) {
            Ok(zones) => rows.push(zones)?,
            Err(refusal) => return Err(refusal),
        }
    }
    Ok(Areas::of(rows))
}
