ghost use Rattle.std.specs.Prelude.{◌≡◌, length, IfOk, IfErr};
ghost use Rattle.policy_model.specs.Headline.{Meaning};
ghost use Rattle.policy_model.specs.Tags.{AreViews};
ghost use Rattle.topology.specs.First.{HasNone, IsRefusalOf, TellsFirst};
ghost use Rattle.topology.specs.View.{policy_of, sources_of};
ghost use Rattle.zone_graph.specs.Grouped.{IsGraphOf};
ghost use Rattle.nat_domains.specs.Marks.{site_of};
ghost use Rattle.nat_domains.specs.Conflicts.{HasNoConflict};
ghost use Rattle.nat_domains.specs.Told.{TellsConflict};

use crate::refuse::{conflict_fault, inside_fault, twice_fault};
use crate::table::colour_all;
use spoc_base::Refusal;
use std::alloc::Global;
use topology::Topo;
use zone_graph::{TagTable, ZoneGraph};

// The table of the tags, unless one is in force where it must not be.
fn table_of(alloc: Global, topo: Topo<'_>, graph: &ZoneGraph) -> Result<TagTable, Refusal>
    requires { IsGraphOf (policy_of topo) graph.now }
    ensures views { IfOk result (λ table. AreViews (site_of topo.entry graph.now) table) }
    ensures none { IfOk result (λ table. HasNoConflict (site_of topo.entry graph.now) (length (policy_of topo.entry).tags)) }
    ensures refused { IfErr result (IsRefusalOf (λ fault. TellsConflict (sources_of topo.entry) (site_of topo.entry graph.now) fault)) }
{
    let tables = colour_all(alloc, topo, graph)?;
    if let Some(conflict) = tables.conflict {
        return Err(Refusal::Policy(conflict_fault(topo, graph, conflict)));
    }
    Ok(TagTable::new(tables.zones, tables.inner))
}

/// The tags in force in each zone, and those that each router sees inside. Refuses a policy with a
/// tag that is in force where it must not be, with two tags of one network in force in one zone, or
/// with a tag of a network in force in the network's own zone.
pub fn domains(alloc: Global, topo: Topo<'_>, graph: &ZoneGraph) -> Result<TagTable, Refusal>
    requires { IsGraphOf (policy_of topo) graph.now }
    ensures views { IfOk result (λ table. AreViews (site_of topo.entry graph.now) table) }
    ensures clear { IfOk result (λ table. (m : Meaning) → m.site ≡ site_of topo.entry graph.now → AreViews m.site m.views → HasNone m 1 3) }
    ensures refused { IfErr result (IsRefusalOf (λ fault. (m : Meaning) → m.site ≡ site_of topo.entry graph.now → AreViews m.site m.views → TellsFirst (sources_of topo.entry) m 1 3 fault)) }
{
    let table = table_of(alloc, topo, graph)?;
    if let Some(fault) = twice_fault(topo, graph, &table) {
        return Err(Refusal::Policy(fault));
    }
    if let Some(fault) = inside_fault(topo, graph, &table) {
        return Err(Refusal::Policy(fault));
    }
    Ok(table)
}
