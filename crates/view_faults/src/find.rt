ghost use Rattle.std.specs.Prelude.{◌≡◌, IfOk, IfErr};
ghost use Rattle.policy_model.specs.Headline.{Meaning};
ghost use Rattle.policy_model.specs.Tags.{AreViews};
ghost use Rattle.topology.specs.First.{HasNone, IsRefusalOf, TellsFirst};
ghost use Rattle.topology.specs.View.{policy_of, sources_of};
ghost use Rattle.zone_graph.specs.Grouped.{IsGraphOf};
ghost use Rattle.nat_view.specs.Seen.{AreAllApart};
ghost use Rattle.nat_view.specs.Views.{seen_of};
ghost use Rattle.view_faults.specs.Sites.{site_of};

use crate::count::has_too_many;
use crate::naming::same_fault;
use nat_view::{ViewFail, Views, view_table};
use spoc_base::{Fault, Refusal};
use std::alloc::Global;
use topology::Topo;
use zone_graph::{TagTable, ZoneGraph};

/// The views of all zones and routers, if no more than 256 of them differ and no two networks have
/// one prefix in any of them.
pub fn views<'a>(
    alloc: Global,
    topo: Topo<'a>,
    graph: &ZoneGraph,
    tags: &TagTable,
) -> Result<Views<'a>, Refusal>
    requires graph { IsGraphOf (policy_of topo) graph.now }
    requires tags { AreViews (site_of topo graph.now) tags.now }
    ensures policy { IfOk result (λ v. (seen_of v).policy ≡ policy_of topo.entry) }
    ensures views { IfOk result (λ v. (seen_of v).views ≡ tags.now) }
    ensures apart { IfOk result (λ v. AreAllApart (policy_of topo.entry) tags.now) }
    ensures clear { IfOk result (λ v. (m : Meaning) → m.site ≡ site_of topo.entry graph.now → m.views ≡ tags.now → HasNone m 4 5) }
    ensures refused { IfErr result (IsRefusalOf (λ fault. (m : Meaning) → m.site ≡ site_of topo.entry graph.now → m.views ≡ tags.now → TellsFirst (sources_of topo.entry) m 4 5 fault)) }
{
    let zones = graph.count();
    let count = zones as usize + topo.routers().len();
    if has_too_many(alloc, tags, zones, count)? {
        return Err(Refusal::Policy(Fault::LimitViews));
    }
    match view_table(alloc, topo, graph, tags) {
        Ok(views) => Ok(views),
        Err(ViewFail::Same(at, n, m)) => Err(Refusal::Policy(same_fault(topo, graph, at, n, m))),
        Err(ViewFail::Memory) => Err(Refusal::Memory),
    }
}
