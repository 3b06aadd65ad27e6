ghost use Rattle.std.specs.Prelude.{◌≡◌, map, Err, IfOk, IfErr, OnOk};
ghost use Rattle.policy_laws.specs.Shaped.{IsShaped};
ghost use Rattle.topology.specs.First.{IsRefusalOf};
ghost use Rattle.topology.specs.View.{policy_of};
ghost use Rattle.nat_view.specs.Views.{seen_of};
ghost use Rattle.permit_set.specs.Shown.{permit_of};
ghost use Rattle.fault_text.specs.Texts.{fault_line};
ghost use Rattle.policy_outcome.specs.Outcome.{outcome_for, after_services};
ghost use Rattle.policy_outcome.specs.Found.{meaning_in, pairs_in, IsFound};

use crate::steps::{areas_found, permits_found, tags_found, views_found, zones_found};
use nat_view::Views;
use permit_set::Permit;
use spoc_base::Refusal;
use std::alloc::Global;
use topology::Topo;
use zone_graph::ZoneGraph;

/// The zones of a policy, the views of its zones and routers, and its expanded permits.
#[derive(Drop)]
pub struct Findings<'a> {
    pub graph: ZoneGraph,
    pub views: Views<'a>,
    pub permits: Vec<Permit>,
}

/// What the policy means, if it has no fault of its areas, tags, views and services. Otherwise the
/// refusal tells the first fault, in this order: an area that is split; a tag in force where it must
/// not be; too many views that differ, two networks with one prefix in a view, an address that lies
/// at another network there; a managed end, too many permits.
pub fn found<'a>(alloc: Global, topo: Topo<'a>) -> Result<Findings<'a>, Refusal>
    requires shaped { IsShaped (policy_of topo) }
    ensures found { IfOk result (λ f. IsFound topo.entry f.graph (seen_of f.views).views (map permit_of f.permits.items)) }
    ensures policy { IfOk result (λ f. (seen_of f.views).policy ≡ policy_of topo.entry) }
    ensures clear { OnOk result (outcome_for (meaning_in topo.entry) ≡ after_services (meaning_in topo.entry)) }
    ensures refused { IfErr result (IsRefusalOf (λ fault. outcome_for (meaning_in topo.entry) ≡ Err (fault_line (pairs_in topo.entry) fault))) }
{
    let graph = zones_found(alloc, topo)?;
    let areas = areas_found(alloc, topo, &graph)?;
    let tags = tags_found(alloc, topo, &graph)?;
    let views = views_found(alloc, topo, &graph, &tags)?;
    let permits = permits_found(alloc, topo, &graph, &areas)?;
    Ok(Findings {
        graph,
        views,
        permits,
    })
}
