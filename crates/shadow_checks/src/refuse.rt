ghost use Rattle.std.specs.Prelude.{◌≡◌, ◌<◌, length, OnOk, IfErr};
ghost use Rattle.policy_model.specs.Headline.{Meaning};
ghost use Rattle.policy_laws.specs.Shaped.{IsShaped};
ghost use Rattle.topology.specs.First.{HasNone, IsRefusalOf, TellsFirst};
ghost use Rattle.topology.specs.Told.{IsTold};
ghost use Rattle.topology.specs.View.{policy_of, sources_of};
ghost use Rattle.zone_graph.specs.Grouped.{IsGraphOf};
ghost use Rattle.nat_view.specs.Fails.{place_seen};
ghost use Rattle.nat_view.specs.Seen.{AreAllApart};
ghost use Rattle.nat_view.specs.Views.{seen_of};
ghost use Rattle.shadow_checks.specs.Names.{IsHolderIn, IsPlaceIn};
ghost use Rattle.shadow_checks.specs.Sightings.{site_of, case_of};

use crate::find::{Sighting, first_sighting};
use crate::naming::{holder_name, net_name, place_name};
use nat_view::Views;
use spoc_base::{Fault, Refusal};
use std::alloc::Global;
use topology::Topo;
use zone_graph::ZoneGraph;

// The fault of an address that is seen at another network.
fn fault_of(topo: Topo<'_>, graph: &ZoneGraph, sighting: Sighting) -> Fault
    requires graph { IsGraphOf (policy_of topo) graph.now }
    requires place { IsPlaceIn (policy_of topo) (length graph.now.nets) (place_seen sighting.at) }
    requires holder { IsHolderIn (policy_of topo) sighting.shadow.holder }
    requires net { sighting.shadow.net.0 < length (policy_of topo).nets }
    ensures { IsTold (sources_of topo.entry) (site_of topo.entry graph.now) (case_of (place_seen sighting.at) sighting.shadow.holder sighting.shadow.net.0) result }
{
    let name = holder_name(topo, sighting.shadow.holder);
    let net = net_name(topo, sighting.shadow.net);
    let at = place_name(topo, graph, sighting.at);
    Fault::HostShadowed { name, net, at }
}

/// Refuses a policy in which, in some zone's or router's view, an address of a host, or the own or
/// shared address of an interface, is placed at another network than its own. A network that is
/// hidden in a view has no addresses there.
pub fn refuse_shadowed(
    alloc: Global,
    topo: Topo<'_>,
    graph: &ZoneGraph,
    views: &Views<'_>,
) -> Result<(), Refusal>
    requires graph { IsGraphOf (policy_of topo) graph.now }
    requires policy { (seen_of views.now).policy ≡ policy_of topo }
    requires zones { length (seen_of views.now).views.zones ≡ length graph.now.nets }
    requires routers { length (seen_of views.now).views.routers ≡ length (policy_of topo).routers }
    requires shaped { IsShaped (policy_of topo) }
    requires apart { AreAllApart (policy_of topo) (seen_of views.now).views }
    ensures clear { OnOk result ((m : Meaning) → m.site ≡ site_of topo.entry graph.now → m.views ≡ (seen_of views.now).views → HasNone m 6 6) }
    ensures refused { IfErr result (IsRefusalOf (λ fault. (m : Meaning) → m.site ≡ site_of topo.entry graph.now → m.views ≡ (seen_of views.now).views → TellsFirst (sources_of topo.entry) m 6 6 fault)) }
{
    if let Some(sighting) = first_sighting(alloc, topo, views)? {
        return Err(Refusal::Policy(fault_of(topo, graph, sighting)));
    }
    Ok(())
}
