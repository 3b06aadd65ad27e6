ghost use Rattle.std.specs.Prelude.{◌≡◌, ◌<◌, ◌++◌, ◌∷◌, [], length, map, IfOk, IfErr};
ghost use Rattle.policy_model.specs.Blocks.{zone_pairs, placement};
ghost use Rattle.topology.specs.First.{IsRefusalOf};
ghost use Rattle.topology.specs.View.{policy_of, sources_of};
ghost use Rattle.zone_graph.specs.Grouped.{IsGraphOf, HasGroups, row_items};
ghost use Rattle.nat_view.specs.Views.{seen_of};
ghost use Rattle.permit_set.specs.Shown.{permit_of};
ghost use Rattle.rule_distribute.specs.Distributed.{placed_seen, placed_at, IsClear, TellsWalk};
ghost use Rattle.permit_lines.specs.Given.{site_with, AreKnown};
ghost use Rattle.rule_distribute.specs.Paths.{HaveMarks, path_row};
ghost use Rattle.rule_distribute.specs.Placed.{ArePairsOf};
ghost use Rattle.rule_distribute.specs.Shown.{block_seen, pairs_seen};

use crate::blocks::{Joined, join};
use crate::closed::closed_places;
use crate::hidden::{first_hidden, hidden_end_fault};
use crate::managed::{managed_ifaces, places_replies_at};
use crate::paths::{path_rows, places_of};
use crate::placement::placement_of;
use crate::seen::seen_row;
use crate::sight::view_at;
use crate::unjoined::{first_lacking, no_path_fault};
use nat_view::Views;
use permit_set::{Permit, Placement};
use spoc_base::{IfId, NoMemory, Refusal};
use std::alloc::Global;
use topology::Topo;
use zone_graph::{PairMarks, ZoneGraph};

// What is placed at an interface.
fn place_at(
    alloc: Global,
    topo: Topo<'_>,
    graph: &ZoneGraph,
    views: &Views<'_>,
    permits: &[Permit],
    joined: &Joined,
    rows: &[Vec<usize>],
    i: IfId,
) -> Result<Placement, NoMemory>
    requires graph { IsGraphOf (policy_of topo) graph.now }
    requires policy { (seen_of views.now).policy ≡ policy_of topo }
    requires zones { length (seen_of views.now).views.zones ≡ length graph.now.nets }
    requires permits { AreKnown (policy_of topo) (map permit_of permits.now) }
    requires joined { ArePairsOf (site_with (policy_of topo) graph.now) (seen_of views.now).views (map permit_of permits.now) (pairs_seen joined.now) }
    requires iface { i.0 < length (policy_of topo).ifaces }
    requires each { length rows.now ≡ length (policy_of topo).ifaces }
    requires on_path { HasGroups (λ w. w) (row_items rows.now) (path_row (site_with (policy_of topo) graph.now) joined.now.pairs.items (length joined.now.pairs.items)) }
    ensures iface { IfOk result (λ place. place.iface.0 ≡ i.0) }
    ensures blocks { IfOk result (λ place. map block_seen place.pairs ≡ placement (site_with (policy_of topo.entry) graph.now) (seen_of views.now).views (map permit_of permits.now) i.0) }
{
    let told = places_replies_at(topo, i);
    let view = view_at(topo, graph, views, i);
    let row = seen_row(alloc, view, joined, &rows[i.0 as usize])?;
    let places = closed_places(alloc, view, permits, joined, told, &row)?;
    let place = placement_of(alloc, topo, joined, told, i, &places)?;
    Ok(place)
}

// Puts what is placed at an interface behind the rest.
fn push_place(places: &mut Vec<Placement>, place: Placement) -> Result<(), NoMemory>
    ensures { IfOk result (λ done. places.new.items ≡ places.old.items ++ place ∷ []) }
{
    places.push(place)?;
    Ok(())
}

// What is placed at each interface of a managed router.
fn place_all(
    alloc: Global,
    topo: Topo<'_>,
    graph: &ZoneGraph,
    views: &Views<'_>,
    permits: &[Permit],
    joined: &Joined,
    rows: &[Vec<usize>],
) -> Result<Vec<Placement>, NoMemory>
    requires graph { IsGraphOf (policy_of topo) graph.now }
    requires policy { (seen_of views.now).policy ≡ policy_of topo }
    requires zones { length (seen_of views.now).views.zones ≡ length graph.now.nets }
    requires permits { AreKnown (policy_of topo) (map permit_of permits.now) }
    requires joined { ArePairsOf (site_with (policy_of topo) graph.now) (seen_of views.now).views (map permit_of permits.now) (pairs_seen joined.now) }
    requires each { length rows.now ≡ length (policy_of topo).ifaces }
    requires on_path { HasGroups (λ w. w) (row_items rows.now) (path_row (site_with (policy_of topo) graph.now) joined.now.pairs.items (length joined.now.pairs.items)) }
    ensures { IfOk result (λ places. map placed_seen places.items ≡ placed_at (site_with (policy_of topo.entry) graph.now) (seen_of views.now).views (map permit_of permits.now)) }
{
    let ifaces = managed_ifaces(alloc, topo)?;
    let mut places = Vec::new(alloc);
    for i in &ifaces {
        let place = place_at(alloc, topo, graph, views, permits, joined, rows, *i)?;
        let Ok(()) = push_place(&mut places, place) else {
            return Err(NoMemory);
        };
    }
    Ok(places)
}

impl Joined {
    /// What is placed at each interface of a managed router, by `distribute`, where the pairs of
    /// networks were joined before.
    pub fn distribute(
        &self,
        alloc: Global,
        topo: Topo<'_>,
        graph: &ZoneGraph,
        views: &Views<'_>,
        permits: &[Permit],
        tables: &[PairMarks],
    ) -> Result<Vec<Placement>, Refusal>
        requires graph { IsGraphOf (policy_of topo) graph.now }
        requires policy { (seen_of views.now).policy ≡ policy_of topo }
        requires zones { length (seen_of views.now).views.zones ≡ length graph.now.nets }
        requires permits { AreKnown (policy_of topo) (map permit_of permits.now) }
        requires few { length permits.now < 4294967296 }
        requires joined { ArePairsOf (site_with (policy_of topo) graph.now) (seen_of views.now).views (map permit_of permits.now) (pairs_seen self.now) }
        requires marks { HaveMarks (site_with (policy_of topo) graph.now) (zone_pairs (site_with (policy_of topo) graph.now) (seen_of views.now).views (map permit_of permits.now)) tables.now }
        ensures placed { IfOk result (λ places. map placed_seen places.items ≡ placed_at (site_with (policy_of topo.entry) graph.now) (seen_of views.now).views (map permit_of permits.now)) }
        ensures clear { IfOk result (λ places. IsClear (site_with (policy_of topo.entry) graph.now) (seen_of views.now).views (map permit_of permits.now)) }
        ensures refused { IfErr result (IsRefusalOf (TellsWalk (sources_of topo.entry) (site_with (policy_of topo.entry) graph.now) (seen_of views.now).views (map permit_of permits.now))) }
    {
        let places = places_of(alloc, tables)?;
        if let Some(pair) = first_lacking(topo, graph, self, &places, tables) {
            return Err(Refusal::Policy(no_path_fault(topo, pair)));
        }
        if let Some(end) = first_hidden(topo, graph, views, permits, &places, tables) {
            let q = permits[end.permit as usize];
            let fault = hidden_end_fault(topo, graph, q, end.zone, end.is_dst);
            return Err(Refusal::Policy(fault));
        }
        let rows = path_rows(alloc, topo, graph, &self.pairs, &places, tables)?;
        let placed = place_all(alloc, topo, graph, views, permits, self, &rows)?;
        Ok(placed)
    }
}

/// What is placed at each interface of a managed router, by number: for each pair of networks on
/// path there that are seen in the interface's zone, its permits, those of the way back where
/// replies have to pass, and whether all else between the networks is denied, as a line of a pair
/// round them would pass it. The tables are those of the pairs of zones that `zone_pairs` gives, in
/// any order, and others may stand among them.
///
/// A refusal tells the first permit between two zones that no walk joins, by its networks, or else the
/// first one with an end that is hidden in a zone of an allowed walk: by the permit, and then by the
/// zone, the source before the destination.
pub fn distribute(
    alloc: Global,
    topo: Topo<'_>,
    graph: &ZoneGraph,
    views: &Views<'_>,
    permits: &[Permit],
    tables: &[PairMarks],
) -> Result<Vec<Placement>, Refusal>
    requires graph { IsGraphOf (policy_of topo) graph.now }
    requires policy { (seen_of views.now).policy ≡ policy_of topo }
    requires zones { length (seen_of views.now).views.zones ≡ length graph.now.nets }
    requires permits { AreKnown (policy_of topo) (map permit_of permits.now) }
    requires few { length permits.now < 4294967296 }
    requires marks { HaveMarks (site_with (policy_of topo) graph.now) (zone_pairs (site_with (policy_of topo) graph.now) (seen_of views.now).views (map permit_of permits.now)) tables.now }
    ensures placed { IfOk result (λ places. map placed_seen places.items ≡ placed_at (site_with (policy_of topo.entry) graph.now) (seen_of views.now).views (map permit_of permits.now)) }
    ensures clear { IfOk result (λ places. IsClear (site_with (policy_of topo.entry) graph.now) (seen_of views.now).views (map permit_of permits.now)) }
    ensures refused { IfErr result (IsRefusalOf (TellsWalk (sources_of topo.entry) (site_with (policy_of topo.entry) graph.now) (seen_of views.now).views (map permit_of permits.now))) }
{
    let joined = join(alloc, topo, graph, views, permits)?;
    joined.distribute(alloc, topo, graph, views, permits, tables)
}
