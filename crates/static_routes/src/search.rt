ghost use Rattle.std.specs.Prelude.{◌≡◌, ◌<◌, ◌&&◌, ℕ, length, map, flat_map, IfOk, OnOk, []};
ghost use Rattle.std.specs.List.{All};
ghost use Rattle.std.specs.BTreeSet.{contains};
ghost use Rattle.policy_model.specs.FirstFault.{has_hop};
ghost use Rattle.policy_model.specs.Routes.{NextHop, hops_of, is_static};
ghost use Rattle.topology.specs.View.{policy_of};
ghost use Rattle.zone_graph.specs.Grouped.{IsGraphOf};
ghost use Rattle.permit_set.specs.Shown.{permit_of};
ghost use Rattle.path_walk.specs.Seen.{site_of};
ghost use Rattle.static_routes.specs.Found.{found_of, found_order, with_found, way_found};
ghost use Rattle.static_routes.specs.Tables.{zones_named, AreMarked, AreFiled, HaveMarks};
ghost use Rattle.static_routes.specs.Ways.{AreAtNets, IsNamed};

use crate::gather::{Found, add_marks};
use crate::lookup::zone_of;
use crate::tables::{Places, marks_of, places_of};
use crate::ways::{Traffic, ways_of};
use permit_set::Permit;
use spoc_base::{NetId, NoMemory, ZoneId};
use std::alloc::Global;
use std::collections::BTreeSet;
use topology::Topo;
use zone_graph::{PairMarks, ZoneGraph};

// The hops of traffic from a zone to a network.
fn add_traffic(
    alloc: Global,
    topo: Topo<'_>,
    graph: &ZoneGraph,
    places: &Places,
    tables: &[PairMarks],
    found: &mut BTreeSet<Found>,
    way: Traffic,
) -> Result<(), NoMemory>
    requires graph { IsGraphOf (policy_of topo) graph.now }
    requires places { AreFiled (map zones_named tables.now) (length tables.now) places.now }
    requires marks { AreMarked (site_of (policy_of topo) graph.now) tables.now }
    requires named { IsNamed (site_of (policy_of topo) graph.now) (map zones_named tables.now) way }
    ensures { OnOk result (found.new.keys ≡ with_found found.old.keys (way_found (site_of (policy_of topo.entry) graph.now) way.0 way.1)) }
{
    let v = NetId(way.1);
    let to = zone_of(topo, graph, v);
    let marks = marks_of(places, tables, (way.0, to.0));
    add_marks(alloc, topo, graph, found, ZoneId(way.0), v, marks)
}

// The hops of all traffic.
fn add_all(
    alloc: Global,
    topo: Topo<'_>,
    graph: &ZoneGraph,
    places: &Places,
    tables: &[PairMarks],
    found: &mut BTreeSet<Found>,
    ways: &[Traffic],
) -> Result<(), NoMemory>
    requires graph { IsGraphOf (policy_of topo) graph.now }
    requires places { AreFiled (map zones_named tables.now) (length tables.now) places.now }
    requires marks { AreMarked (site_of (policy_of topo) graph.now) tables.now }
    requires named { All (IsNamed (site_of (policy_of topo) graph.now) (map zones_named tables.now)) ways.now }
    ensures { OnOk result (found.new.keys ≡ with_found found.old.keys (flat_map (λ w. way_found (site_of (policy_of topo.entry) graph.now) w.0 w.1) ways.now)) }
{
    for way in ways {
        add_traffic(alloc, topo, graph, places, tables, found, *way)?;
    }
    Ok(())
}

/// The next hops of static routers to networks, on all allowed walks of the permits' traffic and
/// of the replies to it, each once: in the order of the router, the network, the leaving
/// interface, and the next one, where a direct hop comes first. `tables` has the marks of the walks
/// between each two zones between which traffic goes, in any order, and perhaps others. It takes
/// time in proportion to these marks and to the pairs of networks with traffic, besides the first
/// hops inside zones. Only want of memory is an error.
pub fn next_hops(
    alloc: Global,
    topo: Topo<'_>,
    graph: &ZoneGraph,
    permits: &[Permit],
    tables: &[PairMarks],
) -> Result<BTreeSet<Found>, NoMemory>
    requires graph { IsGraphOf (policy_of topo) graph.now }
    requires nets { AreAtNets (policy_of topo) permits.now }
    requires marks { HaveMarks (site_of (policy_of topo) graph.now) (map permit_of permits.now) tables.now }
    ensures { IfOk result (λ found. (r v : ℕ) (h : NextHop) → contains found_order found (found_of r v h) ≡ (is_static (policy_of topo.entry) r && has_hop (hops_of (site_of (policy_of topo.entry) graph.now) (map permit_of permits.now) r v) h)) }
{
    let ways = ways_of(alloc, topo, graph, permits)?;
    let places = places_of(alloc, tables)?;
    let mut found = BTreeSet::new(alloc);
    add_all(alloc, topo, graph, &places, tables, &mut found, &ways)?;
    Ok(found)
}
