ghost use Rattle.std.specs.Prelude.{◌≡◌, ◌<◌, ℕ, length, map, set, IfOk, [], slice_index, slice_index_or};
ghost use Rattle.std.specs.List.{Contains};
ghost use Rattle.policy_model.specs.Marks.{marked_crossings};
ghost use Rattle.topology.specs.View.{policy_of};
ghost use Rattle.zone_graph.specs.Grouped.{row_items, AreEmpty, HasGroups, IsGraphOf};
ghost use Rattle.permit_lines.specs.Given.{site_with};
ghost use Rattle.zone_graph.specs.declared.marks.PairMarks.{PairMarks as Marked};
ghost use Rattle.rule_distribute.specs.Paths.{ends_in, with_last, with_entered, AreLow, EnterBelow, AreMarked, AreFiled, AreNamed, crossing_seen, zones_named, path_row};

use crate::pairs::Pair;
use crate::rows::{add, empty_rows};
use spoc_base::{NetId, NoMemory};
use std::alloc::Global;
use std::collections::BTreeMap;
use topology::Topo;
use zone_graph::{Crossing, PairMarks, ZoneGraph};

// Whether the row ends in the number.
fn is_last(row: &[usize], w: usize) -> bool
    ensures { result ≡ ends_in row.now w }
{
    match row.last() {
        Some(k) => *k == w,
        None => false,
    }
}

// Puts a number at the end of a row, if it isn't there.
fn add_once(rows: &mut [Vec<usize>], i: usize, w: usize) -> Result<(), NoMemory>
    requires { i < length rows.old }
    ensures each { length rows.new ≡ length rows.old }
    ensures put { IfOk result (λ done. row_items rows.new ≡ set (row_items rows.old) i (with_last (slice_index_or (row_items rows.old) i []) w)) }
{
    if is_last(&rows[i], w) {
        return Ok(());
    }
    add(rows, i, w)?;
    Ok(())
}

/// Puts the w-th pair into the row of each interface at which one of the crossings enters.
pub(crate) fn add_pair(
    rows: &mut [Vec<usize>],
    crossings: &[Crossing],
    w: usize,
) -> Result<(), NoMemory>
    requires inside { EnterBelow crossings.now (length rows.old) }
    requires low { AreLow (row_items rows.old) w }
    ensures each { length rows.new ≡ length rows.old }
    ensures rows { IfOk result (λ done. (i : ℕ) → i < length rows.old → slice_index_or (row_items rows.new) i [] ≡ with_entered crossings.now w i (slice_index_or (row_items rows.old) i [])) }
{
    for crossing in crossings {
        add_once(rows, crossing.enter.0 as usize, w)?;
    }
    Ok(())
}

// The zones of a pair of networks.
fn zones_of(graph: &ZoneGraph, pair: Pair) -> Pair
    requires src { pair.0 < length graph.now.zones }
    requires dst { pair.1 < length graph.now.zones }
    ensures { result ≡ (slice_index graph.now.zones pair.0, slice_index graph.now.zones pair.1) }
{
    let from = graph.zone_of(NetId(pair.0));
    let to = graph.zone_of(NetId(pair.1));
    (from.0, to.0)
}

/// The places of tables by their pairs of zones.
pub(crate) type Places = BTreeMap<Pair, usize>;

/// The place of the table of each pair of zones that has one.
pub(crate) fn places_of(alloc: Global, tables: &[PairMarks]) -> Result<Places, NoMemory>
    ensures { IfOk result (AreFiled (map zones_named tables.now) (length tables.now)) }
{
    let mut places = BTreeMap::new(alloc);
    for k in 0..tables.len() {
        places.insert((tables[k].from.0, tables[k].to.0), k)?;
    }
    Ok(places)
}

// The crossings of a table, by its place.
fn crossings_at<'t>(tables: &'t [PairMarks], k: usize) -> &'t [Crossing]
    requires { k < length tables.now }
    ensures { (t : Marked) → result.now ≡ (slice_index_or tables.now k t).marks.crossings }
{
    tables[k].marks.crossings.items()
}

/// The crossings of the walks between the zones of a pair of networks.
pub(crate) fn crossings_of<'t>(
    topo: Topo<'_>,
    graph: &ZoneGraph,
    places: &Places,
    tables: &'t [PairMarks],
    pair: Pair,
) -> &'t [Crossing]
    requires graph { IsGraphOf (policy_of topo) graph.now }
    requires src { pair.0 < length (policy_of topo).nets }
    requires dst { pair.1 < length (policy_of topo).nets }
    requires places { AreFiled (map zones_named tables.now) (length tables.now) places.now }
    requires marks { AreMarked (site_with (policy_of topo) graph.now) tables.now }
    requires named { Contains (map zones_named tables.now) (slice_index graph.now.zones pair.0, slice_index graph.now.zones pair.1) }
    ensures { map crossing_seen result.now ≡ marked_crossings (site_with (policy_of topo.entry) graph.now) (slice_index graph.now.zones pair.0) (slice_index graph.now.zones pair.1) }
{
    match places.get(&zones_of(graph, pair)) {
        Some(k) => crossings_at(tables, *k),
        None => unreachable!(),
    }
}

// Puts each pair into the rows of the interfaces at which its walks enter.
fn fill_paths(
    topo: Topo<'_>,
    graph: &ZoneGraph,
    pairs: &[Pair],
    places: &Places,
    tables: &[PairMarks],
    rows: &mut [Vec<usize>],
) -> Result<(), NoMemory>
    requires graph { IsGraphOf (policy_of topo) graph.now }
    requires places { AreFiled (map zones_named tables.now) (length tables.now) places.now }
    requires marks { AreMarked (site_with (policy_of topo) graph.now) tables.now }
    requires named { AreNamed (site_with (policy_of topo) graph.now) pairs.now (map zones_named tables.now) }
    requires empty { AreEmpty (row_items rows.old) (length (policy_of topo).ifaces) }
    ensures each { length rows.new ≡ length rows.old }
    ensures rows { IfOk result (λ done. HasGroups (λ w. w) (row_items rows.new) (path_row (site_with (policy_of topo.entry) graph.now) pairs.now (length pairs.now))) }
{
    for w in 0..pairs.len() {
        let crossings = crossings_of(topo, graph, places, tables, pairs[w]);
        add_pair(rows, crossings, w)?;
    }
    Ok(())
}

/// The places of the pairs on path at each interface.
pub(crate) fn path_rows(
    alloc: Global,
    topo: Topo<'_>,
    graph: &ZoneGraph,
    pairs: &[Pair],
    places: &Places,
    tables: &[PairMarks],
) -> Result<Vec<Vec<usize>>, NoMemory>
    requires graph { IsGraphOf (policy_of topo) graph.now }
    requires places { AreFiled (map zones_named tables.now) (length tables.now) places.now }
    requires marks { AreMarked (site_with (policy_of topo) graph.now) tables.now }
    requires named { AreNamed (site_with (policy_of topo) graph.now) pairs.now (map zones_named tables.now) }
    ensures each { IfOk result (λ rows. length rows.items ≡ length (policy_of topo.entry).ifaces) }
    ensures rows { IfOk result (λ rows. HasGroups (λ w. w) (row_items rows.items) (path_row (site_with (policy_of topo.entry) graph.now) pairs.now (length pairs.now))) }
{
    let mut rows = empty_rows(alloc, topo.ifaces().len())?;
    fill_paths(topo, graph, pairs, places, tables, &mut rows)?;
    Ok(rows)
}
