ghost use Rattle.std.specs.Prelude.{◌≡◌, ◌↔◌, IsTrue, ◌<◌, ◌+◌, ◌≤◌, length, map, IfOk, IfErr, IfSome, MatchOption, OnErr, [], slice_index_or};
ghost use Rattle.std.specs.List.{All};
ghost use Rattle.policy_model.specs.Faults.{all_views};
ghost use Rattle.topology.specs.View.{policy_of};
ghost use Rattle.nat_view.specs.Fails.{place_seen, IsFailAt, RefusesViews};
ghost use Rattle.nat_view.specs.Places.{ArePlaced, AreUnlike, HasNoneOf, HasTable, ShareTables, place_at, tags_at};
ghost use Rattle.nat_view.specs.Seen.{AreAllApart};
ghost use Rattle.nat_view.specs.Shown.{numbers_of, IsTableOf, RefusesTable};
ghost use Rattle.nat_view.specs.Views.{seen_of, table_numbers};

use crate::fail::{ViewAt, ViewFail};
use crate::table::{Table, table_of};
use crate::views::Views;
use spoc_base::{RouterId, TagId, ZoneId};
use std::alloc::Global;
use subnet_tree::TreeFail;
use topology::Topo;
use zone_graph::{TagTable, ZoneGraph};

// Whether the tags are the same ones.
fn same_tags(a: &[TagId], b: &[TagId]) -> bool
    ensures { IsTrue result ↔ (a.now ≡ b.now) }
{
    a == b
}

// The place of the table of these tags. `None` exactly where there is none.
fn find(tables: &[Table], tags: &[TagId]) -> Option<usize>
    ensures is { IfSome result (λ k. tags_at tables.now k ≡ numbers_of tags.now) }
    ensures there { MatchOption result (HasNoneOf tables.now (numbers_of tags.now)) (λ k. k < length tables.now) }
{
    for k in 0..tables.len() {
        if same_tags(&tables[k].tags, tags) {
            return Some(k);
        }
    }
    None
}

// The place of the table of these tags, which is made if it isn't there.
fn place_of(
    alloc: Global,
    topo: Topo<'_>,
    tags: &[TagId],
    tables: &mut Vec<Table>,
) -> Result<usize, TreeFail>
    requires tables { All (IsTableOf (policy_of topo)) tables.old.items }
    requires unlike { AreUnlike tables.old.items }
    ensures table { IfOk result (λ k. HasTable (policy_of topo.entry) (numbers_of tags.now) tables.old.items tables.new.items k) }
    ensures refused { OnErr result (tables.new.items ≡ tables.old.items) }
    ensures fail { IfErr result (RefusesTable (policy_of topo.entry) (numbers_of tags.now)) }
{
    if let Some(k) = find(tables, tags) {
        return Ok(k);
    }
    let table = match table_of(alloc, topo, tags) {
        Ok(table) => table,
        Err(fail) => return Err(fail),
    };
    let k = tables.len();
    let Ok(()) = tables.push(table) else {
        return Err(TreeFail::Memory);
    };
    Ok(k)
}

// The tags of the k-th place, all zones coming before all routers.
fn row_at(tags: &TagTable, zones: u32, k: usize) -> &[TagId]
    requires zones { zones ≡ length tags.now.zones }
    requires there { k < length tags.now.zones + length tags.now.routers }
    requires few { length tags.now.routers ≤ 65535 }
    ensures { numbers_of result.now ≡ slice_index_or (all_views tags.now) k [] }
{
    let zones = zones as usize;
    if k < zones {
        tags.zone(ZoneId(k as u32))
    } else {
        tags.inner(RouterId((k - zones) as u32))
    }
}

/// The name of the k-th place.
pub(crate) fn name_of(zones: u32, k: usize) -> ViewAt
    requires { k ≤ zones + 65535 }
    ensures { place_seen result ≡ place_at zones k }
{
    let zones = zones as usize;
    if k < zones {
        ViewAt::Zone(ZoneId(k as u32))
    } else {
        ViewAt::Router(RouterId((k - zones) as u32))
    }
}

// What fails at the k-th place.
fn fail_at(zones: u32, k: usize, fail: TreeFail) -> ViewFail
    requires { k ≤ zones + 65535 }
    ensures { IsFailAt (place_at zones k) fail result }
{
    match fail {
        TreeFail::Same(n, m) => ViewFail::Same(name_of(zones, k), n, m),
        TreeFail::Memory => ViewFail::Memory,
    }
}

// The tables, and the place of the table of each zone and each router.
fn place_all(
    alloc: Global,
    topo: Topo<'_>,
    tags: &TagTable,
    zones: u32,
    count: usize,
) -> Result<(Vec<Table>, Vec<usize>), ViewFail>
    requires zones { zones ≡ length tags.now.zones }
    requires count { count ≡ length tags.now.zones + length tags.now.routers }
    requires few { length tags.now.routers ≤ 65535 }
    ensures placed { IfOk result (λ found. ArePlaced (policy_of topo.entry) (all_views tags.now) found.0.items found.1.items count) }
    ensures refused { IfErr result (RefusesViews (policy_of topo.entry) tags.now) }
{
    let mut tables = Vec::new(alloc);
    let mut places = Vec::new(alloc);
    for k in 0..count {
        let row = row_at(tags, zones, k);
        match place_of(alloc, topo, row, &mut tables) {
            Ok(place) => places.push(place)?,
            Err(fail) => return Err(fail_at(zones, k, fail)),
        }
    }
    Ok((tables, places))
}

/// The views of all zones and routers, by the tags that are in force there. Those with equal tags
/// share one table. `Same` comes exactly where two networks have one prefix in a view.
pub fn view_table<'a>(
    alloc: Global,
    topo: Topo<'a>,
    graph: &ZoneGraph,
    tags: &TagTable,
) -> Result<Views<'a>, ViewFail>
    requires zones { length tags.now.zones ≡ length graph.now.nets }
    requires routers { length tags.now.routers ≡ length (policy_of topo).routers }
    ensures policy { IfOk result (λ v. (seen_of v).policy ≡ policy_of topo.entry) }
    ensures views { IfOk result (λ v. (seen_of v).views ≡ tags.now) }
    ensures apart { IfOk result (λ v. AreAllApart (policy_of topo.entry) tags.now) }
    ensures shared { IfOk result (λ v. ShareTables (all_views tags.now) (table_numbers v)) }
    ensures refused { IfErr result (RefusesViews (policy_of topo.entry) tags.now) }
{
    let zones = graph.count();
    let count = zones as usize + topo.routers().len();
    let (tables, places) = match place_all(alloc, topo, tags, zones, count) {
        Ok(found) => found,
        Err(fail) => return Err(fail),
    };
    let zones = zones as usize;
    Ok(Views {
        topo,
        tables,
        places,
        zones,
    })
}
