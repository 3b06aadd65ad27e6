ghost use Rattle.std.specs.Prelude.{◌≡◌, ◌++◌, ◌+◌, ◌∷◌, [], ◌<◌, ◌≤◌, ℕ, ◌==◌, length, map, filter, IfOk, set, slice_index, slice_index_or};
ghost use Rattle.policy_model.specs.Policy.{net_at, router_at, is_managed};
ghost use Rattle.policy_model.specs.Lists.{numbers_below};
ghost use Rattle.topology.specs.View.{policy_of};
ghost use Rattle.zone_graph.specs.Grouped.{row_items, HasGroups, AreEmpty, AreRowsOf, nets_below, doors_below};

use crate::forest::{iface_count, is_managed_router};
use spoc_base::{IfId, NetId, NoMemory};
use std::alloc::Global;
use topology::Topo;

// Rows without items.
fn empty_rows<T: Drop>(alloc: Global, count: u32) -> Result<Vec<Vec<T>>, NoMemory>
    ensures { IfOk result (λ rows. AreEmpty (row_items rows.items) count) }
{
    let mut rows = Vec::new(alloc);
    for _ in 0..count {
        let row: Vec<T> = Vec::new(alloc);
        rows.push(row)?;
    }
    Ok(rows)
}

// Puts an item at the end of a row.
fn add<T: Drop>(rows: &mut [Vec<T>], z: u32, x: T) -> Result<(), NoMemory>
    requires { z < length rows.old }
    ensures count { length rows.new ≡ length rows.old }
    ensures put { IfOk result (λ done. row_items rows.new ≡ set (row_items rows.old) z (slice_index_or (row_items rows.old) z [] ++ x ∷ [])) }
{
    rows[z as usize].push(x)?;
    Ok(())
}

// Puts each network into its zone's row.
fn fill_nets(rows: &mut [Vec<NetId>], zones: &[u32]) -> Result<(), NoMemory>
    requires empty { AreEmpty (row_items rows.old) (length rows.old) }
    requires zones { AreRowsOf zones.now (length rows.old) }
    requires few { length zones.now ≤ 65535 }
    ensures groups { IfOk result (λ done. HasGroups (λ n. n.0) (row_items rows.new) (nets_below zones.now (length zones.now))) }
    ensures count { length rows.new ≡ length rows.old }
{
    for n in 0..zones.len() as u32 {
        add(rows, zones[n as usize], NetId(n))?;
    }
    Ok(())
}

// The network at which an interface stands.
fn net_of(topo: Topo<'_>, i: u32) -> u32
    requires { i < length (policy_of topo).ifaces }
    ensures value { result ≡ net_at (policy_of topo.entry) i }
    ensures below { result < length (policy_of topo.entry).nets }
{
    topo.iface(IfId(i)).net.0
}

// Whether an interface is of a managed router.
fn is_door(topo: Topo<'_>, i: u32) -> bool
    requires { i < length (policy_of topo).ifaces }
    ensures { result ≡ is_managed (policy_of topo.entry) (router_at (policy_of topo.entry) i) }
{
    is_managed_router(topo, topo.iface(IfId(i)).router)
}

// Puts an interface of a managed router into its zone's row.
fn add_door(topo: Topo<'_>, rows: &mut [Vec<IfId>], zones: &[u32], i: u32) -> Result<(), NoMemory>
    requires there { i < length (policy_of topo).ifaces }
    requires each { length zones.now ≡ length (policy_of topo).nets }
    requires zones { AreRowsOf zones.now (length rows.old) }
    requires so_far { HasGroups (λ i. i.0) (row_items rows.old) (doors_below (policy_of topo) zones.now i) }
    ensures groups { IfOk result (λ done. HasGroups (λ i. i.0) (row_items rows.new) (doors_below (policy_of topo.entry) zones.now (i + 1))) }
    ensures count { length rows.new ≡ length rows.old }
{
    if !is_door(topo, i) {
        return Ok(());
    }
    let n = net_of(topo, i);
    add(rows, zones[n as usize], IfId(i))?;
    Ok(())
}

// Puts each interface of a managed router into its zone's row.
fn fill_doors(topo: Topo<'_>, rows: &mut [Vec<IfId>], zones: &[u32]) -> Result<(), NoMemory>
    requires empty { AreEmpty (row_items rows.old) (length rows.old) }
    requires each { length zones.now ≡ length (policy_of topo).nets }
    requires zones { AreRowsOf zones.now (length rows.old) }
    ensures groups { IfOk result (λ done. HasGroups (λ i. i.0) (row_items rows.new) (doors_below (policy_of topo.entry) zones.now (length (policy_of topo.entry).ifaces))) }
    ensures count { length rows.new ≡ length rows.old }
{
    for i in 0..iface_count(topo) {
        add_door(topo, rows, zones, i)?;
    }
    Ok(())
}

/// The networks of each zone, by number.
pub(crate) fn group_nets(
    alloc: Global,
    zones: &[u32],
    count: u32,
) -> Result<Vec<Vec<NetId>>, NoMemory>
    requires zones { AreRowsOf zones.now count }
    requires few { length zones.now ≤ 65535 }
    ensures groups { IfOk result (λ rows. HasGroups (λ n. n.0) (row_items rows.items) (nets_below zones.now (length zones.now))) }
    ensures count { IfOk result (λ rows. length rows.items ≡ count) }
{
    let mut rows = empty_rows(alloc, count)?;
    fill_nets(&mut rows, zones)?;
    Ok(rows)
}

/// The interfaces of managed routers in each zone, by number.
pub(crate) fn group_doors(
    alloc: Global,
    topo: Topo<'_>,
    zones: &[u32],
    count: u32,
) -> Result<Vec<Vec<IfId>>, NoMemory>
    requires each { length zones.now ≡ length (policy_of topo).nets }
    requires zones { AreRowsOf zones.now count }
    ensures groups { IfOk result (λ rows. HasGroups (λ i. i.0) (row_items rows.items) (doors_below (policy_of topo.entry) zones.now (length (policy_of topo.entry).ifaces))) }
    ensures count { IfOk result (λ rows. length rows.items ≡ count) }
{
    let mut rows = empty_rows(alloc, count)?;
    fill_doors(topo, &mut rows, zones)?;
    Ok(rows)
}
