ghost use Rattle.std.specs.Prelude.{◌≡◌, ◌∷◌, ◌++◌, ◌+◌, ◌<◌, [], ℕ, length, set, slice_index_or, IfOk, OnOk};
ghost use Rattle.topology.specs.View.{policy_of};
ghost use Rattle.zone_graph.specs.Grouped.{AreEmpty, HasGroups, row_items};
ghost use Rattle.group_expand.specs.Sets.{AreHosts, host_rows, hosts_below};

use spoc_base::{HostId, NoMemory};
use std::alloc::Global;
use topology::Topo;

/// Rows without items.
pub(crate) fn empty_rows<T: Drop>(alloc: Global, count: u32) -> Result<Vec<Vec<T>>, NoMemory>
    ensures { IfOk result (λ rows. AreEmpty (row_items rows.items) count) }
{
    let mut rows = Vec::new(alloc);
    for _ in 0..count {
        let row: Vec<T> = Vec::new(alloc);
        rows.push(row)?;
    }
    Ok(rows)
}

// Puts a host at the end of a row.
fn add(rows: &mut [Vec<HostId>], n: u32, host: HostId) -> Result<(), NoMemory>
    requires { n < length rows.old }
    ensures { OnOk result (row_items rows.new ≡ set (row_items rows.old) n (slice_index_or (row_items rows.old) n [] ++ host ∷ [])) }
{
    rows[n as usize].push(host)?;
    Ok(())
}

// Puts a host into its network's row.
fn add_host(topo: Topo<'_>, rows: &mut [Vec<HostId>], h: u32) -> Result<(), NoMemory>
    requires there { h < length (policy_of topo).hosts }
    requires each { length rows.old ≡ length (policy_of topo).nets }
    requires so_far { HasGroups (λ h. h.0) (row_items rows.old) (hosts_below (policy_of topo) h) }
    ensures { OnOk result (HasGroups (λ h. h.0) (row_items rows.new) (hosts_below (policy_of topo.entry) (h + 1))) }
{
    let host = topo.host(HostId(h));
    add(rows, host.net.0, HostId(h))?;
    Ok(())
}

// How many hosts there are.
fn host_count(topo: Topo<'_>) -> u32
    ensures { result ≡ length (policy_of topo.entry).hosts }
{
    topo.hosts().len() as u32
}

// How many networks there are.
fn net_count(topo: Topo<'_>) -> u32
    ensures { result ≡ length (policy_of topo.entry).nets }
{
    topo.nets().len() as u32
}

// Puts each host into its network's row.
fn fill_rows(topo: Topo<'_>, rows: &mut [Vec<HostId>]) -> Result<(), NoMemory>
    requires each { length rows.old ≡ length (policy_of topo).nets }
    requires empty { AreEmpty (row_items rows.old) (length (policy_of topo).nets) }
    ensures { OnOk result (HasGroups (λ h. h.0) (row_items rows.new) (hosts_below (policy_of topo.entry) (length (policy_of topo.entry).hosts))) }
{
    for h in 0..host_count(topo) {
        add_host(topo, rows, h)?;
    }
    Ok(())
}

/// The hosts of each network, by number.
pub(crate) fn host_rows(alloc: Global, topo: Topo<'_>) -> Result<Vec<Vec<HostId>>, NoMemory>
    ensures { IfOk result (λ rows. AreHosts (policy_of topo.entry) (host_rows rows.items)) }
{
    let mut rows = empty_rows(alloc, net_count(topo))?;
    fill_rows(topo, &mut rows)?;
    Ok(rows)
}
