ghost use Rattle.std.specs.Prelude.{◌≡◌, ◌≢◌, if◌then◌else◌, ◌++◌, ◌<◌, [], ◌∷◌, length, map, filter, IfOk};
ghost use Rattle.policy_model.specs.Policy.{router_at};
ghost use Rattle.policy_model.specs.Routes.{first_hops as hops_between};
ghost use Rattle.topology.specs.View.{policy_of};
ghost use Rattle.topology.specs.Kept.{ifaces_at};
ghost use Rattle.group_expand.specs.Seen.{iface_numbers};
ghost use Rattle.group_expand.specs.Spread.{AreUnmarked, marked};
ghost use Rattle.zone_hops.specs.Search.{AreBeginnings};

use crate::search::{fill, router_of_iface};
use spoc_base::{IfId, NetId, NoMemory};
use std::alloc::Global;
use topology::Topo;

// So many, none with a mark.
fn unmarked(alloc: Global, count: usize) -> Result<Vec<bool>, NoMemory>
    ensures { IfOk result (λ marks. AreUnmarked marks.items count) }
{
    let mut marks = Vec::new(alloc);
    for _ in 0..count {
        marks.push(false)?;
    }
    Ok(marks)
}

// How many networks there are.
fn net_count(topo: Topo<'_>) -> usize
    ensures { result ≡ length (policy_of topo.entry).nets }
{
    topo.nets().len()
}

// How many routers there are.
fn router_count(topo: Topo<'_>) -> usize
    ensures { result ≡ length (policy_of topo.entry).routers }
{
    topo.routers().len()
}

// A mark for each unmanaged router from which the target is reached without passing the network
// `at`.
fn beginnings(
    alloc: Global,
    topo: Topo<'_>,
    at: NetId,
    target: NetId,
) -> Result<Vec<bool>, NoMemory>
    requires there { target.0 < length (policy_of topo).nets }
    requires apart { at.0 ≢ target.0 }
    ensures { IfOk result (λ passed. AreBeginnings (policy_of topo.entry) at.0 target.0 passed.items) }
{
    let mut seen = unmarked(alloc, net_count(topo))?;
    let mut passed = unmarked(alloc, router_count(topo))?;
    let mut left = Vec::new(alloc);
    fill(topo, at, target, &mut seen, &mut passed, &mut left)?;
    Ok(passed)
}

// One interface more, where its router is marked.
fn push_marked(
    topo: Topo<'_>,
    passed: &[bool],
    i: IfId,
    hops: &mut Vec<IfId>,
) -> Result<(), NoMemory>
    requires there { i.0 < length (policy_of topo).ifaces }
    requires routers { length passed.now ≡ length (policy_of topo).routers }
    ensures { IfOk result (λ done. iface_numbers hops.new.items ≡ (if marked passed.now (router_at (policy_of topo.entry) i.0) then iface_numbers hops.old.items ++ i.0 ∷ [] else iface_numbers hops.old.items)) }
{
    let r = router_of_iface(topo, i);
    if !passed[r.0 as usize] {
        return Ok(());
    }
    hops.push(i)?;
    Ok(())
}

// The interfaces at a network whose routers are marked, by number.
fn marked_ifaces(
    alloc: Global,
    topo: Topo<'_>,
    at: NetId,
    passed: &[bool],
) -> Result<Vec<IfId>, NoMemory>
    requires there { at.0 < length (policy_of topo).nets }
    requires routers { length passed.now ≡ length (policy_of topo).routers }
    ensures { IfOk result (λ hops. iface_numbers hops.items ≡ filter (λ i. marked passed.now (router_at (policy_of topo.entry) i)) (ifaces_at (policy_of topo.entry) at.0)) }
{
    let row = topo.ifs_at(at);
    let mut hops = Vec::new(alloc);
    for i in row {
        push_marked(topo, passed, *i, &mut hops)?;
    }
    Ok(hops)
}

/// The interfaces of unmanaged routers at network `at` by which packets go on to another network,
/// by number: those that begin a way to `target` through unmanaged routers that passes no network
/// and no router twice. There are none where the two networks lie in different zones. Only want
/// of memory is an error.
///
/// No way is listed: the routers are marked from which the target is reached without passing the
/// first network. So it takes time in proportion to the interfaces of the target's zone, besides
/// a mark for each network and router of the policy.
pub fn first_hops(
    alloc: Global,
    topo: Topo<'_>,
    at: NetId,
    target: NetId,
) -> Result<Vec<IfId>, NoMemory>
    requires first { at.0 < length (policy_of topo).nets }
    requires second { target.0 < length (policy_of topo).nets }
    requires apart { at.0 ≢ target.0 }
    ensures { IfOk result (λ hops. map (λ i. i.0) hops.items ≡ hops_between (policy_of topo.entry) at.0 target.0) }
{
    let passed = beginnings(alloc, topo, at, target)?;
    marked_ifaces(alloc, topo, at, &passed)
}
