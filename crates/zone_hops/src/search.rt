ghost use Rattle.std.specs.Prelude.{◌≡◌, ◌≢◌, if◌then◌else◌, ◌++◌, ◌<◌, [], ◌∷◌, true, length, set, IfOk, IfSome, IfNone};
ghost use Rattle.policy_model.specs.Policy.{net_at, router_at, is_managed};
ghost use Rattle.topology.specs.View.{policy_of};
ghost use Rattle.topology.specs.Kept.{ifaces_at};
ghost use Rattle.group_expand.specs.Spread.{AreUnmarked, marked};
ghost use Rattle.zone_hops.specs.Search.{numbers_of, AreBeginnings, Goes, Grown, KeepsAt, KeepsBy, KeepsFrom, KeepsNet, KeepsRow};

use spoc_base::{IfId, NetId, NoMemory, RouterId};
use topology::Topo;

/// The router of an interface.
pub(crate) fn router_of_iface(topo: Topo<'_>, i: IfId) -> RouterId
    requires { i.0 < length (policy_of topo).ifaces }
    ensures value { result.0 ≡ router_at (policy_of topo.entry) i.0 }
    ensures below { result.0 < length (policy_of topo.entry).routers }
{
    topo.iface(i).router
}

// The network at which an interface stands.
fn net_of_iface(topo: Topo<'_>, i: IfId) -> NetId
    requires { i.0 < length (policy_of topo).ifaces }
    ensures value { result.0 ≡ net_at (policy_of topo.entry) i.0 }
    ensures below { result.0 < length (policy_of topo.entry).nets }
{
    topo.iface(i).net
}

fn is_managed_router(topo: Topo<'_>, r: RouterId) -> bool
    requires { r.0 < length (policy_of topo).routers }
    ensures { result ≡ is_managed (policy_of topo.entry) r.0 }
{
    topo.router(r).device.is_some()
}

// Marks a router, and puts it to those left where it had no mark.
fn mark(passed: &mut [bool], left: &mut Vec<RouterId>, r: RouterId) -> Result<(), NoMemory>
    requires { r.0 < length passed.old }
    ensures passed { IfOk result (λ done. passed.new ≡ set passed.old r.0 true) }
    ensures left { IfOk result (λ done. numbers_of left.new.items ≡ (if marked passed.old r.0 then numbers_of left.old.items else numbers_of left.old.items ++ r.0 ∷ [])) }
{
    if passed[r.0 as usize] {
        return Ok(());
    }
    left.push(r)?;
    passed[r.0 as usize] = true;
    Ok(())
}

// Marks the router of an interface, unless it is managed.
fn reach(
    topo: Topo<'_>,
    i: IfId,
    passed: &mut [bool],
    left: &mut Vec<RouterId>,
) -> Result<(), NoMemory>
    requires there { i.0 < length (policy_of topo).ifaces }
    requires routers { length passed.old ≡ length (policy_of topo).routers }
    ensures grown { IfOk result (λ done. Grown passed.old (numbers_of left.old.items) passed.new (numbers_of left.new.items)) }
    ensures keeps { IfOk result (λ done. KeepsAt (policy_of topo.entry) i.0 passed.old (numbers_of left.old.items) passed.new (numbers_of left.new.items)) }
{
    let r = router_of_iface(topo, i);
    if is_managed_router(topo, r) {
        return Ok(());
    }
    mark(passed, left, r)?;
    Ok(())
}

// Marks the unmanaged routers at a network.
fn look_round(
    topo: Topo<'_>,
    n: NetId,
    passed: &mut [bool],
    left: &mut Vec<RouterId>,
) -> Result<(), NoMemory>
    requires there { n.0 < length (policy_of topo).nets }
    requires routers { length passed.old ≡ length (policy_of topo).routers }
    ensures grown { IfOk result (λ done. Grown passed.old (numbers_of left.old.items) passed.new (numbers_of left.new.items)) }
    ensures keeps { IfOk result (λ done. KeepsRow (policy_of topo.entry) n.0 passed.old (numbers_of left.old.items) (ifaces_at (policy_of topo.entry) n.0) passed.new (numbers_of left.new.items) []) }
{
    let row = topo.ifs_at(n);
    for i in row {
        reach(topo, *i, passed, left)?;
    }
    Ok(())
}

// Marks a network and the unmanaged routers there, unless it is marked, or the one to stay away
// from.
fn visit(
    topo: Topo<'_>,
    at: NetId,
    n: NetId,
    seen: &mut [bool],
    passed: &mut [bool],
    left: &mut Vec<RouterId>,
) -> Result<(), NoMemory>
    requires there { n.0 < length (policy_of topo).nets }
    requires nets { length seen.old ≡ length (policy_of topo).nets }
    requires routers { length passed.old ≡ length (policy_of topo).routers }
    ensures goes { IfOk result (λ done. Goes seen.old passed.old (numbers_of left.old.items) seen.new passed.new (numbers_of left.new.items)) }
    ensures keeps { IfOk result (λ done. KeepsNet (policy_of topo.entry) at.0 n.0 seen.old passed.old (numbers_of left.old.items) seen.new passed.new (numbers_of left.new.items)) }
    ensures seen { IfOk result (λ done. n.0 ≢ at.0 → marked seen.new n.0 ≡ true) }
{
    if n.0 == at.0 {
        return Ok(());
    }
    if seen[n.0 as usize] {
        return Ok(());
    }
    look_round(topo, n, passed, left)?;
    seen[n.0 as usize] = true;
    Ok(())
}

// Visits the network at which an interface of a marked router stands.
fn visit_by(
    topo: Topo<'_>,
    at: NetId,
    j: IfId,
    seen: &mut [bool],
    passed: &mut [bool],
    left: &mut Vec<RouterId>,
) -> Result<(), NoMemory>
    requires there { j.0 < length (policy_of topo).ifaces }
    requires nets { length seen.old ≡ length (policy_of topo).nets }
    requires routers { length passed.old ≡ length (policy_of topo).routers }
    ensures goes { IfOk result (λ done. Goes seen.old passed.old (numbers_of left.old.items) seen.new passed.new (numbers_of left.new.items)) }
    ensures keeps { IfOk result (λ done. KeepsBy (policy_of topo.entry) at.0 (router_at (policy_of topo.entry) j.0) seen.old passed.old (numbers_of left.old.items) seen.new passed.new (numbers_of left.new.items)) }
    ensures seen { IfOk result (λ done. net_at (policy_of topo.entry) j.0 ≢ at.0 → marked seen.new (net_at (policy_of topo.entry) j.0) ≡ true) }
{
    visit(topo, at, net_of_iface(topo, j), seen, passed, left)?;
    Ok(())
}

// Visits the networks of a marked router.
fn fan_out(
    topo: Topo<'_>,
    at: NetId,
    r: RouterId,
    seen: &mut [bool],
    passed: &mut [bool],
    left: &mut Vec<RouterId>,
) -> Result<(), NoMemory>
    requires there { r.0 < length (policy_of topo).routers }
    requires nets { length seen.old ≡ length (policy_of topo).nets }
    requires routers { length passed.old ≡ length (policy_of topo).routers }
    ensures goes { IfOk result (λ done. Goes seen.old passed.old (numbers_of left.old.items) seen.new passed.new (numbers_of left.new.items)) }
    ensures keeps { IfOk result (λ done. KeepsFrom (policy_of topo.entry) at.0 r.0 seen.old passed.old (numbers_of left.old.items) seen.new passed.new (numbers_of left.new.items)) }
{
    let row = topo.ifs_of(r);
    for j in row {
        visit_by(topo, at, *j, seen, passed, left)?;
    }
    Ok(())
}

// The last router of those left, which is taken from them.
fn next_router(left: &mut Vec<RouterId>) -> Option<RouterId>
    ensures some { IfSome result (λ r. left.old.items ≡ left.new.items ++ r ∷ []) }
    ensures none { IfNone result (left.old.items ≡ []) }
{
    left.pop()
}

/// Marks the unmanaged routers from which the target is reached without passing the network `at`.
pub(crate) fn fill(
    topo: Topo<'_>,
    at: NetId,
    target: NetId,
    seen: &mut [bool],
    passed: &mut [bool],
    left: &mut Vec<RouterId>,
) -> Result<(), NoMemory>
    requires there { target.0 < length (policy_of topo).nets }
    requires apart { at.0 ≢ target.0 }
    requires seen { AreUnmarked seen.old (length (policy_of topo).nets) }
    requires passed { AreUnmarked passed.old (length (policy_of topo).routers) }
    requires left { left.old.items ≡ [] }
    ensures { IfOk result (λ done. AreBeginnings (policy_of topo.entry) at.0 target.0 passed.new) }
{
    visit(topo, at, target, seen, passed, left)?;
    while let Some(r) = next_router(left) {
        fan_out(topo, at, r, seen, passed, left)?;
    }
    Ok(())
}
