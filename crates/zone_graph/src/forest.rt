ghost use Rattle.std.specs.Prelude.{◌≡◌, ◌≢◌, ◌<◌, ◌≤◌, ℕ, false, length, IfOk, slice_index};
ghost use Rattle.std.specs.List.{All};
ghost use Rattle.policy_model.specs.Policy.{Policy, net_at, router_at, is_managed};
ghost use Rattle.policy_model.specs.Tags.{ifaces_of};
ghost use Rattle.policy_model.specs.Zones.{AreJoined};
ghost use Rattle.topology.specs.View.{policy_of};
ghost use Rattle.zone_graph.specs.Forest.{IsForest, AreTied, KeepsTies, IsRoot, AllTied, AreAllTied};

use spoc_base::{NoMemory, RouterId};
use std::alloc::Global;
use topology::Topo;

// Points a network to where its parent points.
fn halve(topo: Topo<'_>, parents: &mut [u32], at: u32) -> u32
    requires forest { IsForest (policy_of topo) parents.old }
    requires there { at < length parents.old }
    requires no_root { slice_index parents.old at ≢ at }
    ensures forest { IsForest (policy_of topo.entry) parents.new }
    ensures ties { KeepsTies parents.old parents.new }
    ensures tied { AreTied parents.new at result }
    ensures joined { AreJoined (policy_of topo.entry) at result }
    ensures lower { result < at }
    ensures roots { (k : ℕ) → IsRoot parents.old k → IsRoot parents.new k }
{
    let next = parents[parents[at as usize] as usize];
    parents[at as usize] = next;
    next
}

// The root of a network's tree. Paths are halved on the way.
fn find(topo: Topo<'_>, parents: &mut [u32], n: u32) -> u32
    requires forest { IsForest (policy_of topo) parents.old }
    requires there { n < length parents.old }
    ensures forest { IsForest (policy_of topo.entry) parents.new }
    ensures ties { KeepsTies parents.old parents.new }
    ensures root { IsRoot parents.new result }
    ensures roots { (k : ℕ) → IsRoot parents.old k → IsRoot parents.new k }
    ensures tied { AreTied parents.new n result }
    ensures joined { AreJoined (policy_of topo.entry) n result }
{
    let mut at = n;
    while parents[at as usize] != at {
        at = halve(topo, parents, at);
    }
    at
}

// Points the higher of two roots to the lower.
fn link(topo: Topo<'_>, parents: &mut [u32], a: u32, b: u32)
    requires forest { IsForest (policy_of topo) parents.old }
    requires first { IsRoot parents.old a }
    requires second { IsRoot parents.old b }
    requires joined { AreJoined (policy_of topo) a b }
    requires order { a ≤ b }
    ensures forest { IsForest (policy_of topo.entry) parents.new }
    ensures ties { KeepsTies parents.old parents.new }
    ensures tied { AreTied parents.new a b }
{
    parents[b as usize] = a;
}

// Ties two networks that are joined.
fn join(topo: Topo<'_>, parents: &mut [u32], a: u32, b: u32)
    requires forest { IsForest (policy_of topo) parents.old }
    requires first { a < length parents.old }
    requires second { b < length parents.old }
    requires joined { AreJoined (policy_of topo) a b }
    ensures forest { IsForest (policy_of topo.entry) parents.new }
    ensures ties { KeepsTies parents.old parents.new }
    ensures tied { AreTied parents.new a b }
{
    let x = find(topo, parents, a);
    let y = find(topo, parents, b);
    if x <= y {
        link(topo, parents, x, y);
    } else {
        link(topo, parents, y, x);
    }
}

// The network at which a router's k-th interface stands.
fn net_in(topo: Topo<'_>, r: RouterId, k: usize) -> u32
    requires there { r.0 < length (policy_of topo).routers }
    requires place { k < length (ifaces_of (policy_of topo) r.0) }
    ensures value { result ≡ net_at (policy_of topo.entry) (slice_index (ifaces_of (policy_of topo.entry) r.0) k) }
    ensures below { result < length (policy_of topo.entry).nets }
{
    let i = topo.ifs_of(r)[k];
    topo.iface(i).net.0
}

// Ties the networks of an unmanaged router's interfaces.
fn join_router(topo: Topo<'_>, parents: &mut [u32], r: RouterId)
    requires forest { IsForest (policy_of topo) parents.old }
    requires there { r.0 < length (policy_of topo).routers }
    requires unmanaged { is_managed (policy_of topo) r.0 ≡ false }
    ensures forest { IsForest (policy_of topo.entry) parents.new }
    ensures ties { KeepsTies parents.old parents.new }
    ensures tied { AllTied (policy_of topo.entry) parents.new (ifaces_of (policy_of topo.entry) r.0) }
{
    let count = row_length(topo, r);
    for k in 1..count {
        let a = net_in(topo, r, k - 1);
        let b = net_in(topo, r, k);
        join(topo, parents, a, b);
    }
}

fn row_length(topo: Topo<'_>, r: RouterId) -> usize
    requires { r.0 < length (policy_of topo).routers }
    ensures { result ≡ length (ifaces_of (policy_of topo.entry) r.0) }
{
    topo.ifs_of(r).len()
}

/// How many networks there are.
pub(crate) fn net_count(topo: Topo<'_>) -> u32
    ensures { result ≡ length (policy_of topo.entry).nets }
{
    topo.nets().len() as u32
}

/// How many routers there are.
pub(crate) fn router_count(topo: Topo<'_>) -> u32
    ensures { result ≡ length (policy_of topo.entry).routers }
{
    topo.routers().len() as u32
}

/// How many interfaces there are.
pub(crate) fn iface_count(topo: Topo<'_>) -> u32
    ensures { result ≡ length (policy_of topo.entry).ifaces }
{
    topo.ifaces().len() as u32
}

// Each network alone.
fn singles(alloc: Global, topo: Topo<'_>) -> Result<Vec<u32>, NoMemory>
    ensures { IfOk result (λ parents. IsForest (policy_of topo.entry) parents.items) }
{
    let mut parents = Vec::new(alloc);
    for n in 0..net_count(topo) {
        parents.push(n)?;
    }
    Ok(parents)
}

pub(crate) fn is_managed_router(topo: Topo<'_>, r: RouterId) -> bool
    requires { r.0 < length (policy_of topo).routers }
    ensures { result ≡ is_managed (policy_of topo.entry) r.0 }
{
    topo.router(r).device.is_some()
}

// Ties the networks of a router's interfaces, where it isn't managed.
fn join_unmanaged(topo: Topo<'_>, parents: &mut [u32], r: RouterId)
    requires forest { IsForest (policy_of topo) parents.old }
    requires there { r.0 < length (policy_of topo).routers }
    ensures forest { IsForest (policy_of topo.entry) parents.new }
    ensures ties { KeepsTies parents.old parents.new }
    ensures tied { is_managed (policy_of topo.entry) r.0 ≡ false → AllTied (policy_of topo.entry) parents.new (ifaces_of (policy_of topo.entry) r.0) }
{
    if is_managed_router(topo, r) {
        return;
    }
    join_router(topo, parents, r);
}

// Ties the networks of all unmanaged routers.
fn join_all(topo: Topo<'_>, parents: &mut [u32])
    requires { IsForest (policy_of topo) parents.old }
    ensures forest { IsForest (policy_of topo.entry) parents.new }
    ensures tied { AreAllTied (policy_of topo.entry) parents.new }
{
    for r in 0..router_count(topo) {
        join_unmanaged(topo, parents, RouterId(r));
    }
}

/// The networks, each pointing to itself or to a lower one of its zone. All of a zone are tied.
pub(crate) fn forest(alloc: Global, topo: Topo<'_>) -> Result<Vec<u32>, NoMemory>
    ensures forest { IfOk result (λ parents. IsForest (policy_of topo.entry) parents.items) }
    ensures tied { IfOk result (λ parents. AreAllTied (policy_of topo.entry) parents.items) }
{
    let mut parents = singles(alloc, topo)?;
    join_all(topo, &mut parents);
    Ok(parents)
}
