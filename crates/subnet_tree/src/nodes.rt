ghost use Rattle.std.specs.Prelude.{◌≡◌, ◌<◌, ◌≤◌, ℕ, suc, map, length, IfOk, IfSome, option_map, nat_eq, OnOk, ◌++◌, ◌∷◌, [], ◌==◌, if◌then◌else◌};
ghost use Rattle.spoc_base.specs.Address.{is_inside};
ghost use Rattle.std.specs.HashMap.{get};
ghost use Rattle.spoc_base.specs.Shown.{cidr_of};
ghost use Rattle.subnet_tree.specs.Entries.{AreInOrder};
ghost use Rattle.subnet_tree.specs.Knots.{knot_at, last_holding, AreKnots, entry_of_knot, picked, assigned, above_at};
ghost use Rattle.subnet_tree.specs.Shown.{entry_of, knot_of, net_of};

use crate::order::Item;
use spoc_base::{Addr, NetId, NoMemory, Prefix};
use std::alloc::Global;
use std::collections::HashMap;

/// A network of the tree, with the place of the next enclosing one.
#[derive(Clone, Copy)]
pub(crate) struct Node {
    pub(crate) id: NetId,
    pub(crate) prefix: Prefix,
    pub(crate) above: Option<usize>,
}

/// The place of the last node up to `start` that holds the address.
pub(crate) fn climb(nodes: &[Node], start: usize, a: Addr) -> Option<usize>
    requires start { start < length nodes.now }
    requires knots { AreKnots (map knot_of nodes.now) }
    requires low { (knot_at (map knot_of nodes.now) start).prefix.net ≤ a.0 }
    ensures { result ≡ last_holding (map knot_of nodes.now) a.0 (suc start) }
{
    let mut at = start;
    'up: loop {
        let node = nodes[at];
        if node.prefix.holds(a) {
            return Some(at);
        }
        match node.above {
            Some(up) => at = up,
            None => return None,
        }
    }
}

/// The place of the last of the first `end` nodes that holds the address.
pub(crate) fn last_of(nodes: &[Node], end: usize, a: Addr) -> Option<usize>
    requires end { end ≤ length nodes.now }
    requires knots { AreKnots (map knot_of nodes.now) }
    requires low { (k : ℕ) → suc k ≡ end → (knot_at (map knot_of nodes.now) k).prefix.net ≤ a.0 }
    ensures last { result ≡ last_holding (map knot_of nodes.now) a.0 end }
    ensures below { IfSome result (λ i. i < end) }
{
    if end == 0 {
        None
    } else {
        climb(nodes, end - 1, a)
    }
}

/// The items, which are in order, each with the place of the one above it.
pub(crate) fn nodes_of(alloc: Global, sorted: &[Item]) -> Result<Vec<Node>, NoMemory>
    requires { AreInOrder (map entry_of sorted.now) }
    ensures entries { IfOk result (λ v. map entry_of_knot (map knot_of v.items) ≡ map entry_of sorted.now) }
    ensures knots { IfOk result (λ v. AreKnots (map knot_of v.items)) }
{
    let mut nodes = Vec::new(alloc);
    for item in sorted {
        let (id, prefix) = *item;
        let above = last_of(&nodes, nodes.len(), prefix.net());
        nodes.push(Node { id, prefix, above })?;
    }
    Ok(nodes)
}

/// How many nodes begin at the address or below it.
pub(crate) fn end_at(nodes: &[Node], a: Addr) -> usize
    requires { AreKnots (map knot_of nodes.now) }
    ensures bound { result ≤ length nodes.now }
    ensures low { (k : ℕ) → k < result → (knot_at (map knot_of nodes.now) k).prefix.net ≤ a.0 }
    ensures high { (k : ℕ) → result ≤ k → k < length nodes.now → a.0 < (knot_at (map knot_of nodes.now) k).prefix.net }
{
    nodes.partition_point(|node| node.prefix.net().0 <= a.0)
}

/// How many nodes begin below the address.
pub(crate) fn start_at(nodes: &[Node], a: Addr) -> usize
    requires { AreKnots (map knot_of nodes.now) }
    ensures bound { result ≤ length nodes.now }
    ensures low { (k : ℕ) → k < result → (knot_at (map knot_of nodes.now) k).prefix.net < a.0 }
{
    nodes.partition_point(|node| node.prefix.net().0 < a.0)
}

/// The network of the last node that holds the address.
pub(crate) fn place_at(nodes: &[Node], a: Addr) -> Option<NetId>
    requires { AreKnots (map knot_of nodes.now) }
    ensures { option_map net_of result ≡ option_map (λ i. (knot_at (map knot_of nodes.now) i).net) (last_holding (map knot_of nodes.now) a.0 (length nodes.now)) }
{
    match last_of(nodes, end_at(nodes, a), a) {
        Some(at) => Some(nodes[at].id),
        None => None,
    }
}

/// The networks inside the prefix, in the order of the nodes.
pub(crate) fn nets_in(alloc: Global, nodes: &[Node], p: Prefix) -> Result<Vec<NetId>, NoMemory>
    requires { AreKnots (map knot_of nodes.now) }
    ensures { IfOk result (λ v. map net_of v.items ≡ picked (cidr_of p) (map knot_of nodes.now) (length nodes.now)) }
{
    let mut found = Vec::new(alloc);
    let start = start_at(nodes, p.net());
    let end = end_at(nodes, p.range().hi());
    for i in start..end {
        push_inside(&mut found, nodes[i], p)?;
    }
    Ok(found)
}

/// The network above each network that has one.
pub(crate) fn parents_of(alloc: Global, nodes: &[Node]) -> Result<HashMap<u32, NetId>, NoMemory>
    requires { AreKnots (map knot_of nodes.now) }
    ensures { IfOk result (λ m. (n : ℕ) → option_map net_of (get nat_eq m n) ≡ assigned (map knot_of nodes.now) n (length nodes.now)) }
{
    let mut parents = HashMap::new(alloc);
    for node in nodes {
        put_above(&mut parents, nodes, *node)?;
    }
    Ok(parents)
}

/// Puts the network behind the others if it is inside the prefix.
fn push_inside(found: &mut Vec<NetId>, node: Node, p: Prefix) -> Result<(), NoMemory>
    ensures { OnOk result (map net_of found.new.items ≡ map net_of found.old.items ++ (if is_inside (cidr_of node.prefix) (cidr_of p) then node.id.0 ∷ [] else [])) }
{
    if node.prefix.inside(p) {
        found.push(node.id)?;
    }
    Ok(())
}

/// Notes the network above this one, if there is one.
fn put_above(parents: &mut HashMap<u32, NetId>, nodes: &[Node], node: Node) -> Result<(), NoMemory>
    requires { IfSome node.above (λ at. at < length nodes.now) }
    ensures { OnOk result ((n : ℕ) → option_map net_of (get nat_eq parents.new n) ≡ (if node.id.0 == n then above_at (map knot_of nodes.now) node.above (option_map net_of (get nat_eq parents.old n)) else option_map net_of (get nat_eq parents.old n))) }
{
    if let Some(at) = node.above {
        parents.insert(node.id.0, nodes[at].id)?;
    }
    Ok(())
}
