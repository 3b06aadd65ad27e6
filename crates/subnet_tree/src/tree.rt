ghost use Rattle.std.specs.Prelude.{◌≡◌, map, option_map, IfOk, IfErr, OnOk};
ghost use Rattle.spoc_base.specs.Shown.{cidr_of};
ghost use Rattle.subnet_tree.specs.Entries.{HaveDistinctNumbers, HaveDistinctPrefixes, place_in, parent_in, nets_inside};
ghost use Rattle.subnet_tree.specs.Refusals.{Refuses};
ghost use Rattle.subnet_tree.specs.Shown.{entry_of, net_of};

use crate::fail::TreeFail;
use crate::nodes::{Node, nets_in, nodes_of, parents_of, place_at};
use crate::order::{Item, copy_of, in_order, least_same};
use spoc_base::{Addr, NetId, NoMemory, Prefix};
use std::alloc::Global;
use std::collections::HashMap;
use std::marker::Model;

/// Networks with their prefixes, ready to be asked. Contracts see the list of the items from which
/// it was built.
#[derive(Drop)]
pub struct Tree {
    items: Vec<Item>,
    nodes: Vec<Node>,
    parents: HashMap<u32, NetId>,
}

impl Model for Tree {
    ghost use Rattle.std.specs.Prelude.{List, map};
    ghost use Rattle.subnet_tree.specs.Entries.{Entry};

    ghost Value = { List Entry };

    ghost use Rattle.subnet_tree.specs.Shown.{entry_of, knot_of};
    ghost use Rattle.subnet_tree.specs.Trees.{IsTree};

    ghost view = { λ t. map entry_of t.items.items };

    ghost invariant = { λ t. IsTree (map entry_of t.items.items) (map knot_of t.nodes.items) t.parents };
}

impl Tree {
    /// A tree of the items, of which no two have one number. `Same` comes exactly where two have
    /// one prefix.
    pub fn build(alloc: Global, items: &[(NetId, Prefix)]) -> Result<Tree, TreeFail>
        requires { HaveDistinctNumbers (map entry_of items.now) }
        ensures items { IfOk result (λ tree. tree ≡ map entry_of items.now) }
        ensures apart { OnOk result (HaveDistinctPrefixes (map entry_of items.now)) }
        ensures same { IfErr result (Refuses (map entry_of items.now)) }
    {
        let sorted = in_order(alloc, items)?;
        match least_same(&sorted) {
            Some((n, m)) => return Err(TreeFail::Same(n, m)),
            None => {}
        }
        let nodes = nodes_of(alloc, &sorted)?;
        let parents = parents_of(alloc, &nodes)?;
        let items = copy_of(alloc, items)?;
        Ok(Tree {
            items,
            nodes,
            parents,
        })
    }

    /// The network with the longest prefix that holds the address. `None` exactly where none holds
    /// it.
    pub fn place(&self, a: Addr) -> Option<NetId>
        ensures { option_map net_of result ≡ place_in self.now a.0 }
    {
        place_at(&self.nodes, a)
    }

    /// The network with the longest prefix that encloses that of `n`. `None` exactly where none
    /// does, or where `n` is no network of the tree.
    pub fn parent(&self, n: NetId) -> Option<NetId>
        ensures { option_map net_of result ≡ parent_in self.now n.0 }
    {
        self.parents.get(&n.0).copied()
    }

    /// All networks whose prefixes are inside `p`, by number. Equal prefixes count.
    pub fn inside(&self, alloc: Global, p: Prefix) -> Result<Vec<NetId>, NoMemory>
        ensures { IfOk result (λ v. map net_of v.items ≡ nets_inside self.now (cidr_of p)) }
    {
        let mut found = nets_in(alloc, &self.nodes, p)?;
        found.sort_unstable_by_key(|n| n.0);
        Ok(found)
    }
}
