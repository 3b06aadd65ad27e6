ghost use Rattle.std.specs.Prelude.{◌≡◌, ◌<◌, ◌≤◌, ℕ, ◌==◌, length, map, IfOk, IfErr, OnOk, IsTrue, ◌++◌, option_map, find};
ghost use Rattle.std.specs.List.{list_any};
ghost use Rattle.spoc_base.specs.Shown.{cidr_of};
ghost use Rattle.policy_model.specs.Lists.{has};
ghost use Rattle.policy_model.specs.Policy.{net_of};
ghost use Rattle.policy_model.specs.Places.{prefix_in};
ghost use Rattle.topology.specs.Sound.{keeps_length};
ghost use Rattle.topology.specs.View.{policy_of};
ghost use Rattle.subnet_tree.specs.Shown.{entry_of};
ghost use Rattle.nat_view.specs.Tables.{ArePrefixes, entries_of, entry_if};
ghost use Rattle.nat_view.specs.Shown.{numbers_of, nat_seen, cidrs_of, IsTableOf, RefusesTable};

use spoc_base::{NetId, NoMemory, Prefix, TagId};
use std::alloc::Global;
use subnet_tree::{Tree, TreeFail};
use topology::Topo;

/// The prefixes of all networks where some tags are in force, by number, with none where a network
/// is hidden, and the tree of those that are there.
#[derive(Drop)]
pub(crate) struct Table {
    pub(crate) tags: Vec<TagId>,
    pub(crate) seen: Vec<Option<Prefix>>,
    pub(crate) tree: Tree,
}

/// How many networks there are.
pub(crate) fn net_count(topo: Topo<'_>) -> u32
    ensures value { result ≡ length (policy_of topo.entry).nets }
    ensures few { result ≤ 65535 }
{
    topo.nets().len() as u32
}

// Whether the tag is one of these.
fn is_one_of(tags: &[TagId], tag: TagId) -> bool
    ensures { result ≡ list_any (λ t. t.0 == tag.0) tags.now }
{
    tags.iter().any(|t| t.0 == tag.0)
}

fn is_in_force(tags: &[TagId], tag: TagId) -> bool
    ensures { result ≡ has (numbers_of tags.now) tag.0 }
{
    is_one_of(tags, tag)
}

// The first of the translations whose tag is in force, with no prefix where it hides.
fn translation(nats: &[(TagId, Option<Prefix>)], tags: &[TagId]) -> Option<Option<Prefix>>
    ensures { option_map (option_map cidr_of) result ≡ option_map (λ nat. nat.1) (find (λ nat. has (numbers_of tags.now) nat.0) (map nat_seen nats.now)) }
{
    for nat in nats {
        if is_in_force(tags, nat.0) {
            return Some(nat.1);
        }
    }
    None
}

// The prefix of a network where the tags are in force, if it isn't hidden.
fn prefix_of(topo: Topo<'_>, tags: &[TagId], n: u32) -> Option<Prefix>
    requires { n < length (policy_of topo).nets }
    ensures value { prefix_in (policy_of topo.entry) (numbers_of tags.now) n ≡ option_map cidr_of result }
    ensures length { IsTrue (keeps_length (net_of (policy_of topo.entry) n).own (option_map cidr_of result)) }
{
    let net = topo.net(NetId(n));
    match translation(net.nats, tags) {
        Some(seen) => seen,
        None => Some(net.own),
    }
}

// The prefixes of all networks.
fn prefixes(alloc: Global, topo: Topo<'_>, tags: &[TagId]) -> Result<Vec<Option<Prefix>>, NoMemory>
    ensures { IfOk result (λ v. ArePrefixes (policy_of topo.entry) (numbers_of tags.now) (cidrs_of v.items)) }
{
    let mut seen = Vec::new(alloc);
    for n in 0..net_count(topo) {
        let prefix = prefix_of(topo, tags, n);
        seen.push(prefix)?;
    }
    Ok(seen)
}

// Adds an item where there is a prefix.
fn push_item(
    n: u32,
    prefix: Option<Prefix>,
    items: &mut Vec<(NetId, Prefix)>,
) -> Result<(), NoMemory>
    ensures { OnOk result (map entry_of items.new.items ≡ map entry_of items.old.items ++ entry_if n (option_map cidr_of prefix)) }
{
    if let Some(prefix) = prefix {
        items.push((NetId(n), prefix))?;
    }
    Ok(())
}

// The prefixes that are there as the items of a tree.
fn items_of(alloc: Global, seen: &[Option<Prefix>]) -> Result<Vec<(NetId, Prefix)>, NoMemory>
    requires { length seen.now ≤ 65535 }
    ensures { IfOk result (λ v. map entry_of v.items ≡ entries_of (cidrs_of seen.now)) }
{
    let mut items = Vec::new(alloc);
    for n in 0..seen.len() as u32 {
        push_item(n, seen[n as usize], &mut items)?;
    }
    Ok(items)
}

// The tags as they stand.
fn copy_of(alloc: Global, tags: &[TagId]) -> Result<Vec<TagId>, NoMemory>
    ensures { IfOk result (λ v. v.items ≡ tags.now) }
{
    let tags = tags.to_vec(alloc)?;
    Ok(tags)
}

/// The table of some tags. `Same` comes exactly where two networks have one prefix.
pub(crate) fn table_of(alloc: Global, topo: Topo<'_>, tags: &[TagId]) -> Result<Table, TreeFail>
    ensures table { IfOk result (λ t. IsTableOf (policy_of topo.entry) t) }
    ensures tags { IfOk result (λ t. t.tags.items ≡ tags.now) }
    ensures refused { IfErr result (RefusesTable (policy_of topo.entry) (numbers_of tags.now)) }
{
    let seen = prefixes(alloc, topo, tags)?;
    let items = items_of(alloc, &seen)?;
    let tree = match Tree::build(alloc, &items) {
        Ok(tree) => tree,
        Err(fail) => return Err(fail),
    };
    let tags = copy_of(alloc, tags)?;
    Ok(Table { tags, seen, tree })
}
