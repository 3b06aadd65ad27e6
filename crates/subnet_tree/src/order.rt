ghost use Rattle.std.specs.Prelude.{◌≡◌, ◌-◌, map, length, option_map, IfOk};
ghost use Rattle.std.specs.List.Sorted.{IsPermutation};
ghost use Rattle.spoc_base.specs.Shown.{cidr_of};
ghost use Rattle.subnet_tree.specs.Entries.{AreInOrder, are_equal, is_before, lesser_of, least_of_neighbours};
ghost use Rattle.subnet_tree.specs.Shown.{entry_of, pair_of};

use spoc_base::{NetId, NoMemory, Prefix};
use std::alloc::Global;

/// A network and its prefix.
pub(crate) type Item = (NetId, Prefix);

/// The items as they stand.
pub(crate) fn copy_of(alloc: Global, items: &[Item]) -> Result<Vec<Item>, NoMemory>
    ensures { IfOk result (λ v. v.items ≡ items.now) }
{
    let items = items.to_vec(alloc)?;
    Ok(items)
}

/// The items by address, then by length, and then by number.
pub(crate) fn in_order(alloc: Global, items: &[Item]) -> Result<Vec<Item>, NoMemory>
    ensures permutation { IfOk result (λ v. IsPermutation items.now v.items) }
    ensures order { IfOk result (λ v. AreInOrder (map entry_of v.items)) }
{
    let mut sorted = items.to_vec(alloc)?;
    sorted.sort_unstable_by_key(|item| (item.1.net().0, item.1.len(), item.0.0));
    Ok(sorted)
}

/// The numbers of two networks, the lesser one first.
pub(crate) type Pair = (NetId, NetId);

/// The least numbers of two neighbours with one prefix.
pub(crate) fn least_same(sorted: &[Item]) -> Option<Pair>
    ensures { option_map pair_of result ≡ least_of_neighbours (map entry_of sorted.now) (length sorted.now - 1) }
{
    let mut least = None;
    for i in 1..sorted.len() {
        least = lesser(least, sorted[i - 1], sorted[i]);
    }
    least
}

/// The least pair so far, or that of the two items if they have one prefix and it is less.
fn lesser(least: Option<Pair>, item: Item, next: Item) -> Option<Pair>
    ensures { option_map pair_of result ≡ lesser_of (option_map pair_of least) (entry_of item) (entry_of next) }
{
    if !same(item.1, next.1) {
        return least;
    }
    let pair = (item.0, next.0);
    match least {
        Some(old) if !is_less(pair, old) => least,
        _ => Some(pair),
    }
}

fn is_less(p: Pair, q: Pair) -> bool
    ensures { result ≡ is_before (pair_of p) (pair_of q) }
{
    p.0.0 < q.0.0 || (p.0.0 == q.0.0 && p.1.0 < q.1.0)
}

/// Whether the two prefixes are equal.
fn same(p: Prefix, q: Prefix) -> bool
    ensures { result ≡ are_equal (cidr_of p) (cidr_of q) }
{
    p.net().0 == q.net().0 && p.len() == q.len()
}
