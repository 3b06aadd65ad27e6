ghost use Rattle.std.specs.Prelude.{◌≡◌, Bool, ◌++◌, ◌+◌, ◌∷◌, [], ◌<◌, ◌≤◌, ◌==◌, ℕ, false, length, map, set, IfOk, IfNone, IfSome, slice_index, slice_index_or};
ghost use Rattle.std.specs.List.{AllPairs, Contains};
ghost use Rattle.spoc_base.specs.Shown.{box_of};
ghost use Rattle.policy_model.specs.Permits.{has_replies as are_replied};
ghost use Rattle.topology.specs.View.{policy_of};
ghost use Rattle.zone_graph.specs.Grouped.{row_items, HasGroups, AreEmpty, IsGraphOf};
ghost use Rattle.permit_set.specs.Shown.{permit_of};
ghost use Rattle.permit_lines.specs.Given.{AreKnown};
ghost use Rattle.rule_distribute.specs.Pairs.{IsBefore};
ghost use Rattle.rule_distribute.specs.Rows.{pair_at, ends_of, belongs, row_below, HasAll};

use crate::pairs::Pair;
use permit_set::Permit;
use spoc_base::{NoMemory, TBox};
use std::alloc::Global;
use topology::Topo;
use zone_graph::ZoneGraph;

/// Rows without items.
pub(crate) fn empty_rows<T: Drop>(alloc: Global, count: usize) -> Result<Vec<Vec<T>>, NoMemory>
    ensures { IfOk result (λ rows. AreEmpty (row_items rows.items) count) }
{
    let mut rows = Vec::new(alloc);
    for _ in 0..count {
        let row: Vec<T> = Vec::new(alloc);
        rows.push(row)?;
    }
    Ok(rows)
}

/// Puts an item into a row.
pub(crate) fn add<T: Drop>(rows: &mut [Vec<T>], w: usize, x: T) -> Result<(), NoMemory>
    requires { w < length rows.old }
    ensures count { length rows.new ≡ length rows.old }
    ensures put { IfOk result (λ done. row_items rows.new ≡ set (row_items rows.old) w (slice_index_or (row_items rows.old) w [] ++ x ∷ [])) }
{
    rows[w].push(x)?;
    Ok(())
}

// Whether there are replies to what is in the set.
fn has_replies(t: TBox) -> bool
    ensures { result ≡ are_replied (box_of t) }
{
    match t {
        TBox::Any | TBox::Tcp { .. } | TBox::Udp { .. } => true,
        TBox::Icmp { .. } | TBox::Other { .. } => false,
    }
}

/// The place of a pair among pairs in order, of which it is one.
pub(crate) fn place_of(pairs: &[Pair], pair: Pair) -> usize
    requires order { AllPairs IsBefore pairs.now }
    requires there { Contains pairs.now pair }
    ensures below { result < length pairs.now }
    ensures is { pair_at pairs.now result ≡ pair }
{
    match pairs.binary_search(&pair) {
        Ok(k) => k,
        Err(_) => unreachable!(),
    }
}

// The row of a permit, or, where `back` is true, of its replies.
fn row_of(graph: &ZoneGraph, pairs: &[Pair], q: Permit, back: bool) -> Option<usize>
    requires src { q.src.net.0 < length graph.now.zones }
    requires dst { q.dst.net.0 < length graph.now.zones }
    requires order { AllPairs IsBefore pairs.now }
    requires there { (b : Bool) → (slice_index graph.now.zones q.src.net.0 == slice_index graph.now.zones q.dst.net.0) ≡ false → Contains pairs.now (ends_of b (permit_of q)) }
    ensures none { IfNone result ((w : ℕ) → belongs graph.now.zones pairs.now back (permit_of q) w ≡ false) }
    ensures below { IfSome result (λ z. z < length pairs.now) }
    ensures row { IfSome result (λ z. (w : ℕ) → belongs graph.now.zones pairs.now back (permit_of q) w ≡ (z == w)) }
{
    if graph.zone_of(q.src.net).0 == graph.zone_of(q.dst.net).0 {
        return None;
    }
    if !back {
        return Some(place_of(pairs, (q.src.net.0, q.dst.net.0)));
    }
    if !has_replies(q.t) {
        return None;
    }
    Some(place_of(pairs, (q.dst.net.0, q.src.net.0)))
}

// Puts the k-th permit into its row, if it has one.
fn add_permit(
    topo: Topo<'_>,
    graph: &ZoneGraph,
    pairs: &[Pair],
    permits: &[Permit],
    back: bool,
    rows: &mut [Vec<u32>],
    k: u32,
) -> Result<(), NoMemory>
    requires graph { IsGraphOf (policy_of topo) graph.now }
    requires permits { AreKnown (policy_of topo) (map permit_of permits.now) }
    requires order { AllPairs IsBefore pairs.now }
    requires all { HasAll graph.now.zones pairs.now (map permit_of permits.now) }
    requires below { k < length permits.now }
    requires each { length rows.old ≡ length pairs.now }
    requires so_far { HasGroups (λ k. k) (row_items rows.old) (row_below graph.now.zones pairs.now back (map permit_of permits.now) k) }
    ensures each { length rows.new ≡ length rows.old }
    ensures groups { IfOk result (λ done. HasGroups (λ k. k) (row_items rows.new) (row_below graph.now.zones pairs.now back (map permit_of permits.now) (k + 1))) }
{
    match row_of(graph, pairs, permits[k as usize], back) {
        Some(w) => {
            add(rows, w, k)?;
            Ok(())
        }
        None => Ok(()),
    }
}

// Puts each permit into its row.
fn fill(
    topo: Topo<'_>,
    graph: &ZoneGraph,
    pairs: &[Pair],
    permits: &[Permit],
    back: bool,
    rows: &mut [Vec<u32>],
) -> Result<(), NoMemory>
    requires graph { IsGraphOf (policy_of topo) graph.now }
    requires permits { AreKnown (policy_of topo) (map permit_of permits.now) }
    requires few { length permits.now < 4294967296 }
    requires order { AllPairs IsBefore pairs.now }
    requires all { HasAll graph.now.zones pairs.now (map permit_of permits.now) }
    requires empty { AreEmpty (row_items rows.old) (length pairs.now) }
    ensures each { length rows.new ≡ length rows.old }
    ensures groups { IfOk result (λ done. HasGroups (λ k. k) (row_items rows.new) (row_below graph.now.zones pairs.now back (map permit_of permits.now) (length permits.now))) }
{
    for k in 0..permits.len() as u32 {
        add_permit(topo, graph, pairs, permits, back, rows, k)?;
    }
    Ok(())
}

/// The numbers of the permits from the first network of each pair to the second or, where `back`
/// is true, of those of the way back that have replies.
pub(crate) fn permit_rows(
    alloc: Global,
    topo: Topo<'_>,
    graph: &ZoneGraph,
    pairs: &[Pair],
    permits: &[Permit],
    back: bool,
) -> Result<Vec<Vec<u32>>, NoMemory>
    requires graph { IsGraphOf (policy_of topo) graph.now }
    requires permits { AreKnown (policy_of topo) (map permit_of permits.now) }
    requires few { length permits.now < 4294967296 }
    requires order { AllPairs IsBefore pairs.now }
    requires all { HasAll graph.now.zones pairs.now (map permit_of permits.now) }
    ensures each { IfOk result (λ rows. length rows.items ≡ length pairs.now) }
    ensures groups { IfOk result (λ rows. HasGroups (λ k. k) (row_items rows.items) (row_below graph.now.zones pairs.now back (map permit_of permits.now) (length permits.now))) }
{
    let mut rows = empty_rows(alloc, pairs.len())?;
    fill(topo, graph, pairs, permits, back, &mut rows)?;
    Ok(rows)
}
