ghost use Rattle.std.specs.Prelude.{◌≡◌, ◌↔◌, ◌+◌, ◌∷◌, ◌++◌, [], ◌<◌, ◌≤◌, ℕ, true, false, length, map, IfOk, set};
ghost use Rattle.topology.specs.View.{policy_of};
ghost use Rattle.policy_model.specs.Lists.{has};
ghost use Rattle.policy_model.specs.Zones.{zone_at};
ghost use Rattle.policy_model.specs.Policy.{router_at, is_managed};
ghost use Rattle.policy_model.specs.Tags.{binds, ifaces_of};
ghost use Rattle.zone_graph.specs.Grouped.{IsGraphOf};
ghost use Rattle.nat_domains.specs.Marks.{site_of, is_marked, unmarked};
ghost use Rattle.nat_domains.specs.Spreading.{MarksZonesOf, StaysSpreading, Grows, IsSpread, IsSpreading};

use crate::look::{is_bound, router_count, router_of_iface, zone_of_iface};
use spoc_base::{IfId, NoMemory, RouterId, TagId, ZoneId};
use std::alloc::Global;
use topology::Topo;
use zone_graph::ZoneGraph;

// Marks the zone of an interface that doesn't bind the tag. A zone that was not marked before waits
// from then on.
fn mark_zone(
    topo: Topo<'_>,
    graph: &ZoneGraph,
    tag: TagId,
    i: IfId,
    marks: &mut [bool],
    waiting: &mut Vec<u32>,
) -> Result<(), NoMemory>
    requires graph { IsGraphOf (policy_of topo) graph.now }
    requires there { i.0 < length (policy_of topo).ifaces }
    requires each { length marks.old ≡ length graph.now.nets }
    ensures marked { IfOk result (λ done. MarksZonesOf (site_of topo.entry graph.now) tag.0 (i.0 ∷ []) marks.old marks.new waiting.old.items waiting.new.items) }
{
    if is_bound(topo, i, tag) {
        return Ok(());
    }
    let z = zone_of_iface(topo, graph, i).0;
    if marks[z as usize] {
        return Ok(());
    }
    waiting.push(z)?;
    marks[z as usize] = true;
    Ok(())
}

// Marks the zones of a router's interfaces that don't bind the tag.
fn mark_zones(
    topo: Topo<'_>,
    graph: &ZoneGraph,
    tag: TagId,
    r: RouterId,
    marks: &mut [bool],
    waiting: &mut Vec<u32>,
) -> Result<(), NoMemory>
    requires graph { IsGraphOf (policy_of topo) graph.now }
    requires there { r.0 < length (policy_of topo).routers }
    requires each { length marks.old ≡ length graph.now.nets }
    ensures marked { IfOk result (λ done. MarksZonesOf (site_of topo.entry graph.now) tag.0 (ifaces_of (policy_of topo.entry) r.0) marks.old marks.new waiting.old.items waiting.new.items) }
{
    for i in topo.ifs_of(r) {
        mark_zone(topo, graph, tag, *i, marks, waiting)?;
    }
    Ok(())
}

// Passes the router of an interface that doesn't bind the tag, unless it was passed before: marks
// the zones of its interfaces that don't bind the tag.
fn pass_router(
    topo: Topo<'_>,
    graph: &ZoneGraph,
    tag: TagId,
    i: IfId,
    marks: &mut [bool],
    waiting: &mut Vec<u32>,
    passed: &mut [bool],
) -> Result<(), NoMemory>
    requires graph { IsGraphOf (policy_of topo) graph.now }
    requires there { i.0 < length (policy_of topo).ifaces }
    requires managed { is_managed (policy_of topo) (router_at (policy_of topo) i.0) ≡ true }
    requires each { length marks.old ≡ length graph.now.nets }
    requires routers { length passed.old ≡ length (policy_of topo).routers }
    ensures stays { IfOk result (λ done. let s = site_of topo.entry graph.now in StaysSpreading s tag.0 marks.old (zone_at s i.0 ∷ waiting.old.items) passed.old marks.new (zone_at s i.0 ∷ waiting.new.items) passed.new) }
    ensures passed { IfOk result (λ done. binds (policy_of topo.entry) i.0 tag.0 ≡ false → is_marked passed.new (router_at (policy_of topo.entry) i.0) ≡ true) }
    ensures grows { IfOk result (λ done. Grows passed.old passed.new) }
    ensures room { IfOk result (λ done. unmarked marks.new + length waiting.new.items ≡ unmarked marks.old + length waiting.old.items) }
{
    if is_bound(topo, i, tag) {
        return Ok(());
    }
    let r = router_of_iface(topo, i);
    if passed[r.0 as usize] {
        return Ok(());
    }
    passed[r.0 as usize] = true;
    mark_zones(topo, graph, tag, r, marks, waiting)?;
    Ok(())
}

// Passes the routers of a zone's interfaces.
fn leave_zone(
    topo: Topo<'_>,
    graph: &ZoneGraph,
    tag: TagId,
    z: ZoneId,
    marks: &mut [bool],
    waiting: &mut Vec<u32>,
    passed: &mut [bool],
) -> Result<(), NoMemory>
    requires graph { IsGraphOf (policy_of topo) graph.now }
    requires there { z.0 < length graph.now.nets }
    requires each { length marks.old ≡ length graph.now.nets }
    requires routers { length passed.old ≡ length (policy_of topo).routers }
    ensures stays { IfOk result (λ done. StaysSpreading (site_of topo.entry graph.now) tag.0 marks.old (z.0 ∷ waiting.old.items) passed.old marks.new waiting.new.items passed.new) }
    ensures room { IfOk result (λ done. unmarked marks.new + length waiting.new.items ≡ unmarked marks.old + length waiting.old.items) }
{
    for i in graph.doors(z) {
        pass_router(topo, graph, tag, *i, marks, waiting, passed)?;
    }
    Ok(())
}

/// Marks that are all lacking.
pub(crate) fn no_marks(alloc: Global, count: u32) -> Result<Vec<bool>, NoMemory>
    ensures each { IfOk result (λ marks. length marks.items ≡ count) }
    ensures none { IfOk result (λ marks. (k : ℕ) → is_marked marks.items k ≡ false) }
{
    let mut marks = Vec::new(alloc);
    for _ in 0..count {
        marks.push(false)?;
    }
    Ok(marks)
}

// The numbers that are marked.
fn marked_numbers(alloc: Global, marks: &[bool], count: u32) -> Result<Vec<u32>, NoMemory>
    requires { length marks.now ≡ count }
    ensures { IfOk result (λ numbers. (k : ℕ) → (has numbers.items k ≡ true) ↔ (is_marked marks.now k ≡ true)) }
{
    let mut numbers = Vec::new(alloc);
    for k in 0..count {
        if marks[k as usize] {
            numbers.push(k)?;
        }
    }
    Ok(numbers)
}

/// Spreads the marks of zones along the managed routers through which a tag stays in force, in
/// time that grows with the zones, the routers and their interfaces.
pub(crate) fn spread(
    alloc: Global,
    topo: Topo<'_>,
    graph: &ZoneGraph,
    tag: TagId,
    marks: &mut [bool],
) -> Result<(), NoMemory>
    requires graph { IsGraphOf (policy_of topo) graph.now }
    requires each { length marks.old ≡ length graph.now.nets }
    ensures { IfOk result (λ done. IsSpread (site_of topo.entry graph.now) tag.0 marks.old marks.new) }
{
    let mut waiting = marked_numbers(alloc, marks, graph.count())?;
    let mut passed = no_marks(alloc, router_count(topo))?;
    while let Some(z) = waiting.pop() {
        leave_zone(
            topo,
            graph,
            tag,
            ZoneId(z),
            marks,
            &mut waiting,
            &mut passed,
        )?;
    }
    Ok(())
}
