ghost use Rattle.std.specs.Prelude.{◌≡◌, ◌↔◌, ◌<◌, ℕ, true, not, ◌&&◌, length, IfOk};
ghost use Rattle.policy_model.specs.Policy.{router_at};
ghost use Rattle.policy_model.specs.Zones.{zone_at};
ghost use Rattle.policy_model.specs.Tags.{binds, IsActive, IsBarred};
ghost use Rattle.topology.specs.View.{policy_of};
ghost use Rattle.zone_graph.specs.Grouped.{IsGraphOf};
ghost use Rattle.nat_domains.specs.Marks.{site_of, is_marked, with_mark, AreMarkedBy};
ghost use Rattle.nat_domains.specs.Inner.{IsInnerTag};

use crate::look::{iface_count, is_bound, router_count, router_of_iface, zone_of_iface};
use crate::spread::{no_marks, spread};
use spoc_base::{IfId, NoMemory, TagId};
use std::alloc::Global;
use topology::Topo;
use zone_graph::ZoneGraph;

// Sets a mark, where it is to be set.
fn mark_if(marks: &mut [bool], at: u32, yes: bool)
    requires { at < length marks.old }
    ensures { marks.new ≡ with_mark marks.old at yes }
{
    if yes {
        marks[at as usize] = true;
    }
}

/// The routers of which an interface binds the tag.
pub(crate) fn binders(alloc: Global, topo: Topo<'_>, tag: TagId) -> Result<Vec<bool>, NoMemory>
    ensures each { IfOk result (λ marks. length marks.items ≡ length (policy_of topo.entry).routers) }
    ensures marked { IfOk result (λ marks. let p = policy_of topo.entry in AreMarkedBy (λ i. binds p i tag.0) (router_at p) (length p.ifaces) marks.items) }
{
    let mut marks = no_marks(alloc, router_count(topo))?;
    for i in 0..iface_count(topo) {
        let r = router_of_iface(topo, IfId(i));
        mark_if(&mut marks, r.0, is_bound(topo, IfId(i), tag));
    }
    Ok(marks)
}

// The zones of the interfaces that bind the tag.
fn bound_zones(
    alloc: Global,
    topo: Topo<'_>,
    graph: &ZoneGraph,
    tag: TagId,
) -> Result<Vec<bool>, NoMemory>
    requires { IsGraphOf (policy_of topo) graph.now }
    ensures each { IfOk result (λ marks. length marks.items ≡ length graph.now.nets) }
    ensures marked { IfOk result (λ marks. let p = policy_of topo.entry in AreMarkedBy (λ i. binds p i tag.0) (zone_at (site_of topo.entry graph.now)) (length p.ifaces) marks.items) }
{
    let mut marks = no_marks(alloc, graph.count())?;
    for i in 0..iface_count(topo) {
        let z = zone_of_iface(topo, graph, IfId(i));
        mark_if(&mut marks, z.0, is_bound(topo, IfId(i), tag));
    }
    Ok(marks)
}

// Whether an interface doesn't bind the tag, but another one of its router does.
fn is_bypass(topo: Topo<'_>, binders: &[bool], tag: TagId, i: IfId) -> bool
    requires there { i.0 < length (policy_of topo).ifaces }
    requires each { length binders.now ≡ length (policy_of topo).routers }
    ensures { let p = policy_of topo.entry in result ≡ (not (binds p i.0 tag.0) && is_marked binders.now (router_at p i.0)) }
{
    !is_bound(topo, i, tag) && binders[router_of_iface(topo, i).0 as usize]
}

// The zones of such interfaces.
fn bypassed_zones(
    alloc: Global,
    topo: Topo<'_>,
    graph: &ZoneGraph,
    binders: &[bool],
    tag: TagId,
) -> Result<Vec<bool>, NoMemory>
    requires graph { IsGraphOf (policy_of topo) graph.now }
    requires routers { length binders.now ≡ length (policy_of topo).routers }
    ensures each { IfOk result (λ marks. length marks.items ≡ length graph.now.nets) }
    ensures marked { IfOk result (λ marks. let p = policy_of topo.entry in AreMarkedBy (λ i. not (binds p i tag.0) && is_marked binders.now (router_at p i)) (zone_at (site_of topo.entry graph.now)) (length p.ifaces) marks.items) }
{
    let mut marks = no_marks(alloc, graph.count())?;
    for i in 0..iface_count(topo) {
        let z = zone_of_iface(topo, graph, IfId(i));
        mark_if(&mut marks, z.0, is_bypass(topo, binders, tag, IfId(i)));
    }
    Ok(marks)
}

/// The zones in which the tag is in force.
pub(crate) fn active_zones(
    alloc: Global,
    topo: Topo<'_>,
    graph: &ZoneGraph,
    tag: TagId,
) -> Result<Vec<bool>, NoMemory>
    requires { IsGraphOf (policy_of topo) graph.now }
    ensures each { IfOk result (λ marks. length marks.items ≡ length graph.now.nets) }
    ensures active { IfOk result (λ marks. (z : ℕ) → (is_marked marks.items z ≡ true) ↔ IsActive (site_of topo.entry graph.now) tag.0 z) }
{
    let mut marks = bound_zones(alloc, topo, graph, tag)?;
    spread(alloc, topo, graph, tag, &mut marks)?;
    Ok(marks)
}

/// The zones in which the tag must not be in force. `binders` marks the routers of which an
/// interface binds it.
pub(crate) fn barred_zones(
    alloc: Global,
    topo: Topo<'_>,
    graph: &ZoneGraph,
    binders: &[bool],
    tag: TagId,
) -> Result<Vec<bool>, NoMemory>
    requires graph { IsGraphOf (policy_of topo) graph.now }
    requires routers { length binders.now ≡ length (policy_of topo).routers }
    requires marked { let p = policy_of topo in AreMarkedBy (λ i. binds p i tag.0) (router_at p) (length p.ifaces) binders.now }
    ensures each { IfOk result (λ marks. length marks.items ≡ length graph.now.nets) }
    ensures barred { IfOk result (λ marks. (z : ℕ) → (is_marked marks.items z ≡ true) ↔ IsBarred (site_of topo.entry graph.now) tag.0 z) }
{
    let mut marks = bypassed_zones(alloc, topo, graph, binders, tag)?;
    spread(alloc, topo, graph, tag, &mut marks)?;
    Ok(marks)
}

// Whether no interface of an interface's router binds the tag, and the tag is in force in the
// interface's zone.
fn sees_inside(
    topo: Topo<'_>,
    graph: &ZoneGraph,
    binders: &[bool],
    active: &[bool],
    i: IfId,
) -> bool
    requires graph { IsGraphOf (policy_of topo) graph.now }
    requires there { i.0 < length (policy_of topo).ifaces }
    requires routers { length binders.now ≡ length (policy_of topo).routers }
    requires zones { length active.now ≡ length graph.now.nets }
    ensures { result ≡ (not (is_marked binders.now (router_at (policy_of topo.entry) i.0)) && is_marked active.now (zone_at (site_of topo.entry graph.now) i.0)) }
{
    !binders[router_of_iface(topo, i).0 as usize]
        && active[zone_of_iface(topo, graph, i).0 as usize]
}

/// The routers that see the networks by the tag inside. `binders` marks the routers of which an
/// interface binds it, and `active` the zones in which it is in force.
pub(crate) fn inner_routers(
    alloc: Global,
    topo: Topo<'_>,
    graph: &ZoneGraph,
    binders: &[bool],
    active: &[bool],
    tag: TagId,
) -> Result<Vec<bool>, NoMemory>
    requires graph { IsGraphOf (policy_of topo) graph.now }
    requires routers { length binders.now ≡ length (policy_of topo).routers }
    requires marked { let p = policy_of topo in AreMarkedBy (λ i. binds p i tag.0) (router_at p) (length p.ifaces) binders.now }
    requires zones { length active.now ≡ length graph.now.nets }
    requires active { (z : ℕ) → (is_marked active.now z ≡ true) ↔ IsActive (site_of topo graph.now) tag.0 z }
    ensures each { IfOk result (λ marks. length marks.items ≡ length (policy_of topo.entry).routers) }
    ensures inner { IfOk result (λ marks. (r : ℕ) → (is_marked marks.items r ≡ true) ↔ IsInnerTag (site_of topo.entry graph.now) r tag.0) }
{
    let mut marks = no_marks(alloc, router_count(topo))?;
    for i in 0..iface_count(topo) {
        let r = router_of_iface(topo, IfId(i));
        mark_if(
            &mut marks,
            r.0,
            sees_inside(topo, graph, binders, active, IfId(i)),
        );
    }
    Ok(marks)
}
