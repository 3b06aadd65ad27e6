ghost use Rattle.std.specs.Prelude.{◌≡◌, if◌then◌else◌, ◌++◌, ◌+◌, ◌<◌, ◌↔◌, [], ◌∷◌, ℕ, List, true, false, length, map, filter, set, IfOk, IfSome, IfNone, ◌≤◌};
ghost use Rattle.std.specs.List.{All};
ghost use Rattle.policy_model.specs.Lists.{numbers_below};
ghost use Rattle.policy_model.specs.Policy.{router_at, is_managed};
ghost use Rattle.policy_model.specs.Zones.{Site, zone_at};
ghost use Rattle.topology.specs.View.{policy_of};
ghost use Rattle.zone_graph.specs.Grouped.{IsGraphOf, doors_with};
ghost use Rattle.group_expand.specs.Seen.{site_of, numbers_of, iface_numbers};
ghost use Rattle.group_expand.specs.Spread.{AreMarksOf, AreSpread, AreUnmarked, Goes, GoesBy, SeesRouter, Spreads, marked, is_open};

use spoc_base::{IfId, NoMemory, ZoneId};
use std::alloc::Global;
use topology::Topo;
use zone_graph::ZoneGraph;

/// The zone in which an interface stands.
pub(crate) fn zone_of_iface(topo: Topo<'_>, graph: &ZoneGraph, i: IfId) -> ZoneId
    requires graph { IsGraphOf (policy_of topo) graph.now }
    requires there { i.0 < length (policy_of topo).ifaces }
    ensures value { result.0 ≡ zone_at (site_of topo.entry graph.now) i.0 }
    ensures below { result.0 < length graph.now.nets }
{
    graph.zone_of(topo.iface(i).net)
}

// Marks a zone, and puts it to those left where it had no mark.
fn visit(seen: &mut [bool], left: &mut Vec<ZoneId>, z: ZoneId) -> Result<(), NoMemory>
    requires { z.0 < length seen.old }
    ensures seen { IfOk result (λ done. seen.new ≡ set seen.old z.0 true) }
    ensures left { IfOk result (λ done. numbers_of left.new.items ≡ (if marked seen.old z.0 then numbers_of left.old.items else numbers_of left.old.items ++ z.0 ∷ [])) }
{
    if seen[z.0 as usize] {
        return Ok(());
    }
    left.push(z)?;
    seen[z.0 as usize] = true;
    Ok(())
}

// Visits the zone of another interface of a router, unless it is marked.
fn visit_by(
    topo: Topo<'_>,
    graph: &ZoneGraph,
    marks: &[bool],
    i: IfId,
    j: IfId,
    seen: &mut [bool],
    left: &mut Vec<ZoneId>,
) -> Result<(), NoMemory>
    requires graph { IsGraphOf (policy_of topo) graph.now }
    requires marks { length marks.now ≡ length (policy_of topo).ifaces }
    requires zones { length seen.old ≡ length graph.now.nets }
    requires entered { i.0 < length (policy_of topo).ifaces }
    requires there { j.0 < length (policy_of topo).ifaces }
    requires one_router { router_at (policy_of topo) i.0 ≡ router_at (policy_of topo) j.0 }
    requires open { is_open (policy_of topo) marks.now i.0 ≡ true }
    ensures goes { IfOk result (λ done. GoesBy (site_of topo.entry graph.now) marks.now (zone_at (site_of topo.entry graph.now) i.0) seen.old (numbers_of left.old.items) seen.new (numbers_of left.new.items)) }
    ensures seen { IfOk result (λ done. is_open (policy_of topo.entry) marks.now j.0 ≡ true → marked seen.new (zone_at (site_of topo.entry graph.now) j.0) ≡ true) }
{
    if marks[j.0 as usize] {
        return Ok(());
    }
    visit(seen, left, zone_of_iface(topo, graph, j))?;
    Ok(())
}

// Visits the zones at a router that is entered by an interface.
fn fan_out(
    topo: Topo<'_>,
    graph: &ZoneGraph,
    marks: &[bool],
    i: IfId,
    seen: &mut [bool],
    left: &mut Vec<ZoneId>,
) -> Result<(), NoMemory>
    requires graph { IsGraphOf (policy_of topo) graph.now }
    requires marks { length marks.now ≡ length (policy_of topo).ifaces }
    requires zones { length seen.old ≡ length graph.now.nets }
    requires entered { i.0 < length (policy_of topo).ifaces }
    requires open { is_open (policy_of topo) marks.now i.0 ≡ true }
    ensures goes { IfOk result (λ done. GoesBy (site_of topo.entry graph.now) marks.now (zone_at (site_of topo.entry graph.now) i.0) seen.old (numbers_of left.old.items) seen.new (numbers_of left.new.items)) }
    ensures seen { IfOk result (λ done. SeesRouter (site_of topo.entry graph.now) marks.now seen.new (router_at (policy_of topo.entry) i.0)) }
{
    let row = topo.ifs_of(topo.iface(i).router);
    for j in row {
        visit_by(topo, graph, marks, i, *j, seen, left)?;
    }
    Ok(())
}

// Looks at an interface: where it is open, and its router wasn't passed, passes the router.
fn pass(
    topo: Topo<'_>,
    graph: &ZoneGraph,
    marks: &[bool],
    i: IfId,
    seen: &mut [bool],
    passed: &mut [bool],
    left: &mut Vec<ZoneId>,
) -> Result<(), NoMemory>
    requires graph { IsGraphOf (policy_of topo) graph.now }
    requires marks { length marks.now ≡ length (policy_of topo).ifaces }
    requires zones { length seen.old ≡ length graph.now.nets }
    requires routers { length passed.old ≡ length (policy_of topo).routers }
    requires there { i.0 < length (policy_of topo).ifaces }
    requires managed { is_managed (policy_of topo) (router_at (policy_of topo) i.0) ≡ true }
    ensures goes { IfOk result (λ done. (ahead : List ℕ) → Goes (site_of topo.entry graph.now) marks.now (zone_at (site_of topo.entry graph.now) i.0) seen.old passed.old (numbers_of left.old.items) (i.0 ∷ ahead) seen.new passed.new (numbers_of left.new.items) ahead) }
{
    let r = topo.iface(i).router;
    if marks[i.0 as usize] {
        return Ok(());
    }
    if passed[r.0 as usize] {
        return Ok(());
    }
    fan_out(topo, graph, marks, i, seen, left)?;
    passed[r.0 as usize] = true;
    Ok(())
}

// Looks at all interfaces of managed routers in a zone.
fn leave_zone(
    topo: Topo<'_>,
    graph: &ZoneGraph,
    marks: &[bool],
    z: ZoneId,
    seen: &mut [bool],
    passed: &mut [bool],
    left: &mut Vec<ZoneId>,
) -> Result<(), NoMemory>
    requires graph { IsGraphOf (policy_of topo) graph.now }
    requires marks { length marks.now ≡ length (policy_of topo).ifaces }
    requires zones { length seen.old ≡ length graph.now.nets }
    requires routers { length passed.old ≡ length (policy_of topo).routers }
    requires there { z.0 < length graph.now.nets }
    ensures goes { IfOk result (λ done. Goes (site_of topo.entry graph.now) marks.now z.0 seen.old passed.old (numbers_of left.old.items) (doors_with (policy_of topo.entry) graph.now.zones z.0) seen.new passed.new (numbers_of left.new.items) []) }
{
    let row = graph.doors(z);
    for i in row {
        pass(topo, graph, marks, *i, seen, passed, left)?;
    }
    Ok(())
}

/// So many, none with a mark.
pub(crate) fn unmarked(alloc: Global, count: usize) -> Result<Vec<bool>, NoMemory>
    ensures { IfOk result (λ marks. AreUnmarked marks.items count) }
{
    let mut marks = Vec::new(alloc);
    for _ in 0..count {
        marks.push(false)?;
    }
    Ok(marks)
}

// How many routers there are.
fn router_count(topo: Topo<'_>) -> usize
    ensures { result ≡ length (policy_of topo.entry).routers }
{
    topo.routers().len()
}

// How many interfaces there are.
pub(crate) fn iface_count(topo: Topo<'_>) -> usize
    ensures { result ≡ length (policy_of topo.entry).ifaces }
{
    topo.ifaces().len()
}

/// A mark for each of these interfaces, and for no other.
pub(crate) fn mark(alloc: Global, topo: Topo<'_>, ifaces: &[IfId]) -> Result<Vec<bool>, NoMemory>
    requires { All (λ i. i.0 < length (policy_of topo).ifaces) ifaces.now }
    ensures { IfOk result (λ marks. AreMarksOf marks.items (length (policy_of topo.entry).ifaces) (iface_numbers ifaces.now)) }
{
    let mut marks = unmarked(alloc, iface_count(topo))?;
    for i in ifaces {
        marks[i.0 as usize] = true;
    }
    Ok(marks)
}

// The last zone of those left, which is taken from them.
fn next_zone(left: &mut Vec<ZoneId>) -> Option<ZoneId>
    ensures some { IfSome result (λ z. left.old.items ≡ left.new.items ++ z ∷ []) }
    ensures none { IfNone result (left.old.items ≡ []) }
{
    left.pop()
}

// Looks at zone after zone, until none is left.
fn fill(
    topo: Topo<'_>,
    graph: &ZoneGraph,
    marks: &[bool],
    start: ZoneId,
    seen: &mut [bool],
    passed: &mut [bool],
    left: &mut Vec<ZoneId>,
) -> Result<(), NoMemory>
    requires graph { IsGraphOf (policy_of topo) graph.now }
    requires marks { length marks.now ≡ length (policy_of topo).ifaces }
    requires there { start.0 < length graph.now.nets }
    requires seen { AreUnmarked seen.old (length graph.now.nets) }
    requires passed { AreUnmarked passed.old (length (policy_of topo).routers) }
    requires left { left.old.items ≡ [] }
    ensures { IfOk result (λ done. AreSpread (site_of topo.entry graph.now) marks.now start.0 seen.new (length graph.now.nets)) }
{
    visit(seen, left, start)?;
    while let Some(z) = next_zone(left) {
        leave_zone(topo, graph, marks, z, seen, passed, left)?;
    }
    Ok(())
}

/// Marks the zones that are reached from one zone through managed routers, but through no marked
/// interface.
pub(crate) fn spread(
    alloc: Global,
    topo: Topo<'_>,
    graph: &ZoneGraph,
    marks: &[bool],
    start: ZoneId,
) -> Result<Vec<bool>, NoMemory>
    requires graph { IsGraphOf (policy_of topo) graph.now }
    requires marks { length marks.now ≡ length (policy_of topo).ifaces }
    requires there { start.0 < length graph.now.nets }
    ensures { IfOk result (λ seen. AreSpread (site_of topo.entry graph.now) marks.now start.0 seen.items (length graph.now.nets)) }
{
    let mut seen = unmarked(alloc, graph.count() as usize)?;
    let mut passed = unmarked(alloc, router_count(topo))?;
    let mut left = Vec::new(alloc);
    fill(topo, graph, marks, start, &mut seen, &mut passed, &mut left)?;
    Ok(seen)
}

/// The marked zones, ascending. There are at most `most` zones.
pub(crate) fn marked_zones(alloc: Global, seen: &[bool], most: u32) -> Result<Vec<ZoneId>, NoMemory>
    requires { length seen.now ≤ most }
    ensures { IfOk result (λ zones. numbers_of zones.items ≡ filter (marked seen.now) (numbers_below (length seen.now))) }
{
    let count = seen.len() as u32;
    let mut zones = Vec::new(alloc);
    for z in 0..count {
        push_marked(seen, z, &mut zones)?;
    }
    Ok(zones)
}

// One zone more, where it is marked.
fn push_marked(seen: &[bool], z: u32, zones: &mut Vec<ZoneId>) -> Result<(), NoMemory>
    requires { z < length seen.now }
    ensures { IfOk result (λ done. numbers_of zones.new.items ≡ (if marked seen.now z then numbers_of zones.old.items ++ z ∷ [] else numbers_of zones.old.items)) }
{
    if !seen[z as usize] {
        return Ok(());
    }
    zones.push(ZoneId(z))?;
    Ok(())
}
