ghost use Rattle.std.specs.Prelude.{◌≡◌, ◌<◌, ◌≤◌, ℕ, false, filter, length, IfOk, IfErr, IfSome, IfNone, slice_index};
ghost use Rattle.std.specs.List.{All};
ghost use Rattle.policy_model.specs.Zones.{zone_at};
ghost use Rattle.policy_model.specs.Objects.{start_of};
ghost use Rattle.topology.specs.View.{policy_of};
ghost use Rattle.zone_graph.specs.Grouped.{IsGraphOf};
ghost use Rattle.group_expand.specs.Seen.{site_of, numbers_of, iface_numbers};
ghost use Rattle.group_expand.specs.Areas.{IsFirst, IsAreaRow, FailsArea, is_outside, is_cut_off, IsThere};
ghost use Rattle.group_expand.specs.Spread.{AreMarksOf, AreSpread, marked};
ghost use Rattle.group_expand.specs.declared.area.AreaFail.TheVariants.{Memory};
ghost use Rattle.policy_model.specs.Lists.{numbers_below};
ghost use Rattle.policy_model.specs.Policy.{area_of};

use crate::area::AreaFail;
use crate::spread::{iface_count, mark, marked_zones, spread, zone_of_iface};
use spoc_base::{IfId, NoMemory, ZoneId};
use std::alloc::Global;
use topology::Topo;
use zone_graph::ZoneGraph;

// The zone of the first border.
fn first_zone(topo: Topo<'_>, graph: &ZoneGraph, borders: &[IfId]) -> ZoneId
    requires graph { IsGraphOf (policy_of topo) graph.now }
    requires there { All (λ i. i.0 < length (policy_of topo).ifaces) borders.now }
    requires some { 0 < length borders.now }
    ensures value { result.0 ≡ zone_at (site_of topo.entry graph.now) (slice_index (iface_numbers borders.now) 0) }
    ensures below { result.0 < length graph.now.nets }
{
    zone_of_iface(topo, graph, borders[0])
}

// The zone where an area begins: that of its anchor, or else of its first border.
fn start_zone(topo: Topo<'_>, graph: &ZoneGraph, k: u32) -> ZoneId
    requires graph { IsGraphOf (policy_of topo) graph.now }
    requires there { k < length (policy_of topo).areas }
    ensures value { result.0 ≡ start_of (site_of topo.entry graph.now) k }
    ensures below { result.0 < length graph.now.nets }
{
    let area = topo.area(k);
    match area.anchor {
        Some(n) => graph.zone_of(n),
        None => first_zone(topo, graph, area.borders),
    }
}

// Whether the interface is marked, and its zone isn't.
fn is_cut(topo: Topo<'_>, graph: &ZoneGraph, marks: &[bool], seen: &[bool], i: IfId) -> bool
    requires graph { IsGraphOf (policy_of topo) graph.now }
    requires marks { length marks.now ≡ length (policy_of topo).ifaces }
    requires zones { length seen.now ≡ length graph.now.nets }
    requires there { i.0 < length (policy_of topo).ifaces }
    ensures { result ≡ is_outside (site_of topo.entry graph.now) marks.now seen.now i.0 }
{
    marks[i.0 as usize] && !seen[zone_of_iface(topo, graph, i).0 as usize]
}

// The least interface that is marked while its zone isn't.
fn first_cut(topo: Topo<'_>, graph: &ZoneGraph, marks: &[bool], seen: &[bool]) -> Option<IfId>
    requires graph { IsGraphOf (policy_of topo) graph.now }
    requires marks { length marks.now ≡ length (policy_of topo).ifaces }
    requires zones { length seen.now ≡ length graph.now.nets }
    ensures some { IfSome result (λ i. IsFirst (is_outside (site_of topo.entry graph.now) marks.now seen.now) i.0) }
    ensures there { IfSome result (λ i. i.0 < length (policy_of topo.entry).ifaces) }
    ensures none { IfNone result ((i : ℕ) → i < length (policy_of topo.entry).ifaces → is_outside (site_of topo.entry graph.now) marks.now seen.now i ≡ false) }
{
    for i in 0..iface_count(topo) as u32 {
        if is_cut(topo, graph, marks, seen, IfId(i)) {
            return Some(IfId(i));
        }
    }
    None
}

// The marked zones, ascending, unless one of the marked interfaces isn't in one of them.
fn uncut_zones(
    alloc: Global,
    topo: Topo<'_>,
    graph: &ZoneGraph,
    k: u32,
    start: ZoneId,
    marks: &[bool],
    seen: &[bool],
) -> Result<Vec<ZoneId>, AreaFail>
    requires graph { IsGraphOf (policy_of topo) graph.now }
    requires there { k < length (policy_of topo).areas }
    requires start { start.0 ≡ start_of (site_of topo graph.now) k }
    requires marks { AreMarksOf marks.now (length (policy_of topo).ifaces) (area_of (policy_of topo) k).borders }
    requires seen { AreSpread (site_of topo graph.now) marks.now start.0 seen.now (length graph.now.nets) }
    ensures zones { IfOk result (λ zones. IsAreaRow (site_of topo.entry graph.now) k (numbers_of zones.items)) }
    ensures whole { IfOk result (λ zones. (i : ℕ) → is_cut_off (site_of topo.entry graph.now) k (numbers_of zones.items) i ≡ false) }
    ensures split { IfErr result (λ fail. FailsArea (site_of topo.entry graph.now) k fail) }
    ensures border { IfErr result (λ fail. IsThere (policy_of topo.entry) fail) }
{
    match first_cut(topo, graph, marks, seen) {
        Some(i) => Err(AreaFail::Split(i)),
        None => Ok(listed(alloc, seen, graph.count())?),
    }
}

// The marked zones, ascending. There are at most `most` zones.
fn listed(alloc: Global, seen: &[bool], most: u32) -> Result<Vec<ZoneId>, AreaFail>
    requires { length seen.now ≤ most }
    ensures zones { IfOk result (λ zones. numbers_of zones.items ≡ filter (marked seen.now) (numbers_below (length seen.now))) }
    ensures memory { IfErr result (λ fail. fail ≡ Memory) }
{
    match marked_zones(alloc, seen, most) {
        Ok(zones) => Ok(zones),
        Err(_) => Err(AreaFail::Memory),
    }
}

/// The zones of an area, ascending, unless one of its borders isn't in it.
pub(crate) fn zones_of_area(
    alloc: Global,
    topo: Topo<'_>,
    graph: &ZoneGraph,
    k: u32,
) -> Result<Vec<ZoneId>, AreaFail>
    requires graph { IsGraphOf (policy_of topo) graph.now }
    requires there { k < length (policy_of topo).areas }
    ensures zones { IfOk result (λ zones. IsAreaRow (site_of topo.entry graph.now) k (numbers_of zones.items)) }
    ensures whole { IfOk result (λ zones. (i : ℕ) → is_cut_off (site_of topo.entry graph.now) k (numbers_of zones.items) i ≡ false) }
    ensures split { IfErr result (λ fail. FailsArea (site_of topo.entry graph.now) k fail) }
    ensures border { IfErr result (λ fail. IsThere (policy_of topo.entry) fail) }
{
    let start = start_zone(topo, graph, k);
    let Ok(marks) = border_marks(alloc, topo, k) else {
        return Err(AreaFail::Memory);
    };
    let Ok(seen) = spread(alloc, topo, graph, &marks, start) else {
        return Err(AreaFail::Memory);
    };
    uncut_zones(alloc, topo, graph, k, start, &marks, &seen)
}

// A mark for each border of an area.
fn border_marks(alloc: Global, topo: Topo<'_>, k: u32) -> Result<Vec<bool>, NoMemory>
    requires { k < length (policy_of topo).areas }
    ensures { IfOk result (λ marks. AreMarksOf marks.items (length (policy_of topo.entry).ifaces) (area_of (policy_of topo.entry) k).borders) }
{
    mark(alloc, topo, topo.area(k).borders)
}
