ghost use Rattle.std.specs.Prelude.{◌≡◌, ◌+◌, ◌<◌, ◌&&◌, ℕ, length, IfOk, MatchOption};
ghost use Rattle.policy_model.specs.Zones.{Site};
ghost use Rattle.topology.specs.View.{policy_of};
ghost use Rattle.zone_graph.specs.Grouped.{IsGraphOf};
ghost use Rattle.nat_domains.specs.Marks.{site_of, is_marked};
ghost use Rattle.nat_domains.specs.Inner.{IsActiveIn, IsInnerTag};
ghost use Rattle.nat_domains.specs.Rows.{tag_rows, AreListed, ListsOneMore};
ghost use Rattle.nat_domains.specs.Bound.{AreBoundMarked};
ghost use Rattle.nat_domains.specs.Places.{NonePasses, IsFirstPlace};
ghost use Rattle.nat_domains.specs.Conflicts.{IsZoneOfConflict, IsConflictBelow};

use crate::bound::bound_tags;
use crate::colour::{active_zones, barred_zones, binders, inner_routers};
use crate::look::{router_count, tag_count};
use crate::rows::{bare_rows, put_marked};
use spoc_base::{NoMemory, TagId, ZoneId};
use std::alloc::Global;
use topology::Topo;
use zone_graph::ZoneGraph;

/// A tag that is in force in a zone, and must not be.
#[derive(Clone, Copy)]
pub(crate) struct Conflict {
    pub zone: ZoneId,
    pub tag: TagId,
}

/// The tags in force in each zone, those that each router sees inside, and the first conflict.
#[derive(Drop)]
pub(crate) struct Tables {
    pub zones: Vec<Vec<TagId>>,
    pub inner: Vec<Vec<TagId>>,
    pub conflict: Option<Conflict>,
}

// The first zone that has both marks.
fn first_shared(one: &[bool], other: &[bool], count: u32) -> Option<ZoneId>
    requires one { length one.now ≡ count }
    requires other { length other.now ≡ count }
    ensures { MatchOption result (NonePasses (λ k. is_marked one.now k && is_marked other.now k) 0 count) (λ zone. IsFirstPlace (λ k. is_marked one.now k && is_marked other.now k) 0 count zone.0) }
{
    for k in 0..count {
        if one[k as usize] && other[k as usize] {
            return Some(ZoneId(k));
        }
    }
    None
}

// Puts a tag into the rows of the zones in which it is in force, and of the routers that see it
// inside. Gives the first zone in which it is in force and must not be.
fn colour_tag(
    alloc: Global,
    topo: Topo<'_>,
    graph: &ZoneGraph,
    tag: TagId,
    zones: &mut [Vec<TagId>],
    inner: &mut [Vec<TagId>],
) -> Result<Option<ZoneId>, NoMemory>
    requires graph { IsGraphOf (policy_of topo) graph.now }
    requires zones { length zones.old ≡ length graph.now.nets }
    requires routers { length inner.old ≡ length (policy_of topo).routers }
    ensures zones { IfOk result (λ zone. ListsOneMore (IsActiveIn (site_of topo.entry graph.now)) tag.0 (tag_rows zones.old) (tag_rows zones.new)) }
    ensures inner { IfOk result (λ zone. ListsOneMore (IsInnerTag (site_of topo.entry graph.now)) tag.0 (tag_rows inner.old) (tag_rows inner.new)) }
    ensures conflict { IfOk result (λ zone. IsZoneOfConflict (site_of topo.entry graph.now) tag.0 zone) }
{
    let binding = binders(alloc, topo, tag)?;
    let active = active_zones(alloc, topo, graph, tag)?;
    let barred = barred_zones(alloc, topo, graph, &binding, tag)?;
    let seeing = inner_routers(alloc, topo, graph, &binding, &active, tag)?;
    put_marked(zones, &active, tag)?;
    put_marked(inner, &seeing, tag)?;
    Ok(first_shared(&active, &barred, graph.count()))
}

// The same, in next to no time where no interface binds the tag.
fn colour_if_bound(
    alloc: Global,
    topo: Topo<'_>,
    graph: &ZoneGraph,
    bound: &[bool],
    tag: TagId,
    zones: &mut [Vec<TagId>],
    inner: &mut [Vec<TagId>],
) -> Result<Option<ZoneId>, NoMemory>
    requires graph { IsGraphOf (policy_of topo) graph.now }
    requires there { tag.0 < length bound.now }
    requires bound { AreBoundMarked (policy_of topo) (length (policy_of topo).ifaces) bound.now }
    requires zones { length zones.old ≡ length graph.now.nets }
    requires routers { length inner.old ≡ length (policy_of topo).routers }
    ensures zones { IfOk result (λ zone. ListsOneMore (IsActiveIn (site_of topo.entry graph.now)) tag.0 (tag_rows zones.old) (tag_rows zones.new)) }
    ensures inner { IfOk result (λ zone. ListsOneMore (IsInnerTag (site_of topo.entry graph.now)) tag.0 (tag_rows inner.old) (tag_rows inner.new)) }
    ensures conflict { IfOk result (λ zone. IsZoneOfConflict (site_of topo.entry graph.now) tag.0 zone) }
{
    if !bound[tag.0 as usize] {
        return Ok(None);
    }
    colour_tag(alloc, topo, graph, tag, zones, inner)
}

// The conflict that counts: that of the lower zone, or the one known before.
fn nearer(known: Option<Conflict>, zone: Option<ZoneId>, tag: TagId) -> Option<Conflict>
    ensures { (s : Site) → IsConflictBelow s tag.0 known → IsZoneOfConflict s tag.0 zone → IsConflictBelow s (tag.0 + 1) result }
{
    let Some(zone) = zone else {
        return known;
    };
    match known {
        Some(conflict) if conflict.zone.0 <= zone.0 => known,
        _ => Some(Conflict { zone, tag }),
    }
}

/// The tables of a policy, in time that grows for each tag that an interface binds with the zones,
/// the routers and the interfaces.
pub(crate) fn colour_all(
    alloc: Global,
    topo: Topo<'_>,
    graph: &ZoneGraph,
) -> Result<Tables, NoMemory>
    requires { IsGraphOf (policy_of topo) graph.now }
    ensures each_zone { IfOk result (λ t. length (tag_rows t.zones.items) ≡ length graph.now.nets) }
    ensures each_router { IfOk result (λ t. length (tag_rows t.inner.items) ≡ length (policy_of topo.entry).routers) }
    ensures zones { IfOk result (λ t. AreListed (IsActiveIn (site_of topo.entry graph.now)) (tag_rows t.zones.items) (length (policy_of topo.entry).tags)) }
    ensures inner { IfOk result (λ t. AreListed (IsInnerTag (site_of topo.entry graph.now)) (tag_rows t.inner.items) (length (policy_of topo.entry).tags)) }
    ensures conflict { IfOk result (λ t. IsConflictBelow (site_of topo.entry graph.now) (length (policy_of topo.entry).tags) t.conflict) }
{
    let bound = bound_tags(alloc, topo)?;
    let mut zones = bare_rows(alloc, graph.count())?;
    let mut inner = bare_rows(alloc, router_count(topo))?;
    let mut conflict = None;
    for t in 0..tag_count(topo) {
        let zone = colour_if_bound(alloc, topo, graph, &bound, TagId(t), &mut zones, &mut inner)?;
        conflict = nearer(conflict, zone, TagId(t));
    }
    Ok(Tables {
        zones,
        inner,
        conflict,
    })
}
