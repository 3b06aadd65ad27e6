ghost use Rattle.std.specs.Prelude.{◌≡◌, ◌<◌, ◌==◌, ◌||◌, ℕ, false, length, map, is_none, IfNone, IfSome, slice_index};
ghost use Rattle.std.specs.List.{list_any};
ghost use Rattle.policy_model.specs.FirstFault.{HiddenEnd as Hidden};
ghost use Rattle.policy_model.specs.Marks.{marked_crossings};
ghost use Rattle.policy_model.specs.Policy.{net_of};
ghost use Rattle.topology.specs.Told.{IsTold};
ghost use Rattle.topology.specs.View.{policy_of, sources_of};
ghost use Rattle.zone_graph.specs.Grouped.{IsGraphOf};
ghost use Rattle.nat_view.specs.Sights.{sight_of};
ghost use Rattle.nat_view.specs.Views.{seen_of};
ghost use Rattle.permit_set.specs.Shown.{permit_of};
ghost use Rattle.permit_lines.specs.Given.{site_with, AreKnown};
ghost use Rattle.rule_distribute.specs.Hidden.{end_net, touches_zone, AreThere, HasTable, HaveTables, IsHiddenIn, IsHiddenAt, NoneHiddenAt, IsFirstZone, IsSeenThroughout, IsFirstHidden, AreSeenThroughout};
ghost use Rattle.rule_distribute.specs.Paths.{crossing_seen, zones_named, AreMarked, AreFiled};

use crate::naming::{net_name, zone_name};
use crate::paths::{Places, crossings_of};
use crate::sight::zone_at;
use nat_view::{View, Views};
use permit_set::Permit;
use spoc_base::{Fault, NetId, Prefix, TagId, ZoneId};
use topology::Topo;
use zone_graph::{Crossing, PairMarks, ZoneGraph};

/// A permit with an end that is hidden in a zone of an allowed walk: its destination or, where
/// `is_dst` is false, its source.
#[derive(Clone, Copy)]
pub(crate) struct HiddenEnd {
    pub(crate) permit: u32,
    pub(crate) zone: ZoneId,
    pub(crate) is_dst: bool,
}

// Whether one of the translations hides what it translates.
fn hides(nats: &[(TagId, Option<Prefix>)]) -> bool
    ensures { result ≡ list_any (λ nat. is_none nat.1) nats.now }
{
    for nat in nats {
        if nat.1.is_none() {
            return true;
        }
    }
    false
}

// Whether some tag hides a network.
fn may_hide(topo: Topo<'_>, n: NetId) -> bool
    requires { n.0 < length (policy_of topo).nets }
    ensures { result ≡ list_any (λ nat. is_none nat.1) (net_of (policy_of topo.entry) n.0).nats }
{
    hides(topo.net(n).nats)
}

// Whether a crossing leads from a zone or to it.
fn touches(topo: Topo<'_>, graph: &ZoneGraph, c: Crossing, z: ZoneId) -> bool
    requires graph { IsGraphOf (policy_of topo) graph.now }
    requires enter { c.enter.0 < length (policy_of topo).ifaces }
    requires leave { c.leave.0 < length (policy_of topo).ifaces }
    ensures { result ≡ touches_zone (site_with (policy_of topo.entry) graph.now) z.0 (crossing_seen c) }
{
    zone_at(topo, graph, c.enter) == z || zone_at(topo, graph, c.leave) == z
}

// Whether one of the crossings leads from a zone or to it.
fn passes(topo: Topo<'_>, graph: &ZoneGraph, crossings: &[Crossing], z: ZoneId) -> bool
    requires graph { IsGraphOf (policy_of topo) graph.now }
    requires there { AreThere (policy_of topo) crossings.now }
    ensures { result ≡ list_any (λ c. touches_zone (site_with (policy_of topo.entry) graph.now) z.0 (crossing_seen c)) crossings.now }
{
    for c in crossings {
        if touches(topo, graph, *c, z) {
            return true;
        }
    }
    false
}

// The end of a permit that is hidden in a view, the source first.
fn hidden_in(view: View<'_>, q: Permit) -> Option<bool>
    requires src { q.src.net.0 < length (sight_of view).policy.nets }
    requires dst { q.dst.net.0 < length (sight_of view).policy.nets }
    ensures { IsHiddenIn (sight_of view.entry).policy (sight_of view.entry).tags (permit_of q) result }
{
    if view.hidden(q.src.net) {
        return Some(false);
    }
    if view.hidden(q.dst.net) {
        return Some(true);
    }
    None
}

// The end of a permit between two zones that is hidden in a zone of an allowed walk between them,
// the source first. The crossings are those of these walks.
fn hidden_at(
    topo: Topo<'_>,
    graph: &ZoneGraph,
    views: &Views<'_>,
    crossings: &[Crossing],
    q: Permit,
    z: ZoneId,
) -> Option<bool>
    requires graph { IsGraphOf (policy_of topo) graph.now }
    requires policy { (seen_of views.now).policy ≡ policy_of topo }
    requires zones { length (seen_of views.now).views.zones ≡ length graph.now.nets }
    requires src { q.src.net.0 < length (policy_of topo).nets }
    requires dst { q.dst.net.0 < length (policy_of topo).nets }
    requires zone { z.0 < length graph.now.nets }
    requires differ { (slice_index graph.now.zones q.src.net.0 == slice_index graph.now.zones q.dst.net.0) ≡ false }
    requires marks { map crossing_seen crossings.now ≡ marked_crossings (site_with (policy_of topo) graph.now) (slice_index graph.now.zones q.src.net.0) (slice_index graph.now.zones q.dst.net.0) }
    ensures none { IfNone result (NoneHiddenAt (site_with (policy_of topo.entry) graph.now) (seen_of views.now).views (permit_of q) z.0) }
    ensures some { IfSome result (IsHiddenAt (site_with (policy_of topo.entry) graph.now) (seen_of views.now).views (permit_of q) z.0) }
{
    let Some(is_dst) = hidden_in(views.zone(z), q) else {
        return None;
    };
    if !passes(topo, graph, crossings, z) {
        return None;
    }
    Some(is_dst)
}

// The first zone of an allowed walk in which an end of a permit is hidden, and whether this is the
// destination.
fn first_zone(
    topo: Topo<'_>,
    graph: &ZoneGraph,
    views: &Views<'_>,
    crossings: &[Crossing],
    q: Permit,
) -> Option<(ZoneId, bool)>
    requires graph { IsGraphOf (policy_of topo) graph.now }
    requires policy { (seen_of views.now).policy ≡ policy_of topo }
    requires zones { length (seen_of views.now).views.zones ≡ length graph.now.nets }
    requires src { q.src.net.0 < length (policy_of topo).nets }
    requires dst { q.dst.net.0 < length (policy_of topo).nets }
    requires differ { (slice_index graph.now.zones q.src.net.0 == slice_index graph.now.zones q.dst.net.0) ≡ false }
    requires marks { map crossing_seen crossings.now ≡ marked_crossings (site_with (policy_of topo) graph.now) (slice_index graph.now.zones q.src.net.0) (slice_index graph.now.zones q.dst.net.0) }
    ensures none { IfNone result (IsSeenThroughout (site_with (policy_of topo.entry) graph.now) (seen_of views.now).views (permit_of q)) }
    ensures some { IfSome result (λ e. IsFirstZone (site_with (policy_of topo.entry) graph.now) (seen_of views.now).views (permit_of q) e.0.0 e.1) }
{
    for z in 0..graph.count() {
        if let Some(is_dst) = hidden_at(topo, graph, views, crossings, q, ZoneId(z)) {
            return Some((ZoneId(z), is_dst));
        }
    }
    None
}

// The same, with the crossings of the permit's walks looked up. Most permits need no look: their
// zones are one, or no tag hides a network of theirs.
fn first_zone_of(
    topo: Topo<'_>,
    graph: &ZoneGraph,
    views: &Views<'_>,
    places: &Places,
    tables: &[PairMarks],
    q: Permit,
) -> Option<(ZoneId, bool)>
    requires graph { IsGraphOf (policy_of topo) graph.now }
    requires policy { (seen_of views.now).policy ≡ policy_of topo }
    requires zones { length (seen_of views.now).views.zones ≡ length graph.now.nets }
    requires src { q.src.net.0 < length (policy_of topo).nets }
    requires dst { q.dst.net.0 < length (policy_of topo).nets }
    requires places { AreFiled (map zones_named tables.now) (length tables.now) places.now }
    requires marks { AreMarked (site_with (policy_of topo) graph.now) tables.now }
    requires named { HasTable graph.now.zones (map zones_named tables.now) (permit_of q) }
    ensures none { IfNone result (IsSeenThroughout (site_with (policy_of topo.entry) graph.now) (seen_of views.now).views (permit_of q)) }
    ensures some { IfSome result (λ e. IsFirstZone (site_with (policy_of topo.entry) graph.now) (seen_of views.now).views (permit_of q) e.0.0 e.1) }
{
    if graph.zone_of(q.src.net) == graph.zone_of(q.dst.net) {
        return None;
    }
    if !may_hide(topo, q.src.net) && !may_hide(topo, q.dst.net) {
        return None;
    }
    let pair = (q.src.net.0, q.dst.net.0);
    let crossings = crossings_of(topo, graph, places, tables, pair);
    first_zone(topo, graph, views, crossings, q)
}

/// The first permit with an end that is hidden in a zone of an allowed walk, with the first such
/// zone, and the source before the destination.
pub(crate) fn first_hidden(
    topo: Topo<'_>,
    graph: &ZoneGraph,
    views: &Views<'_>,
    permits: &[Permit],
    places: &Places,
    tables: &[PairMarks],
) -> Option<HiddenEnd>
    requires graph { IsGraphOf (policy_of topo) graph.now }
    requires policy { (seen_of views.now).policy ≡ policy_of topo }
    requires zones { length (seen_of views.now).views.zones ≡ length graph.now.nets }
    requires permits { AreKnown (policy_of topo) (map permit_of permits.now) }
    requires few { length permits.now < 4294967296 }
    requires places { AreFiled (map zones_named tables.now) (length tables.now) places.now }
    requires marks { AreMarked (site_with (policy_of topo) graph.now) tables.now }
    requires named { HaveTables graph.now.zones (map zones_named tables.now) (map permit_of permits.now) }
    ensures none { IfNone result (AreSeenThroughout (site_with (policy_of topo.entry) graph.now) (seen_of views.now).views (map permit_of permits.now)) }
    ensures some { IfSome result (λ e. IsFirstHidden (site_with (policy_of topo.entry) graph.now) (seen_of views.now).views (map permit_of permits.now) e.permit e.zone.0 e.is_dst) }
{
    for k in 0..permits.len() as u32 {
        let q = permits[k as usize];
        if let Some((zone, is_dst)) = first_zone_of(topo, graph, views, places, tables, q) {
            return Some(HiddenEnd {
                permit: k,
                zone,
                is_dst,
            });
        }
    }
    None
}

// The network of a permit's destination or, where `is_dst` is false, of its source.
fn end_of(q: Permit, is_dst: bool) -> NetId
    ensures { result.0 ≡ end_net (permit_of q) is_dst }
{
    if is_dst { q.dst.net } else { q.src.net }
}

/// The fault of such an end of a permit.
pub(crate) fn hidden_end_fault(
    topo: Topo<'_>,
    graph: &ZoneGraph,
    q: Permit,
    zone: ZoneId,
    is_dst: bool,
) -> Fault
    requires graph { IsGraphOf (policy_of topo) graph.now }
    requires src { q.src.net.0 < length (policy_of topo).nets }
    requires dst { q.dst.net.0 < length (policy_of topo).nets }
    requires zone { zone.0 < length graph.now.nets }
    ensures { (k : ℕ) → IsTold (sources_of topo.entry) (site_with (policy_of topo.entry) graph.now) (Hidden k q.src.net.0 q.dst.net.0 (end_net (permit_of q) is_dst) zone.0) result }
{
    Fault::HiddenEnd {
        src: net_name(topo, q.src.net),
        dst: net_name(topo, q.dst.net),
        net: net_name(topo, end_of(q, is_dst)),
        zone: zone_name(topo, graph, zone),
    }
}
