ghost use Rattle.std.specs.Prelude.{◌≡◌, ◌<◌, ◌==◌, ◌∷◌, [], Some, None, ℕ, length, map, flat_map, if◌then◌else◌, IfOk, OnOk, false};
ghost use Rattle.std.specs.BTreeSet.{insert_key};
ghost use Rattle.policy_model.specs.Policy.{net_at, router_at};
ghost use Rattle.policy_model.specs.Routes.{first_hops as hops_between, hops_through};
ghost use Rattle.policy_model.specs.Marks.{marked_crossings, marked_links};
ghost use Rattle.policy_model.specs.Zones.{zone_of};
ghost use Rattle.topology.specs.View.{policy_of};
ghost use Rattle.zone_graph.specs.Grouped.{IsGraphOf};
ghost use Rattle.path_walk.specs.Seen.{site_of, crossing_seen, link_seen};
ghost use Rattle.route_laws.specs.Marked.{last_hops, hops_over};
ghost use Rattle.static_routes.specs.Chains.{numbers_of, LeaveBelow, LinksBelow};
ghost use Rattle.static_routes.specs.Found.{found_of, found_order, with_found, found_at, crossing_found, link_found, way_found};

use crate::lookup::{is_static, net_at, router_at, zone_at, zone_of};
use spoc_base::{IfId, NetId, NoMemory, RouterId, ZoneId};
use std::alloc::Global;
use std::collections::BTreeSet;
use topology::Topo;
use zone_graph::{Crossing, Link, MarkTable, ZoneGraph};
use zone_hops::first_hops;

/// A router and a network, by number.
pub type Place = (u32, u32);

/// The leaving interface of a next hop and the next one, by number; no next one where the hop is
/// direct.
pub type Way = (u32, Option<u32>);

/// A next hop of a router to a network.
pub type Found = (Place, Way);

// One hop more, unless it is there.
fn add(
    found: &mut BTreeSet<Found>,
    r: RouterId,
    v: NetId,
    out: IfId,
    next: Option<u32>,
) -> Result<(), NoMemory>
    ensures { OnOk result (found.new.keys ≡ insert_key found_order found.old.keys ((r.0, v.0), (out.0, next))) }
{
    found.insert(((r.0, v.0), (out.0, next)))?;
    Ok(())
}

// The hops through each of some next interfaces.
fn add_through(
    found: &mut BTreeSet<Found>,
    r: RouterId,
    v: NetId,
    out: IfId,
    nexts: &[IfId],
) -> Result<(), NoMemory>
    ensures { OnOk result (found.new.keys ≡ with_found found.old.keys (map (found_of r.0 v.0) (hops_through out.0 (numbers_of nexts.now)))) }
{
    for next in nexts {
        add(found, r, v, out, Some(next.0))?;
    }
    Ok(())
}

// The hops that begin a chain from the leaving interface's network to another.
fn add_first(
    alloc: Global,
    topo: Topo<'_>,
    found: &mut BTreeSet<Found>,
    v: NetId,
    out: IfId,
    target: NetId,
) -> Result<(), NoMemory>
    requires out { out.0 < length (policy_of topo).ifaces }
    requires target { target.0 < length (policy_of topo).nets }
    requires apart { (net_at (policy_of topo) out.0 == target.0) ≡ false }
    ensures { OnOk result (found.new.keys ≡ with_found found.old.keys (map (found_of (router_at (policy_of topo.entry) out.0) v.0) (hops_through out.0 (hops_between (policy_of topo.entry) (net_at (policy_of topo.entry) out.0) target.0)))) }
{
    let nexts = first_hops(alloc, topo, net_at(topo, out), target)?;
    add_through(found, router_at(topo, out), v, out, &nexts)
}

// The hops by the leaving interface of a walk's last crossing.
fn add_last(
    alloc: Global,
    topo: Topo<'_>,
    found: &mut BTreeSet<Found>,
    v: NetId,
    out: IfId,
) -> Result<(), NoMemory>
    requires out { out.0 < length (policy_of topo).ifaces }
    requires net { v.0 < length (policy_of topo).nets }
    ensures { OnOk result (found.new.keys ≡ with_found found.old.keys (map (found_of (router_at (policy_of topo.entry) out.0) v.0) (last_hops (policy_of topo.entry) v.0 out.0))) }
{
    if net_at(topo, out).0 == v.0 {
        return add(found, router_at(topo, out), v, out, None);
    }
    add_first(alloc, topo, found, v, out, v)
}

// The hops to where a walk enters next.
fn add_over(
    alloc: Global,
    topo: Topo<'_>,
    found: &mut BTreeSet<Found>,
    v: NetId,
    link: Link,
) -> Result<(), NoMemory>
    requires out { link.leave.0 < length (policy_of topo).ifaces }
    requires next { link.enter.0 < length (policy_of topo).ifaces }
    ensures { OnOk result (found.new.keys ≡ with_found found.old.keys (map (found_of (router_at (policy_of topo.entry) link.leave.0) v.0) (hops_over (policy_of topo.entry) (link_seen link)))) }
{
    let out = link.leave;
    let target = net_at(topo, link.enter);
    if target.0 == net_at(topo, out).0 {
        return add(found, router_at(topo, out), v, out, Some(link.enter.0));
    }
    add_first(alloc, topo, found, v, out, target)
}

// The hops by a marked crossing, where it is the last one of a walk to the network.
fn add_crossing(
    alloc: Global,
    topo: Topo<'_>,
    graph: &ZoneGraph,
    found: &mut BTreeSet<Found>,
    v: NetId,
    c: Crossing,
) -> Result<(), NoMemory>
    requires graph { IsGraphOf (policy_of topo) graph.now }
    requires out { c.leave.0 < length (policy_of topo).ifaces }
    requires net { v.0 < length (policy_of topo).nets }
    ensures { OnOk result (found.new.keys ≡ with_found found.old.keys (crossing_found (site_of (policy_of topo.entry) graph.now) v.0 (crossing_seen c))) }
{
    if zone_at(topo, graph, c.leave).0 != zone_of(topo, graph, v).0 {
        return Ok(());
    }
    if !is_static(topo, router_at(topo, c.leave)) {
        return Ok(());
    }
    add_last(alloc, topo, found, v, c.leave)
}

// The hops by a marked link.
fn add_link(
    alloc: Global,
    topo: Topo<'_>,
    graph: &ZoneGraph,
    found: &mut BTreeSet<Found>,
    v: NetId,
    link: Link,
) -> Result<(), NoMemory>
    requires out { link.leave.0 < length (policy_of topo).ifaces }
    requires next { link.enter.0 < length (policy_of topo).ifaces }
    ensures { OnOk result (found.new.keys ≡ with_found found.old.keys (link_found (site_of (policy_of topo.entry) graph.now) v.0 (link_seen link))) }
{
    if !is_static(topo, router_at(topo, link.leave)) {
        return Ok(());
    }
    add_over(alloc, topo, found, v, link)
}

// The hops by marked crossings.
fn add_crossings(
    alloc: Global,
    topo: Topo<'_>,
    graph: &ZoneGraph,
    found: &mut BTreeSet<Found>,
    v: NetId,
    crossings: &[Crossing],
) -> Result<(), NoMemory>
    requires graph { IsGraphOf (policy_of topo) graph.now }
    requires net { v.0 < length (policy_of topo).nets }
    requires there { LeaveBelow (policy_of topo) crossings.now }
    ensures { OnOk result (found.new.keys ≡ with_found found.old.keys (flat_map (crossing_found (site_of (policy_of topo.entry) graph.now) v.0) (map crossing_seen crossings.now))) }
{
    for c in crossings {
        add_crossing(alloc, topo, graph, found, v, *c)?;
    }
    Ok(())
}

// The hops by marked links.
fn add_links(
    alloc: Global,
    topo: Topo<'_>,
    graph: &ZoneGraph,
    found: &mut BTreeSet<Found>,
    v: NetId,
    links: &[Link],
) -> Result<(), NoMemory>
    requires there { LinksBelow (policy_of topo) links.now }
    ensures { OnOk result (found.new.keys ≡ with_found found.old.keys (flat_map (link_found (site_of (policy_of topo.entry) graph.now) v.0) (map link_seen links.now))) }
{
    for link in links {
        add_link(alloc, topo, graph, found, v, *link)?;
    }
    Ok(())
}

/// Adds the next hops of all static routers to a network, as the marks of the walks from a zone to
/// the network's own give them; those that are there stay. Only want of memory is an error.
pub(crate) fn add_marks(
    alloc: Global,
    topo: Topo<'_>,
    graph: &ZoneGraph,
    found: &mut BTreeSet<Found>,
    from: ZoneId,
    v: NetId,
    marks: &MarkTable,
) -> Result<(), NoMemory>
    requires graph { IsGraphOf (policy_of topo) graph.now }
    requires net { v.0 < length (policy_of topo).nets }
    requires crossings { map crossing_seen marks.now.crossings ≡ marked_crossings (site_of (policy_of topo) graph.now) from.0 (zone_of (site_of (policy_of topo) graph.now) v.0) }
    requires links { map link_seen marks.now.links ≡ marked_links (site_of (policy_of topo) graph.now) from.0 (zone_of (site_of (policy_of topo) graph.now) v.0) }
    ensures { OnOk result (found.new.keys ≡ with_found found.old.keys (way_found (site_of (policy_of topo.entry) graph.now) from.0 v.0)) }
{
    add_crossings(alloc, topo, graph, found, v, marks.crossings.items())?;
    add_links(alloc, topo, graph, found, v, marks.links.items())
}
