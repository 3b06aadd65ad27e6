ghost use Rattle.std.specs.Prelude.{◌≡◌, ◌++◌, ◌∷◌, [], ◌&&◌, not, ◌||◌, ◌==◌, ℕ, length, map, filter, IfOk, OnOk};
ghost use Rattle.std.specs.List.{list_any, list_all};
ghost use Rattle.policy_model.specs.Lists.{has};
ghost use Rattle.policy_model.specs.Policy.{router_at};
ghost use Rattle.policy_model.specs.Paths.{places_on, routers_on, interfaces_on};
ghost use Rattle.policy_model.specs.Zones.{zone_at};
ghost use Rattle.policy_model.specs.Walks.{is_unrestricted, all_crossings};
ghost use Rattle.topology.specs.View.{policy_of};
ghost use Rattle.topology.specs.Kept.{ifaces_of};
ghost use Rattle.zone_graph.specs.Grouped.{IsGraphOf};
ghost use Rattle.path_walk.specs.Seen.{site_of, step_seen, path_seen, two_on};
ghost use Rattle.path_walk.specs.Search.{end_of, goes_on, by_door};

use crate::lookup::{doors_in, ifs_of, is_crossing, router_at, zone_at};
use crate::step::Step;
use spoc_base::{IfId, NoMemory, RouterId, ZoneId};
use std::alloc::Global;
use topology::{Restriction, Topo};
use zone_graph::ZoneGraph;

/// The zone to which a path leads.
pub(crate) fn end_of(topo: Topo<'_>, graph: &ZoneGraph, from: ZoneId, path: &[Step]) -> ZoneId
    requires { IsGraphOf (policy_of topo) graph.now }
    ensures { result.0 ≡ end_of (site_of (policy_of topo.entry) graph.now) from.0 (path_seen path.now) }
{
    let mut end = from;
    for c in path {
        end = zone_at(topo, graph, c.leave);
    }
    end
}

/// Whether a path leads to a zone after some crossing.
fn comes_to(topo: Topo<'_>, graph: &ZoneGraph, path: &[Step], zone: ZoneId) -> bool
    requires { IsGraphOf (policy_of topo) graph.now }
    ensures { result ≡ list_any (λ c. zone_at (site_of (policy_of topo.entry) graph.now) c.leave.0 == zone.0) path.now }
{
    for c in path {
        if zone_at(topo, graph, c.leave) == zone {
            return true;
        }
    }
    false
}

/// Whether a path starts in a zone or leads to it after some crossing.
fn meets_zone(topo: Topo<'_>, graph: &ZoneGraph, from: ZoneId, path: &[Step], zone: ZoneId) -> bool
    requires { IsGraphOf (policy_of topo) graph.now }
    ensures { result ≡ ((from.0 == zone.0) || list_any (λ c. zone_at (site_of (policy_of topo.entry) graph.now) c.leave.0 == zone.0) path.now) }
{
    from == zone || comes_to(topo, graph, path, zone)
}

/// Whether a path passes a zone, the first one included.
pub(crate) fn passes_zone(
    topo: Topo<'_>,
    graph: &ZoneGraph,
    from: ZoneId,
    path: &[Step],
    zone: ZoneId,
) -> bool
    requires { IsGraphOf (policy_of topo) graph.now }
    ensures { result ≡ has (places_on (zone_at (site_of (policy_of topo.entry) graph.now)) from.0 (path_seen path.now)) zone.0 }
{
    meets_zone(topo, graph, from, path, zone)
}

/// Whether a path enters a router at some crossing.
fn enters_router(topo: Topo<'_>, path: &[Step], router: RouterId) -> bool
    ensures { result ≡ list_any (λ c. router_at (policy_of topo.entry) c.enter.0 == router.0) path.now }
{
    for c in path {
        if router_at(topo, c.enter) == router {
            return true;
        }
    }
    false
}

/// Whether a path crosses a router.
pub(crate) fn passes_router(topo: Topo<'_>, path: &[Step], router: RouterId) -> bool
    ensures { result ≡ has (routers_on (policy_of topo.entry) (path_seen path.now)) router.0 }
{
    enters_router(topo, path, router)
}

/// Whether an interface is on a path.
fn passes_iface(path: &[Step], i: IfId) -> bool
    ensures { result ≡ list_any (λ c. (c.enter.0 == i.0) || (c.leave.0 == i.0)) path.now }
{
    for c in path {
        if touches(*c, i) {
            return true;
        }
    }
    false
}

/// Whether a crossing goes through an interface.
fn touches(c: Step, i: IfId) -> bool
    ensures { result ≡ ((c.enter.0 == i.0) || (c.leave.0 == i.0)) }
{
    c.enter == i || c.leave == i
}

/// Whether a path or the crossing after it goes through an interface.
fn is_near(path: &[Step], last: Step, i: IfId) -> bool
    ensures { result ≡ (list_any (λ c. (c.enter.0 == i.0) || (c.leave.0 == i.0)) path.now || ((last.enter.0 == i.0) || (last.leave.0 == i.0))) }
{
    passes_iface(path, i) || touches(last, i)
}

/// Whether an interface is on a path or on the crossing after it.
fn is_on(path: &[Step], last: Step, i: IfId) -> bool
    ensures { result ≡ has (interfaces_on (path_seen path.now ++ step_seen last ∷ [])) i.0 }
{
    is_near(path, last, i)
}

/// Whether another one of the interfaces is there.
fn has_other_on(members: &[IfId], path: &[Step], last: Step, i: IfId) -> bool
    ensures { result ≡ list_any (λ j. not (i.0 == j.0) && has (interfaces_on (path_seen path.now ++ step_seen last ∷ [])) j.0) members.now }
{
    for j in members {
        if i != *j && is_on(path, last, *j) {
            return true;
        }
    }
    false
}

/// Whether two different ones of the interfaces are there.
fn has_two_on(members: &[IfId], path: &[Step], last: Step) -> bool
    ensures { result ≡ two_on (path_seen path.now ++ step_seen last ∷ []) members.now }
{
    for i in members {
        if is_on(path, last, *i) && has_other_on(members, path, last, *i) {
            return true;
        }
    }
    false
}

/// Whether no restriction has two of its interfaces there.
fn allow(restrictions: &[Restriction<'_>], path: &[Step], last: Step) -> bool
    ensures { result ≡ list_all (λ r. not (two_on (path_seen path.now ++ step_seen last ∷ []) r.members.now)) restrictions.now }
{
    for restriction in restrictions {
        if has_two_on(restriction.members, path, last) {
            return false;
        }
    }
    true
}

/// Whether the restrictions allow that a path goes on by a crossing.
fn is_unrestricted(topo: Topo<'_>, path: &[Step], last: Step) -> bool
    ensures { result ≡ is_unrestricted (policy_of topo.entry) (path_seen path.now ++ step_seen last ∷ []) }
{
    allow(topo.restrictions(), path, last)
}

/// Whether a walk may go on by a crossing where the path ends.
pub(crate) fn goes_on(
    topo: Topo<'_>,
    graph: &ZoneGraph,
    from: ZoneId,
    path: &[Step],
    c: Step,
) -> bool
    requires { IsGraphOf (policy_of topo) graph.now }
    ensures { result ≡ goes_on (site_of (policy_of topo.entry) graph.now) from.0 (path_seen path.now) (step_seen c) }
{
    is_crossing(topo, graph, c)
        && zone_at(topo, graph, c.enter) == end_of(topo, graph, from, path)
        && !passes_zone(topo, graph, from, path, zone_at(topo, graph, c.leave))
        && !passes_router(topo, path, router_at(topo, c.enter))
        && is_unrestricted(topo, path, c)
}

/// Adds a crossing, where a walk may go on by it.
fn add(
    topo: Topo<'_>,
    graph: &ZoneGraph,
    from: ZoneId,
    path: &[Step],
    found: &mut Vec<Step>,
    c: Step,
) -> Result<(), NoMemory>
    requires { IsGraphOf (policy_of topo) graph.now }
    ensures { OnOk result (path_seen found.new.items ≡ path_seen found.old.items ++ filter (goes_on (site_of (policy_of topo.entry) graph.now) from.0 (path_seen path.now)) (step_seen c ∷ [])) }
{
    if goes_on(topo, graph, from, path, c) {
        found.push(c)?;
    }
    Ok(())
}

/// Adds the crossings by which a walk may go on at an interface. There is none where the path has
/// crossed its router.
pub(crate) fn add_at(
    topo: Topo<'_>,
    graph: &ZoneGraph,
    from: ZoneId,
    path: &[Step],
    found: &mut Vec<Step>,
    enter: IfId,
) -> Result<(), NoMemory>
    requires { IsGraphOf (policy_of topo) graph.now }
    ensures { OnOk result (path_seen found.new.items ≡ path_seen found.old.items ++ by_door (site_of (policy_of topo.entry) graph.now) from.0 (path_seen path.now) enter.0) }
{
    let router = router_at(topo, enter);
    if passes_router(topo, path, router) {
        return Ok(());
    }
    let row = ifs_of(topo, router);
    for leave in row {
        let c = Step {
            enter,
            leave: *leave,
        };
        add(topo, graph, from, path, found, c)?;
    }
    Ok(())
}

/// The crossings by which a walk may go on where the path ends, in order.
pub(crate) fn onward(
    alloc: Global,
    topo: Topo<'_>,
    graph: &ZoneGraph,
    from: ZoneId,
    path: &[Step],
) -> Result<Vec<Step>, NoMemory>
    requires { IsGraphOf (policy_of topo) graph.now }
    ensures { IfOk result (λ found. path_seen found.items ≡ filter (goes_on (site_of (policy_of topo.entry) graph.now) from.0 (path_seen path.now)) (all_crossings (site_of (policy_of topo.entry) graph.now))) }
{
    let mut found = Vec::new(alloc);
    let end = end_of(topo, graph, from, path);
    let doors = doors_in(topo, graph, end);
    for door in doors {
        add_at(topo, graph, from, path, &mut found, *door)?;
    }
    Ok(found)
}
