ghost use Rattle.std.specs.Prelude.{◌≡◌, ◌≢◌, ◌<◌, [], ℕ, length, map, true, IfOk, IsTrue};
ghost use Rattle.std.specs.List.{list_any};
ghost use Rattle.policy_model.specs.Paths.{is_start_of};
ghost use Rattle.policy_model.specs.Walks.{allowed_walks};
ghost use Rattle.policy_model.specs.Delivery.{goes_into};
ghost use Rattle.topology.specs.View.{policy_of};
ghost use Rattle.zone_graph.specs.Grouped.{IsGraphOf};
ghost use Rattle.path_walk.specs.Seen.{site_of, path_seen, crossing_seen};
ghost use Rattle.path_walk.specs.Search.{may_begin};
ghost use Rattle.path_walk.specs.Begun.{start_of, is_begun, is_extended};

use crate::lookup::zone_at;
use crate::onward::end_of;
use crate::search::Search;
use crate::step::Step;
use spoc_base::{IfId, NoMemory, ZoneId};
use std::alloc::Global;
use topology::Topo;
use zone_graph::{Crossing, ZoneGraph};

/// Goes along some crossings from the start, and says whether a walk may begin with them.
fn retrace(
    search: &mut Search,
    topo: Topo<'_>,
    graph: &ZoneGraph,
    from: ZoneId,
    crossings: &[Crossing],
) -> Result<bool, NoMemory>
    requires graph { IsGraphOf (policy_of topo) graph.now }
    requires start { search.old.path.items ≡ [] }
    ensures may { IfOk result (λ may. may ≡ may_begin (site_of (policy_of topo.entry) graph.now) from.0 (map crossing_seen crossings.now)) }
    ensures path { IfOk result (λ may. IsTrue may → path_seen search.new.path.items ≡ map crossing_seen crossings.now) }
    ensures branches { search.new.open.items ≡ search.old.open.items }
{
    for c in crossings {
        if !search.extend(topo, graph, from, Step::of(*c))? {
            return Ok(false);
        }
    }
    Ok(true)
}

/// Whether some allowed walk to the zone begins with the path at which the search stands.
fn leads_on(
    search: &mut Search,
    alloc: Global,
    topo: Topo<'_>,
    graph: &ZoneGraph,
    from: ZoneId,
    to: ZoneId,
) -> Result<bool, NoMemory>
    requires graph { IsGraphOf (policy_of topo) graph.now }
    requires elsewhere { from.0 ≢ to.0 }
    requires may { may_begin (site_of (policy_of topo) graph.now) from.0 (path_seen search.old.path.items) ≡ true }
    requires branches { search.old.open.items ≡ [] }
    ensures { IfOk result (λ begun. begun ≡ list_any (is_start_of (path_seen search.old.path.items)) (allowed_walks (site_of (policy_of topo.entry) graph.now) from.0 to.0)) }
{
    if end_of(topo, graph, from, search.path()) == to {
        return Ok(true);
    }
    search.expand(alloc, topo, graph, from)?;
    search.next(alloc, topo, graph, from, to)
}

/// Whether some allowed walk to the zone begins with the path at which the search stands and then
/// enters at an interface.
fn leads_into(
    search: &mut Search,
    alloc: Global,
    topo: Topo<'_>,
    graph: &ZoneGraph,
    from: ZoneId,
    next: IfId,
    to: ZoneId,
) -> Result<bool, NoMemory>
    requires graph { IsGraphOf (policy_of topo) graph.now }
    requires elsewhere { from.0 ≢ to.0 }
    requires may { may_begin (site_of (policy_of topo) graph.now) from.0 (path_seen search.old.path.items) ≡ true }
    requires branches { search.old.open.items ≡ [] }
    ensures { IfOk result (λ extended. extended ≡ list_any (goes_into (path_seen search.old.path.items) next.0) (allowed_walks (site_of (policy_of topo.entry) graph.now) from.0 to.0)) }
{
    if end_of(topo, graph, from, search.path()) == to {
        return Ok(false);
    }
    search.expand_at(alloc, topo, graph, from, next)?;
    search.next(alloc, topo, graph, from, to)
}

/// Whether some allowed walk from one zone to another begins with some crossings.
fn begins_from(
    alloc: Global,
    topo: Topo<'_>,
    graph: &ZoneGraph,
    from: ZoneId,
    crossings: &[Crossing],
    to: ZoneId,
) -> Result<bool, NoMemory>
    requires { IsGraphOf (policy_of topo) graph.now }
    ensures { IfOk result (λ begun. begun ≡ list_any (is_start_of (map crossing_seen crossings.now)) (allowed_walks (site_of (policy_of topo.entry) graph.now) from.0 to.0)) }
{
    if from == to {
        return Ok(false);
    }
    let mut search = Search::new(alloc);
    if !retrace(&mut search, topo, graph, from, crossings)? {
        return Ok(false);
    }
    leads_on(&mut search, alloc, topo, graph, from, to)
}

/// Whether some allowed walk from one zone to another begins with some crossings and then enters
/// at an interface.
fn extends_from(
    alloc: Global,
    topo: Topo<'_>,
    graph: &ZoneGraph,
    from: ZoneId,
    so_far: &[Crossing],
    next: IfId,
    to: ZoneId,
) -> Result<bool, NoMemory>
    requires { IsGraphOf (policy_of topo) graph.now }
    ensures { IfOk result (λ extended. extended ≡ list_any (goes_into (map crossing_seen so_far.now) next.0) (allowed_walks (site_of (policy_of topo.entry) graph.now) from.0 to.0)) }
{
    if from == to {
        return Ok(false);
    }
    let mut search = Search::new(alloc);
    if !retrace(&mut search, topo, graph, from, so_far)? {
        return Ok(false);
    }
    leads_into(&mut search, alloc, topo, graph, from, next, to)
}

/// The zone in which a path starts that has some crossings and then enters at an interface.
fn start_of(topo: Topo<'_>, graph: &ZoneGraph, crossings: &[Crossing], next: IfId) -> ZoneId
    requires { IsGraphOf (policy_of topo) graph.now }
    ensures { result.0 ≡ start_of (site_of (policy_of topo.entry) graph.now) (map crossing_seen crossings.now) next.0 }
{
    match crossings.first() {
        Some(c) => zone_at(topo, graph, c.enter),
        None => zone_at(topo, graph, next),
    }
}

/// Whether some allowed walk to a zone begins with these crossings, wherever it starts. The search
/// stops at the first such walk. It fails for want of memory alone.
pub fn begins(
    alloc: Global,
    topo: Topo<'_>,
    graph: &ZoneGraph,
    crossings: &[Crossing],
    to: ZoneId,
) -> Result<bool, NoMemory>
    requires graph { IsGraphOf (policy_of topo) graph.now }
    requires some { 0 < length crossings.now }
    ensures { IfOk result (λ begun. begun ≡ is_begun (site_of (policy_of topo.entry) graph.now) (map crossing_seen crossings.now) to.0) }
{
    let from = start_of(topo, graph, crossings, IfId(0));
    begins_from(alloc, topo, graph, from, crossings, to)
}

/// Whether some allowed walk to a zone begins with these crossings and then enters at an
/// interface. Where there are no crossings yet it starts in the interface's zone. The search stops
/// at the first such walk. It fails for want of memory alone.
pub fn extends(
    alloc: Global,
    topo: Topo<'_>,
    graph: &ZoneGraph,
    so_far: &[Crossing],
    next: IfId,
    to: ZoneId,
) -> Result<bool, NoMemory>
    requires { IsGraphOf (policy_of topo) graph.now }
    ensures { IfOk result (λ extended. extended ≡ is_extended (site_of (policy_of topo.entry) graph.now) (map crossing_seen so_far.now) next.0 to.0) }
{
    let from = start_of(topo, graph, so_far, next);
    extends_from(alloc, topo, graph, from, so_far, next, to)
}
