ghost use Rattle.std.specs.Prelude.{◌≡◌, IfOk, length, not, true};
ghost use Rattle.std.specs.List.{list_all};
ghost use Rattle.topology.specs.View.{policy_of};
ghost use Rattle.zone_graph.specs.Grouped.{IsGraphOf};
ghost use Rattle.path_walk.specs.Seen.{site_of, path_seen};
ghost use Rattle.path_walk.specs.Shut.{is_marked, keeps_marks, keep_marks, LeadsToNone};
ghost use Rattle.path_walk.specs.Swept.{numbers_of};

use crate::lookup::{doors_in, ifs_of, router_at, zone_at};
use crate::onward::{end_of, passes_router, passes_zone};
use crate::step::Step;
use spoc_base::{IfId, NoMemory, RouterId, ZoneId};
use std::alloc::Global;
use topology::Topo;
use zone_graph::ZoneGraph;

/// The zones that a path may come to, and the routers through which it may, whatever restrictions
/// say; and the zones of these from which nothing was marked yet. Those on the path itself are left
/// out, and so is all behind them.
#[derive(Drop)]
struct Reach {
    zones: Vec<bool>,
    routers: Vec<bool>,
    next: Vec<ZoneId>,
}

// So many marks, none of them set.
fn unmarked(alloc: Global, count: usize) -> Result<Vec<bool>, NoMemory> {
    let mut marks = Vec::new(alloc);
    for _ in 0..count {
        marks.push(false)?;
    }
    Ok(marks)
}

// Whether the mark of a number is set.
fn is_marked(marks: &[bool], n: u32) -> bool
    ensures { result ≡ is_marked marks.now n }
{
    match marks.get(n as usize) {
        Some(mark) => *mark,
        None => false,
    }
}

// Sets the mark of a number, and says whether it wasn't set.
fn mark(marks: &mut [bool], n: u32) -> bool {
    match marks.get_mut(n as usize) {
        Some(mark) => {
            let new = !*mark;
            *mark = true;
            new
        }
        None => false,
    }
}

impl Reach {
    // Marks a zone, if the path doesn't pass it.
    fn enter_zone(
        &mut self,
        topo: Topo<'_>,
        graph: &ZoneGraph,
        from: ZoneId,
        path: &[Step],
        z: ZoneId,
    ) -> Result<(), NoMemory>
        requires { IsGraphOf (policy_of topo) graph.now }
    {
        if !passes_zone(topo, graph, from, path, z) && mark(&mut self.zones, z.0) {
            self.next.push(z)?;
        }
        Ok(())
    }

    // Marks a router and its zones, if the path doesn't pass it.
    fn enter_router(
        &mut self,
        topo: Topo<'_>,
        graph: &ZoneGraph,
        from: ZoneId,
        path: &[Step],
        r: RouterId,
    ) -> Result<(), NoMemory>
        requires { IsGraphOf (policy_of topo) graph.now }
    {
        if passes_router(topo, path, r) || !mark(&mut self.routers, r.0) {
            return Ok(());
        }
        for i in ifs_of(topo, r) {
            self.enter_zone(topo, graph, from, path, zone_at(topo, graph, *i))?;
        }
        Ok(())
    }

    // Marks the routers of a zone, and their zones.
    fn leave_zone(
        &mut self,
        topo: Topo<'_>,
        graph: &ZoneGraph,
        from: ZoneId,
        path: &[Step],
        z: ZoneId,
    ) -> Result<(), NoMemory>
        requires { IsGraphOf (policy_of topo) graph.now }
    {
        for i in doors_in(topo, graph, z) {
            self.enter_router(topo, graph, from, path, router_at(topo, *i))?;
        }
        Ok(())
    }

    // What is reached from the end of a path, up to a zone at which that is enough.
    fn of(
        alloc: Global,
        topo: Topo<'_>,
        graph: &ZoneGraph,
        from: ZoneId,
        path: &[Step],
        end: ZoneId,
        enough: Option<ZoneId>,
    ) -> Result<Reach, NoMemory>
        requires { IsGraphOf (policy_of topo) graph.now }
    {
        let zones = unmarked(alloc, graph.count() as usize)?;
        let routers = unmarked(alloc, topo.routers().len())?;
        let next = Vec::new(alloc);
        let mut reach = Reach {
            zones,
            routers,
            next,
        };
        mark(&mut reach.zones, end.0);
        reach.leave_zone(topo, graph, from, path, end)?;
        for _ in 0..graph.count() {
            if let Some(z) = enough
                && is_marked(&reach.zones, z.0)
            {
                return Ok(reach);
            }
            match reach.next.pop() {
                Some(z) => reach.leave_zone(topo, graph, from, path, z)?,
                None => return Ok(reach),
            }
        }
        Ok(reach)
    }
}

// Whether marks don't end at an interface.
fn keeps_marks(
    topo: Topo<'_>,
    graph: &ZoneGraph,
    from: ZoneId,
    path: &[Step],
    zones: &[bool],
    routers: &[bool],
    i: IfId,
) -> bool
    requires { IsGraphOf (policy_of topo) graph.now }
    ensures { result ≡ keeps_marks (site_of (policy_of topo.entry) graph.now) from.0 (path_seen path.now) zones.now routers.now i.0 }
{
    let router = router_at(topo, i);
    let zone = zone_at(topo, graph, i);
    passes_router(topo, path, router)
        || ((!is_marked(zones, zone.0) || is_marked(routers, router.0))
            && (!is_marked(routers, router.0)
                || is_marked(zones, zone.0)
                || passes_zone(topo, graph, from, path, zone)))
}

// How many interfaces there are.
fn iface_count(topo: Topo<'_>) -> u32
    ensures { result ≡ length (policy_of topo.entry).ifaces }
{
    topo.ifaces().len() as u32
}

// Whether marks end at no interface.
fn keep_marks(
    topo: Topo<'_>,
    graph: &ZoneGraph,
    from: ZoneId,
    path: &[Step],
    zones: &[bool],
    routers: &[bool],
) -> bool
    requires { IsGraphOf (policy_of topo) graph.now }
    ensures { result ≡ keep_marks (site_of (policy_of topo.entry) graph.now) from.0 (path_seen path.now) zones.now routers.now }
{
    for i in 0..iface_count(topo) {
        if !keeps_marks(topo, graph, from, path, zones, routers, IfId(i)) {
            return false;
        }
    }
    true
}

// Whether none of the zones is marked.
fn none_marked(zones: &[bool], wanted: &[ZoneId]) -> bool
    ensures { result ≡ list_all (λ z. not (is_marked zones.now z.0)) wanted.now }
{
    wanted.iter().all(|z| !is_marked(zones, z.0))
}

// Whether marks show that a path leads to none of the zones: its end is marked, they aren't, and
// marks end at no interface.
fn show_none(
    topo: Topo<'_>,
    graph: &ZoneGraph,
    from: ZoneId,
    path: &[Step],
    wanted: &[ZoneId],
    zones: &[bool],
    routers: &[bool],
) -> bool
    requires { IsGraphOf (policy_of topo) graph.now }
    ensures { result ≡ true → LeadsToNone (site_of (policy_of topo.entry) graph.now) from.0 (numbers_of wanted.now) (path_seen path.now) }
{
    let end = end_of(topo, graph, from, path);
    if !is_marked(zones, end.0) {
        return false;
    }
    if !none_marked(zones, wanted) {
        return false;
    }
    keep_marks(topo, graph, from, path, zones, routers)
}

/// Whether a path leads to none of the zones, as far as zones and routers show it: where it does,
/// no allowed walk to one of them begins with it. All that the path may come to is marked, by a
/// search over zones and routers that it hasn't passed; then the marks are looked at, and not the
/// search is trusted. Restrictions play no part, so that a path may lead to none of the zones and
/// this not show it.
pub(crate) fn leads_to_none(
    alloc: Global,
    topo: Topo<'_>,
    graph: &ZoneGraph,
    from: ZoneId,
    path: &[Step],
    wanted: &[ZoneId],
) -> Result<bool, NoMemory>
    requires { IsGraphOf (policy_of topo) graph.now }
    ensures { IfOk result (λ none. none ≡ true → LeadsToNone (site_of (policy_of topo.entry) graph.now) from.0 (numbers_of wanted.now) (path_seen path.now)) }
{
    let end = end_of(topo, graph, from, path);
    let first = wanted.first().copied();
    let reach = Reach::of(alloc, topo, graph, from, path, end, first)?;
    Ok(show_none(
        topo,
        graph,
        from,
        path,
        wanted,
        &reach.zones,
        &reach.routers,
    ))
}
