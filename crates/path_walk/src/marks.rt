ghost use Rattle.std.specs.Prelude.{◌≡◌, [], ℕ, map, IfOk, OnOk};
ghost use Rattle.std.specs.BTreeSet.{insert_key};
ghost use Rattle.policy_model.specs.Walks.{allowed_walks};
ghost use Rattle.policy_model.specs.Marks.{marked_crossings, marked_links};
ghost use Rattle.topology.specs.View.{policy_of};
ghost use Rattle.zone_graph.specs.Grouped.{IsGraphOf};
ghost use Rattle.path_walk.specs.Seen.{site_of, path_seen, crossing_seen, link_seen};
ghost use Rattle.path_walk.specs.Pairs.{pair_order, with_pairs, crossing_pairs, link_pairs, crossing_at, link_at, all_crossing_pairs, all_link_pairs};

use crate::search::Search;
use crate::step::Step;
use spoc_base::{IfId, NoMemory, Row, ZoneId};
use std::alloc::Global;
use std::collections::BTreeSet;
use topology::Topo;
use zone_graph::{Crossing, Link, MarkTable, ZoneGraph};

/// The crossings and the links of the walks so far, as pairs of interfaces' numbers.
#[derive(Drop)]
pub(crate) struct Marks {
    crossings: BTreeSet<(u32, u32)>,
    links: BTreeSet<(u32, u32)>,
}

/// Adds a pair, unless it is there.
fn add(pairs: &mut BTreeSet<(u32, u32)>, first: IfId, second: IfId) -> Result<(), NoMemory>
    ensures { OnOk result (pairs.new.keys ≡ insert_key pair_order pairs.old.keys (first.0, second.0)) }
{
    pairs.insert((first.0, second.0))?;
    Ok(())
}

/// Adds the crossings of a path.
fn add_crossings(pairs: &mut BTreeSet<(u32, u32)>, path: &[Step]) -> Result<(), NoMemory>
    ensures { OnOk result (pairs.new.keys ≡ with_pairs pairs.old.keys (crossing_pairs (path_seen path.now))) }
{
    for step in path {
        add(pairs, step.enter, step.leave)?;
    }
    Ok(())
}

/// Adds the links of a path: each leaving interface with the next entering one.
fn add_links(pairs: &mut BTreeSet<(u32, u32)>, path: &[Step]) -> Result<(), NoMemory>
    ensures { OnOk result (pairs.new.keys ≡ with_pairs pairs.old.keys (link_pairs (path_seen path.now))) }
{
    for k in 1..path.len() {
        add(pairs, path[k - 1].leave, path[k].enter)?;
    }
    Ok(())
}

/// The crossings that the pairs are.
fn crossings_of(alloc: Global, pairs: &BTreeSet<(u32, u32)>) -> Result<Vec<Crossing>, NoMemory>
    ensures { IfOk result (λ crossings. map crossing_seen crossings.items ≡ map crossing_at pairs.now.keys) }
{
    let mut crossings = Vec::new(alloc);
    for pair in pairs {
        crossings.push(Crossing {
            enter: IfId(pair.0),
            leave: IfId(pair.1),
        })?;
    }
    Ok(crossings)
}

/// The links that the pairs are.
fn links_of(alloc: Global, pairs: &BTreeSet<(u32, u32)>) -> Result<Vec<Link>, NoMemory>
    ensures { IfOk result (λ links. map link_seen links.items ≡ map link_at pairs.now.keys) }
{
    let mut links = Vec::new(alloc);
    for pair in pairs {
        links.push(Link {
            leave: IfId(pair.0),
            enter: IfId(pair.1),
        })?;
    }
    Ok(links)
}

impl Marks {
    /// No marks.
    pub(crate) fn new(alloc: Global) -> Marks
        ensures crossings { result.crossings.keys ≡ [] }
        ensures links { result.links.keys ≡ [] }
    {
        Marks {
            crossings: BTreeSet::new(alloc),
            links: BTreeSet::new(alloc),
        }
    }

    /// Adds the crossings and the links of a walk.
    pub(crate) fn add_walk(&mut self, path: &[Step]) -> Result<(), NoMemory>
        ensures crossings { OnOk result (self.new.crossings.keys ≡ with_pairs self.old.crossings.keys (crossing_pairs (path_seen path.now))) }
        ensures links { OnOk result (self.new.links.keys ≡ with_pairs self.old.links.keys (link_pairs (path_seen path.now))) }
    {
        add_crossings(&mut self.crossings, path)?;
        add_links(&mut self.links, path)
    }

    /// Adds the crossings and the links of all allowed walks from one zone to another.
    fn add_all(
        &mut self,
        alloc: Global,
        topo: Topo<'_>,
        graph: &ZoneGraph,
        from: ZoneId,
        to: ZoneId,
    ) -> Result<(), NoMemory>
        requires { IsGraphOf (policy_of topo) graph.now }
        ensures crossings { OnOk result (self.new.crossings.keys ≡ with_pairs self.old.crossings.keys (all_crossing_pairs (allowed_walks (site_of (policy_of topo.entry) graph.now) from.0 to.0))) }
        ensures links { OnOk result (self.new.links.keys ≡ with_pairs self.old.links.keys (all_link_pairs (allowed_walks (site_of (policy_of topo.entry) graph.now) from.0 to.0))) }
    {
        if from == to {
            return Ok(());
        }
        let mut search = Search::start(alloc, topo, graph, from)?;
        while search.next(alloc, topo, graph, from, to)? {
            self.add_walk(search.path())?;
        }
        Ok(())
    }

    /// The marks as a table.
    pub(crate) fn table(&self, alloc: Global) -> Result<MarkTable, NoMemory>
        ensures crossings { IfOk result (λ table. map crossing_seen table.crossings ≡ map crossing_at self.now.crossings.keys) }
        ensures links { IfOk result (λ table. map link_seen table.links ≡ map link_at self.now.links.keys) }
    {
        Ok(MarkTable {
            crossings: Row::of(crossings_of(alloc, &self.crossings)?),
            links: Row::of(links_of(alloc, &self.links)?),
        })
    }
}

/// The crossings of all allowed walks from one zone to another, by entering and then by leaving
/// interface, and their links, by leaving and then by entering interface. Each walk is followed,
/// so the time may be exponential in the loops between the zones. The memory isn't: it grows with
/// the marks and with the longest walk. It fails for want of memory alone.
pub fn plain_marks(
    alloc: Global,
    topo: Topo<'_>,
    graph: &ZoneGraph,
    from: ZoneId,
    to: ZoneId,
) -> Result<MarkTable, NoMemory>
    requires { IsGraphOf (policy_of topo) graph.now }
    ensures crossings { IfOk result (λ table. map crossing_seen table.crossings ≡ marked_crossings (site_of (policy_of topo.entry) graph.now) from.0 to.0) }
    ensures links { IfOk result (λ table. map link_seen table.links ≡ marked_links (site_of (policy_of topo.entry) graph.now) from.0 to.0) }
{
    let mut marks = Marks::new(alloc);
    marks.add_all(alloc, topo, graph, from, to)?;
    marks.table(alloc)
}
