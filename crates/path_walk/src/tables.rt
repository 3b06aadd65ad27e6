ghost use Rattle.std.specs.Ordering.{nat_cmp};
ghost use Rattle.std.specs.BTreeMap.{get};
ghost use Rattle.std.specs.Prelude.{◌≡◌, ◌<◌, ◌≤◌, ◌+◌, ◌∷◌, length, map, take, IfOk, OnOk};
ghost use Rattle.topology.specs.View.{policy_of};
ghost use Rattle.zone_graph.specs.Grouped.{IsGraphOf};
ghost use Rattle.path_walk.specs.Seen.{site_of, path_seen, crossing_seen, link_seen};
ghost use Rattle.path_walk.specs.Swept.{numbers_of};
ghost use Rattle.path_walk.specs.Tables.{table_seen, table_in, table_between, table_of, crossings_in, links_in, pair_from, HasEnds, HaveSameEnds, AreNew, AreAll, IsAdded};

use crate::marks::Marks;
use crate::search::Search;
use crate::step::Step;
use spoc_base::{NoMemory, ZoneId};
use std::alloc::Global;
use std::collections::BTreeMap;
use topology::Topo;
use zone_graph::{MarkTable, PairMarks, ZoneGraph};

/// The marks of the walks so far that start in one zone, by the number of the zone where they end.
#[derive(Drop)]
struct Finds {
    ends: BTreeMap<u32, Marks>,
}

impl Finds {
    /// No marks yet, for each of the zones that isn't the one where walks start.
    fn new(alloc: Global, from: ZoneId, wanted: &[ZoneId]) -> Result<Finds, NoMemory>
        ensures zones { IfOk result (λ finds. HasEnds from.0 (numbers_of wanted.now) finds.ends) }
        ensures marks { IfOk result (λ finds. AreNew from.0 (numbers_of wanted.now) finds.ends) }
    {
        let mut ends = BTreeMap::new(alloc);
        for z in wanted {
            if *z != from {
                ends.insert(z.0, Marks::new(alloc))?;
            }
        }
        Ok(Finds { ends })
    }

    /// Adds the crossings and the links of a walk that ends in a zone, if that is looked for.
    fn add_walk(&mut self, end: ZoneId, path: &[Step]) -> Result<(), NoMemory>
        ensures zones { OnOk result (HaveSameEnds self.old.ends self.new.ends) }
        ensures marks { OnOk result (IsAdded end.0 (path_seen path.now) self.old.ends self.new.ends) }
    {
        match self.ends.get_mut(&end.0) {
            Some(marks) => marks.add_walk(path),
            None => Ok(()),
        }
    }

    /// Adds the crossings and the links of all allowed walks, by one search.
    fn add_all(
        &mut self,
        alloc: Global,
        topo: Topo<'_>,
        graph: &ZoneGraph,
        from: ZoneId,
        wanted: &[ZoneId],
    ) -> Result<(), NoMemory>
        requires graph { IsGraphOf (policy_of topo) graph.now }
        requires new { AreNew from.0 (numbers_of wanted.now) self.old.ends }
        ensures zones { OnOk result (HaveSameEnds self.old.ends self.new.ends) }
        ensures marks { OnOk result (AreAll (site_of (policy_of topo.entry) graph.now) from.0 self.new.ends) }
    {
        let mut search = Search::start(alloc, topo, graph, from)?;
        while let Some(end) = search.advance(alloc, topo, graph, from, wanted)? {
            self.add_walk(end, search.path())?;
        }
        Ok(())
    }

    /// The marks of a zone, as far as there are some.
    fn marks(&self, alloc: Global, to: ZoneId) -> Result<MarkTable, NoMemory>
        ensures crossings { IfOk result (λ table. map crossing_seen table.crossings ≡ crossings_in (get nat_cmp self.now.ends to.0)) }
        ensures links { IfOk result (λ table. map link_seen table.links ≡ links_in (get nat_cmp self.now.ends to.0)) }
    {
        match self.ends.get(&to.0) {
            Some(marks) => marks.table(alloc),
            None => Marks::new(alloc).table(alloc),
        }
    }

    /// The table from the zone where walks start to another one that was looked for. Marks that are
    /// missing are those of the first zone itself, to which no walk leads.
    fn table(&self, alloc: Global, from: ZoneId, to: ZoneId) -> Result<PairMarks, NoMemory>
        ensures { IfOk result (λ table. table_seen table ≡ table_in self.now.ends from.0 to.0) }
    {
        let marks = self.marks(alloc, to)?;
        Ok(PairMarks { from, to, marks })
    }
}

/// The tables from one zone to each of some zones, in their order, by one search.
fn tables_from(
    alloc: Global,
    topo: Topo<'_>,
    graph: &ZoneGraph,
    from: ZoneId,
    wanted: &[ZoneId],
) -> Result<Vec<PairMarks>, NoMemory>
    requires { IsGraphOf (policy_of topo) graph.now }
    ensures { IfOk result (λ tables. map table_seen tables.items ≡ map (table_between (site_of (policy_of topo.entry) graph.now) from.0) wanted.now) }
{
    let mut finds = Finds::new(alloc, from, wanted)?;
    finds.add_all(alloc, topo, graph, from, wanted)?;
    let mut tables = Vec::new(alloc);
    for to in wanted {
        tables.push(finds.table(alloc, from, *to)?)?;
    }
    Ok(tables)
}

/// The zone to which the first pair leads, and the zones of those behind it that come from the same
/// zone, up to the first that doesn't.
fn run_of(
    alloc: Global,
    first: (ZoneId, ZoneId),
    rest: &[(ZoneId, ZoneId)],
) -> Result<Vec<ZoneId>, NoMemory>
    ensures some { IfOk result (λ zones. 0 < length zones.items) }
    ensures few { IfOk result (λ zones. length zones.items ≤ length rest.now + 1) }
    ensures zones { IfOk result (λ zones. map (pair_from first.0) zones.items ≡ take (length zones.items) (first ∷ rest.now)) }
{
    let mut zones = Vec::new(alloc);
    zones.push(first.1)?;
    for pair in rest {
        if pair.0 != first.0 {
            return Ok(zones);
        }
        zones.push(pair.1)?;
    }
    Ok(zones)
}

/// The marks of `plain_marks` for each of some pairs of zones, from the first to the second, in the
/// order of the pairs. Pairs side by side that come from the same zone are looked for by one search,
/// so that a path on the way to many zones is followed once. The memory grows with the marks and with
/// the longest walk. It fails for want of memory alone.
pub fn plain_tables(
    alloc: Global,
    topo: Topo<'_>,
    graph: &ZoneGraph,
    pairs: &[(ZoneId, ZoneId)],
) -> Result<Vec<PairMarks>, NoMemory>
    requires { IsGraphOf (policy_of topo) graph.now }
    ensures { IfOk result (λ tables. map table_seen tables.items ≡ map (table_of (site_of (policy_of topo.entry) graph.now)) pairs.now) }
{
    let mut tables = Vec::new(alloc);
    let mut left = pairs;
    while let Some((first, rest)) = left.split_first() {
        let zones = run_of(alloc, *first, rest)?;
        let mut found = tables_from(alloc, topo, graph, first.0, &zones)?;
        tables.append(&mut found)?;
        left = &left[zones.len()..];
    }
    Ok(tables)
}
