ghost use Rattle.std.specs.Prelude.{◌≡◌, ◌≢◌, ◌++◌, ◌∷◌, [], ◌==◌, ℕ, length, map, IfOk, OnOk, if◌then◌else◌};
ghost use Rattle.policy_model.specs.Zones.{zone_at};
ghost use Rattle.topology.specs.View.{policy_of};
ghost use Rattle.zone_graph.specs.Grouped.{IsGraphOf};
ghost use Rattle.path_walk.specs.Seen.{site_of, path_seen, step_seen, crossing_seen};
ghost use Rattle.path_walk.specs.Search.{goes_on, branched, branches_of, branches_at, AreOpen};
ghost use Rattle.path_walk.specs.Stack.{branch_seen, open_seen};
ghost use Rattle.path_walk.specs.Next.{IsNext};
ghost use Rattle.path_walk.specs.Shut.{AreOpened, AreLeft};
ghost use Rattle.path_walk.specs.Swept.{numbers_of, IsAdvanced};

use crate::lookup::zone_at;
use crate::onward::{add_at, goes_on, onward};
use crate::shut::leads_to_none;
use crate::step::Step;
use smallvec::SmallVec;
use spoc_base::{IfId, NoMemory, Row, ZoneId};
use std::alloc::Global;
use topology::Topo;
use zone_graph::{Crossing, ZoneGraph};

/// A crossing by which the first `depth` crossings of the path may go on.
#[derive(Clone, Copy)]
pub(crate) struct Branch {
    depth: usize,
    crossing: Step,
}

/// A search for allowed walks: the path under search, and the branches that are still to be
/// followed, the next one last.
#[derive(Drop)]
pub(crate) struct Search {
    path: SmallVec<Step, 16>,
    open: Vec<Branch>,
}

impl Search {
    /// A search that has found nothing.
    pub(crate) fn new(alloc: Global) -> Search
        ensures path { result.path.items ≡ [] }
        ensures branches { result.open.items ≡ [] }
    {
        Search {
            path: SmallVec::new(alloc),
            open: Vec::new(alloc),
        }
    }

    /// The search for all walks that begin in a zone.
    pub(crate) fn start(
        alloc: Global,
        topo: Topo<'_>,
        graph: &ZoneGraph,
        from: ZoneId,
    ) -> Result<Search, NoMemory>
        requires { IsGraphOf (policy_of topo) graph.now }
        ensures path { IfOk result (λ search. search.path.items ≡ []) }
        ensures branches { IfOk result (λ search. open_seen search.open.items ≡ branches_of (site_of (policy_of topo.entry) graph.now) from.0 [] ++ []) }
    {
        let mut search = Search::new(alloc);
        search.expand(alloc, topo, graph, from)?;
        Ok(search)
    }

    /// The walk at which the search stands.
    pub(crate) fn walk(&self, alloc: Global) -> Result<Row<Crossing>, NoMemory>
        ensures { IfOk result (λ walk. map crossing_seen walk ≡ path_seen self.now.path.items) }
    {
        let mut walk = Vec::new(alloc);
        for step in self.path.as_slice() {
            walk.push(step.crossing())?;
        }
        Ok(Row::of(walk))
    }

    /// The path at which the search stands.
    pub(crate) fn path(&self) -> &[Step]
        ensures { result.now ≡ self.now.path.items }
    {
        self.path.as_slice()
    }

    /// Goes back to where a branch begins, and goes on by it.
    fn follow(&mut self, branch: Branch) -> Result<(), NoMemory>
        ensures path { OnOk result (path_seen self.new.path.items ≡ branched (path_seen self.old.path.items) (branch_seen branch)) }
        ensures branches { self.new.open.items ≡ self.old.open.items }
    {
        self.path.truncate(branch.depth);
        self.path.push(branch.crossing)?;
        Ok(())
    }

    /// Opens a branch for each of the crossings, the first one to be followed first.
    fn open_all(&mut self, mut crossings: Vec<Step>) -> Result<(), NoMemory>
        ensures path { self.new.path.items ≡ self.old.path.items }
        ensures branches { OnOk result (open_seen self.new.open.items ≡ map (λ c. record { depth = length self.old.path.items; crossing = c }) (path_seen crossings.items) ++ open_seen self.old.open.items) }
    {
        let depth = self.path.len();
        while let Some(crossing) = crossings.pop() {
            self.open.push(Branch { depth, crossing })?;
        }
        Ok(())
    }

    /// Goes on by a crossing where the path ends, if a walk may do so, and says whether.
    pub(crate) fn extend(
        &mut self,
        topo: Topo<'_>,
        graph: &ZoneGraph,
        from: ZoneId,
        c: Step,
    ) -> Result<bool, NoMemory>
        requires { IsGraphOf (policy_of topo) graph.now }
        ensures may { IfOk result (λ may. may ≡ goes_on (site_of (policy_of topo.entry) graph.now) from.0 (path_seen self.old.path.items) (step_seen c)) }
        ensures path { IfOk result (λ may. path_seen self.new.path.items ≡ (if may then path_seen self.old.path.items ++ step_seen c ∷ [] else path_seen self.old.path.items)) }
        ensures branches { self.new.open.items ≡ self.old.open.items }
    {
        if !goes_on(topo, graph, from, self.path.as_slice(), c) {
            return Ok(false);
        }
        self.path.push(c)?;
        Ok(true)
    }

    /// Opens the branches by which the path may go on at an interface.
    pub(crate) fn expand_at(
        &mut self,
        alloc: Global,
        topo: Topo<'_>,
        graph: &ZoneGraph,
        from: ZoneId,
        enter: IfId,
    ) -> Result<(), NoMemory>
        requires { IsGraphOf (policy_of topo) graph.now }
        ensures path { self.new.path.items ≡ self.old.path.items }
        ensures branches { OnOk result (open_seen self.new.open.items ≡ branches_at (site_of (policy_of topo.entry) graph.now) from.0 (path_seen self.old.path.items) enter.0 ++ open_seen self.old.open.items) }
    {
        let mut crossings = Vec::new(alloc);
        add_at(
            topo,
            graph,
            from,
            self.path.as_slice(),
            &mut crossings,
            enter,
        )?;
        self.open_all(crossings)
    }

    /// Opens the branches by which the path may go on.
    pub(crate) fn expand(
        &mut self,
        alloc: Global,
        topo: Topo<'_>,
        graph: &ZoneGraph,
        from: ZoneId,
    ) -> Result<(), NoMemory>
        requires { IsGraphOf (policy_of topo) graph.now }
        ensures path { self.new.path.items ≡ self.old.path.items }
        ensures branches { OnOk result (open_seen self.new.open.items ≡ branches_of (site_of (policy_of topo.entry) graph.now) from.0 (path_seen self.old.path.items) ++ open_seen self.old.open.items) }
    {
        let crossings = onward(alloc, topo, graph, from, self.path.as_slice())?;
        self.open_all(crossings)
    }

    /// Opens the branches by which the path may go on to some zones: none where marks show that it
    /// leads to none of them. They are asked only where there are branches.
    fn expand_towards(
        &mut self,
        alloc: Global,
        topo: Topo<'_>,
        graph: &ZoneGraph,
        from: ZoneId,
        wanted: &[ZoneId],
    ) -> Result<(), NoMemory>
        requires { IsGraphOf (policy_of topo) graph.now }
        ensures path { self.new.path.items ≡ self.old.path.items }
        ensures branches { OnOk result (AreOpened (site_of (policy_of topo.entry) graph.now) from.0 (numbers_of wanted.now) (path_seen self.old.path.items) (open_seen self.old.open.items) (open_seen self.new.open.items)) }
    {
        let crossings = onward(alloc, topo, graph, from, self.path.as_slice())?;
        if !crossings.is_empty()
            && leads_to_none(alloc, topo, graph, from, self.path.as_slice(), wanted)?
        {
            return Ok(());
        }
        self.open_all(crossings)
    }

    /// Follows a branch, and says whether it leads to the zone. If it doesn't, opens the branches
    /// by which the path goes on, unless it leads nowhere.
    fn step(
        &mut self,
        alloc: Global,
        topo: Topo<'_>,
        graph: &ZoneGraph,
        from: ZoneId,
        to: ZoneId,
        branch: Branch,
    ) -> Result<bool, NoMemory>
        requires { IsGraphOf (policy_of topo) graph.now }
        ensures path { OnOk result (path_seen self.new.path.items ≡ branched (path_seen self.old.path.items) (branch_seen branch)) }
        ensures there { IfOk result (λ there. there ≡ (zone_at (site_of (policy_of topo.entry) graph.now) branch.crossing.leave.0 == to.0)) }
        ensures branches { IfOk result (λ there. AreLeft (site_of (policy_of topo.entry) graph.now) from.0 to.0 there (path_seen self.new.path.items) (open_seen self.old.open.items) (open_seen self.new.open.items)) }
    {
        self.follow(branch)?;
        if zone_at(topo, graph, branch.crossing.leave) == to {
            return Ok(true);
        }
        self.expand_towards(alloc, topo, graph, from, &[to])?;
        Ok(false)
    }

    /// Goes on to the next allowed walk, and says whether there is one.
    pub(crate) fn next(
        &mut self,
        alloc: Global,
        topo: Topo<'_>,
        graph: &ZoneGraph,
        from: ZoneId,
        to: ZoneId,
    ) -> Result<bool, NoMemory>
        requires graph { IsGraphOf (policy_of topo) graph.now }
        requires elsewhere { from.0 ≢ to.0 }
        requires branches { AreOpen (site_of (policy_of topo) graph.now) from.0 (path_seen self.old.path.items) (length (path_seen self.old.path.items)) (open_seen self.old.open.items) }
        ensures { IfOk result (λ found. IsNext (site_of (policy_of topo.entry) graph.now) from.0 to.0 (path_seen self.old.path.items) (open_seen self.old.open.items)
            found (path_seen self.new.path.items) (open_seen self.new.open.items)) }
    {
        while let Some(branch) = self.open.pop() {
            if self.step(alloc, topo, graph, from, to, branch)? {
                return Ok(true);
            }
        }
        Ok(false)
    }

    /// Follows the next branch, if there is one, and says to which zone it leads. Opens the branches
    /// by which the path goes on from there, unless it leads to none of the zones that are looked
    /// for.
    pub(crate) fn advance(
        &mut self,
        alloc: Global,
        topo: Topo<'_>,
        graph: &ZoneGraph,
        from: ZoneId,
        wanted: &[ZoneId],
    ) -> Result<Option<ZoneId>, NoMemory>
        requires graph { IsGraphOf (policy_of topo) graph.now }
        requires branches { AreOpen (site_of (policy_of topo) graph.now) from.0 (path_seen self.old.path.items) (length (path_seen self.old.path.items)) (open_seen self.old.open.items) }
        ensures { IfOk result (λ reached. IsAdvanced (site_of (policy_of topo.entry) graph.now) from.0 (numbers_of wanted.now) (path_seen self.old.path.items) (open_seen self.old.open.items)
            reached (path_seen self.new.path.items) (open_seen self.new.open.items)) }
    {
        let Some(branch) = self.open.pop() else {
            return Ok(None);
        };
        self.follow(branch)?;
        self.expand_towards(alloc, topo, graph, from, wanted)?;
        Ok(Some(zone_at(topo, graph, branch.crossing.leave)))
    }
}
