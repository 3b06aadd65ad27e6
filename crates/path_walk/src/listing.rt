ghost use Rattle.std.specs.Prelude.{◌≡◌, ◌≤◌, ◌++◌, ◌∷◌, [], ℕ, length, map, take, nat_lt, IfOk};
ghost use Rattle.policy_model.specs.Walks.{allowed_walks};
ghost use Rattle.topology.specs.View.{policy_of};
ghost use Rattle.zone_graph.specs.Grouped.{IsGraphOf};
ghost use Rattle.path_walk.specs.Seen.{site_of, walks_seen};

use crate::search::Search;
use spoc_base::{NoMemory, Row, ZoneId};
use std::alloc::Global;
use topology::Topo;
use zone_graph::{Crossing, ZoneGraph};

/// The first allowed walks from one zone to another, in the order of their interfaces' numbers,
/// and whether there are more.
#[derive(Debug, Drop)]
pub struct WalkList {
    pub walks: Row<Row<Crossing>>,
    pub more: bool,
}

/// The first allowed walks from one zone to another, `most` of them where there are so many. A walk
/// crosses managed routers alone, passes no zone and no router twice, and uses no two members of
/// a restriction. From a zone to itself there is none. The search may take time exponential in
/// the loops between the zones. It fails for want of memory alone.
pub fn walks(
    alloc: Global,
    topo: Topo<'_>,
    graph: &ZoneGraph,
    from: ZoneId,
    to: ZoneId,
    most: u32,
) -> Result<WalkList, NoMemory>
    requires { IsGraphOf (policy_of topo) graph.now }
    ensures walks { IfOk result (λ list. walks_seen list.walks ≡ take most (allowed_walks (site_of (policy_of topo.entry) graph.now) from.0 to.0)) }
    ensures more { IfOk result (λ list. list.more ≡ nat_lt most (length (allowed_walks (site_of (policy_of topo.entry) graph.now) from.0 to.0))) }
{
    let mut walks = Vec::new(alloc);
    if from == to {
        return Ok(WalkList {
            walks: Row::of(walks),
            more: false,
        });
    }
    let mut search = Search::start(alloc, topo, graph, from)?;
    while search.next(alloc, topo, graph, from, to)? {
        if walks.len() >= most as usize {
            return Ok(WalkList {
                walks: Row::of(walks),
                more: true,
            });
        }
        let walk = search.walk(alloc)?;
        walks.push(walk)?;
    }
    Ok(WalkList {
        walks: Row::of(walks),
        more: false,
    })
}
