ghost use Rattle.std.specs.Prelude.{◌≡◌, ◌≤◌, ◌<◌, [], if◌then◌else◌, not, length, map, IfOk};
ghost use Rattle.policy_model.specs.Lists.{is_nothing};
ghost use Rattle.topology.specs.View.{policy_of};
ghost use Rattle.zone_graph.specs.Grouped.{row_items, IsGraphOf};
ghost use Rattle.nat_view.specs.Views.{seen_of};
ghost use Rattle.permit_set.specs.Shown.{permit_of};
ghost use Rattle.permit_lines.specs.Given.{site_with, AreKnown};
ghost use Rattle.rule_distribute.specs.Placed.{row_at, HaveRows, ArePairsOf, block_at, is_filled as is_block_filled, shallow as shallow_of};
ghost use Rattle.rule_distribute.specs.Rows.{pair_at};
ghost use Rattle.rule_distribute.specs.Shown.{block_seen, pairs_seen};

use crate::concerned::concerned;
use crate::pairs::Pair;
use crate::rows::permit_rows;
use nat_view::Views;
use permit_set::{PairBlock, Permit};
use spoc_base::{NetId, NoMemory, Row};
use std::alloc::Global;
use topology::Topo;
use zone_graph::ZoneGraph;

/// The place of a pair among those that are kept, and whether it is closed at an interface.
pub(crate) type Place = (usize, bool);

/// The pairs of networks on which what is placed depends, in order: with each the numbers of the
/// permits from the first to the second, and of those of the way back that have replies.
#[derive(Drop)]
pub struct Joined {
    pub(crate) pairs: Vec<Pair>,
    pub(crate) forward: Vec<Vec<u32>>,
    pub(crate) replied: Vec<Vec<u32>>,
}

/// The pairs that the permits join, and those inside such a pair as some zone sees them, with their
/// permits. It fails for want of memory alone.
pub fn join(
    alloc: Global,
    topo: Topo<'_>,
    graph: &ZoneGraph,
    views: &Views<'_>,
    permits: &[Permit],
) -> Result<Joined, NoMemory>
    requires graph { IsGraphOf (policy_of topo) graph.now }
    requires policy { (seen_of views.now).policy ≡ policy_of topo }
    requires zones { length (seen_of views.now).views.zones ≡ length graph.now.nets }
    requires permits { AreKnown (policy_of topo) (map permit_of permits.now) }
    requires few { length permits.now < 4294967296 }
    ensures pairs { IfOk result (λ joined. ArePairsOf (site_with (policy_of topo.entry) graph.now) (seen_of views.now).views (map permit_of permits.now) (pairs_seen joined)) }
    ensures rows { IfOk result (λ joined. HaveRows (policy_of topo.entry) (pairs_seen joined)) }
{
    let pairs = concerned(alloc, topo, graph, views, permits)?;
    let forward = permit_rows(alloc, topo, graph, &pairs, permits, false)?;
    let replied = permit_rows(alloc, topo, graph, &pairs, permits, true)?;
    Ok(Joined {
        pairs,
        forward,
        replied,
    })
}

// The numbers as they stand.
fn copy_of(alloc: Global, row: &[u32]) -> Result<Vec<u32>, NoMemory>
    ensures { IfOk result (λ v. v.items ≡ row.now) }
{
    let row = row.to_vec(alloc)?;
    Ok(row)
}

// A row, or none.
fn row_of(alloc: Global, rows: &[Vec<u32>], w: usize, told: bool) -> Result<Vec<u32>, NoMemory>
    requires { w < length rows.now }
    ensures { IfOk result (λ v. v.items ≡ (if told then row_at (row_items rows.now) w else [])) }
{
    if !told {
        return Ok(Vec::new(alloc));
    }
    let row = copy_of(alloc, &rows[w])?;
    Ok(row)
}

/// The block of a pair.
pub(crate) fn block(
    alloc: Global,
    joined: &Joined,
    told: bool,
    place: Place,
) -> Result<PairBlock, NoMemory>
    requires below { place.0 < length joined.now.pairs.items }
    requires forward { length joined.now.forward.items ≡ length joined.now.pairs.items }
    requires replied { length joined.now.replied.items ≡ length joined.now.pairs.items }
    ensures { IfOk result (λ b. block_seen b ≡ block_at (pairs_seen joined.now) told place) }
{
    let (src, dst) = nets_of(joined, place.0);
    let forward = row_of(alloc, &joined.forward, place.0, true)?;
    let mirrored = row_of(alloc, &joined.replied, place.0, told)?;
    Ok(PairBlock {
        src: NetId(src),
        dst: NetId(dst),
        forward: Row::of(forward),
        mirrored: Row::of(mirrored),
        closed: place.1,
    })
}

// Whether a row has nothing.
fn is_empty_row(rows: &[Vec<u32>], w: usize) -> bool
    requires { w < length rows.now }
    ensures { result ≡ is_nothing (row_at (row_items rows.now) w) }
{
    rows[w].is_empty()
}

/// The networks of a pair.
pub(crate) fn nets_of(joined: &Joined, w: usize) -> Pair
    requires { w < length joined.now.pairs.items }
    ensures { result ≡ pair_at (pairs_seen joined.now).pairs w }
{
    joined.pairs[w]
}

/// Whether a permit goes from the first network of a pair to the second.
pub(crate) fn has_permit(joined: &Joined, w: usize) -> bool
    requires { w < length joined.now.forward.items }
    ensures { result ≡ not (is_nothing (row_at (pairs_seen joined.now).forward w)) }
{
    !is_empty_row(&joined.forward, w)
}

// Whether replies to a permit of the way back are told.
fn has_reply(joined: &Joined, told: bool, w: usize) -> bool
    requires { w < length joined.now.replied.items }
    ensures { result ≡ not (is_nothing (if told then row_at (pairs_seen joined.now).replied w else [])) }
{
    told && !is_empty_row(&joined.replied, w)
}

/// Whether a permit stands in the block of a pair, or the pair is closed.
pub(crate) fn is_filled(joined: &Joined, told: bool, place: Place) -> bool
    requires below { place.0 < length joined.now.pairs.items }
    requires forward { length joined.now.forward.items ≡ length joined.now.pairs.items }
    requires replied { length joined.now.replied.items ≡ length joined.now.pairs.items }
    ensures { result ≡ is_block_filled (block_at (pairs_seen joined.now) told place) }
{
    has_permit(joined, place.0) || has_reply(joined, told, place.0) || place.1
}

/// How far the networks of a pair lie from the deepest.
pub(crate) fn shallow(topo: Topo<'_>, pair: Pair) -> usize
    requires src { pair.0 < length (policy_of topo).nets }
    requires dst { pair.1 < length (policy_of topo).nets }
    ensures value { result ≡ shallow_of (policy_of topo.entry) pair }
    ensures few { result ≤ 64 }
{
    let src = topo.net(NetId(pair.0)).own.len();
    let dst = topo.net(NetId(pair.1)).own.len();
    64 - (src as usize + dst as usize)
}
