ghost use Rattle.std.specs.Prelude.{◌≡◌, ◌<◌, ℕ, List, length, map, IfNone, IfSome, slice_index};
ghost use Rattle.std.specs.List.{Contains};
ghost use Rattle.policy_model.specs.FirstFault.{NoPath};
ghost use Rattle.policy_model.specs.Lists.{is_nothing};
ghost use Rattle.policy_model.specs.Walks.{allowed_walks};
ghost use Rattle.topology.specs.Told.{IsTold};
ghost use Rattle.topology.specs.View.{policy_of, sources_of};
ghost use Rattle.zone_graph.specs.Grouped.{IsGraphOf};
ghost use Rattle.permit_lines.specs.Given.{site_with};
ghost use Rattle.rule_distribute.specs.Lacking.{lacks_walk, IsFirstLacking, NoneLacks};
ghost use Rattle.rule_distribute.specs.Paths.{AreMarked, AreFiled, AreNamed, zones_named};
ghost use Rattle.rule_distribute.specs.Placed.{HaveRows};
ghost use Rattle.rule_distribute.specs.Shown.{pairs_seen};

use crate::blocks::{Joined, has_permit, nets_of};
use crate::pairs::Pair;
use crate::paths::{Places, crossings_of};
use spoc_base::{Fault, NetId};
use topology::Topo;
use zone_graph::{PairMarks, ZoneGraph};

// Whether no walk joins the zones of a pair of networks.
fn is_unjoined(
    topo: Topo<'_>,
    graph: &ZoneGraph,
    places: &Places,
    tables: &[PairMarks],
    pair: Pair,
) -> bool
    requires graph { IsGraphOf (policy_of topo) graph.now }
    requires src { pair.0 < length (policy_of topo).nets }
    requires dst { pair.1 < length (policy_of topo).nets }
    requires places { AreFiled (map zones_named tables.now) (length tables.now) places.now }
    requires marks { AreMarked (site_with (policy_of topo) graph.now) tables.now }
    requires named { Contains (map zones_named tables.now) (slice_index graph.now.zones pair.0, slice_index graph.now.zones pair.1) }
    ensures { result ≡ is_nothing (allowed_walks (site_with (policy_of topo.entry) graph.now) (slice_index graph.now.zones pair.0) (slice_index graph.now.zones pair.1)) }
{
    crossings_of(topo, graph, places, tables, pair).is_empty()
}

// Whether a permit goes from the first network of a pair to the second, and no walk joins their
// zones.
fn lacks(
    topo: Topo<'_>,
    graph: &ZoneGraph,
    joined: &Joined,
    places: &Places,
    tables: &[PairMarks],
    w: usize,
) -> bool
    requires graph { IsGraphOf (policy_of topo) graph.now }
    requires below { w < length joined.now.pairs.items }
    requires rows { HaveRows (policy_of topo) (pairs_seen joined.now) }
    requires places { AreFiled (map zones_named tables.now) (length tables.now) places.now }
    requires marks { AreMarked (site_with (policy_of topo) graph.now) tables.now }
    requires named { AreNamed (site_with (policy_of topo) graph.now) joined.now.pairs.items (map zones_named tables.now) }
    ensures { result ≡ lacks_walk (site_with (policy_of topo.entry) graph.now) (pairs_seen joined.now) w }
{
    let pair = nets_of(joined, w);
    has_permit(joined, w) && is_unjoined(topo, graph, places, tables, pair)
}

/// The first pair with a permit from its first network to the second, where no walk joins their
/// zones.
pub(crate) fn first_lacking(
    topo: Topo<'_>,
    graph: &ZoneGraph,
    joined: &Joined,
    places: &Places,
    tables: &[PairMarks],
) -> Option<Pair>
    requires graph { IsGraphOf (policy_of topo) graph.now }
    requires rows { HaveRows (policy_of topo) (pairs_seen joined.now) }
    requires places { AreFiled (map zones_named tables.now) (length tables.now) places.now }
    requires marks { AreMarked (site_with (policy_of topo) graph.now) tables.now }
    requires named { AreNamed (site_with (policy_of topo) graph.now) joined.now.pairs.items (map zones_named tables.now) }
    ensures none { IfNone result (NoneLacks (site_with (policy_of topo.entry) graph.now) (pairs_seen joined.now)) }
    ensures first { IfSome result (λ pair. IsFirstLacking (site_with (policy_of topo.entry) graph.now) (pairs_seen joined.now) pair) }
{
    for w in 0..joined.pairs.len() {
        if lacks(topo, graph, joined, places, tables, w) {
            return Some(nets_of(joined, w));
        }
    }
    None
}

/// The fault of such a pair.
pub(crate) fn no_path_fault(topo: Topo<'_>, pair: Pair) -> Fault
    requires src { pair.0 < length (policy_of topo).nets }
    requires dst { pair.1 < length (policy_of topo).nets }
    ensures { (zones : List ℕ) → IsTold (sources_of topo.entry) (record { policy = policy_of topo.entry; zones = zones }) (NoPath pair.0 pair.1) result }
{
    Fault::NoPath {
        src: topo.net(NetId(pair.0)).name,
        dst: topo.net(NetId(pair.1)).name,
    }
}
