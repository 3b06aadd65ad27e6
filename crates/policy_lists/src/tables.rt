ghost use Rattle.std.specs.Prelude.{◌≡◌, map, IfOk};
ghost use Rattle.policy_model.specs.Blocks.{zone_pairs as pairs_of_zones};
ghost use Rattle.topology.specs.View.{policy_of};
ghost use Rattle.zone_graph.specs.Grouped.{IsGraphOf};
ghost use Rattle.nat_view.specs.Views.{seen_of};
ghost use Rattle.permit_lines.specs.Given.{site_with};
ghost use Rattle.permit_set.specs.Shown.{permit_of};
ghost use Rattle.rule_distribute.specs.Paths.{HaveMarks};
ghost use Rattle.rule_distribute.specs.Placed.{HaveRows, ArePairsOf};
ghost use Rattle.rule_distribute.specs.Shown.{pairs_seen, zones_seen};
ghost use Rattle.policy_lists.specs.Known.{site_in, IsViewed};

use crate::viewed::Viewed;
use path_walk::plain_tables;
use rule_distribute::Joined;
use spoc_base::{NoMemory, ZoneId};
use std::alloc::Global;
use topology::Topo;
use zone_graph::{PairMarks, ZoneGraph};

// The marks of the walks of each of these pairs of zones.
fn tables_for(
    alloc: Global,
    topo: Topo<'_>,
    graph: &ZoneGraph,
    pairs: &[(ZoneId, ZoneId)],
) -> Result<Vec<PairMarks>, NoMemory>
    requires { IsGraphOf (policy_of topo) graph.now }
    ensures { IfOk result (λ tables. HaveMarks (site_with (policy_of topo.entry) graph.now) (map zones_seen pairs.now) tables.items) }
{
    plain_tables(alloc, topo, graph, pairs)
}

/// The marks of all walks on which the lists depend.
pub(crate) fn tables_of(
    alloc: Global,
    viewed: &Viewed<'_>,
    joined: &Joined,
) -> Result<Vec<PairMarks>, NoMemory>
    requires viewed { IsViewed viewed.now }
    requires pairs { ArePairsOf (site_in viewed.now) (seen_of viewed.now.views.now).views (map permit_of viewed.now.permits.now) (pairs_seen joined.now) }
    requires rows { HaveRows (policy_of viewed.now.topo) (pairs_seen joined.now) }
    ensures { IfOk result (λ tables. HaveMarks (site_in viewed.now) (pairs_of_zones (site_in viewed.now) (seen_of viewed.now.views.now).views (map permit_of viewed.now.permits.now)) tables.items) }
{
    let topo = viewed.topo;
    let graph = viewed.graph;
    let pairs = joined.zone_pairs(alloc, topo, graph)?;
    tables_for(alloc, topo, graph, &pairs)
}
