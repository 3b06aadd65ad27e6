ghost use Rattle.std.specs.Prelude.{◌≡◌, true, map, IfOk};
ghost use Rattle.policy_model.specs.Objects.{AreAreas, objects_of};
ghost use Rattle.topology.specs.Expressions.{expr_of};
ghost use Rattle.topology.specs.Sound.{is_sound_expr};
ghost use Rattle.topology.specs.View.{policy_of};
ghost use Rattle.zone_graph.specs.Grouped.{IsGraphOf};
ghost use Rattle.group_expand.specs.Seen.{site_of};
ghost use Rattle.group_expand.specs.Sets.{AreTables, are_there, object_seen};

use crate::area::Areas;
use crate::expr::of_union;
use crate::group_sets::GroupSets;
use crate::object::Object;
use crate::scope::Scope;
use spoc_base::NoMemory;
use std::alloc::Global;
use topology::{Topo, Union};
use zone_graph::ZoneGraph;

/// The objects of a set, in order and without repeats. `user` is what stands for the user.
pub fn objects(
    alloc: Global,
    topo: Topo<'_>,
    graph: &ZoneGraph,
    areas: &Areas,
    sets: &GroupSets,
    set: &Union<'_>,
    user: &[Object],
) -> Result<Vec<Object>, NoMemory>
    requires graph { IsGraphOf (policy_of topo) graph.now }
    requires areas { AreAreas (site_of topo graph.now) areas.now }
    requires sets { AreTables (site_of topo graph.now) areas.now sets.now }
    requires sound { is_sound_expr (policy_of topo) true true (expr_of set.now) ≡ true }
    requires user { are_there (policy_of topo) (map object_seen user.now) ≡ true }
    ensures objects { IfOk result (λ found. map object_seen found.items ≡ objects_of (site_of topo.entry graph.now) areas.now (map object_seen user.now) (expr_of set.now)) }
    ensures there { IfOk result (λ found. are_there (policy_of topo.entry) (map object_seen found.items) ≡ true) }
{
    let scope = Scope {
        alloc,
        topo,
        graph,
        areas,
        hosts: sets.hosts(),
        groups: sets.groups(),
        user,
    };
    of_union(&scope, set)
}
