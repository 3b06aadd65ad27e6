ghost use Rattle.std.specs.Prelude.{◌≡◌, None, Err, IfOk, IfErr, OnOk};
ghost use Rattle.topology.specs.First.{IsRefusalOf};
ghost use Rattle.fault_text.specs.Texts.{fault_line};
ghost use Rattle.policy_outcome.specs.Outcome.{after_services};
ghost use Rattle.policy_outcome.specs.Found.{meaning_in, pairs_in};
ghost use Rattle.policy_lists.specs.Known.{IsViewed};
ghost use Rattle.policy_lists.specs.Coming.{ArePlacedFrom};
ghost use Rattle.policy_lists.specs.Walking.{path_or_end};

use crate::tables::tables_of;
use crate::viewed::Viewed;
use permit_set::Placement;
use rule_distribute::join;
use spoc_base::Refusal;
use std::alloc::Global;

/// What is placed at each interface of a managed router, in order, unless a permit has no path or
/// an end that is hidden on the way.
pub(crate) fn places_of(alloc: Global, viewed: &Viewed<'_>) -> Result<Vec<Placement>, Refusal>
    requires { IsViewed viewed.now }
    ensures places { IfOk result (λ places. ArePlacedFrom (meaning_in viewed.now.topo) 0 places.items) }
    ensures clear { OnOk result (path_or_end (meaning_in viewed.now.topo) ≡ None) }
    ensures refused { IfErr result (IsRefusalOf (λ fault. after_services (meaning_in viewed.now.topo) ≡ Err (fault_line (pairs_in viewed.now.topo) fault))) }
{
    let topo = viewed.topo;
    let graph = viewed.graph;
    let joined = join(alloc, topo, graph, viewed.views, viewed.permits)?;
    let tables = tables_of(alloc, viewed, &joined)?;
    joined.distribute(alloc, topo, graph, viewed.views, viewed.permits, &tables)
}
