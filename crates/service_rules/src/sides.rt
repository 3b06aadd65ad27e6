ghost use Rattle.std.specs.Prelude.{◌≡◌, [], true, map, IfOk};
ghost use Rattle.policy_model.specs.Objects.{objects_of};
ghost use Rattle.topology.specs.Expressions.{expr_of};
ghost use Rattle.topology.specs.Sound.{is_sound_expr};
ghost use Rattle.topology.specs.View.{policy_of};
ghost use Rattle.group_expand.specs.Sets.{are_there, object_seen};
ghost use Rattle.service_rules.specs.Scope.{IsScope, site_in};

use crate::scope::Scope;
use group_expand::{Object, objects};
use spoc_base::NoMemory;
use topology::Union;

/// The objects of a side of a rule.
pub(crate) fn side(
    scope: &Scope<'_>,
    set: &Union<'_>,
    user: &[Object],
) -> Result<Vec<Object>, NoMemory>
    requires scope { IsScope scope.now }
    requires sound { is_sound_expr (policy_of scope.now.topo) true true (expr_of set.now) ≡ true }
    requires user { are_there (policy_of scope.now.topo) (map object_seen user.now) ≡ true }
    ensures objects { IfOk result (λ found. map object_seen found.items ≡ objects_of (site_in scope.now) scope.now.areas.now (map object_seen user.now) (expr_of set.now)) }
    ensures there { IfOk result (λ found. are_there (policy_of scope.now.topo) (map object_seen found.items) ≡ true) }
{
    objects(
        scope.alloc,
        scope.topo,
        scope.graph,
        scope.areas,
        scope.sets,
        set,
        user,
    )
}

/// The objects that stand for the user of a service.
pub(crate) fn user(scope: &Scope<'_>, set: &Union<'_>) -> Result<Vec<Object>, NoMemory>
    requires scope { IsScope scope.now }
    requires sound { is_sound_expr (policy_of scope.now.topo) true true (expr_of set.now) ≡ true }
    ensures objects { IfOk result (λ found. map object_seen found.items ≡ objects_of (site_in scope.now) scope.now.areas.now [] (expr_of set.now)) }
    ensures there { IfOk result (λ found. are_there (policy_of scope.now.topo) (map object_seen found.items) ≡ true) }
{
    side(scope, set, &[])
}
