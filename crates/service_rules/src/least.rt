ghost use Rattle.std.specs.Prelude.{◌≡◌, ◌<◌, ◌||◌, ℕ, Bool, true, length, map, Some, None};
ghost use Rattle.std.specs.List.{list_any};
ghost use Rattle.policy_model.specs.Faults.{is_managed_end};
ghost use Rattle.topology.specs.View.{policy_of};
ghost use Rattle.group_expand.specs.Sets.{are_there, is_there, object_seen};
ghost use Rattle.service_rules.specs.Least.{IsBelow, IsLeast};

use group_expand::Object;
use spoc_base::IfId;
use topology::Topo;

/// The lesser of two interfaces, where there are two.
pub(crate) fn lesser(one: Option<IfId>, two: Option<IfId>) -> Option<IfId>
    ensures least { (first second : ℕ → Bool) → IsLeast first one → IsLeast second two → IsLeast (λ i. first i || second i) result }
    ensures there { (count : ℕ) → IsBelow count one → IsBelow count two → IsBelow count result }
{
    let Some(i) = one else {
        return two;
    };
    let Some(j) = two else {
        return one;
    };
    if i.0 <= j.0 {
        return one;
    }
    two
}

// The object, where it is an interface of a managed router.
fn managed_iface(topo: Topo<'_>, object: Object) -> Option<IfId>
    requires { is_there (policy_of topo) (object_seen object) ≡ true }
    ensures least { IsLeast (λ i. is_managed_end (policy_of topo.entry) i (object_seen object)) result }
    ensures there { IsBelow (length (policy_of topo.entry).ifaces) result }
{
    let Object::Iface(i) = object else {
        return None;
    };
    match topo.router(topo.iface(i).router).device {
        Some(_) => Some(i),
        None => None,
    }
}

/// The least interface of a managed router among some objects.
pub(crate) fn least_managed(topo: Topo<'_>, objects: &[Object]) -> Option<IfId>
    requires { are_there (policy_of topo) (map object_seen objects.now) ≡ true }
    ensures least { IsLeast (λ i. list_any (is_managed_end (policy_of topo.entry) i) (map object_seen objects.now)) result }
    ensures there { IsBelow (length (policy_of topo.entry).ifaces) result }
{
    let mut least = None;
    for object in objects {
        least = lesser(least, managed_iface(topo, *object));
    }
    least
}
