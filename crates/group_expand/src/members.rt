ghost use Rattle.std.specs.Prelude.{◌≡◌, ◌<◌, ◌∷◌, [], true, length, map, IfOk, OnOk, slice_index_or};
ghost use Rattle.std.specs.List.{flat_map};
ghost use Rattle.policy_model.specs.Objects.{HostObject, NetObject, hosts_of_object, net_of_object, object_set};
ghost use Rattle.topology.specs.View.{policy_of};
ghost use Rattle.group_expand.specs.Scope.{IsScope};
ghost use Rattle.group_expand.specs.Sets.{object_seen, rows_seen, group_set, is_there, are_there, with_objects};

use crate::object::Object;
use crate::object_set::ObjectSet;
use crate::scope::Scope;
use spoc_base::{HostId, NetId, NoMemory};
use std::alloc::Global;
use topology::Topo;

/// A set of one object.
pub(crate) fn one(alloc: Global, object: Object) -> Result<Vec<Object>, NoMemory>
    ensures { IfOk result (λ found. map object_seen found.items ≡ object_seen object ∷ []) }
{
    let mut found = Vec::new(alloc);
    found.push(object)?;
    Ok(found)
}

/// The set of a group.
pub(crate) fn of_group(scope: &Scope<'_>, g: u32) -> Result<Vec<Object>, NoMemory>
    requires { g < length scope.now.groups.now }
    ensures { IfOk result (λ found. map object_seen found.items ≡ group_set (rows_seen scope.now.groups.now) g) }
{
    Ok(scope.groups[g as usize].to_vec(scope.alloc)?)
}

/// What the service names as its user.
pub(crate) fn of_user(scope: &Scope<'_>) -> Result<Vec<Object>, NoMemory>
    ensures { IfOk result (λ found. map object_seen found.items ≡ map object_seen scope.now.user.now) }
{
    Ok(scope.user.to_vec(scope.alloc)?)
}

/// The network of an object.
pub(crate) fn net_of(topo: Topo<'_>, object: Object) -> NetId
    requires { is_there (policy_of topo) (object_seen object) ≡ true }
    ensures value { result.0 ≡ net_of_object (policy_of topo.entry) (object_seen object) }
    ensures below { result.0 < length (policy_of topo.entry).nets }
{
    match object {
        Object::Net(n) => n,
        Object::Host(h) => topo.host(h).net,
        Object::Iface(i) => topo.iface(i).net,
    }
}

/// The networks of objects.
pub(crate) fn nets_of(scope: &Scope<'_>, objects: &[Object]) -> Result<Vec<Object>, NoMemory>
    requires { are_there (policy_of scope.now.topo) (map object_seen objects.now) ≡ true }
    ensures { IfOk result (λ found. map object_seen found.items ≡ object_set (map (λ o. NetObject (net_of_object (policy_of scope.now.topo) o)) (map object_seen objects.now))) }
{
    let mut found = ObjectSet::new(scope.alloc);
    for object in objects {
        let net = net_of(scope.topo, *object);
        found.add(Object::Net(net))?;
    }
    found.list(scope.alloc)
}

// Adds some hosts.
fn add_row(row: &[HostId], found: &mut ObjectSet) -> Result<(), NoMemory>
    ensures { OnOk result (found.new ≡ with_objects found.old (map HostObject (map (λ h. h.0) row.now))) }
{
    for h in row {
        found.add(Object::Host(*h))?;
    }
    Ok(())
}

// Adds the hosts of an object.
fn add_hosts(scope: &Scope<'_>, object: Object, found: &mut ObjectSet) -> Result<(), NoMemory>
    requires scope { IsScope scope.now }
    requires there { is_there (policy_of scope.now.topo) (object_seen object) ≡ true }
    ensures { OnOk result (found.new ≡ with_objects found.old (hosts_of_object (policy_of scope.now.topo) (object_seen object))) }
{
    match object {
        Object::Net(n) => add_row(&scope.hosts[n.0 as usize], found)?,
        Object::Host(_) => found.add(object)?,
        Object::Iface(_) => {}
    }
    Ok(())
}

/// The hosts of objects.
pub(crate) fn hosts_of(scope: &Scope<'_>, objects: &[Object]) -> Result<Vec<Object>, NoMemory>
    requires scope { IsScope scope.now }
    requires there { are_there (policy_of scope.now.topo) (map object_seen objects.now) ≡ true }
    ensures { IfOk result (λ found. map object_seen found.items ≡ object_set (flat_map (hosts_of_object (policy_of scope.now.topo)) (map object_seen objects.now))) }
{
    let mut found = ObjectSet::new(scope.alloc);
    for object in objects {
        add_hosts(scope, *object, &mut found)?;
    }
    found.list(scope.alloc)
}
