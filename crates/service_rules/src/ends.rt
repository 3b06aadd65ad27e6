ghost use Rattle.std.specs.Prelude.{◌≡◌, ◌∷◌, ◌++◌, ◌<◌, [], true, length, map, flat_map, if◌then◌else◌, IfOk, OnOk};
ghost use Rattle.policy_model.specs.Objects as plain;
ghost use Rattle.policy_model.specs.Permits as permits;
ghost use Rattle.topology.specs.View.{policy_of};
ghost use Rattle.group_expand.specs.Sets.{are_there, is_there, object_seen};
ghost use Rattle.permit_set.specs.Shown.{end_of};
ghost use Rattle.service_rules.specs.Ends.{is_nested};
ghost use Rattle.service_rules.specs.Scope.{IsScope, site_in};

use crate::scope::Scope;
use group_expand::Object;
use permit_set::End;
use spoc_base::{Addr, AddrRange, HostId, IfId, NetId, NoMemory};
use topology::Topo;

// A network as a whole.
fn net_end(topo: Topo<'_>, n: NetId) -> End
    requires { n.0 < length (policy_of topo).nets }
    ensures { end_of result ≡ permits.net_end (policy_of topo.entry) n.0 }
{
    End {
        net: n,
        range: topo.net(n).own.range(),
    }
}

// Whether another network lies inside the prefix of a network.
fn nested(topo: Topo<'_>, n: NetId, m: NetId) -> bool
    requires outer { n.0 < length (policy_of topo).nets }
    requires inner { m.0 < length (policy_of topo).nets }
    ensures { result ≡ is_nested (policy_of topo.entry) n.0 m.0 }
{
    if m.0 == n.0 {
        return false;
    }
    topo.net(m).own.inside(topo.net(n).own)
}

// Adds another network, where it lies inside the prefix of a network.
fn add_nested(topo: Topo<'_>, n: NetId, m: NetId, found: &mut Vec<End>) -> Result<(), NoMemory>
    requires outer { n.0 < length (policy_of topo).nets }
    requires inner { m.0 < length (policy_of topo).nets }
    ensures { OnOk result (map end_of found.new.items ≡ (if is_nested (policy_of topo.entry) n.0 m.0 then map end_of found.old.items ++ permits.net_end (policy_of topo.entry) m.0 ∷ [] else map end_of found.old.items)) }
{
    if !nested(topo, n, m) {
        return Ok(());
    }
    found.push(net_end(topo, m))?;
    Ok(())
}

// Adds a network, and then the other networks of its zone inside its prefix.
fn add_net(scope: &Scope<'_>, n: NetId, found: &mut Vec<End>) -> Result<(), NoMemory>
    requires scope { IsScope scope.now }
    requires there { n.0 < length (policy_of scope.now.topo).nets }
    ensures { OnOk result (map end_of found.new.items ≡ map end_of found.old.items ++ permits.ends_of (site_in scope.now) (plain.NetObject n.0)) }
{
    found.push(net_end(scope.topo, n))?;
    let row = scope.graph.nets(scope.graph.zone_of(n));
    for m in row {
        add_nested(scope.topo, n, *m, found)?;
    }
    Ok(())
}

// Adds the addresses of a host.
fn add_host(scope: &Scope<'_>, h: HostId, found: &mut Vec<End>) -> Result<(), NoMemory>
    requires { h.0 < length (policy_of scope.now.topo).hosts }
    ensures { OnOk result (map end_of found.new.items ≡ map end_of found.old.items ++ permits.ends_of (site_in scope.now) (plain.HostObject h.0)) }
{
    let host = scope.topo.host(h);
    found.push(End {
        net: host.net,
        range: host.range,
    })?;
    Ok(())
}

// Adds an address at a network.
fn add_address(net: NetId, a: Addr, found: &mut Vec<End>) -> Result<(), NoMemory>
    ensures { OnOk result (map end_of found.new.items ≡ map end_of found.old.items ++ record { net = net.0; range = permits.one_address a.0 } ∷ []) }
{
    match AddrRange::new(a, a) {
        Some(range) => found.push(End { net, range })?,
        None => {}
    }
    Ok(())
}

// Adds the address of an interface, where it has one.
fn add_iface(scope: &Scope<'_>, i: IfId, found: &mut Vec<End>) -> Result<(), NoMemory>
    requires { i.0 < length (policy_of scope.now.topo).ifaces }
    ensures { OnOk result (map end_of found.new.items ≡ map end_of found.old.items ++ permits.ends_of (site_in scope.now) (plain.IfaceObject i.0)) }
{
    let iface = scope.topo.iface(i);
    match iface.addr {
        Some(a) => add_address(iface.net, a, found)?,
        None => {}
    }
    Ok(())
}

// Adds what an object stands for.
fn add_ends(scope: &Scope<'_>, object: Object, found: &mut Vec<End>) -> Result<(), NoMemory>
    requires scope { IsScope scope.now }
    requires there { is_there (policy_of scope.now.topo) (object_seen object) ≡ true }
    ensures { OnOk result (map end_of found.new.items ≡ map end_of found.old.items ++ permits.ends_of (site_in scope.now) (object_seen object)) }
{
    match object {
        Object::Net(n) => add_net(scope, n, found),
        Object::Host(h) => add_host(scope, h, found),
        Object::Iface(i) => add_iface(scope, i, found),
    }
}

/// What objects stand for, in order.
pub(crate) fn ends(scope: &Scope<'_>, objects: &[Object]) -> Result<Vec<End>, NoMemory>
    requires scope { IsScope scope.now }
    requires there { are_there (policy_of scope.now.topo) (map object_seen objects.now) ≡ true }
    ensures { IfOk result (λ found. map end_of found.items ≡ flat_map (permits.ends_of (site_in scope.now)) (map object_seen objects.now)) }
{
    let mut found = Vec::new(scope.alloc);
    for object in objects {
        add_ends(scope, *object, &mut found)?;
    }
    Ok(found)
}
