ghost use Rattle.std.specs.Prelude.{◌≡◌, ◌<◌, ◌++◌, true, map, flat_map, length, IfOk, OnOk};
ghost use Rattle.std.specs.List.{All, list_all};
ghost use Rattle.policy_model.specs.Walks.{begins_set};
ghost use Rattle.policy_decls.specs.Said.{policy_declared, restrictions_implied, policy_said};
ghost use Rattle.topology.specs.Kept.{IsImpliedWritten};
ghost use Rattle.topology.specs.Seen.{iface_seen, restriction_seen};
ghost use Rattle.policy_build.specs.Views.{decls_of, sources_in};
ghost use Rattle.policy_build.specs.Ifaces.{IsIfaceIn};
ghost use Rattle.policy_build.specs.Rows.{all_owned};
ghost use Rattle.policy_build.specs.Sharing.{iface_keyed, iface_class, GrowsTo, begun_by, IsSharing};

use crate::scope::Scope;
use crate::shared_keys::SharedKeys;
use crate::sorting::{rows, short};
use spoc_base::{IfId, NoMemory};
use std::alloc::Global;
use topology::{IfRows, Iface, Restriction};

/// The interfaces, each one's class, and for each class its interfaces. Those of one network that
/// share one address are of one class.
#[derive(Clone, Copy)]
pub(crate) struct Sharing<'a, 't> {
    pub(crate) ifaces: &'t [Iface<'a>],
    pub(crate) classes: &'t [u32],
    pub(crate) sharers: IfRows<'a>,
}

/// The restrictions that shared addresses imply, by network and then by the least of their
/// interfaces, by which each is named. `order` has the interfaces by network.
pub(crate) fn implied<'a>(
    scope: Scope<'a, '_>,
    ifaces: &[Iface<'a>],
    order: &[IfId],
) -> Result<Vec<Restriction<'a>>, NoMemory>
    requires said { map (iface_seen (sources_in scope)) ifaces.now ≡ (policy_said (decls_of scope)).ifaces }
    requires written { All (IsIfaceIn (sources_in scope) (decls_of scope)) ifaces.now }
    requires order { map (λ i. i.0) order.now ≡ all_owned (map (λ i. i.net.0) ifaces.now) (length (policy_said (decls_of scope)).nets) }
    ensures said { IfOk result (λ found. map (restriction_seen (sources_in scope.entry)) found.items ≡ restrictions_implied (policy_declared (decls_of scope.entry))) }
    ensures written { IfOk result (λ found. All (IsImpliedWritten (sources_in scope.entry) (policy_said (decls_of scope.entry))) found.items) }
{
    let keys = shared_keys(scope.alloc, ifaces)?;
    let count = short(keys.count())?;
    if count == 0 {
        return Ok(Vec::new(scope.alloc));
    }
    let classes = classes(scope.alloc, &keys, ifaces)?;
    let sharers = rows(scope.alloc, scope.arena, &classes, count as usize + 1)?;
    let sharing = Sharing {
        ifaces,
        classes: &classes,
        sharers,
    };
    sets(scope, sharing, order)
}

// The addresses that are shared.
fn shared_keys(alloc: Global, ifaces: &[Iface<'_>]) -> Result<SharedKeys, NoMemory>
    ensures { IfOk result (λ keys. list_all (iface_keyed keys) ifaces.now ≡ true) }
{
    let mut keys = SharedKeys::new(alloc);
    for iface in ifaces {
        add_key(iface, &mut keys)?;
    }
    Ok(keys)
}

fn add_key(iface: &Iface<'_>, keys: &mut SharedKeys) -> Result<(), NoMemory>
    ensures { OnOk result (GrowsTo keys.old keys.new × (iface_keyed keys.new iface.now ≡ true)) }
{
    if let Some(addr) = iface.shared {
        keys.add(iface.net, addr)?;
    }
    Ok(())
}

// The class of each interface.
fn classes(alloc: Global, keys: &SharedKeys, ifaces: &[Iface<'_>]) -> Result<Vec<u32>, NoMemory>
    ensures { IfOk result (λ classes. classes.items ≡ map (iface_class keys.now) ifaces.now) }
{
    let mut classes = Vec::new(alloc);
    for iface in ifaces {
        let class = class(keys, iface)?;
        classes.push(class)?;
    }
    Ok(classes)
}

fn class(keys: &SharedKeys, iface: &Iface<'_>) -> Result<u32, NoMemory>
    ensures { IfOk result (λ class. class ≡ iface_class keys.now iface.now) }
{
    match iface.shared {
        Some(addr) => short(keys.find(iface.net, addr).unwrap_or(0)),
        None => short(keys.count()),
    }
}

fn sets<'a>(
    scope: Scope<'a, '_>,
    sharing: Sharing<'a, '_>,
    order: &[IfId],
) -> Result<Vec<Restriction<'a>>, NoMemory>
    requires sharing { IsSharing scope sharing }
    requires below { All (λ i. i.0 < length sharing.ifaces.now) order.now }
    ensures said { IfOk result (λ found. map (restriction_seen (sources_in scope.entry)) found.items ≡ flat_map (begun_by (policy_said (decls_of scope.entry))) (map (λ i. i.0) order.now)) }
    ensures written { IfOk result (λ found. All (IsImpliedWritten (sources_in scope.entry) (policy_said (decls_of scope.entry))) found.items) }
{
    let mut found = Vec::new(scope.alloc);
    for i in order {
        add_set(scope, sharing, *i, &mut found)?;
    }
    Ok(found)
}

// Adds the set that the interface begins, if any.
fn add_set<'a>(
    scope: Scope<'a, '_>,
    sharing: Sharing<'a, '_>,
    i: IfId,
    found: &mut Vec<Restriction<'a>>,
) -> Result<(), NoMemory>
    requires sharing { IsSharing scope sharing }
    requires below { i.0 < length sharing.ifaces.now }
    requires written { All (IsImpliedWritten (sources_in scope) (policy_said (decls_of scope))) found.old.items }
    ensures said { OnOk result (map (restriction_seen (sources_in scope.entry)) found.new.items ≡ map (restriction_seen (sources_in scope.entry)) found.old.items ++ begun_by (policy_said (decls_of scope.entry)) i.0) }
    ensures written { OnOk result (All (IsImpliedWritten (sources_in scope.entry) (policy_said (decls_of scope.entry))) found.new.items) }
{
    let iface = sharing.ifaces[i.0 as usize];
    if iface.shared.is_none() {
        return Ok(());
    }
    let members = sharing.sharers.row(sharing.classes[i.0 as usize] as usize);
    if !begins(members, i) {
        return Ok(());
    }
    let Ok(()) = found.push(Restriction {
        name: iface.name,
        members,
    }) else {
        return Err(NoMemory);
    };
    Ok(())
}

// Whether these are two or more interfaces, of which this one is the first.
fn begins(members: &[IfId], i: IfId) -> bool
    ensures { result ≡ begins_set i.0 (map (λ m. m.0) members.now) }
{
    match members {
        [first, _, ..] => *first == i,
        _ => false,
    }
}
