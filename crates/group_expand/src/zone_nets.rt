ghost use Rattle.std.specs.Prelude.{◌≡◌, ◌<◌, ◌∷◌, ◌++◌, filter, ℕ, [], true, length, map, option_map, if◌then◌else◌, IfOk, OnOk};
ghost use Rattle.spoc_base.specs.Shown.{cidr_of};
ghost use Rattle.policy_model.specs.Lists.{has, numbers_below};
ghost use Rattle.policy_model.specs.Objects.{NetObject, area_nets, is_asked, net_of_object, object_set, zone_nets};
ghost use Rattle.policy_model.specs.Policy.{aggregate_of};
ghost use Rattle.policy_model.specs.Zones.{zone_of};
ghost use Rattle.topology.specs.View.{policy_of};
ghost use Rattle.group_expand.specs.Scope.{IsScope, site_in};
ghost use Rattle.group_expand.specs.Seen.{numbers_of};
ghost use Rattle.group_expand.specs.Sets.{AreIn, object_seen, are_there, with_object, with_objects, zone_objects};

use crate::members::net_of;
use crate::object::Object;
use crate::object_set::ObjectSet;
use crate::scope::Scope;
use crate::zone_set::ZoneSet;
use spoc_base::{NetId, NoMemory, Prefix, ZoneId};
use std::alloc::Global;
use topology::Topo;

// Whether the network passes where only those inside a prefix are asked for.
fn passes(topo: Topo<'_>, only: Option<Prefix>, n: NetId) -> bool
    requires { n.0 < length (policy_of topo).nets }
    ensures { result ≡ is_asked (policy_of topo.entry) (option_map cidr_of only) n.0 }
{
    match only {
        Some(outer) => topo.net(n).own.inside(outer),
        None => true,
    }
}

// Adds a network, where it passes.
fn add_asked(
    scope: &Scope<'_>,
    only: Option<Prefix>,
    n: NetId,
    found: &mut ObjectSet,
) -> Result<(), NoMemory>
    requires { n.0 < length (policy_of scope.now.topo).nets }
    ensures { OnOk result (found.new ≡ (if is_asked (policy_of scope.now.topo) (option_map cidr_of only) n.0 then with_object found.old (NetObject n.0) else found.old)) }
{
    if !passes(scope.topo, only, n) {
        return Ok(());
    }
    found.add(Object::Net(n))?;
    Ok(())
}

// Adds the networks of a zone, those that pass.
fn add_zone(
    scope: &Scope<'_>,
    only: Option<Prefix>,
    z: ZoneId,
    found: &mut ObjectSet,
) -> Result<(), NoMemory>
    requires scope { IsScope scope.now }
    requires there { z.0 < length scope.now.graph.now.nets }
    ensures { OnOk result (found.new ≡ with_objects found.old (zone_objects (site_in scope.now) (option_map cidr_of only) z.0)) }
{
    let row = scope.graph.nets(z);
    for n in row {
        add_asked(scope, only, *n, found)?;
    }
    Ok(())
}

/// The networks that an aggregate names.
pub(crate) fn of_aggregate(scope: &Scope<'_>, k: u32) -> Result<Vec<Object>, NoMemory>
    requires scope { IsScope scope.now }
    requires there { k < length (policy_of scope.now.topo).aggregates }
    ensures { IfOk result (λ found. map object_seen found.items ≡ object_set (zone_nets (site_in scope.now) (aggregate_of (policy_of scope.now.topo) k).only ((aggregate_of (policy_of scope.now.topo) k).link ∷ []))) }
{
    let aggregate = scope.topo.aggregate(k);
    let mut found = ObjectSet::new(scope.alloc);
    let z = scope.graph.zone_of(aggregate.link);
    add_zone(scope, aggregate.only, z, &mut found)?;
    found.list(scope.alloc)
}

// Adds the networks of a network's zone, those that pass, unless the zone is done.
fn add_zone_of(
    scope: &Scope<'_>,
    only: Option<Prefix>,
    n: NetId,
    done: &mut ZoneSet,
    found: &mut ObjectSet,
) -> Result<(), NoMemory>
    requires scope { IsScope scope.now }
    requires there { n.0 < length (policy_of scope.now.topo).nets }
    requires done { AreIn (site_in scope.now) (option_map cidr_of only) done.old found.old }
    ensures found { OnOk result (found.new ≡ with_objects found.old (zone_objects (site_in scope.now) (option_map cidr_of only) (zone_of (site_in scope.now) n.0))) }
    ensures done { OnOk result (AreIn (site_in scope.now) (option_map cidr_of only) done.new found.new) }
{
    let z = scope.graph.zone_of(n);
    if !done.add(z)? {
        return Ok(());
    }
    add_zone(scope, only, z, found)?;
    Ok(())
}

/// The networks of the zones of objects, those that pass.
pub(crate) fn zones_of(
    scope: &Scope<'_>,
    only: Option<Prefix>,
    objects: &[Object],
) -> Result<Vec<Object>, NoMemory>
    requires scope { IsScope scope.now }
    requires there { are_there (policy_of scope.now.topo) (map object_seen objects.now) ≡ true }
    ensures { IfOk result (λ found. map object_seen found.items ≡ object_set (zone_nets (site_in scope.now) (option_map cidr_of only) (map (net_of_object (policy_of scope.now.topo)) (map object_seen objects.now)))) }
{
    let mut found = ObjectSet::new(scope.alloc);
    let mut done = ZoneSet::new(scope.alloc);
    for object in objects {
        let net = net_of(scope.topo, *object);
        add_zone_of(scope, only, net, &mut done, &mut found)?;
    }
    found.list(scope.alloc)
}

// These zones as a set.
#[tactic(auto, using(crate::proofs::Gathering::zone_more, crate::proofs::Gathering::zones_end))]
fn zone_set(alloc: Global, zones: &[ZoneId]) -> Result<ZoneSet, NoMemory>
    ensures { IfOk result (λ set. (z : ℕ) → has set z ≡ has (numbers_of zones.now) z) }
{
    let mut set = ZoneSet::new(alloc);
    for z in zones {
        set.add(*z)?;
    }
    Ok(set)
}

// Puts a network at the end, where its zone is in the set.
fn push_inside(
    scope: &Scope<'_>,
    zones: &ZoneSet,
    n: NetId,
    found: &mut Vec<Object>,
) -> Result<(), NoMemory>
    requires scope { IsScope scope.now }
    requires there { n.0 < length (policy_of scope.now.topo).nets }
    ensures { OnOk result (map object_seen found.new.items ≡ (if has zones.now (zone_of (site_in scope.now) n.0) then map object_seen found.old.items ++ NetObject n.0 ∷ [] else map object_seen found.old.items)) }
{
    if !zones.has(scope.graph.zone_of(n)) {
        return Ok(());
    }
    found.push(Object::Net(n))?;
    Ok(())
}

// How many networks there are.
fn net_count(topo: Topo<'_>) -> u32
    ensures { result ≡ length (policy_of topo.entry).nets }
{
    topo.nets().len() as u32
}

// The networks whose zones are in the set.
fn inside(scope: &Scope<'_>, zones: &ZoneSet) -> Result<Vec<Object>, NoMemory>
    requires { IsScope scope.now }
    ensures { IfOk result (λ found. map object_seen found.items ≡ map NetObject (filter (λ n. has zones.now (zone_of (site_in scope.now) n)) (numbers_below (length (policy_of scope.now.topo).nets)))) }
{
    let mut found = Vec::new(scope.alloc);
    for n in 0..net_count(scope.topo) {
        push_inside(scope, zones, NetId(n), &mut found)?;
    }
    Ok(found)
}

/// The networks of an area's zones.
pub(crate) fn of_area(scope: &Scope<'_>, k: u32) -> Result<Vec<Object>, NoMemory>
    requires scope { IsScope scope.now }
    requires there { k < length (policy_of scope.now.topo).areas }
    ensures { IfOk result (λ found. map object_seen found.items ≡ map NetObject (area_nets (site_in scope.now) scope.now.areas.now k)) }
{
    let zones = zone_set(scope.alloc, scope.areas.zones(k))?;
    inside(scope, &zones)
}
