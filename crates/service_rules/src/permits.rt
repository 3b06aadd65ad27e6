ghost use Rattle.std.specs.Prelude.{◌≡◌, ◌++◌, true, map, flat_map, IfOk, OnOk};
ghost use Rattle.spoc_base.specs.Shown.{box_of};
ghost use Rattle.policy_model.specs.Permits.{rule_items, service_items};
ghost use Rattle.topology.specs.Seen.{rule_seen, service_seen};
ghost use Rattle.topology.specs.Sound.{is_sound_rule, is_sound_service};
ghost use Rattle.topology.specs.View.{policy_of, sources_of};
ghost use Rattle.group_expand.specs.Sets.{are_there, object_seen};
ghost use Rattle.permit_set.specs.Shown.{end_of, permit_of};
ghost use Rattle.service_rules.specs.Ends.{all_permits, is_action, items_if, listed, pair_permits};
ghost use Rattle.service_rules.specs.Scope.{IsScope, site_in};

use crate::action::{has_rule, is_of};
use crate::ends::ends;
use crate::scope::Scope;
use crate::sides::{side, user};
use group_expand::Object;
use permit_set::{End, Permit};
use spoc_base::{NoMemory, TBox};
use topology::{Rule, Service};

// Adds the permits of one source and one destination.
fn add_pair(src: End, dst: End, boxes: &[TBox], found: &mut Vec<Permit>) -> Result<(), NoMemory>
    ensures { OnOk result (map permit_of found.new.items ≡ map permit_of found.old.items ++ pair_permits (map box_of boxes.now) (end_of src) (end_of dst)) }
{
    for t in boxes {
        found.push(Permit { src, dst, t: *t })?;
    }
    Ok(())
}

// Adds the permits of one source.
fn add_source(
    src: End,
    dsts: &[End],
    boxes: &[TBox],
    found: &mut Vec<Permit>,
) -> Result<(), NoMemory>
    ensures { OnOk result (map permit_of found.new.items ≡ map permit_of found.old.items ++ flat_map (pair_permits (map box_of boxes.now) (end_of src)) (map end_of dsts.now)) }
{
    for dst in dsts {
        add_pair(src, *dst, boxes, found)?;
    }
    Ok(())
}

// Adds the permits of each source with each destination.
fn add_all(
    srcs: &[End],
    dsts: &[End],
    boxes: &[TBox],
    found: &mut Vec<Permit>,
) -> Result<(), NoMemory>
    ensures { OnOk result (map permit_of found.new.items ≡ map permit_of found.old.items ++ all_permits (map end_of srcs.now) (map end_of dsts.now) (map box_of boxes.now)) }
{
    for src in srcs {
        add_source(*src, dsts, boxes, found)?;
    }
    Ok(())
}

// Adds what a rule lists.
fn add_rule(
    scope: &Scope<'_>,
    rule: &Rule<'_>,
    user: &[Object],
    found: &mut Vec<Permit>,
) -> Result<(), NoMemory>
    requires scope { IsScope scope.now }
    requires sound { is_sound_rule (policy_of scope.now.topo) (rule_seen rule.now) ≡ true }
    requires user { are_there (policy_of scope.now.topo) (map object_seen user.now) ≡ true }
    ensures { OnOk result (map permit_of found.new.items ≡ map permit_of found.old.items ++ rule_items (site_in scope.now) scope.now.areas.now (map object_seen user.now) (rule_seen rule.now)) }
{
    let srcs = ends(scope, &side(scope, rule.src, user)?)?;
    let dsts = ends(scope, &side(scope, rule.dst, user)?)?;
    add_all(&srcs, &dsts, rule.prts, found)
}

// Adds what a rule lists, where it is of the action.
fn add_if_action(
    scope: &Scope<'_>,
    rule: &Rule<'_>,
    user: &[Object],
    deny: bool,
    found: &mut Vec<Permit>,
) -> Result<(), NoMemory>
    requires scope { IsScope scope.now }
    requires sound { is_sound_rule (policy_of scope.now.topo) (rule_seen rule.now) ≡ true }
    requires user { are_there (policy_of scope.now.topo) (map object_seen user.now) ≡ true }
    ensures { OnOk result (map permit_of found.new.items ≡ map permit_of found.old.items ++ items_if (site_in scope.now) scope.now.areas.now (map object_seen user.now) deny (rule_seen rule.now)) }
{
    if !is_of(rule, deny) {
        return Ok(());
    }
    add_rule(scope, rule, user, found)
}

// Adds what the rules of the action list in a service.
fn add_service(
    scope: &Scope<'_>,
    service: &Service<'_>,
    deny: bool,
    found: &mut Vec<Permit>,
) -> Result<(), NoMemory>
    requires scope { IsScope scope.now }
    requires sound { is_sound_service (policy_of scope.now.topo) (service_seen (sources_of scope.now.topo) service.now) ≡ true }
    ensures { OnOk result (map permit_of found.new.items ≡ map permit_of found.old.items ++ service_items (site_in scope.now) scope.now.areas.now (is_action deny) (service_seen (sources_of scope.now.topo) service.now)) }
{
    if !has_rule(service.rules, deny) {
        return Ok(());
    }
    let user = user(scope, service.user)?;
    for rule in service.rules {
        add_if_action(scope, rule, &user, deny, found)?;
    }
    Ok(())
}

/// What the rules of the action list, service by service and rule by rule, repeats kept: the listed
/// denials, or the listed permits.
pub(crate) fn list(scope: &Scope<'_>, deny: bool) -> Result<Vec<Permit>, NoMemory>
    requires { IsScope scope.now }
    ensures { IfOk result (λ found. map permit_of found.items ≡ listed deny (site_in scope.now) scope.now.areas.now) }
{
    let mut found = Vec::new(scope.alloc);
    for service in scope.topo.services() {
        add_service(scope, service, deny, &mut found)?;
    }
    Ok(found)
}
