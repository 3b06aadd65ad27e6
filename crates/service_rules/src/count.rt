ghost use Rattle.std.specs.Prelude.{◌≡◌, true, length, map, IfOk};
ghost use Rattle.policy_model.specs.Permits.{rule_items, service_items};
ghost use Rattle.topology.specs.Seen.{rule_seen, service_seen};
ghost use Rattle.topology.specs.Sound.{is_sound_rule, is_sound_service};
ghost use Rattle.topology.specs.View.{policy_of, sources_of};
ghost use Rattle.group_expand.specs.Sets.{are_there, object_seen};
ghost use Rattle.service_rules.specs.Counted.{counted};
ghost use Rattle.service_rules.specs.Ends.{is_action, items_if, listed};
ghost use Rattle.service_rules.specs.Scope.{IsScope, site_in};

use crate::action::{has_rule, is_of};
use crate::ends::ends;
use crate::scope::Scope;
use crate::sides::{side, user};
use group_expand::Object;
use spoc_base::NoMemory;
use topology::{Rule, Service};

// How many items a rule lists, as far as the number goes.
fn of_rule(scope: &Scope<'_>, rule: &Rule<'_>, user: &[Object]) -> Result<u64, NoMemory>
    requires scope { IsScope scope.now }
    requires sound { is_sound_rule (policy_of scope.now.topo) (rule_seen rule.now) ≡ true }
    requires user { are_there (policy_of scope.now.topo) (map object_seen user.now) ≡ true }
    ensures { IfOk result (λ count. count ≡ counted (length (rule_items (site_in scope.now) scope.now.areas.now (map object_seen user.now) (rule_seen rule.now)))) }
{
    let srcs = ends(scope, &side(scope, rule.src, user)?)?;
    let dsts = ends(scope, &side(scope, rule.dst, user)?)?;
    Ok(
        (srcs.len() as u64).saturating_mul(
            (dsts.len() as u64).saturating_mul(rule.prts.len() as u64),
        ),
    )
}

// How many items a rule lists, where it is of the action.
fn if_action(
    scope: &Scope<'_>,
    rule: &Rule<'_>,
    user: &[Object],
    deny: bool,
) -> Result<u64, NoMemory>
    requires scope { IsScope scope.now }
    requires sound { is_sound_rule (policy_of scope.now.topo) (rule_seen rule.now) ≡ true }
    requires user { are_there (policy_of scope.now.topo) (map object_seen user.now) ≡ true }
    ensures { IfOk result (λ count. count ≡ counted (length (items_if (site_in scope.now) scope.now.areas.now (map object_seen user.now) deny (rule_seen rule.now)))) }
{
    if !is_of(rule, deny) {
        return Ok(0);
    }
    of_rule(scope, rule, user)
}

// How many items the rules of the action list in a service, as far as the number goes.
fn of_service(scope: &Scope<'_>, service: &Service<'_>, deny: bool) -> Result<u64, NoMemory>
    requires scope { IsScope scope.now }
    requires sound { is_sound_service (policy_of scope.now.topo) (service_seen (sources_of scope.now.topo) service.now) ≡ true }
    ensures { IfOk result (λ count. count ≡ counted (length (service_items (site_in scope.now) scope.now.areas.now (is_action deny) (service_seen (sources_of scope.now.topo) service.now)))) }
{
    if !has_rule(service.rules, deny) {
        return Ok(0);
    }
    let user = user(scope, service.user)?;
    let mut count: u64 = 0;
    for rule in service.rules {
        count = count.saturating_add(if_action(scope, rule, &user, deny)?);
    }
    Ok(count)
}

/// How many items the rules of the action list, as far as the number goes. No list of them is made.
pub(crate) fn count(scope: &Scope<'_>, deny: bool) -> Result<u64, NoMemory>
    requires { IsScope scope.now }
    ensures { IfOk result (λ count. count ≡ counted (length (listed deny (site_in scope.now) scope.now.areas.now))) }
{
    let mut count: u64 = 0;
    for service in scope.topo.services() {
        count = count.saturating_add(of_service(scope, service, deny)?);
    }
    Ok(count)
}
