ghost use Rattle.std.specs.Prelude.{◌≡◌, ◌<◌, ℕ, true, length, map, Some, None, IfOk, slice_index_or};
ghost use Rattle.std.specs.List.{list_any};
ghost use Rattle.policy_model.specs.Faults.{has_managed_end, is_managed_end};
ghost use Rattle.policy_model.specs.FirstFault.{no_service};
ghost use Rattle.policy_model.specs.Objects.{objects_of};
ghost use Rattle.topology.specs.Seen.{rule_seen, service_seen};
ghost use Rattle.topology.specs.Sound.{is_sound_rule, is_sound_service};
ghost use Rattle.topology.specs.View.{policy_of, sources_of};
ghost use Rattle.group_expand.specs.Sets.{are_there, object_seen};
ghost use Rattle.service_rules.specs.Least.{IsBelow, IsFirstEnd, IsLeast, rule_has_end};
ghost use Rattle.service_rules.specs.Scope.{IsScope, site_in};

use crate::least::{least_managed, lesser};
use crate::scope::Scope;
use crate::sides::{side, user};
use group_expand::Object;
use spoc_base::{IfId, NoMemory};
use topology::{Rule, Service, Topo};

// The least interface of a managed router at an end of a rule.
fn in_rule(scope: &Scope<'_>, rule: &Rule<'_>, user: &[Object]) -> Result<Option<IfId>, NoMemory>
    requires scope { IsScope scope.now }
    requires sound { is_sound_rule (policy_of scope.now.topo) (rule_seen rule.now) ≡ true }
    requires user { are_there (policy_of scope.now.topo) (map object_seen user.now) ≡ true }
    ensures least { IfOk result (IsLeast (rule_has_end (site_in scope.now) scope.now.areas.now (map object_seen user.now) (rule_seen rule.now))) }
    ensures there { IfOk result (IsBelow (length (policy_of scope.now.topo).ifaces)) }
{
    let srcs = side(scope, rule.src, user)?;
    let dsts = side(scope, rule.dst, user)?;
    Ok(lesser(
        least_managed(scope.topo, &srcs),
        least_managed(scope.topo, &dsts),
    ))
}

// The least interface of a managed router at an end of a service's rules.
fn in_service(scope: &Scope<'_>, service: &Service<'_>) -> Result<Option<IfId>, NoMemory>
    requires scope { IsScope scope.now }
    requires sound { is_sound_service (policy_of scope.now.topo) (service_seen (sources_of scope.now.topo) service.now) ≡ true }
    ensures least { IfOk result (IsLeast (has_managed_end (site_in scope.now) scope.now.areas.now (service_seen (sources_of scope.now.topo) service.now))) }
    ensures there { IfOk result (IsBelow (length (policy_of scope.now.topo).ifaces)) }
{
    let user = user(scope, service.user)?;
    let mut least = None;
    for rule in service.rules {
        least = lesser(least, in_rule(scope, rule, &user)?);
    }
    Ok(least)
}

/// The first service with an interface of a managed router at an end, and the least such interface.
pub(crate) fn first_managed(scope: &Scope<'_>) -> Result<Option<(u32, IfId)>, NoMemory>
    requires { IsScope scope.now }
    ensures { IfOk result (IsFirstEnd (site_in scope.now) scope.now.areas.now) }
{
    let services = scope.topo.services();
    for k in 0..services.len() as u32 {
        if let Some(i) = in_service(scope, &services[k as usize])? {
            return Ok(Some((k, i)));
        }
    }
    Ok(None)
}
