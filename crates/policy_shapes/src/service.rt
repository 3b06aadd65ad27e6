ghost use Rattle.std.specs.Prelude.{◌≡◌, ◌∷◌, map, flat_map, IfOk};
ghost use Rattle.std.specs.List.{list_any};
ghost use Rattle.spoc_ast.specs.Seen.{set_seen, rule_seen, decl_seen};
ghost use Rattle.policy_decls.specs.Shapes as shapes;
ghost use Rattle.policy_shapes.specs.Sets as sets;
ghost use Rattle.policy_shapes.specs.Rows.{service_rows};

use crate::policy::Policy;
use crate::protocol::any_bad_prt;
use crate::sets::{asks_unaligned, names_bare, says_user};
use spoc_ast::{RuleTree, SetTree};
use spoc_base::NoMemory;
use std::alloc::Global;

/// The least number of what must not stand in a service of this user and these rules and does: 4,
/// 13 or 14.
pub(crate) fn service_shape(
    alloc: Global,
    policy: &Policy<'_, '_>,
    user: &SetTree<'_>,
    rules: &[RuleTree<'_>],
) -> Result<Option<u8>, NoMemory>
    ensures { IfOk result (λ shape. shape ≡ service_rows (map decl_seen policy.now) (set_seen user.now) (map rule_seen rules.now)) }
{
    if sets_ask(user, rules) {
        return Ok(Some(4));
    }
    if any_bad_rule(alloc, rules)? {
        return Ok(Some(13));
    }
    if any_lacks_user(rules) || sets_name_bare(policy, user, rules) {
        return Ok(Some(14));
    }
    Ok(None)
}

fn rules_ask(rules: &[RuleTree<'_>]) -> bool
    ensures { result ≡ list_any sets.asks_unaligned (flat_map shapes.sets_in_rule (map rule_seen rules.now)) }
{
    for rule in rules {
        if asks_unaligned(&rule.src) || asks_unaligned(&rule.dst) {
            return true;
        }
    }
    false
}

// Whether one of the service's sets asks for a prefix with a host bit.
#[tactic(auto, using(crate::proofs::SetTests::ask_all))]
fn sets_ask(user: &SetTree<'_>, rules: &[RuleTree<'_>]) -> bool
    ensures { result ≡ shapes.ask_unaligned (set_seen user.now ∷ flat_map shapes.sets_in_rule (map rule_seen rules.now)) }
{
    asks_unaligned(user) || rules_ask(rules)
}

fn rules_name_bare(policy: &Policy<'_, '_>, rules: &[RuleTree<'_>]) -> bool
    ensures { result ≡ list_any (sets.names_bare (map decl_seen policy.now)) (flat_map shapes.sets_in_rule (map rule_seen rules.now)) }
{
    for rule in rules {
        if names_bare(policy, &rule.src) || names_bare(policy, &rule.dst) {
            return true;
        }
    }
    false
}

// Whether one of the service's sets names an interface of an unmanaged router without an address.
#[tactic(auto, using(crate::proofs::SetTests::name_all))]
fn sets_name_bare(policy: &Policy<'_, '_>, user: &SetTree<'_>, rules: &[RuleTree<'_>]) -> bool
    ensures { result ≡ shapes.name_bare_port (map decl_seen policy.now) (set_seen user.now ∷ flat_map shapes.sets_in_rule (map rule_seen rules.now)) }
{
    names_bare(policy, user) || rules_name_bare(policy, rules)
}

fn any_bad_rule(alloc: Global, rules: &[RuleTree<'_>]) -> Result<bool, NoMemory>
    ensures { IfOk result (λ bad. bad ≡ list_any (λ rule. list_any shapes.is_bad_prt rule.prts) (map rule_seen rules.now)) }
{
    for rule in rules {
        if any_bad_prt(alloc, rule.prts)? {
            return Ok(true);
        }
    }
    Ok(false)
}

// Whether a rule names the user neither in its source nor in its destination.
fn lacks_user(rule: &RuleTree<'_>) -> bool
    ensures { result ≡ shapes.lacks_user (rule_seen rule.now) }
{
    !(says_user(&rule.src) || says_user(&rule.dst))
}

fn any_lacks_user(rules: &[RuleTree<'_>]) -> bool
    ensures { result ≡ list_any shapes.lacks_user (map rule_seen rules.now) }
{
    for rule in rules {
        if lacks_user(rule) {
            return true;
        }
    }
    false
}
