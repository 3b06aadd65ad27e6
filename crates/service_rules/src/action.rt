ghost use Rattle.std.specs.Prelude.{◌≡◌};
ghost use Rattle.std.specs.List.{list_any};
ghost use Rattle.topology.specs.Seen.{rule_seen};
ghost use Rattle.service_rules.specs.Ends.{is_action};

use topology::Rule;

/// Whether the rule denies, or permits where that is asked.
pub(crate) fn is_of(rule: &Rule<'_>, deny: bool) -> bool
    ensures { result ≡ is_action deny (rule_seen rule.now) }
{
    if deny { rule.deny } else { !rule.deny }
}

/// Whether one of the rules is of the action.
pub(crate) fn has_rule(rules: &[Rule<'_>], deny: bool) -> bool
    ensures { result ≡ list_any (λ rule. is_action deny (rule_seen rule)) rules.now }
{
    rules.iter().any(|rule| is_of(rule, deny))
}
