//! What a policy keeps of a rule counts as the whole rule.

ghost use Rattle.std.specs.Prelude.{ℕ, List};
ghost use Rattle.policy_model.specs.Zones.{Site};
ghost use Rattle.policy_model.specs.Objects.{Object};
ghost use Rattle.spoc_ast.specs.Written.{RuleText, DeclText};
ghost use Rattle.policy_decls.specs.Said.{rule_in, whole_rule};
ghost use Rattle.decl_laws.specs.Alike.{AreAlike};

/// A policy keeps 4,000,001 protocols of a rule at most. That rule lists what the whole one lists, or both list more than 4,000,000 permits or denials.
pub fn rules_count_alike()
    ensures { (decls : List DeclText) (rule : RuleText) (s : Site) (areas : List (List ℕ)) (user : List Object) → AreAlike s areas user (rule_in decls rule) (whole_rule decls rule) }
{}
