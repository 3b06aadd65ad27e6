//! The configs that are defined for a policy: its lists, optimised and grouped, and its route tables. For an accepted policy they are exact and deliver, with
//! nothing else asked of them.
//! The functions here do nothing: each has a law as its contract.
#![tactic(auto)]

ghost use Rattle.std.specs.Prelude.{◌≡◌, ℕ, ◌<◌, List, length, IsTrue};
ghost use Rattle.policy_model.specs.Policy.{Policy, router_at, is_managed};
ghost use Rattle.policy_model.specs.Passing.{Config, config_of, list_in};
ghost use Rattle.policy_model.specs.FirstFault.{IsAccepted};
ghost use Rattle.policy_model.specs.Headline.{Meaning, IsMeaning, permits_in, IsExact, Delivers, Refuses};
ghost use Rattle.policy_laws.specs.Secured.{AreSecured, HaveLists};
ghost use Rattle.policy_laws.specs.Routed.{IsWired, HaveTables};
ghost use Rattle.policy_laws.specs.Shaped.{IsShaped};
ghost use Rattle.config_laws.specs.Written.{written_lines, written_config, written_configs};

/// The config of a managed router is its own.
pub fn configs_are_in_order()
    ensures { (m : Meaning) (r : ℕ) → IsTrue (is_managed m.site.policy r) → config_of m.site.policy (written_configs m) r ≡ written_config m r }
{}

/// The list at a managed interface is its own.
pub fn lists_are_in_order()
    ensures { (m : Meaning) (i : ℕ) → i < length m.site.policy.ifaces → IsTrue (is_managed m.site.policy (router_at m.site.policy i)) →
        list_in m.site.policy (written_configs m) i ≡ written_lines m i }
{}

/// The lists decide every header as the policy's lists do, and the routes send every address as its tables do.
pub fn written_configs_decide()
    ensures { (m : Meaning) → AreSecured m.site m.views (permits_in m) →
        HaveLists m.site m.views (permits_in m) (written_configs m) × HaveTables m.site m.views (permits_in m) (written_configs m) }
{}

/// The main theorem of what is written for an accepted policy.
pub fn written_configs_are_exact()
    ensures { (p : Policy) (m : Meaning) → IsMeaning p m → IsShaped p → IsWired p → IsAccepted m → IsExact p (written_configs m) }
{}

/// What is written for it delivers what is to pass and refuses the rest.
pub fn written_configs_deliver()
    ensures { (p : Policy) (m : Meaning) → IsMeaning p m → IsShaped p → IsWired p → IsAccepted m → Delivers m (written_configs m) × Refuses m (written_configs m) }
{}

/// So each well formed policy whose meaning has no fault has exact configs.
pub fn accepted_policies_have_exact_configs()
    ensures { (p : Policy) → IsShaped p → IsWired p → ((m : Meaning) → IsMeaning p m → IsAccepted m) → (configs : List Config) × IsExact p configs }
{}
