//! What is written for an accepted policy reads as it was defined: each file as exactly one configuration.
//! The functions here do nothing: each has a law as its contract.
#![tactic(auto)]

ghost use Rattle.std.specs.Prelude.{◌≡◌, Ok};
ghost use Rattle.policy_model.specs.Policy.{Policy, managed_routers};
ghost use Rattle.policy_laws.specs.Shaped.{IsShaped};
ghost use Rattle.topology.specs.Sound.{IsSound};
ghost use Rattle.meaning_laws.specs.Tables.{meaning_of};
ghost use Rattle.policy_outcome.specs.Outcome.{Written, outcome_for};
ghost use Rattle.policy_outcome.specs.Exact.{configs_for};
ghost use Rattle.printed_laws.specs.ReadFiles.{AreReadAs};

/// Where the outcome of a policy is not a fault, there is a file for each managed router, in order and under its name, and it reads as the router's
/// configuration and as no other.
pub fn written_files_read_exactly()
    ensures { (p : Policy) (written : Written) → IsSound p → IsShaped p → outcome_for (meaning_of p) ≡ Ok written →
        AreReadAs p (managed_routers p) (configs_for (meaning_of p)) written.files }
{}
