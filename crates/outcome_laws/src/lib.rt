//! That what is compiled decides exactly: where no fault is told of a policy, the access lists that are written for it pass an unambiguous packet
//! of an allowed walk just if it is permitted or a reply. Beside that, the names of device files are distinct, and the tables of a single router send.
//! The functions here do nothing: each has a law as its contract.
#![tactic(auto)]

mod names;
mod routers;

ghost use Rattle.std.specs.Prelude.{◌≡◌, ℕ, ◌<◌, [], length, slice_index_or, Ok, IsTrue};
ghost use Rattle.policy_model.specs.Policy.{Policy, router_at, is_managed};
ghost use Rattle.policy_model.specs.Blocks.{list_at};
ghost use Rattle.policy_model.specs.Headline.{Meaning, permits_in};
ghost use Rattle.policy_laws.specs.Routed.{IsWired};
ghost use Rattle.policy_laws.specs.Shaped.{IsShaped};
ghost use Rattle.topology.specs.Sound.{IsSound};
ghost use Rattle.meaning_laws.specs.Tables.{meaning_of};
ghost use Rattle.policy_outcome.specs.Outcome.{Written, lists_for, written_for, outcome_for};
ghost use Rattle.policy_outcome.specs.Exact.{DecidesExactly, configs_for};

pub use names::files_have_distinct_names;
pub use routers::tables_of_one_router_send;

/// The list that is written for an interface of a managed router is the policy's own.
pub fn lists_are_written()
    ensures { (m : Meaning) (i : ℕ) → i < length m.site.policy.ifaces → IsTrue (is_managed m.site.policy (router_at m.site.policy i)) →
        slice_index_or (lists_for m) i [] ≡ list_at m.site m.views (permits_in m) i }
{}

/// Where the outcome is not a fault, it is what is written for the policy, and its configurations decide exactly.
pub fn accepted_policies_decide_exactly()
    ensures { (p : Policy) (written : Written) → IsSound p → IsShaped p → IsWired p → outcome_for (meaning_of p) ≡ Ok written →
        (written ≡ written_for (meaning_of p)) × DecidesExactly p (configs_for (meaning_of p)) }
{}
