//! What sources compile to, and their first fault.

ghost use Rattle.std.specs.Prelude.{◌≡◌, ◌<◌, ◌^◌, ◌↔◌, ℕ, List, length, Option, None, Result};
ghost use Rattle.topology.specs.Sound.{IsSound};
ghost use Rattle.policy_decls.specs.Names.{declared_names};
ghost use Rattle.policy_files.specs.OfTexts.{declared};
ghost use Rattle.policy_source.specs.Faults.{fault_of_sources};
ghost use Rattle.policy_outcome.specs.Outcome.{Written};
ghost use Rattle.source_laws.specs.Sources.{source_texts, policy_in, outcome_of};
ghost use Rattle.source_laws.specs.Table.{IsOutcomeIn, IsToldIn, prepared_line};

/// What sources compile to is the line of a fault just where that is the first one of the whole table, and what is written for their policy just where they
/// have none.
pub fn outcome_of_sources_is_told()
    ensures { (sources : List (List ℕ × List ℕ)) → length (declared_names (declared (source_texts sources))) < 2 ^ 32 →
        (outcome : Result Written (List ℕ)) → IsOutcomeIn sources outcome ↔ (outcome_of sources ≡ outcome) }
{}

/// So it is where the policy that they declare without a fault is known to be sound.
pub fn outcome_is_of_its_sources()
    ensures { (sources : List (List ℕ × List ℕ)) → (fault_of_sources (source_texts sources) ≡ None → IsSound (policy_in sources)) →
        (outcome : Result Written (List ℕ)) → IsOutcomeIn sources outcome ↔ (outcome_of sources ≡ outcome) }
{}

/// The first fault up to views is told without a look at services.
pub fn preparation_of_sources_is_told()
    ensures { (sources : List (List ℕ × List ℕ)) → (fault_of_sources (source_texts sources) ≡ None → IsSound (policy_in sources)) →
        (line : Option (List ℕ)) → IsToldIn sources 6 line ↔ (prepared_line sources ≡ line) }
{}
