//! The outcome of a policy and its first fault.

ghost use Rattle.std.specs.Prelude.{◌≡◌, ◌↔◌, ◌≤◌, ℕ, List, Result, Ok, Err};
ghost use Rattle.policy_model.specs.FirstFault.{FaultCase, IsFirstFault, IsAccepted};
ghost use Rattle.policy_model.specs.Headline.{Meaning};
ghost use Rattle.policy_model.specs.Zones.{IsSite};
ghost use Rattle.topology.specs.First.{HasNone, row_of};
ghost use Rattle.topology.specs.Sound.{IsSound};
ghost use Rattle.fault_text.specs.Cases.{case_line};
ghost use Rattle.policy_outcome.specs.Outcome.{Written, unless, after_views, written_for, outcome_for};
ghost use Rattle.first_fault_laws.specs.Whole.{last_row, prepare_case, whole_case, IsFirstLine, IsOutcomeOf};

/// The outcome is the line of what is found in all rows, or else what is written.
pub fn outcome_is_told()
    ensures { (m : Meaning) → outcome_for m ≡ unless (whole_case m) (case_line m.site) (Ok (written_for m)) }
{}

/// It is that of what is found in areas, tags and views, or else what services, walks and lists come to.
pub fn outcome_past_preparations()
    ensures { (m : Meaning) → outcome_for m ≡ unless (prepare_case m) (case_line m.site) (after_views m) }
{}

/// The outcome is a fault's line just where that fault is the first one, and what is written just where there is none.
pub fn outcome_is_its_own()
    ensures { (m : Meaning) → IsSound m.site.policy → IsSite m.site →
        (outcome : Result Written (List ℕ)) → IsOutcomeOf m outcome ↔ (outcome_for m ≡ outcome) }
{}

/// A line is told just where it is that of the policy's first fault, and this stands in a row that is looked at.
pub fn outcome_is_first_fault()
    ensures { (m : Meaning) → IsSound m.site.policy → IsSite m.site →
        (line : List ℕ) → (outcome_for m ≡ Err line) ↔ ((f : FaultCase) × IsFirstFault m f × (row_of f ≤ last_row) × (line ≡ case_line m.site f)) }
{}

/// What is written for the policy is the outcome just where no row that is looked at has a fault.
pub fn outcome_is_written()
    ensures { (m : Meaning) → IsSound m.site.policy → IsSite m.site → (outcome_for m ≡ Ok (written_for m)) ↔ HasNone m 0 last_row }
{}

/// An accepted policy has an outcome that is no fault.
pub fn outcome_is_accepted()
    ensures { (m : Meaning) → IsSound m.site.policy → IsSite m.site → IsAccepted m → outcome_for m ≡ Ok (written_for m) }
{}
