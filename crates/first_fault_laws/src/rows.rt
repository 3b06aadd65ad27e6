//! Rows that stand side by side, from the first one on.

ghost use Rattle.std.specs.Prelude.{◌≡◌, ◌≤◌, ◌↔◌, ℕ, List, Option, Some, option_map};
ghost use Rattle.policy_model.specs.FirstFault.{FaultCase, IsFirstFault, IsAccepted};
ghost use Rattle.policy_model.specs.Headline.{Meaning};
ghost use Rattle.policy_model.specs.Zones.{IsSite};
ghost use Rattle.topology.specs.First.{HasNone, IsFirstWithin, row_of};
ghost use Rattle.topology.specs.Sound.{IsSound};
ghost use Rattle.fault_laws.specs.Cases.{IsFirstCase};
ghost use Rattle.fault_text.specs.Cases.{case_line};
ghost use Rattle.first_fault_laws.specs.Whole.{last_row, prepare_case, whole_case, IsToldOf};

/// The first fault of areas, tags and views. Nothing is asked of services.
pub fn first_fault_of_preparations()
    ensures { (m : Meaning) → IsSound m.site.policy → IsFirstCase m 0 6 (prepare_case m) }
{}

/// The first fault of all rows, from a split area to too many lines.
pub fn first_fault_of_policies()
    ensures { (m : Meaning) → IsSound m.site.policy → IsSite m.site → IsFirstCase m 0 last_row (whole_case m) }
{}

/// The first fault of the rows up to one of them is the first fault of the policy that stands in these rows. Up to the last row of all, having none is being
/// accepted.
pub fn first_faults_of_all_rows()
    ensures first { (m : Meaning) (highest : ℕ) (f : FaultCase) → IsFirstWithin m 0 highest f ↔ (IsFirstFault m f × (row_of f ≤ highest)) }
    ensures none { (m : Meaning) → HasNone m 0 14 ↔ IsAccepted m }
{}

/// What is found in rows is told by its line: one is told just where it is that of the first fault there, and none just where there is no fault.
pub fn first_lines()
    ensures { (m : Meaning) (lowest highest : ℕ) (found : Option FaultCase) → IsFirstCase m lowest highest found →
        (line : Option (List ℕ)) → IsToldOf m lowest highest line ↔ (option_map (case_line m.site) found ≡ line) }
{}
