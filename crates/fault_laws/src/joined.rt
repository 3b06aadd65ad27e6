//! Rows of faults that stand side by side.

ghost use Rattle.std.specs.Prelude.{ℕ, ◌+◌, ◌≤◌, List, [], ◌∷◌, Option};
ghost use Rattle.std.specs.Option.{option_or};
ghost use Rattle.policy_model.specs.FirstFault.{FaultCase};
ghost use Rattle.policy_model.specs.Headline.{Meaning};
ghost use Rattle.policy_model.specs.Zones.{IsSite};
ghost use Rattle.topology.specs.Sound.{IsSound};
ghost use Rattle.fault_laws.specs.Cases.{IsFirstCase, first_of, conflict_case, twice_case, inside_case, managed_case, permits_case, path_case, hidden_case, lines_case};

/// What is found in rows, or else in the rows after them, is what is found in all of these.
pub fn faults_are_joined()
    ensures { (m : Meaning) (lowest middle highest : ℕ) (found later : Option FaultCase) → lowest ≤ middle + 1 → middle ≤ highest →
        IsFirstCase m lowest middle found → IsFirstCase m (middle + 1) highest later → IsFirstCase m lowest highest (option_or found later) }
{}

/// The first fault of tags: a conflict, or else a network that is translated twice, or else one that is translated in its own zone.
pub fn first_fault_of_tags()
    ensures { (m : Meaning) → IsSound m.site.policy → IsFirstCase m 1 3 (first_of (conflict_case m ∷ twice_case m ∷ inside_case m ∷ [])) }
{}

/// The first fault of services: a managed end, or else too many permits.
pub fn first_fault_of_services()
    ensures { (m : Meaning) → IsSound m.site.policy → IsFirstCase m 7 8 (first_of (managed_case m ∷ permits_case m ∷ [])) }
{}

/// The first fault of walks: a permit that none carries, or else a hidden end, or else too many lines.
pub fn first_fault_of_walks()
    ensures { (m : Meaning) → IsSound m.site.policy → IsSite m.site → IsFirstCase m 9 11 (first_of (path_case m ∷ hidden_case m ∷ lines_case m ∷ [])) }
{}
