ghost use Rattle.std.specs.Prelude.{◌≡◌, ℕ, ◌+◌, List, ◌∷◌, Option};
ghost use Rattle.spoc_base.specs.declared.fault.Fault.{Fault};
ghost use Rattle.policy_files.specs.Fault.{faults_from};
ghost use Rattle.policy_files.specs.Rank.{earlier, text_fault};

/// Of the faults of texts that of the earliest kind counts, and of one kind that of the first text.
pub fn the_earliest_kind_counts()
    ensures more { (k : ℕ) (text : List ℕ) (texts : List (List ℕ)) → faults_from k (text ∷ texts) ≡ earlier (text_fault k text) (faults_from (k + 1) texts) }
    ensures joined { (a b c : Option Fault) → earlier (earlier a b) c ≡ earlier a (earlier b c) }
{}
