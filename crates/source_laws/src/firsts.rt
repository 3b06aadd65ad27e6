//! The first fault of texts and of what they declare, and that there is one first fault of all.

ghost use Rattle.std.specs.Prelude.{◌≡◌, ◌<◌, ◌^◌, ℕ, List, length, slice_get, None};
ghost use Rattle.topology.specs.Sound.{IsSound};
ghost use Rattle.policy_decls.specs.Names.{declared_names};
ghost use Rattle.policy_files.specs.OfTexts.{declared};
ghost use Rattle.policy_source.specs.Faults.{fault_of_sources};
ghost use Rattle.source_laws.specs.Sources.{source_texts, policy_in};
ghost use Rattle.source_laws.specs.Table.{faults_in, SourceFault, IsFirstOf};

/// The fault of sources that counts is the first of all that their texts and declarations have.
pub fn first_of_texts_and_declarations()
    ensures { (sources : List (List ℕ × List ℕ)) → fault_of_sources (source_texts sources) ≡ slice_get (faults_in sources) 0 }
{}

/// Of the faults of sources one comes first.
pub fn one_first_of_sources()
    ensures { (sources : List (List ℕ × List ℕ)) (highest : ℕ) (f g : SourceFault) → IsFirstOf sources highest f → IsFirstOf sources highest g → f ≡ g }
{}

/// Sources whose texts and declarations have no fault say a sound policy, where fewer than 2^32 names are declared.
pub fn policies_in_sources_are_sound()
    ensures { (sources : List (List ℕ × List ℕ)) → fault_of_sources (source_texts sources) ≡ None →
        length (declared_names (declared (source_texts sources))) < 2 ^ 32 → IsSound (policy_in sources) }
{}
