ghost use Rattle.std.specs.Prelude.{◌≡◌, ℕ, List, true};
ghost use Rattle.spoc_base.specs.declared.place.Source.{Source};
ghost use Rattle.policy_decls.specs.Formed.{are_formed};
ghost use Rattle.policy_decls.specs.Spelled.{are_spelled};
ghost use Rattle.policy_files.specs.OfTexts.{declared};
ghost use Rattle.policy_files.specs.Seen.{texts_of};
ghost use Rattle.policy_build.specs.Words.{AreWordsOf};

/// What texts declare is well formed, the names and hardware in it are words, and they stand in the
/// sources.
pub fn declarations_are_formed_and_written()
    ensures formed { (texts : List (List ℕ)) → are_formed (declared texts) ≡ true }
    ensures spelled { (texts : List (List ℕ)) → are_spelled (declared texts) ≡ true }
    ensures written { (sources : List Source) → AreWordsOf sources (declared (texts_of sources)) }
{}
