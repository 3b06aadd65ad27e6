//! What is read of texts, and what is told of them, is what the grammars say.
ghost use Rattle.std.specs.Prelude.{◌≡◌, ◌↔◌, ℕ, List, Some, None};
ghost use Rattle.spoc_base.specs.declared.fault.Fault.{Fault};
ghost use Rattle.spoc_ast.specs.Written.{DeclText};
ghost use Rattle.policy_files.specs.Fault.{fault_of_texts};
ghost use Rattle.policy_files.specs.OfTexts.{declared};
ghost use Rattle.reading_laws.specs.Said.{Say};
ghost use Rattle.reading_laws.specs.Told.{IsTold};

/// Texts have no fault of reading exactly where each has tokens that spell declarations, with no word that is left out and no bracket that opens a
/// seventeenth level; and what they declare is exactly what those declarations say.
///
/// - `both`: texts without a fault that declare this are texts that say it.
/// - `alone`: texts say one list of declarations at most.
pub fn texts_are_read()
    ensures both { (texts : List (List ℕ)) (decls : List DeclText) → Say texts decls ↔ ((fault_of_texts texts ≡ None) × (declared texts ≡ decls)) }
    ensures alone { (texts : List (List ℕ)) (decls others : List DeclText) → Say texts decls → Say texts others → decls ≡ others }
{}

/// A fault of reading is told exactly where it is the one that counts: a byte at which no token begins, or else a word that is left out, or else a bracket that
/// opens a seventeenth level, or else the token behind the longest run of whole declarations. Of one kind, that of the first text that has one counts.
pub fn faults_of_texts_are_told()
    ensures { (texts : List (List ℕ)) (fault : Fault) → (fault_of_texts texts ≡ Some fault) ↔ IsTold texts fault }
{}
