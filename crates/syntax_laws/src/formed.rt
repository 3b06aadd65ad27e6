//! What is in the grammar is well formed.
ghost use Rattle.std.specs.Prelude.{◌≡◌, ℕ, List, Ok, true};
ghost use Rattle.spoc_lexer.specs.Tokens.{Tok, tokens_of};
ghost use Rattle.spoc_parser.specs.Trees.{DeclIn};
ghost use Rattle.spoc_parser.specs.Grammar.{SpellsDeclIn, SpellsFile};
ghost use Rattle.policy_decls.specs.Formed.{is_formed, are_formed};
ghost use Rattle.syntax_laws.specs.Said.{decl_said, decls_said};
ghost use Rattle.syntax_laws.specs.Words.{AreWritten};

/// The words of a text's tokens have bytes.
pub fn words_are_written()
    ensures { (text : List ℕ) (toks : List Tok) → tokens_of text ≡ Ok toks → AreWritten toks }
{}

/// Where words have bytes, each declaration that tokens spell is well formed: its words for
/// addresses, prefixes, ranges, ports and numbers are ones, its hardware isn't empty, and the user
/// and areas stand where they may. So are the declarations of a file.
pub fn declarations_are_formed()
    ensures decl { (file depth : ℕ) (decl : DeclIn depth) (front : List Tok) → AreWritten front → SpellsDeclIn depth decl front → is_formed (decl_said file depth decl) ≡ true }
    ensures file { (file depth : ℕ) (decls : List (DeclIn depth)) (front : List Tok) → AreWritten front → SpellsFile depth decls front → are_formed (decls_said file depth decls) ≡ true }
{}
