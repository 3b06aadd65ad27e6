//! The words of declarations are parts of the text.
ghost use Rattle.std.specs.Prelude.{◌≡◌, ◌++◌, ℕ, List, Ok, flat_map};
ghost use Rattle.std.specs.List.{All};
ghost use Rattle.spoc_lexer.specs.Tokens.{Tok, tokens_of};
ghost use Rattle.spoc_parser.specs.Trees.{DeclIn};
ghost use Rattle.spoc_parser.specs.Grammar.{SpellsDeclIn, SpellsFile};
ghost use Rattle.syntax_laws.specs.Said.{decl_said, decls_said};
ghost use Rattle.syntax_laws.specs.WordsIn.{IsSlice, words_in};

/// Where some tokens of a text spell a declaration, each word of the declaration is the part of the
/// text that its place says. So are the words of declarations one behind the other.
pub fn words_are_parts_of_the_text()
    ensures decl { (file depth : ℕ) (text : List ℕ) (toks before front behind : List Tok) (decl : DeclIn depth) → tokens_of text ≡ Ok toks → toks ≡ before ++ (front ++ behind) → SpellsDeclIn depth decl front → All (IsSlice file text) (words_in (decl_said file depth decl)) }
    ensures file { (file depth : ℕ) (text : List ℕ) (toks before front behind : List Tok) (decls : List (DeclIn depth)) → tokens_of text ≡ Ok toks → toks ≡ before ++ (front ++ behind) → SpellsFile depth decls front → All (IsSlice file text) (flat_map words_in (decls_said file depth decls)) }
{}
