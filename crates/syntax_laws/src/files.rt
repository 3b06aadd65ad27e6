//! What is read of a whole text.
ghost use Rattle.std.specs.Prelude.{◌≡◌, ℕ, List, Some, Ok, true, flat_map};
ghost use Rattle.std.specs.List.{All};
ghost use Rattle.spoc_ast.specs.declared.decl.File.{File};
ghost use Rattle.spoc_ast.specs.Seen.{file_seen};
ghost use Rattle.spoc_lexer.specs.Tokens.{Tok, tokens_of};
ghost use Rattle.spoc_parser.specs.Files.{run_of};
ghost use Rattle.spoc_parser.specs.Seen.{IsSetIn};
ghost use Rattle.spoc_parser.specs.SeenFile.{Ran};
ghost use Rattle.spoc_parser.specs.SeenParts.{IsDecl};
ghost use Rattle.spoc_parser.specs.Trees.{DeclIn};
ghost use Rattle.policy_decls.specs.Formed.{are_formed};
ghost use Rattle.policy_decls.specs.Spelled.{are_spelled};
ghost use Rattle.syntax_laws.specs.Said.{decls_said};
ghost use Rattle.syntax_laws.specs.WordsIn.{IsSlice, words_in};

/// The declarations that are read of a text's tokens are well formed, and each of their words is
/// the part of the text that its place says. Their names and their hardware are words.
pub fn declarations_read_are_formed()
    ensures formed { (file depth : ℕ) (text : List ℕ) (toks rest : List Tok) (decls : List (DeclIn depth)) → tokens_of text ≡ Ok toks → run_of depth toks ≡ Some (decls, rest) → are_formed (decls_said file depth decls) ≡ true }
    ensures spelled { (file depth : ℕ) (text : List ℕ) (toks rest : List Tok) (decls : List (DeclIn depth)) → tokens_of text ≡ Ok toks → run_of depth toks ≡ Some (decls, rest) → are_spelled (decls_said file depth decls) ≡ true }
    ensures words { (file depth : ℕ) (text : List ℕ) (toks rest : List Tok) (decls : List (DeclIn depth)) → tokens_of text ≡ Ok toks → run_of depth toks ≡ Some (decls, rest) → All (IsSlice file text) (flat_map words_in (decls_said file depth decls)) }
{}

/// The trees of the run of declarations that is read of a text's tokens.
///
/// - `said`: they are seen as what the declarations of that run say.
/// - `formed`: what they say is well formed.
/// - `words`: each word that they keep is the part of the text that its place says.
pub fn trees_of_a_text()
    ensures said { (file depth : ℕ) (toks rest : List Tok) (tree : File) → Ran (IsDecl file (IsSetIn file depth)) tree.decls.now rest (run_of depth toks) → (decls : List (DeclIn depth)) × (run_of depth toks ≡ Some (decls, rest)) × (file_seen tree ≡ decls_said file depth decls) }
    ensures formed { (file depth : ℕ) (text : List ℕ) (toks rest : List Tok) (tree : File) → tokens_of text ≡ Ok toks → Ran (IsDecl file (IsSetIn file depth)) tree.decls.now rest (run_of depth toks) → are_formed (file_seen tree) ≡ true }
    ensures words { (file depth : ℕ) (text : List ℕ) (toks rest : List Tok) (tree : File) → tokens_of text ≡ Ok toks → Ran (IsDecl file (IsSetIn file depth)) tree.decls.now rest (run_of depth toks) → All (IsSlice file text) (flat_map words_in (file_seen tree)) }
{}
