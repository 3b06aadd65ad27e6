//! What the reading of tokens has to do with the grammar of policy files.
ghost use Rattle.std.specs.Prelude.{◌≡◌, ◌≤◌, ◌↔◌, ◌++◌, ℕ, List, [], length, Some, is_some, true};
ghost use Rattle.spoc_lexer.specs.Tokens.{Tok};
ghost use Rattle.spoc_parser.specs.Trees.{DeclIn};
ghost use Rattle.spoc_parser.specs.Grammar.{SpellsDeclIn, SpellsFile};
ghost use Rattle.spoc_parser.specs.Reading.{read_decl_in};
ghost use Rattle.spoc_parser.specs.Files.{run_of};

/// What is read is in the grammar.
///
/// A declaration that is read is spelled by the tokens that its reader takes, and a run of declarations by those that
/// its reader takes. The tokens behind them are left as they are.
pub fn declarations_are_spelled()
    ensures declaration { (depth : ℕ) (toks rest : List Tok) (decl : DeclIn depth) → read_decl_in depth toks ≡ Some (decl, rest) → (front : List Tok) × SpellsDeclIn depth decl front × (toks ≡ front ++ rest) }
    ensures run { (depth : ℕ) (toks rest : List Tok) (decls : List (DeclIn depth)) → run_of depth toks ≡ Some (decls, rest) → (front : List Tok) × SpellsFile depth decls front × (toks ≡ front ++ rest) }
{}

/// What is in the grammar is read, and as nothing else.
///
/// - `read`: tokens that spell a declaration are read as that declaration, whatever follows them.
/// - `alone`: so no declaration is the beginning of another one, and tokens spell one declaration at most.
/// - `one_file`: and they spell one file at most.
pub fn declarations_are_read()
    ensures read { (depth : ℕ) (front rest : List Tok) (decl : DeclIn depth) → SpellsDeclIn depth decl front → read_decl_in depth (front ++ rest) ≡ Some (decl, rest) }
    ensures alone { (depth : ℕ) (front more : List Tok) (decl other : DeclIn depth) → SpellsDeclIn depth decl front → SpellsDeclIn depth other (front ++ more) → (more ≡ []) × (decl ≡ other) }
    ensures one_file { (depth : ℕ) (toks : List Tok) (decls others : List (DeclIn depth)) → SpellsFile depth decls toks → SpellsFile depth others toks → decls ≡ others }
{}

/// The run that is read is the longest.
///
/// - `some`: tokens always have a run, if only the empty one.
/// - `spelled`: the declarations of the run are spelled by the tokens in front of those that it leaves.
/// - `longest`: any other front of the tokens that spells declarations leaves as many tokens at least.
/// - `file`: tokens spell a file exactly where the run leaves none of them.
pub fn runs_are_longest()
    ensures some { (depth : ℕ) (toks : List Tok) → is_some (run_of depth toks) ≡ true }
    ensures spelled { (depth : ℕ) (toks rest : List Tok) (decls : List (DeclIn depth)) → run_of depth toks ≡ Some (decls, rest) → (front : List Tok) × SpellsFile depth decls front × (toks ≡ front ++ rest) }
    ensures longest { (depth : ℕ) (toks rest : List Tok) (decls : List (DeclIn depth)) → run_of depth toks ≡ Some (decls, rest) → (others : List (DeclIn depth)) (front left : List Tok) → SpellsFile depth others front → toks ≡ front ++ left → length rest ≤ length left }
    ensures file { (depth : ℕ) (toks : List Tok) (decls : List (DeclIn depth)) → SpellsFile depth decls toks ↔ (run_of depth toks ≡ Some (decls, [])) }
{}
