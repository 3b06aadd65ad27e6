//! What the limit on brackets has to do with the grammar: it loses no declaration.
//! The functions here do nothing: each has a law as its contract.
ghost use Rattle.std.specs.Prelude.{◌≡◌, ℕ, ◌+◌, ◌≤◌, List, ◌++◌, map};
ghost use Rattle.spoc_lexer.specs.Tokens.{Tok};
ghost use Rattle.spoc_parser.specs.Trees.{DeclIn};
ghost use Rattle.spoc_parser.specs.Grammar.{SpellsDeclIn, SpellsFile};
ghost use Rattle.token_checks.specs.Places.{NonePasses};
ghost use Rattle.token_checks.specs.Nesting.{is_too_deep_at};
ghost use Rattle.spoc_parser.specs.Files.{run_of};
ghost use Rattle.grammar_laws.specs.Levels.{level_past, most_set_levels, above, raised_by, read_with};

/// A declaration closes the brackets that it opens: behind it the level is what it was in front of it.
pub fn declarations_close_their_brackets()
    ensures { (depth level : ℕ) (decl : DeclIn depth) (front : List Tok) → SpellsDeclIn depth decl front → level_past level front ≡ level }
{}

/// A declaration whose sets may have more levels is spelled as before, and no two become one.
pub fn raised_declarations_are_the_same()
    ensures levels { (more depth : ℕ) → above more depth ≡ depth + more }
    ensures spelled { (more depth : ℕ) (decl : DeclIn depth) (front : List Tok) → SpellsDeclIn depth decl front → SpellsDeclIn (above more depth) (raised_by more depth decl) front }
    ensures files { (more depth : ℕ) (decls : List (DeclIn depth)) (front : List Tok) → SpellsFile depth decls front → SpellsFile (above more depth) (map (raised_by more depth) decls) front }
    ensures apart { (more depth : ℕ) (one other : DeclIn depth) → raised_by more depth one ≡ raised_by more depth other → one ≡ other }
{}

/// Where no bracket opens a level too many, declarations whose sets may have any number of levels are declarations of the most levels that are read.
pub fn limit_on_levels_loses_nothing()
    ensures decls { (more depth other : ℕ) (toks before front behind : List Tok) (earlier : List (DeclIn other)) (decl : DeclIn (above more depth)) → most_set_levels ≤ depth → NonePasses (is_too_deep_at toks) → toks ≡ before ++ (front ++ behind) → SpellsFile other earlier before → SpellsDeclIn (above more depth) decl front → (low : DeclIn depth) × SpellsDeclIn depth low front × (raised_by more depth low ≡ decl) }
    ensures files { (more depth : ℕ) (toks front behind : List Tok) (decls : List (DeclIn (above more depth))) → most_set_levels ≤ depth → NonePasses (is_too_deep_at toks) → toks ≡ front ++ behind → SpellsFile (above more depth) decls front → (low : List (DeclIn depth)) × SpellsFile depth low front × (map (raised_by more depth) low ≡ decls) }
{}

/// Where no bracket opens a level too many, more levels read nothing else: the run is of the same declarations, and leaves the same tokens.
pub fn more_levels_read_nothing_else()
    ensures { (more depth : ℕ) (toks : List Tok) → most_set_levels ≤ depth → NonePasses (is_too_deep_at toks) → run_of (above more depth) toks ≡ read_with (map (raised_by more depth)) (run_of depth toks) }
{}
