//! The names of declarations are words of theirs.
ghost use Rattle.std.specs.List.{All, Contains};
ghost use Rattle.spoc_ast.specs.Written.{DeclText};
ghost use Rattle.policy_decls.specs.Lookup.{ifaces_in};
ghost use Rattle.policy_decls.specs.Names.{names_in};
ghost use Rattle.policy_decls.specs.Uses.{uses_in};
ghost use Rattle.syntax_laws.specs.Shown.{IsShownBy, IsIfaceOf};
ghost use Rattle.syntax_laws.specs.WordsIn.{words_in};

/// Names are words of the declaration in which they stand: at the place at which a name is printed,
/// the declaration has a word of just these bytes.
///
/// - `given`: so for the names that a declaration gives.
/// - `used`: so for those that it uses.
/// - `interfaces`: the routers, networks and hardware of its interfaces are words of it too.
pub fn names_are_words()
    ensures given { (decl : DeclText) → All (IsShownBy (Contains (words_in decl))) (names_in decl) }
    ensures used { (decl : DeclText) → All (IsShownBy (Contains (words_in decl))) (uses_in decl) }
    ensures interfaces { (decl : DeclText) → All (IsIfaceOf (Contains (words_in decl))) (ifaces_in decl) }
{}
