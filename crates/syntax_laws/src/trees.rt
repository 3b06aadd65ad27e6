//! What the trees in memory say.
ghost use Rattle.std.specs.Prelude.{◌≡◌, ℕ, List};
ghost use Rattle.std.specs.List.{AllZip};
ghost use Rattle.spoc_ast.specs.declared.decl.Decl.{Decl};
ghost use Rattle.spoc_ast.specs.declared.decl.File.{File};
ghost use Rattle.spoc_ast.specs.Seen.{decl_seen, file_seen};
ghost use Rattle.spoc_parser.specs.Trees.{DeclIn};
ghost use Rattle.spoc_parser.specs.Seen.{IsSetIn};
ghost use Rattle.spoc_parser.specs.SeenParts.{IsDecl};
ghost use Rattle.syntax_laws.specs.Said.{decl_said, decls_said};

/// A tree of a declaration is seen as what the declaration says, and so are those of a file.
pub fn trees_say_their_declarations()
    ensures decl { (file depth : ℕ) (decl : DeclIn depth) (tree : Decl) → IsDecl file (IsSetIn file depth) decl tree → decl_seen tree ≡ decl_said file depth decl }
    ensures file { (file depth : ℕ) (decls : List (DeclIn depth)) (tree : File) → AllZip (IsDecl file (IsSetIn file depth)) decls tree.decls.now → file_seen tree ≡ decls_said file depth decls }
{}
