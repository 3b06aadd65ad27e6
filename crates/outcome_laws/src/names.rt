//! The names of device files are distinct.

ghost use Rattle.std.specs.Prelude.{◌≡◌, List, map, None};
ghost use Rattle.std.specs.List.{IsDistinct};
ghost use Rattle.std.specs.Str.{bytes_eq};
ghost use Rattle.policy_model.specs.Filters.{Line};
ghost use Rattle.spoc_ast.specs.Written.{DeclText};
ghost use Rattle.policy_decls.specs.Said.{policy_said};
ghost use Rattle.policy_decls.specs.Faults.{fault_of};
ghost use Rattle.policy_outcome.specs.Files.{files_for};

/// The device files of declarations without a fault have distinct names.
pub fn files_have_distinct_names()
    ensures { (decls : List DeclText) (lists : List (List Line)) → fault_of decls ≡ None → IsDistinct bytes_eq (map (λ file. file.0) (files_for (policy_said decls) lists)) }
{}
