//! The policy that declarations say is sound.

ghost use Rattle.std.specs.Prelude.{◌≡◌, ◌<◌, ◌^◌, List, length, None, IsTrue};
ghost use Rattle.topology.specs.Sound.{IsSound};
ghost use Rattle.spoc_ast.specs.Written.{DeclText};
ghost use Rattle.policy_decls.specs.Names.{declared_names};
ghost use Rattle.policy_decls.specs.Said.{policy_said};
ghost use Rattle.policy_decls.specs.Faults.{fault_of};
ghost use Rattle.policy_decls.specs.Formed.{are_formed};
ghost use Rattle.policy_decls.specs.Spelled.{are_spelled};

/// Declarations that the grammar allows and that have no fault say a sound policy, where names and hardware are words and fewer than 2^32 names are declared.
pub fn policies_said_are_sound()
    ensures { (decls : List DeclText) → IsTrue (are_formed decls) → IsTrue (are_spelled decls) → fault_of decls ≡ None → length (declared_names decls) < 2 ^ 32 → IsSound (policy_said decls) }
{}
