//! Numbers, names, sets and limits of the policy that declarations say.

ghost use Rattle.std.specs.Prelude.{◌≡◌, ◌<◌, ◌^◌, List, length, None, IsTrue};
ghost use Rattle.topology.specs.Sound.{IsNumbered, IsNamed, HasSoundSets, IsLimited};
ghost use Rattle.spoc_ast.specs.Written.{DeclText};
ghost use Rattle.policy_decls.specs.Names.{declared_names};
ghost use Rattle.policy_decls.specs.Said.{policy_said};
ghost use Rattle.policy_decls.specs.Faults.{fault_of};
ghost use Rattle.policy_decls.specs.Formed.{are_formed};

/// Each number that stands in the policy is that of a thing that is declared.
pub fn policies_said_are_numbered()
    ensures { (decls : List DeclText) → IsTrue (are_formed decls) → fault_of decls ≡ None → IsNumbered (policy_said decls) }
{}

/// No two things of one kind have one name, no two restrictions that are declared, and no two interfaces of a router one network.
pub fn policies_said_are_named()
    ensures { (decls : List DeclText) → IsTrue (are_formed decls) → fault_of decls ≡ None → IsNamed (policy_said decls) }
{}

/// What the sets of groups and services name is there: interfaces of managed routers or with an address, the user in rules alone and in each of them, and areas
/// inside brackets alone.
pub fn sets_said_are_sound()
    ensures { (decls : List DeclText) → IsTrue (are_formed decls) → fault_of decls ≡ None → HasSoundSets (policy_said decls) }
{}

/// No limit is passed, where fewer than 2^32 names are declared.
pub fn policies_said_are_limited()
    ensures { (decls : List DeclText) → IsTrue (are_formed decls) → fault_of decls ≡ None → length (declared_names decls) < 2 ^ 32 → IsLimited (policy_said decls) }
{}
