//! Addresses, hardware, translations, restrictions and areas of the policy that declarations say.

ghost use Rattle.std.specs.Prelude.{◌≡◌, List, None, IsTrue};
ghost use Rattle.topology.specs.Sound.{IsWellFormed};
ghost use Rattle.spoc_ast.specs.Written.{DeclText};
ghost use Rattle.policy_decls.specs.Said.{policy_said};
ghost use Rattle.policy_decls.specs.Faults.{fault_of};
ghost use Rattle.policy_decls.specs.Formed.{are_formed};

/// Hosts and interfaces have addresses of their networks, and no two interfaces of a network one address. Interfaces of managed routers alone share addresses, which
/// are their networks' and no interface's own there. Tags translate to prefixes of the same length.
/// Interfaces of managed routers have an address and hardware, no two of a router the same; they alone bind tags, each once. A restriction has two members,
/// an area an anchor or a border, all of managed routers.
pub fn policies_said_are_well_formed()
    ensures { (decls : List DeclText) → IsTrue (are_formed decls) → fault_of decls ≡ None → IsWellFormed (policy_said decls) }
{}
