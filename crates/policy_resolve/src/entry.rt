ghost use Rattle.std.specs.Prelude.{◌≡◌, Some, None, IfOk, IfErr, IsTrue};
ghost use Rattle.policy_decls.specs.Faults.{fault_of};
ghost use Rattle.policy_decls.specs.Formed.{are_formed};
ghost use Rattle.policy_decls.specs.Said.{policy_said};
ghost use Rattle.policy_decls.specs.Spelled.{are_spelled};
ghost use Rattle.policy_names.specs.Seen.{decls_of};
ghost use Rattle.topology.specs.First.{IsRefusalOf};
ghost use Rattle.topology.specs.View.{policy_of, sources_of};
ghost use Rattle.policy_build.specs.Words.{AreWordsOf};

use crate::faults::names_of;
use bumpalo::Bump;
use policy_build::build;
use spoc_ast::File;
use spoc_base::{Refusal, Source};
use std::alloc::Global;
use topology::Topo;

/// The policy that the declarations of the files say, in the arena; or the first fault that they
/// have: a name that is declared twice, a name that is used and isn't declared, a group that
/// reaches itself, what must not stand in a declaration, a limit that is passed, in this order.
///
/// Each word for an address, a prefix, a range, ports or a number is one, names and hardware are of
/// letters, digits and `_ . : / -`, and the names that are declared stand in the sources: the
/// parser sees to all that. A refusal for want of memory comes also
/// where 2^32 names are declared, or a rule has more than 4,000,000 boxes.
pub fn resolve<'a>(
    alloc: Global,
    arena: &'a Bump,
    sources: &'a [Source],
    files: &[File<'a>],
) -> Result<Topo<'a>, Refusal>
    requires formed { IsTrue (are_formed (decls_of files.now)) }
    requires spelled { IsTrue (are_spelled (decls_of files.now)) }
    requires words { AreWordsOf sources.now (decls_of files.now) }
    ensures policy { IfOk result (λ topo. policy_of topo ≡ policy_said (decls_of files.now)) }
    ensures sources { IfOk result (λ topo. sources_of topo ≡ sources.entry.now) }
    ensures faultless { IfOk result (λ _. fault_of (decls_of files.now) ≡ None) }
    ensures refused { IfErr result (IsRefusalOf (λ fault. fault_of (decls_of files.now) ≡ Some fault)) }
{
    let table = names_of(alloc, files)?;
    Ok(build(alloc, arena, &table, sources, files)?)
}
