ghost use Rattle.std.specs.Prelude.{◌≡◌, ◌≤◌, length, Some, None, IfOk, IfErr, OnOk};
ghost use Rattle.std.specs.List.{All};
ghost use Rattle.policy_decls.specs.Said.{policy_said};
ghost use Rattle.policy_files.specs.OfTexts.{declared};
ghost use Rattle.policy_files.specs.Fault.{fault_of_texts};
ghost use Rattle.policy_files.specs.Seen.{texts_of};
ghost use Rattle.policy_names.specs.Seen.{decls_of};
ghost use Rattle.policy_source.specs.Faults.{fault_of_sources};
ghost use Rattle.topology.specs.First.{IsRefusalOf};
ghost use Rattle.topology.specs.View.{policy_of, sources_of};

use crate::laws::declarations_are_formed_and_written;
use bumpalo::Bump;
use policy_files::read_files;
use policy_resolve::resolve;
use spoc_ast::File;
use spoc_base::{Refusal, Source};
use std::alloc::Global;
use topology::Topo;

// The policy that the declarations of the files say, where the texts have no fault.
fn resolved<'a>(
    alloc: Global,
    arena: &'a Bump,
    sources: &'a [Source],
    files: &[File<'a>],
) -> Result<Topo<'a>, Refusal>
    requires said { decls_of files.now ≡ declared (texts_of sources.now) }
    requires faultless { fault_of_texts (texts_of sources.now) ≡ None }
    ensures policy { IfOk result (λ topo. policy_of topo ≡ policy_said (declared (texts_of sources.entry.now))) }
    ensures sources { IfOk result (λ topo. sources_of topo ≡ sources.entry.now) }
    ensures faultless { OnOk result (fault_of_sources (texts_of sources.entry.now) ≡ None) }
    ensures refused { IfErr result (IsRefusalOf (λ fault. fault_of_sources (texts_of sources.entry.now) ≡ Some fault)) }
{
    declarations_are_formed_and_written();
    match resolve(alloc, arena, sources, files) {
        Ok(topo) => Ok(topo),
        Err(refusal) => Err(refusal),
    }
}

/// The policy that the sources say, in the arena. Each source has at most 4 MiB, and they stand in
/// the order of their paths.
///
/// The fault is the first one of the texts: a byte at which no token begins, a word that is left
/// out, a bracket that opens a seventeenth level, what is no declaration; or else the first one of
/// the declarations: a name that is declared twice, or used and not declared, a group that reaches
/// itself, what must not stand in a declaration, a limit that is passed.
pub fn read_policy<'a>(
    alloc: Global,
    arena: &'a Bump,
    sources: &'a [Source],
) -> Result<Topo<'a>, Refusal>
    requires { All (λ s. length s.text ≤ 4194304) sources.now }
    ensures policy { IfOk result (λ topo. policy_of topo ≡ policy_said (declared (texts_of sources.now))) }
    ensures sources { IfOk result (λ topo. sources_of topo ≡ sources.entry.now) }
    ensures faultless { OnOk result (fault_of_sources (texts_of sources.now) ≡ None) }
    ensures refused { IfErr result (IsRefusalOf (λ fault. fault_of_sources (texts_of sources.now) ≡ Some fault)) }
{
    let files = read_files(alloc, arena, sources)?;
    resolved(alloc, arena, sources, &files)
}
