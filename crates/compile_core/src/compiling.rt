ghost use Rattle.std.specs.Prelude.{◌≡◌, ◌≤◌, IfOk, IfErr, OnOk, Ok, Err, None, map, length};
ghost use Rattle.std.specs.List.{All, IsDistinct};
ghost use Rattle.std.specs.Str.{bytes_eq};
ghost use Rattle.topology.specs.First.{IsRefusalOf};
ghost use Rattle.topology.specs.View.{policy_of, sources_of};
ghost use Rattle.policy_files.specs.Seen.{texts_of};
ghost use Rattle.policy_source.specs.Faults.{fault_of_sources};
ghost use Rattle.fault_text.specs.Texts.{pair_of, fault_line};
ghost use Rattle.policy_compile.specs.Seen.{written_of};
ghost use Rattle.first_fault_laws.specs.Whole.{last_row};
ghost use Rattle.source_laws.specs.Sources.{policy_in, outcome_of};
ghost use Rattle.source_laws.specs.Table.{HaveNone, TellsFirst};
ghost use Rattle.compile_core.specs.Exact.{AreExact, file_names};

use bumpalo::Bump;
use outcome_laws::{accepted_policies_decide_exactly, files_have_distinct_names};
use policy_compile::Compiled;
use policy_source::laws::declarations_are_formed_and_written;
use policy_source::read_policy;
use printed_laws::written_files_read_exactly;
use shape_laws::policies_said_are_shaped;
use spoc_base::{Refusal, Source};
use std::alloc::Global;
use topology::Topo;

// What a policy in memory compiles to, which the sources say.
fn compile_said(alloc: Global, sources: &[Source], topo: Topo<'_>) -> Result<Compiled, Refusal>
    requires policy { policy_of topo ≡ policy_in (map pair_of sources.now) }
    requires told { sources_of topo ≡ sources.now }
    requires faultless { fault_of_sources (texts_of sources.now) ≡ None }
    ensures ok { IfOk result (λ c. outcome_of (map pair_of sources.now) ≡ Ok (written_of c)) }
    ensures refused { IfErr result (IsRefusalOf (λ fault. outcome_of (map pair_of sources.now) ≡ Err (fault_line (map pair_of sources.now) fault))) }
    ensures clear { OnOk result (HaveNone (map pair_of sources.now) last_row) }
    ensures first { IfErr result (IsRefusalOf (λ fault. TellsFirst (map pair_of sources.now) last_row (fault_line (map pair_of sources.now) fault))) }
    ensures exact { IfOk result (λ c. AreExact (map pair_of sources.now) (written_of c)) }
    ensures names { IfOk result (λ c. IsDistinct bytes_eq (file_names (written_of c))) }
{
    policies_said_are_shaped();
    declarations_are_formed_and_written();
    accepted_policies_decide_exactly();
    written_files_read_exactly();
    files_have_distinct_names();
    policy_compile::compile(alloc, topo)
}

/// The device files and the summary of a policy. No sources say the empty policy, which has no
/// files and a summary of zeros.
///
/// The first fault counts: of the texts (a byte at which no token begins, a word that is left out, a
/// bracket that opens a seventeenth level, what is no declaration); of the declarations (a name that
/// is declared twice, or used and not declared, a group that reaches itself, what must not stand in
/// a declaration, a limit that is passed); of areas (one that is split); of tags (a conflict, a
/// network that is translated twice, or in its own zone); of views (too many that differ, two networks
/// with one prefix, an address at another network); of services (a managed router's interface as an
/// end, too many permits); of walks (a permit that none carries, too many lines). The line that is
/// told is that of the first fault of this whole table (`TellsFirst`), and a policy that is compiled
/// has none (`HaveNone`).
///
/// The files of a policy that is accepted are the texts of configurations that decide exactly, and
/// each reads as its router's configuration and as no other (`AreExact`). No two have one name, so
/// that none is written over another.
pub fn compile(alloc: Global, sources: &[Source]) -> Result<Compiled, Refusal>
    requires { All (λ s. length s.text ≤ 4194304) sources.now }
    ensures ok { IfOk result (λ c. outcome_of (map pair_of sources.now) ≡ Ok (written_of c)) }
    ensures refused { IfErr result (IsRefusalOf (λ fault. outcome_of (map pair_of sources.now) ≡ Err (fault_line (map pair_of sources.now) fault))) }
    ensures clear { OnOk result (HaveNone (map pair_of sources.now) last_row) }
    ensures first { IfErr result (IsRefusalOf (λ fault. TellsFirst (map pair_of sources.now) last_row (fault_line (map pair_of sources.now) fault))) }
    ensures exact { IfOk result (λ c. AreExact (map pair_of sources.now) (written_of c)) }
    ensures names { IfOk result (λ c. IsDistinct bytes_eq (file_names (written_of c))) }
{
    let arena = Bump::new(alloc);
    match read_policy(alloc, &arena, sources) {
        Ok(topo) => compile_said(alloc, sources, topo),
        Err(refusal) => Err(refusal),
    }
}
