ghost use Rattle.std.specs.Prelude.{◌≡◌, ◌≤◌, ◌++◌, length, drop, Some, None, IfOk, IfErr, OnOk};
ghost use Rattle.std.specs.List.{All};
ghost use Rattle.policy_files.specs.Fault.{fault_of_texts, faults_from};
ghost use Rattle.policy_files.specs.Rank.{rank, earlier, earlier_of, text_fault};
ghost use Rattle.policy_files.specs.Seen.{IsRefusalOf, texts_of, decls_of};
ghost use Rattle.policy_files.specs.OfTexts.{decls_of_text, declared};

use crate::file::read_file;
use bumpalo::Bump;
use spoc_ast::File;
use spoc_base::{Fault, NoMemory, Refusal, Source};
use std::alloc::Global;

// The place of a fault's kind in the order of faults.
fn rank(fault: &Fault) -> u8
    ensures { result ≡ rank fault.now }
{
    match fault {
        Fault::Lex { .. } => 0,
        Fault::LeftOut { .. } => 1,
        Fault::Deep { .. } => 2,
        _ => 3,
    }
}

fn earlier_of(a: Fault, b: Fault) -> Fault
    ensures { result ≡ earlier_of a b }
{
    if rank(&b) < rank(&a) { b } else { a }
}

// The fault that counts of two, of which the first is that of earlier files.
fn earlier(a: Option<Fault>, b: Option<Fault>) -> Option<Fault>
    ensures { result ≡ earlier a b }
{
    match (a, b) {
        (Some(a), Some(b)) => Some(earlier_of(a, b)),
        (Some(a), None) => Some(a),
        (None, b) => b,
    }
}

// The files that were read so far, in their order, and the fault that counts of their texts.
#[derive(Drop)]
struct Reading<'a> {
    files: Vec<File<'a>>,
    fault: Option<Fault>,
}

// Reads one file more.
fn read_next<'a>(
    alloc: Global,
    arena: &'a Bump,
    file: u32,
    text: &'a [u8],
    reading: &mut Reading<'a>,
) -> Result<(), NoMemory>
    requires { length text.now ≤ 4194304 }
    ensures fault { OnOk result (reading.new.fault ≡ earlier reading.old.fault (text_fault file text.now)) }
    ensures said { OnOk result (reading.new.fault ≡ None → decls_of reading.new.files.items ≡ decls_of reading.old.files.items ++ decls_of_text file text.now) }
{
    match read_file(alloc, arena, file, text) {
        Ok(tree) => {
            reading.files.push(tree)?;
        }
        Err(Refusal::Policy(fault)) => {
            reading.fault = earlier(reading.fault, Some(fault));
        }
        Err(Refusal::Memory) => return Err(NoMemory),
    }
    Ok(())
}

fn read_all<'a>(
    alloc: Global,
    arena: &'a Bump,
    sources: &'a [Source],
) -> Result<Reading<'a>, NoMemory>
    requires { All (λ s. length s.text ≤ 4194304) sources.now }
    ensures fault { IfOk result (λ reading. reading.fault ≡ fault_of_texts (texts_of sources.now)) }
    ensures said { IfOk result (λ reading. reading.fault ≡ None → decls_of reading.files.items ≡ declared (texts_of sources.now)) }
{
    let mut reading = Reading {
        files: Vec::new(alloc),
        fault: None,
    };
    if sources.len() > u32::MAX as usize {
        return Err(NoMemory);
    }
    for k in 0..sources.len() {
        read_next(
            alloc,
            arena,
            k as u32,
            sources[k].text.bytes(),
            &mut reading,
        )?;
    }
    Ok(reading)
}

/// The declarations of each file of a policy, in the order of the sources, each of at most 4 MiB.
/// They are those that the texts say.
///
/// The fault is that of the texts which counts: the first byte at which no token begins, then the
/// first word that is left out, then the first bracket that opens a seventeenth level, and then the
/// token behind the longest run of whole declarations; of one kind that of the first file.
pub fn read_files<'a>(
    alloc: Global,
    arena: &'a Bump,
    sources: &'a [Source],
) -> Result<Vec<File<'a>>, Refusal>
    requires { All (λ s. length s.text ≤ 4194304) sources.now }
    ensures said { IfOk result (λ files. decls_of files.items ≡ declared (texts_of sources.now)) }
    ensures ok { OnOk result (fault_of_texts (texts_of sources.now) ≡ None) }
    ensures refused { IfErr result (IsRefusalOf (λ fault. fault_of_texts (texts_of sources.now) ≡ Some fault)) }
{
    let reading = read_all(alloc, arena, sources)?;
    match reading.fault {
        Some(fault) => Err(Refusal::Policy(fault)),
        None => Ok(reading.files),
    }
}
