ghost use Rattle.std.specs.Prelude.{◌≡◌, ◌++◌, IfOk};
ghost use Rattle.policy_outcome.specs.Outcome.{count_line, summary_text};
ghost use Rattle.policy_compile.specs.Seen.{counts_of};

use crate::compiled::Summary;
use itoa::Buffer;
use spoc_base::{NoMemory, Text};
use std::alloc::Global;

// Puts a text behind another.
fn put(out: &mut Vec<u8>, text: &[u8]) -> Result<(), NoMemory>
    ensures { IfOk result (λ _. out.new.items ≡ out.old.items ++ text.now) }
{
    out.extend_from_slice(text)?;
    Ok(())
}

// Puts a line of the summary.
fn put_count(out: &mut Vec<u8>, word: &[u8], n: u64) -> Result<(), NoMemory>
    ensures { IfOk result (λ _. out.new.items ≡ out.old.items ++ count_line word.now n) }
{
    let mut buffer = Buffer::new();
    put(out, word)?;
    put(out, buffer.format(n).as_bytes())?;
    put(out, b"\n")?;
    Ok(())
}

fn summary_bytes(alloc: Global, summary: &Summary) -> Result<Vec<u8>, NoMemory>
    ensures { IfOk result (λ out. out.items ≡ summary_text (counts_of summary.now)) }
{
    let mut out = Vec::new(alloc);
    put_count(&mut out, b"networks ", summary.networks)?;
    put_count(&mut out, b"zones ", summary.zones)?;
    put_count(&mut out, b"routers ", summary.routers)?;
    put_count(&mut out, b"permits ", summary.permits)?;
    put_count(&mut out, b"local ", summary.local)?;
    put_count(&mut out, b"lines ", summary.lines)?;
    put_count(&mut out, b"routes ", summary.routes)?;
    Ok(out)
}

/// The summary as seven lines: a word, a space and the number.
pub fn summary_text(alloc: Global, summary: &Summary) -> Result<Text, NoMemory>
    ensures { IfOk result (λ text. text ≡ summary_text (counts_of summary.now)) }
{
    let out = summary_bytes(alloc, summary)?;
    Text::of(alloc, out.as_slice())
}
