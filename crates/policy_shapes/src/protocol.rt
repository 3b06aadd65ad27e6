ghost use Rattle.std.specs.Prelude.{◌≡◌, ◌||◌, map, IfOk};
ghost use Rattle.std.specs.List.{list_any};
ghost use Rattle.spoc_ast.specs.Seen.{word_seen, simple_seen, prt_seen};
ghost use Rattle.policy_decls.specs.Numbers as plain;
ghost use Rattle.policy_decls.specs.Shapes as shapes;
ghost use Rattle.policy_numbers.specs.Seen.{ends_seen};

use policy_numbers::{Ends, icmp, number, port_pair};
use spoc_ast::{Prt, Simple, Word};
use spoc_base::NoMemory;
use std::alloc::Global;

/// Whether a port, a range of ports, an ICMP number or a protocol number of a protocol is out of
/// range.
pub(crate) fn is_bad_simple(alloc: Global, simple: &Simple<'_>) -> Result<bool, NoMemory>
    ensures { IfOk result (λ bad. bad ≡ plain.is_bad_simple (simple_seen simple.now)) }
{
    match simple {
        Simple::Ip => Ok(false),
        Simple::Tcp(words) | Simple::Udp(words) => is_bad_pair(alloc, words),
        Simple::Icmp(words) => is_bad_icmp(alloc, words),
        Simple::Proto(word) => Ok(is_bad_protocol(word)),
    }
}

/// Whether that holds of one of the protocols of a rule or a protocol group that are no names.
pub(crate) fn any_bad_prt(alloc: Global, prts: &[Prt<'_>]) -> Result<bool, NoMemory>
    ensures { IfOk result (λ bad. bad ≡ list_any shapes.is_bad_prt (map prt_seen prts.now)) }
{
    for prt in prts {
        if is_bad_prt(alloc, prt)? {
            return Ok(true);
        }
    }
    Ok(false)
}

fn is_bad_prt(alloc: Global, prt: &Prt<'_>) -> Result<bool, NoMemory>
    ensures { IfOk result (λ bad. bad ≡ shapes.is_bad_prt (prt_seen prt.now)) }
{
    match prt {
        Prt::Simple(simple) => is_bad_simple(alloc, simple),
        Prt::Protocol(_) | Prt::Group(_) => Ok(false),
    }
}

// An end above 65535, or the first above the last.
fn is_bad_range(ends: Ends) -> bool
    ensures { result ≡ plain.is_bad_range (ends_seen ends) }
{
    ends.first > 65535 || ends.last > 65535 || ends.last < ends.first
}

fn is_bad_pair(alloc: Global, words: &[Word<'_>]) -> Result<bool, NoMemory>
    ensures { IfOk result (λ bad. bad ≡ plain.is_bad_pair (map word_seen words.now)) }
{
    match port_pair(alloc, words)? {
        Some(pair) => Ok(is_bad_range(pair.source) || is_bad_range(pair.destination)),
        None => Ok(false),
    }
}

fn is_bad_number(number: Option<u32>) -> bool
    ensures { result ≡ plain.is_bad_number number }
{
    match number {
        Some(number) => number > 255,
        None => false,
    }
}

fn is_bad_icmp(alloc: Global, words: &[Word<'_>]) -> Result<bool, NoMemory>
    ensures { IfOk result (λ bad. bad ≡ plain.holds_of (λ kind. plain.is_bad_number kind.0 || plain.is_bad_number kind.1) (plain.icmp_of (plain.spread (map word_seen words.now)))) }
{
    match icmp(alloc, words)? {
        Some(kind) => Ok(is_bad_number(kind.kind) || is_bad_number(kind.code)),
        None => Ok(false),
    }
}

// A number above 255, or that of a protocol which has a word of its own: 0, 1, 6 and 17.
fn is_bad_protocol(word: &Word<'_>) -> bool
    ensures { result ≡ plain.holds_of plain.is_bad_protocol (plain.number_of word.now.text.now) }
{
    match number(word.text) {
        Some(number) => number > 255 || matches!(number, 0 | 1 | 6 | 17),
        None => false,
    }
}
