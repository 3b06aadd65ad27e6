ghost use Rattle.std.specs.Prelude.{◌≡◌, map, option_map, IfOk};
ghost use Rattle.spoc_ast.specs.Seen.{word_seen};
ghost use Rattle.policy_decls.specs.Numbers as plain;
ghost use Rattle.policy_numbers.specs.Seen.{range_seen, pair_seen, kind_seen};

use crate::text::{IcmpKind, PortPair, address_range, icmp_kind, two_port_ranges};
use spoc_ast::Word;
use spoc_base::{Addr, NoMemory};
use std::alloc::Global;

/// The words over which something is spread, as one text. An error comes from want of memory
/// alone.
pub fn spread(alloc: Global, words: &[Word<'_>]) -> Result<Vec<u8>, NoMemory>
    ensures { IfOk result (λ text. text.items ≡ plain.spread (map word_seen words.now)) }
{
    let mut text = Vec::new(alloc);
    for word in words {
        text.extend_from_slice(word.text)?;
    }
    Ok(text)
}

/// Two addresses joined by `-`, spread over words. The first may be the higher one. An error comes
/// from want of memory alone.
pub fn range(alloc: Global, words: &[Word<'_>]) -> Result<Option<(Addr, Addr)>, NoMemory>
    ensures { IfOk result (λ found. option_map range_seen found ≡ plain.range_of (plain.spread (map word_seen words.now))) }
{
    let text = spread(alloc, words)?;
    Ok(address_range(&text))
}

/// The source and the destination ports, spread over words: all ports where there is no word. An
/// error comes from want of memory alone.
pub fn port_pair(alloc: Global, words: &[Word<'_>]) -> Result<Option<PortPair>, NoMemory>
    ensures { IfOk result (λ found. option_map pair_seen found ≡ plain.port_pair_of (plain.spread (map word_seen words.now))) }
{
    let text = spread(alloc, words)?;
    Ok(two_port_ranges(&text))
}

/// The ICMP type and code, spread over words: all where there is no word. An error comes from want
/// of memory alone.
pub fn icmp(alloc: Global, words: &[Word<'_>]) -> Result<Option<IcmpKind>, NoMemory>
    ensures { IfOk result (λ found. option_map kind_seen found ≡ plain.icmp_of (plain.spread (map word_seen words.now))) }
{
    let text = spread(alloc, words)?;
    Ok(icmp_kind(&text))
}
