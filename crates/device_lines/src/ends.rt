ghost use Rattle.std.specs.Prelude.{◌≡◌, ◌≤◌, ◌-◌, IfSome, option_map};
ghost use Rattle.spoc_base.specs.Shown.{cidr_of, ports_of};
ghost use Rattle.acl_print.specs.Words.{mask_in};
ghost use Rattle.text_laws.proofs.Numerals as numerals;
ghost use Rattle.text_laws.proofs.EntryRead.{length_in};
ghost use Rattle.device_lines.specs.Entries as plain;
ghost use Rattle.device_lines.specs.Lines as lines;
ghost use Rattle.device_lines.specs.Seen.{words_of, end_of};

use crate::command::End;
use crate::numbers::{address, port};
use crate::words::{first_word, take_name};
use spoc_base::{Addr, Dialect, PortRange, Prefix};

// The exponent of a power of two that is at most 2 to the k.
fn exponent(k: u8, size: u64) -> u8
    requires { k ≤ 32 }
    ensures value { result ≡ numerals.exponent k size }
    ensures small { result ≤ k }
{
    if k == 0 {
        return 0;
    }
    if 1u64 << k == size {
        return k;
    }
    exponent(k - 1, size)
}

// How many addresses the prefixes have that have this mask.
fn size_by(dialect: Dialect, mask: Addr) -> u64
    ensures { 32 - numerals.exponent 32 result ≡ length_in dialect mask.0 }
{
    match dialect {
        Dialect::Ios => u64::from(mask.0) + 1,
        Dialect::Asa => (1u64 << 32) - u64::from(mask.0),
    }
}

fn mask_of(dialect: Dialect, len: u8) -> u64
    requires { len ≤ 32 }
    ensures { result ≡ mask_in dialect (record { net = 0; len = len }) }
{
    let size = 1u64 << (32 - len);
    match dialect {
        Dialect::Ios => size - 1,
        Dialect::Asa => (1u64 << 32) - size,
    }
}

/// How long the prefixes are that have this mask in an entry: a wildcard on IOS, and a netmask on an ASA.
pub fn mask_length(dialect: Dialect, mask: Addr) -> Option<u8>
    ensures value { result ≡ plain.mask_length dialect mask.0 }
    ensures short { IfSome result (λ len. len ≤ 32) }
{
    let len = 32 - exponent(32, size_by(dialect, mask));
    if mask_of(dialect, len) == u64::from(mask.0) {
        Some(len)
    } else {
        None
    }
}

// A prefix of length 1 to 31.
fn inner_prefix(net: Addr, len: u8) -> Option<Prefix>
    ensures { option_map cidr_of result ≡ plain.inner_prefix net.0 len }
{
    if len == 0 || len >= 32 {
        return None;
    }
    Prefix::new(net, len)
}

fn masked(dialect: Dialect, net: Addr, mask: Addr) -> Option<Prefix>
    ensures { option_map cidr_of result ≡ plain.masked dialect net.0 mask.0 }
{
    inner_prefix(net, mask_length(dialect, mask)?)
}

fn take_host<'t>(words: &'t [u8]) -> Option<(Prefix, &'t [u8])>
    ensures { option_map (λ r. (cidr_of r.0, words_of r.1.now)) result ≡ plain.take_host (words_of words.now) }
{
    let (word, rest) = first_word(words)?;
    let net = address(word)?;
    Some((Prefix::new(net, 32)?, rest))
}

fn take_masked<'t>(dialect: Dialect, first: &[u8], words: &'t [u8]) -> Option<(Prefix, &'t [u8])>
    ensures { option_map (λ r. (cidr_of r.0, words_of r.1.now)) result ≡ plain.take_masked dialect first.now (words_of words.now) }
{
    let (second, rest) = first_word(words)?;
    let net = address(first)?;
    let mask = address(second)?;
    Some((masked(dialect, net, mask)?, rest))
}

fn prefix_behind<'t>(dialect: Dialect, word: &[u8], words: &'t [u8]) -> Option<(Prefix, &'t [u8])>
    ensures { option_map (λ r. (cidr_of r.0, words_of r.1.now)) result ≡ plain.prefix_behind dialect word.now (words_of words.now) }
{
    match word {
        b"any" => Some((Prefix::new(Addr(0), 0)?, words)),
        b"host" => take_host(words),
        _ => take_masked(dialect, word, words),
    }
}

fn take_group<'t>(words: &'t [u8]) -> Option<(End<'t>, &'t [u8])>
    ensures { option_map (λ r. (end_of r.0, words_of r.1.now)) result ≡ plain.take_group (words_of words.now) }
{
    let (name, rest) = take_name(words)?;
    Some((End::Group(name), rest))
}

fn has_groups(dialect: Dialect) -> bool
    ensures { result ≡ plain.has_groups dialect }
{
    match dialect {
        Dialect::Ios => false,
        Dialect::Asa => true,
    }
}

fn end_behind<'t>(dialect: Dialect, word: &[u8], words: &'t [u8]) -> Option<(End<'t>, &'t [u8])>
    ensures { option_map (λ r. (end_of r.0, words_of r.1.now)) result ≡ plain.end_behind dialect word.now (words_of words.now) }
{
    if has_groups(dialect) && word == b"object-group".as_slice() {
        return take_group(words);
    }
    let (prefix, rest) = prefix_behind(dialect, word, words)?;
    Some((End::Prefix(prefix), rest))
}

/// A source or a destination that stands before other words.
pub fn take_end<'t>(dialect: Dialect, words: &'t [u8]) -> Option<(End<'t>, &'t [u8])>
    ensures { option_map (λ r. (end_of r.0, words_of r.1.now)) result ≡ plain.take_end dialect (words_of words.now) }
{
    let (word, rest) = first_word(words)?;
    end_behind(dialect, word, rest)
}

fn take_one<'t>(words: &'t [u8]) -> Option<(PortRange, &'t [u8])>
    ensures { option_map (λ r. (ports_of r.0, words_of r.1.now)) result ≡ plain.take_one (words_of words.now) }
{
    let (word, rest) = first_word(words)?;
    let port = port(word)?;
    Some((PortRange::new(port, port)?, rest))
}

fn proper_range(low: u16, high: u16) -> Option<PortRange>
    ensures { option_map ports_of result ≡ plain.proper_range low high }
{
    if low >= high || (low == 0 && high == 65535) {
        return None;
    }
    PortRange::new(low, high)
}

fn take_two<'t>(words: &'t [u8]) -> Option<(PortRange, &'t [u8])>
    ensures { option_map (λ r. (ports_of r.0, words_of r.1.now)) result ≡ plain.take_two (words_of words.now) }
{
    let (first, rest) = first_word(words)?;
    let (second, rest) = first_word(rest)?;
    let low = port(first)?;
    let high = port(second)?;
    Some((proper_range(low, high)?, rest))
}

/// The ports that stand before other words, and all ports where none stand there.
pub fn take_ports<'t>(words: &'t [u8]) -> Option<(PortRange, &'t [u8])>
    ensures { option_map (λ r. (ports_of r.0, words_of r.1.now)) result ≡ plain.take_ports (words_of words.now) }
{
    let Some((word, rest)) = first_word(words) else {
        return Some((PortRange::full(), words));
    };
    match word {
        b"eq" => take_one(rest),
        b"range" => take_two(rest),
        _ => Some((PortRange::full(), words)),
    }
}

fn aligned_prefix(net: Addr, len: u8) -> Option<Prefix>
    requires { len ≤ 32 }
    ensures { option_map cidr_of result ≡ lines.aligned_prefix net.0 len }
{
    Prefix::new(net, len)
}

fn network_of(net: &[u8], mask: &[u8]) -> Option<Prefix>
    ensures { option_map cidr_of result ≡ lines.network_of net.now mask.now }
{
    let net = address(net)?;
    let mask = address(mask)?;
    aligned_prefix(net, mask_length(Dialect::Asa, mask)?)
}

/// A network that stands with its netmask before other words, where its first word was taken.
pub fn network_behind<'t>(net: &[u8], words: &'t [u8]) -> Option<(Prefix, &'t [u8])>
    ensures { option_map (λ r. (cidr_of r.0, words_of r.1.now)) result ≡ lines.network_behind net.now (words_of words.now) }
{
    let (mask, rest) = first_word(words)?;
    Some((network_of(net, mask)?, rest))
}
