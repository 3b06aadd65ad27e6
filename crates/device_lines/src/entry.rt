ghost use Rattle.std.specs.Prelude.{◌≡◌, option_map};
ghost use Rattle.spoc_base.specs.Shown.{ports_of, box_of};
ghost use Rattle.device_lines.specs.Entries as plain;
ghost use Rattle.device_lines.specs.Seen.{words_of, entry_of};

use crate::command::Entry;
use crate::ends::{take_end, take_ports};
use crate::numbers::byte;
use crate::words::{first_word, is_end, only_word};
use spoc_base::{Dialect, PortRange, TBox};

fn has_mark(dialect: Dialect) -> bool
    ensures { result ≡ plain.has_mark dialect }
{
    match dialect {
        Dialect::Ios => true,
        Dialect::Asa => false,
    }
}

fn marked(dialect: Dialect, word: &[u8]) -> Option<bool>
    ensures { result ≡ plain.marked dialect word.now }
{
    if has_mark(dialect) && word == b"established".as_slice() {
        Some(true)
    } else {
        None
    }
}

fn mark_in(dialect: Dialect, words: &[u8]) -> Option<bool>
    ensures { result ≡ plain.mark_in dialect (words_of words.now) }
{
    if is_end(words) {
        return Some(false);
    }
    marked(dialect, only_word(words)?)
}

fn tcp_in(dialect: Dialect, src: PortRange, words: &[u8]) -> Option<TBox>
    ensures { option_map box_of result ≡ plain.tcp_in dialect (ports_of src) (words_of words.now) }
{
    let (dst, rest) = take_ports(words)?;
    let est = mark_in(dialect, rest)?;
    Some(TBox::Tcp { src, dst, est })
}

fn udp_in(src: PortRange, words: &[u8]) -> Option<TBox>
    ensures { option_map box_of result ≡ plain.udp_in (ports_of src) (words_of words.now) }
{
    let (dst, rest) = take_ports(words)?;
    if is_end(rest) {
        Some(TBox::Udp { src, dst })
    } else {
        None
    }
}

fn code_in(kind: u8, words: &[u8]) -> Option<TBox>
    ensures { option_map box_of result ≡ plain.code_in kind (words_of words.now) }
{
    if is_end(words) {
        return Some(TBox::Icmp {
            kind: Some(kind),
            code: None,
        });
    }
    let code = byte(only_word(words)?)?;
    Some(TBox::Icmp {
        kind: Some(kind),
        code: Some(code),
    })
}

fn icmp_in(words: &[u8]) -> Option<TBox>
    ensures { option_map box_of result ≡ plain.icmp_in (words_of words.now) }
{
    if is_end(words) {
        return Some(TBox::Icmp {
            kind: None,
            code: None,
        });
    }
    let (word, rest) = first_word(words)?;
    let kind = byte(word)?;
    code_in(kind, rest)
}

fn other_in(protocol: &[u8], words: &[u8]) -> Option<TBox>
    ensures { option_map box_of result ≡ plain.other_in protocol.now (words_of words.now) }
{
    let proto = byte(protocol)?;
    if matches!(proto, 0 | 1 | 6 | 17) || !is_end(words) {
        return None;
    }
    Some(TBox::Other { proto })
}

// The transport, by the protocol, the source ports and what stands behind the destination.
fn box_in(dialect: Dialect, protocol: &[u8], src: PortRange, words: &[u8]) -> Option<TBox>
    ensures { option_map box_of result ≡ plain.box_in dialect protocol.now (ports_of src) (words_of words.now) }
{
    if protocol == b"ip".as_slice() {
        return if is_end(words) { Some(TBox::Any) } else { None };
    }
    if protocol == b"tcp".as_slice() {
        return tcp_in(dialect, src, words);
    }
    if protocol == b"udp".as_slice() {
        return udp_in(src, words);
    }
    if protocol == b"icmp".as_slice() {
        return icmp_in(words);
    }
    other_in(protocol, words)
}

fn has_ports(protocol: &[u8]) -> bool
    ensures { result ≡ plain.has_ports protocol.now }
{
    protocol == b"tcp".as_slice() || protocol == b"udp".as_slice()
}

fn take_source<'t>(protocol: &[u8], words: &'t [u8]) -> Option<(PortRange, &'t [u8])>
    ensures { option_map (λ r. (ports_of r.0, words_of r.1.now)) result ≡ plain.take_source protocol.now (words_of words.now) }
{
    if has_ports(protocol) {
        take_ports(words)
    } else {
        Some((PortRange::full(), words))
    }
}

fn action_in(word: &[u8]) -> Option<bool>
    ensures { result ≡ plain.action_in word.now }
{
    if word == b"permit".as_slice() {
        Some(true)
    } else if word == b"deny".as_slice() {
        Some(false)
    } else {
        None
    }
}

fn behind_protocol<'t>(
    dialect: Dialect,
    permit: bool,
    protocol: &[u8],
    words: &'t [u8],
) -> Option<Entry<'t>>
    ensures { option_map entry_of result ≡ plain.behind_protocol dialect permit protocol.now (words_of words.now) }
{
    let (src, rest) = take_end(dialect, words)?;
    let (ports, rest) = take_source(protocol, rest)?;
    let (dst, rest) = take_end(dialect, rest)?;
    let t = box_in(dialect, protocol, ports, rest)?;
    Some(Entry {
        permit,
        src,
        dst,
        t,
    })
}

/// An entry, by its action and the words behind that.
pub fn entry_behind<'t>(dialect: Dialect, action: &[u8], words: &'t [u8]) -> Option<Entry<'t>>
    ensures { option_map entry_of result ≡ plain.entry_behind dialect action.now (words_of words.now) }
{
    let permit = action_in(action)?;
    let (protocol, rest) = first_word(words)?;
    behind_protocol(dialect, permit, protocol, rest)
}
