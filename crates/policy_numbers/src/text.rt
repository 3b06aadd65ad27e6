ghost use Rattle.std.specs.Prelude.{◌≡◌, ◌≤◌, ◌<◌, IsTrue, length, not, option_map, IfSome, position, ◌==◌};
ghost use Rattle.std.specs.List.{list_all};
ghost use Rattle.policy_decls.specs.Numbers as plain;
ghost use Rattle.policy_numbers.specs.Seen.{prefix_seen, range_seen, ends_seen, pair_seen, kind_seen};

use spoc_base::Addr;

/// Two numbers of which the first is written first, as in `80-90`. It may be the higher one.
#[derive(Clone, Copy, Debug, PartialEq, Eq)]
pub struct Ends {
    pub first: u32,
    pub last: u32,
}

/// The source ports and the destination ports of a TCP or UDP protocol, each from 0 to 99999.
#[derive(Clone, Copy, Debug, PartialEq, Eq)]
pub struct PortPair {
    pub source: Ends,
    pub destination: Ends,
}

/// The type and the code of an ICMP protocol, each from 0 to 99999. None stands for all.
#[derive(Clone, Copy, Debug, PartialEq, Eq)]
pub struct IcmpKind {
    pub kind: Option<u32>,
    pub code: Option<u32>,
}

fn is_digit(byte: u8) -> bool
    ensures { result ≡ plain.is_digit byte }
{
    matches!(byte, b'0'..=b'9')
}

fn are_digits(text: &[u8]) -> bool
    ensures { result ≡ list_all plain.is_digit text.now }
{
    text.iter().all(|byte| is_digit(*byte))
}

fn has_leading_zero(text: &[u8]) -> bool
    ensures { result ≡ plain.has_leading_zero text.now }
{
    match text {
        [first, _, ..] => *first == b'0',
        _ => false,
    }
}

fn is_number(text: &[u8]) -> bool
    ensures { result ≡ plain.is_number text.now }
{
    if text.is_empty() || text.len() > 5 {
        return false;
    }
    if !are_digits(text) {
        return false;
    }
    !has_leading_zero(text)
}

fn value(digits: &[u8]) -> u32
    requires digits { IsTrue (list_all plain.is_digit digits.now) }
    requires few { length digits.now ≤ 5 }
    ensures { result ≡ plain.value_of digits.now }
{
    let mut value: u32 = 0;
    for byte in digits {
        value = 10 * value + u32::from(*byte - b'0');
    }
    value
}

/// A number of one to five digits without a leading zero: from 0 to 99999.
pub fn number(text: &[u8]) -> Option<u32>
    ensures { result ≡ plain.number_of text.now }
{
    if !is_number(text) {
        return None;
    }
    Some(value(text))
}

fn octet(text: &[u8]) -> Option<u8>
    ensures { result ≡ plain.number_to 255 text.now }
{
    let value = number(text)?;
    if value <= 255 {
        Some(value as u8)
    } else {
        None
    }
}

fn prefix_length(text: &[u8]) -> Option<u8>
    ensures { result ≡ plain.number_to 32 text.now }
{
    let value = number(text)?;
    if value <= 32 { Some(value as u8) } else { None }
}

fn place(text: &[u8], byte: u8) -> Option<usize>
    ensures place { result ≡ position (λ c. c == byte) text.now }
    ensures within { IfSome result (λ at. at < length text.now) }
{
    text.iter().position(|b| *b == byte)
}

// What stands before the first such byte and what behind it.
fn cut(text: &[u8], byte: u8) -> Option<(&[u8], &[u8])>
    ensures { option_map (λ parts. (parts.0.now, parts.1.now)) result ≡ plain.cut_at byte text.now }
{
    let at = place(text, byte)?;
    Some((&text[..at], &text[at + 1..]))
}

fn joined(a: u8, b: u8, c: u8, d: u8) -> Addr
    ensures { result.0 ≡ plain.address_from a b c d }
{
    Addr(16777216 * u32::from(a) + 65536 * u32::from(b) + 256 * u32::from(c) + u32::from(d))
}

/// Four numbers from 0 to 255, joined by `.`.
pub fn address(text: &[u8]) -> Option<Addr>
    ensures { option_map (λ a. a.0) result ≡ plain.address_of text.now }
{
    let (first, rest) = cut(text, b'.')?;
    let (second, rest) = cut(rest, b'.')?;
    let (third, fourth) = cut(rest, b'.')?;
    Some(joined(octet(first)?, octet(second)?, octet(third)?, octet(fourth)?))
}

/// An address, `/` and a number of leading bits from 0 to 32. A host bit may be set.
pub fn prefix(text: &[u8]) -> Option<(Addr, u8)>
    ensures { option_map prefix_seen result ≡ plain.prefix_of text.now }
{
    let (net, len) = cut(text, b'/')?;
    let net = address(net)?;
    let len = prefix_length(len)?;
    Some((net, len))
}

/// Two addresses joined by `-`. The first may be the higher one.
pub fn address_range(text: &[u8]) -> Option<(Addr, Addr)>
    ensures { option_map range_seen result ≡ plain.range_of text.now }
{
    let (low, high) = cut(text, b'-')?;
    let low = address(low)?;
    let high = address(high)?;
    Some((low, high))
}

/// One port, as both ends, or two that are joined by `-`.
pub fn port_range(text: &[u8]) -> Option<Ends>
    ensures { option_map ends_seen result ≡ plain.ports_of text.now }
{
    match cut(text, b'-') {
        None => {
            let port = number(text)?;
            Some(Ends {
                first: port,
                last: port,
            })
        }
        Some((low, high)) => {
            let first = number(low)?;
            let last = number(high)?;
            Some(Ends { first, last })
        }
    }
}

const ALL_PORTS: Ends = Ends {
    first: 0,
    last: 65535,
};

/// The destination ports, or the source and the destination ports that are joined by `:`. Where
/// nothing is written, all ports are meant.
pub fn two_port_ranges(text: &[u8]) -> Option<PortPair>
    ensures { option_map pair_seen result ≡ plain.port_pair_of text.now }
{
    if text.is_empty() {
        return Some(PortPair {
            source: ALL_PORTS,
            destination: ALL_PORTS,
        });
    }
    match cut(text, b':') {
        None => {
            let destination = port_range(text)?;
            Some(PortPair {
                source: ALL_PORTS,
                destination,
            })
        }
        Some((source, destination)) => {
            let source = port_range(source)?;
            let destination = port_range(destination)?;
            Some(PortPair {
                source,
                destination,
            })
        }
    }
}

/// An ICMP type, or a type and a code that are joined by `/`. Where nothing is written, all are
/// meant.
pub fn icmp_kind(text: &[u8]) -> Option<IcmpKind>
    ensures { option_map kind_seen result ≡ plain.icmp_of text.now }
{
    if text.is_empty() {
        return Some(IcmpKind {
            kind: None,
            code: None,
        });
    }
    match cut(text, b'/') {
        None => {
            let kind = number(text)?;
            Some(IcmpKind {
                kind: Some(kind),
                code: None,
            })
        }
        Some((kind, code)) => {
            let kind = number(kind)?;
            let code = number(code)?;
            Some(IcmpKind {
                kind: Some(kind),
                code: Some(code),
            })
        }
    }
}
