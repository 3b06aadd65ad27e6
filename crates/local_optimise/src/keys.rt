ghost use Rattle.std.specs.Prelude.{◌≡◌, map};
ghost use Rattle.spoc_base.specs.Shown.{cidr_of, ports_of, box_of};
ghost use Rattle.spoc_base.specs.Pieces.{protocol_of};
ghost use Rattle.dev_config.specs.Seen.{line_of};
ghost use Rattle.local_optimise.specs.Keys as plain;

use dev_config::Line;
use spoc_base::{Addr, PortRange, Prefix, TBox};

/// What a line asks of headers: how many leading bits of the source and of the destination, whether
/// a protocol, whether one source port or type, and whether one destination port or code; and
/// whether the line permits.
#[derive(Clone, Copy, PartialEq, Eq, Hash)]
pub(crate) struct Mask {
    pub(crate) permit: bool,
    pub(crate) src: u8,
    pub(crate) dst: u8,
    pub(crate) protocol: bool,
    pub(crate) first: bool,
    pub(crate) second: bool,
}

/// The values of what a mask asks, with 0 for what it doesn't ask.
#[derive(Clone, Copy, PartialEq, Eq, Hash)]
pub(crate) struct Key {
    pub(crate) mask: Mask,
    pub(crate) src: u32,
    pub(crate) dst: u32,
    pub(crate) protocol: u8,
    pub(crate) first: u16,
    pub(crate) second: u16,
}

/// The leading bits of the address, this many, as a number.
pub(crate) fn bits_of(len: u8, a: Addr) -> u32
    ensures { result ≡ plain.leading_bits len a.0 }
{
    if len == 0 {
        0
    } else {
        a.0 >> 32u8.saturating_sub(len)
    }
}

// How many bits an end asks: the length of its only prefix. An end with several prefixes asks none.
fn bits_asked(end: &[Prefix]) -> u8
    ensures { result ≡ plain.length_asked (map cidr_of end.now) }
{
    match end {
        [only] => only.len(),
        _ => 0,
    }
}

/// The network address of the first prefix, 0 where there is none.
pub(crate) fn first_net(end: &[Prefix]) -> Addr
    ensures { result.0 ≡ (plain.first_prefix (map cidr_of end.now)).net }
{
    match end {
        [first, ..] => first.net(),
        [] => Addr(0),
    }
}

/// The length of the first prefix, 0 where there is none.
pub(crate) fn first_length(end: &[Prefix]) -> u8
    ensures { result ≡ (plain.first_prefix (map cidr_of end.now)).len }
{
    match end {
        [first, ..] => first.len(),
        [] => 0,
    }
}

// Whether the range has but one port.
fn is_one_port(r: PortRange) -> bool
    ensures { result ≡ plain.is_single (ports_of r) }
{
    r.hi() <= r.lo()
}

// Whether the set is of one protocol.
fn is_of_protocol(t: TBox) -> bool
    ensures { result ≡ plain.asks_protocol (box_of t) }
{
    match t {
        TBox::Any => false,
        _ => true,
    }
}

// Whether the set is of one source port, or of one type.
fn is_of_first(t: TBox) -> bool
    ensures { result ≡ plain.asks_first (box_of t) }
{
    match t {
        TBox::Tcp { src, .. } | TBox::Udp { src, .. } => is_one_port(src),
        TBox::Icmp { kind, .. } => kind.is_some(),
        _ => false,
    }
}

// Whether the set is of one destination port, or of one code.
fn is_of_second(t: TBox) -> bool
    ensures { result ≡ plain.asks_second (box_of t) }
{
    match t {
        TBox::Tcp { dst, .. } | TBox::Udp { dst, .. } => is_one_port(dst),
        TBox::Icmp { code, .. } => code.is_some(),
        _ => false,
    }
}

// The number of the set's protocol, 0 where it has all of them.
fn protocol_number(t: TBox) -> u8
    ensures { result ≡ protocol_of (box_of t) }
{
    match t {
        TBox::Any => 0,
        TBox::Tcp { .. } => 6,
        TBox::Udp { .. } => 17,
        TBox::Icmp { .. } => 1,
        TBox::Other { proto } => proto,
    }
}

// The first source port, or the type.
fn first_of(t: TBox) -> u16
    ensures { result ≡ plain.first_value (box_of t) }
{
    match t {
        TBox::Tcp { src, .. } | TBox::Udp { src, .. } => src.lo(),
        TBox::Icmp { kind, .. } => u16::from(kind.unwrap_or(0)),
        _ => 0,
    }
}

// The first destination port, or the code.
fn second_of(t: TBox) -> u16
    ensures { result ≡ plain.second_value (box_of t) }
{
    match t {
        TBox::Tcp { dst, .. } | TBox::Udp { dst, .. } => dst.lo(),
        TBox::Icmp { code, .. } => u16::from(code.unwrap_or(0)),
        _ => 0,
    }
}

/// What the line asks.
pub(crate) fn asked_by(line: &Line<'_>) -> Mask
    ensures { result ≡ plain.mask_of (line_of line.now) }
{
    Mask {
        permit: line.permit,
        src: bits_asked(line.src),
        dst: bits_asked(line.dst),
        protocol: is_of_protocol(line.t),
        first: is_of_first(line.t),
        second: is_of_second(line.t),
    }
}

/// The line's values of what the mask asks.
pub(crate) fn values_of(mask: Mask, line: &Line<'_>) -> Key
    ensures { result ≡ plain.key_by mask (line_of line.now) }
{
    Key {
        mask,
        src: bits_of(mask.src, first_net(line.src)),
        dst: bits_of(mask.dst, first_net(line.dst)),
        protocol: if mask.protocol {
            protocol_number(line.t)
        } else {
            0
        },
        first: if mask.first { first_of(line.t) } else { 0 },
        second: if mask.second { second_of(line.t) } else { 0 },
    }
}

/// The key of all lines of an action.
pub(crate) fn of_action(permit: bool) -> Key
    ensures { result ≡ plain.action_key permit }
{
    let mask = Mask {
        permit,
        src: 0,
        dst: 0,
        protocol: false,
        first: false,
        second: false,
    };
    Key {
        mask,
        src: 0,
        dst: 0,
        protocol: 0,
        first: 0,
        second: 0,
    }
}
