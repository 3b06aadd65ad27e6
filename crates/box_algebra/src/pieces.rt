ghost use Rattle.std.specs.Prelude.{◌≡◌, IsTrue, flat_map, ◌+◌, ◌<◌, ◌++◌, ◌∷◌, [], map, IfOk, OnOk, option_map, Some, None};
ghost use Rattle.spoc_base.specs.Address.{interval_meets};
ghost use Rattle.spoc_base.specs.Boxes.{TransportBox, TcpPorts, UdpPorts, IcmpTypes};
ghost use Rattle.spoc_base.specs.Shown.{interval_of, ports_of, box_of};
ghost use Rattle.spoc_base.specs.Pieces.{HeaderBox, below, above, common, listed, all_bytes, all_protocols, other_code, codes_left, kind_left, types_left, protocol_left, whole_protocol, whole_left, transports_left, pairs_left, protocol_of, box_between, sides_left, difference};
ghost use Rattle.spoc_base.specs.PlainSets.{IsProperSet, IsUnmarked};
ghost use Rattle.piece_laws.specs.Differences.{IsDifference};
ghost use Rattle.box_algebra.specs.Common.{HaveCommonPorts};
ghost use Rattle.box_algebra.specs.Shown.{header_box_of};

use crate::boxes::{Box4, box_is_proper, meets, transport_covers};
use spoc_base::{Addr, AddrRange, NoMemory, PortRange, TBox};
use std::alloc::Global;

fn ports_below(a: PortRange, b: PortRange) -> Option<PortRange>
    ensures { option_map ports_of result ≡ below (ports_of a) (ports_of b) }
{
    if a.lo() < b.lo() {
        PortRange::new(a.lo(), b.lo() - 1)
    } else {
        None
    }
}

fn ports_above(a: PortRange, b: PortRange) -> Option<PortRange>
    ensures { option_map ports_of result ≡ above (ports_of a) (ports_of b) }
{
    if b.hi() < a.hi() {
        PortRange::new(b.hi() + 1, a.hi())
    } else {
        None
    }
}

fn addresses_below(a: AddrRange, b: AddrRange) -> Option<AddrRange>
    ensures { option_map interval_of result ≡ below (interval_of a) (interval_of b) }
{
    if a.lo().0 < b.lo().0 {
        AddrRange::new(a.lo(), Addr(b.lo().0 - 1))
    } else {
        None
    }
}

fn addresses_above(a: AddrRange, b: AddrRange) -> Option<AddrRange>
    ensures { option_map interval_of result ≡ above (interval_of a) (interval_of b) }
{
    if b.hi().0 < a.hi().0 {
        AddrRange::new(Addr(b.hi().0 + 1), a.hi())
    } else {
        None
    }
}

/// Puts the set behind the others, if there is one.
fn push_some(left: &mut Vec<TBox>, set: Option<TBox>) -> Result<(), NoMemory>
    ensures { OnOk result (map box_of left.new.items ≡ map box_of left.old.items ++ listed (option_map box_of set)) }
{
    if let Some(t) = set {
        left.push(t)?;
    }
    Ok(())
}

/// Puts the code `n` of an ICMP type behind the others, unless it is `code`.
fn push_code(left: &mut Vec<TBox>, kind: u8, code: u8, n: u8) -> Result<(), NoMemory>
    ensures { OnOk result (map box_of left.new.items ≡ map box_of left.old.items ++ other_code kind code n) }
{
    if n != code {
        left.push(TBox::Icmp {
            kind: Some(kind),
            code: Some(n),
        })?;
    }
    Ok(())
}

/// Puts the codes of an ICMP type that are left without `code` behind the others.
fn push_codes(left: &mut Vec<TBox>, kind: u8, code: Option<u8>) -> Result<(), NoMemory>
    ensures { OnOk result (map box_of left.new.items ≡ map box_of left.old.items ++ codes_left kind code) }
{
    if let Some(c) = code {
        push_other_codes(left, kind, c)?;
    }
    Ok(())
}

fn push_other_codes(left: &mut Vec<TBox>, kind: u8, code: u8) -> Result<(), NoMemory>
    ensures { OnOk result (map box_of left.new.items ≡ map box_of left.old.items ++ flat_map (other_code kind code) all_bytes) }
{
    for n in 0..256u16 {
        push_code(left, kind, code, n as u8)?;
    }
    Ok(())
}

/// Puts the ICMP type `n` behind the others, or the codes that are left of it where it is `kind`.
fn push_kind(left: &mut Vec<TBox>, kind: u8, code: Option<u8>, n: u8) -> Result<(), NoMemory>
    ensures { OnOk result (map box_of left.new.items ≡ map box_of left.old.items ++ kind_left kind code n) }
{
    if n == kind {
        push_codes(left, n, code)
    } else {
        push_some(
            left,
            Some(TBox::Icmp {
                kind: Some(n),
                code: None,
            }),
        )
    }
}

fn push_kinds(left: &mut Vec<TBox>, kind: u8, code: Option<u8>) -> Result<(), NoMemory>
    ensures { OnOk result (map box_of left.new.items ≡ map box_of left.old.items ++ flat_map (kind_left kind code) all_bytes) }
{
    for n in 0..256u16 {
        push_kind(left, kind, code, n as u8)?;
    }
    Ok(())
}

/// Puts what is left of ICMP behind the others, by the types of both and the code of the second.
fn push_types(
    left: &mut Vec<TBox>,
    kind: Option<u8>,
    k: Option<u8>,
    code: Option<u8>,
) -> Result<(), NoMemory>
    ensures { OnOk result (map box_of left.new.items ≡ map box_of left.old.items ++ types_left kind k code) }
{
    match (kind, k) {
        (Some(n), _) => push_codes(left, n, code),
        (None, None) => Ok(()),
        (None, Some(n)) => push_kinds(left, n, code),
    }
}

fn tcp_from(src: Option<PortRange>, dst: PortRange, est: bool) -> Option<TBox>
    ensures { option_map box_of result ≡ option_map (λ x. TcpPorts x (ports_of dst) est) (option_map ports_of src) }
{
    let src = src?;
    Some(TBox::Tcp { src, dst, est })
}

fn tcp_to(src: PortRange, dst: Option<PortRange>, est: bool) -> Option<TBox>
    ensures { option_map box_of result ≡ option_map (λ x. TcpPorts (ports_of src) x est) (option_map ports_of dst) }
{
    let dst = dst?;
    Some(TBox::Tcp { src, dst, est })
}

fn udp_from(src: Option<PortRange>, dst: PortRange) -> Option<TBox>
    ensures { option_map box_of result ≡ option_map (λ x. UdpPorts x (ports_of dst)) (option_map ports_of src) }
{
    let src = src?;
    Some(TBox::Udp { src, dst })
}

fn udp_to(src: PortRange, dst: Option<PortRange>) -> Option<TBox>
    ensures { option_map box_of result ≡ option_map (λ x. UdpPorts (ports_of src) x) (option_map ports_of dst) }
{
    let dst = dst?;
    Some(TBox::Udp { src, dst })
}

/// The ports of both ranges, which have some.
fn ports_common(a: PortRange, b: PortRange) -> PortRange
    requires { IsTrue (interval_meets (ports_of a) (ports_of b)) }
    ensures { ports_of result ≡ common (ports_of a) (ports_of b) }
{
    let lo = if a.lo() < b.lo() { b.lo() } else { a.lo() };
    let hi = if b.hi() < a.hi() { b.hi() } else { a.hi() };
    match PortRange::new(lo, hi) {
        Some(r) => r,
        None => unreachable!(),
    }
}

fn addresses_common(a: AddrRange, b: AddrRange) -> AddrRange
    requires { IsTrue (interval_meets (interval_of a) (interval_of b)) }
    ensures { interval_of result ≡ common (interval_of a) (interval_of b) }
{
    let lo = if a.lo().0 < b.lo().0 { b.lo() } else { a.lo() };
    let hi = if b.hi().0 < a.hi().0 { b.hi() } else { a.hi() };
    match AddrRange::new(lo, hi) {
        Some(r) => r,
        None => unreachable!(),
    }
}

/// The source and the destination ports of a TCP or UDP set.
#[derive(Clone, Copy)]
struct Ports {
    src: PortRange,
    dst: PortRange,
}

fn push_tcp(left: &mut Vec<TBox>, a: Ports, b: Ports, est: bool) -> Result<(), NoMemory>
    requires { IsTrue (interval_meets (ports_of a.src) (ports_of b.src)) }
    ensures { OnOk result (map box_of left.new.items ≡ map box_of left.old.items ++ map (λ p. TcpPorts p.0 p.1 est) (pairs_left (ports_of a.src) (ports_of a.dst) (ports_of b.src) (ports_of b.dst))) }
{
    let common = ports_common(a.src, b.src);
    push_some(left, tcp_from(ports_below(a.src, b.src), a.dst, est))?;
    push_some(left, tcp_from(ports_above(a.src, b.src), a.dst, est))?;
    push_some(left, tcp_to(common, ports_below(a.dst, b.dst), est))?;
    push_some(left, tcp_to(common, ports_above(a.dst, b.dst), est))
}

fn push_udp(left: &mut Vec<TBox>, a: Ports, b: Ports) -> Result<(), NoMemory>
    requires { IsTrue (interval_meets (ports_of a.src) (ports_of b.src)) }
    ensures { OnOk result (map box_of left.new.items ≡ map box_of left.old.items ++ map (λ p. UdpPorts p.0 p.1) (pairs_left (ports_of a.src) (ports_of a.dst) (ports_of b.src) (ports_of b.dst))) }
{
    let common = ports_common(a.src, b.src);
    push_some(left, udp_from(ports_below(a.src, b.src), a.dst))?;
    push_some(left, udp_from(ports_above(a.src, b.src), a.dst))?;
    push_some(left, udp_to(common, ports_below(a.dst, b.dst)))?;
    push_some(left, udp_to(common, ports_above(a.dst, b.dst)))
}

/// Puts what is left of one protocol behind the others.
fn push_of_protocol(left: &mut Vec<TBox>, a: TBox, b: TBox) -> Result<(), NoMemory>
    requires { HaveCommonPorts (box_of a) (box_of b) }
    ensures { OnOk result (map box_of left.new.items ≡ map box_of left.old.items ++ protocol_left (box_of a) (box_of b)) }
{
    match (a, b) {
        (TBox::Tcp { src, dst, est }, TBox::Tcp { src: s, dst: d, .. }) => {
            push_tcp(left, Ports { src, dst }, Ports { src: s, dst: d }, est)
        }
        (TBox::Udp { src, dst }, TBox::Udp { src: s, dst: d }) => {
            push_udp(left, Ports { src, dst }, Ports { src: s, dst: d })
        }
        (TBox::Icmp { kind, .. }, TBox::Icmp { kind: k, code }) => push_types(left, kind, k, code),
        _ => Ok(()),
    }
}

/// The number of the set's protocol, or 0 for all protocols.
fn number_of(t: TBox) -> u8
    ensures { result ≡ protocol_of (box_of t) }
{
    match t {
        TBox::Any => 0,
        TBox::Tcp { .. } => 6,
        TBox::Udp { .. } => 17,
        TBox::Icmp { .. } => 1,
        TBox::Other { proto } => proto,
    }
}

/// All transports of the protocol with this number.
fn whole(n: u8) -> TBox
    ensures { box_of result ≡ whole_protocol n }
{
    let ports = PortRange::full();
    match n {
        1 => TBox::Icmp {
            kind: None,
            code: None,
        },
        6 => TBox::Tcp {
            src: ports,
            dst: ports,
            est: false,
        },
        17 => TBox::Udp {
            src: ports,
            dst: ports,
        },
        _ => TBox::Other { proto: n },
    }
}

/// Puts what is left of the whole protocol `n` behind the others.
fn push_whole(left: &mut Vec<TBox>, b: TBox, n: u8) -> Result<(), NoMemory>
    ensures { OnOk result (map box_of left.new.items ≡ map box_of left.old.items ++ whole_left (box_of b) n) }
{
    if n == number_of(b) {
        push_of_protocol(left, whole(n), b)
    } else {
        push_some(left, Some(whole(n)))
    }
}

fn push_protocols(left: &mut Vec<TBox>, b: TBox) -> Result<(), NoMemory>
    ensures { OnOk result (map box_of left.new.items ≡ map box_of left.old.items ++ flat_map (whole_left (box_of b)) all_protocols) }
{
    for n in 1..256u16 {
        push_whole(left, b, n as u8)?;
    }
    Ok(())
}

/// Of two sets that meet, what is left of the first without the second.
fn transports_without(alloc: Global, a: TBox, b: TBox) -> Result<Vec<TBox>, NoMemory>
    requires { HaveCommonPorts (box_of a) (box_of b) }
    ensures { IfOk result (λ v. map box_of v.items ≡ transports_left (box_of a) (box_of b)) }
{
    let mut left = Vec::new(alloc);
    if transport_covers(b, a) {
        return Ok(left);
    }
    match a {
        TBox::Any => push_protocols(&mut left, b)?,
        _ => push_of_protocol(&mut left, a, b)?,
    }
    Ok(left)
}

fn push_box(pieces: &mut Vec<Box4>, piece: Option<Box4>) -> Result<(), NoMemory>
    ensures { OnOk result (map header_box_of pieces.new.items ≡ map header_box_of pieces.old.items ++ listed (option_map header_box_of piece)) }
{
    if let Some(x) = piece {
        pieces.push(x)?;
    }
    Ok(())
}

fn box_from(src: Option<AddrRange>, dst: AddrRange, t: TBox) -> Option<Box4>
    ensures { option_map header_box_of result ≡ option_map (λ x. box_between x (interval_of dst) (box_of t)) (option_map interval_of src) }
{
    let src = src?;
    Some(Box4 { src, dst, t })
}

fn box_to(src: AddrRange, dst: Option<AddrRange>, t: TBox) -> Option<Box4>
    ensures { option_map header_box_of result ≡ option_map (λ x. box_between (interval_of src) x (box_of t)) (option_map interval_of dst) }
{
    let dst = dst?;
    Some(Box4 { src, dst, t })
}

/// Puts the pieces that lack a source or a destination of `b` behind the others.
fn push_sides(pieces: &mut Vec<Box4>, a: &Box4, b: &Box4) -> Result<(), NoMemory>
    requires { IsTrue (interval_meets (interval_of a.now.src) (interval_of b.now.src)) }
    ensures { OnOk result (map header_box_of pieces.new.items ≡ map header_box_of pieces.old.items ++ sides_left (header_box_of a.now) (header_box_of b.now)) }
{
    let common = addresses_common(a.src, b.src);
    push_box(pieces, box_from(addresses_below(a.src, b.src), a.dst, a.t))?;
    push_box(pieces, box_from(addresses_above(a.src, b.src), a.dst, a.t))?;
    push_box(pieces, box_to(common, addresses_below(a.dst, b.dst), a.t))?;
    push_box(pieces, box_to(common, addresses_above(a.dst, b.dst), a.t))
}

/// Puts a piece for each set of transports behind the others.
fn push_each(
    pieces: &mut Vec<Box4>,
    src: AddrRange,
    dst: AddrRange,
    left: &[TBox],
) -> Result<(), NoMemory>
    ensures { OnOk result (map header_box_of pieces.new.items ≡ map header_box_of pieces.old.items ++ map (box_between (interval_of src) (interval_of dst)) (map box_of left.now)) }
{
    for t in left {
        pieces.push(Box4 { src, dst, t: *t })?;
    }
    Ok(())
}

/// What `a` holds and `b` doesn't, as boxes of which no two hold one header. Only `a` where the
/// two don't meet. Else, in this order and without empty ones: `a` with its sources below those of
/// `b`, with its sources above them, then with the common sources its destinations below and above
/// those of `b`, and then with the common sources and destinations the transports that are left.
/// There are at most 768.
pub fn minus(alloc: Global, a: &Box4, b: &Box4) -> Result<Vec<Box4>, NoMemory>
    requires first_unmarked { IsUnmarked (box_of a.now.t) }
    requires second_unmarked { IsUnmarked (box_of b.now.t) }
    ensures pieces { IfOk result (λ v. map header_box_of v.items ≡ difference (header_box_of a.now) (header_box_of b.now)) }
    ensures exact { IsProperSet (box_of a.now.t) → IsProperSet (box_of b.now.t) → IfOk result (λ v. IsDifference (header_box_of a.now) (header_box_of b.now) (map header_box_of v.items)) }
{
    box_is_proper(a);
    box_is_proper(b);
    parts(alloc, a, b)
}

/// The pieces of `minus`, of any two boxes: where one of them asks for established segments alone,
/// they are still those of the definition, and no more is said.
pub fn parts(alloc: Global, a: &Box4, b: &Box4) -> Result<Vec<Box4>, NoMemory>
    ensures { IfOk result (λ v. map header_box_of v.items ≡ difference (header_box_of a.now) (header_box_of b.now)) }
{
    let mut pieces = Vec::new(alloc);
    if meets(a, b) {
        push_sides(&mut pieces, a, b)?;
        let src = addresses_common(a.src, b.src);
        let dst = addresses_common(a.dst, b.dst);
        let left = transports_without(alloc, a.t, b.t)?;
        push_each(&mut pieces, src, dst, &left)?;
    } else {
        pieces.push(*a)?;
    }
    Ok(pieces)
}
