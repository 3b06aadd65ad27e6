ghost use Rattle.std.specs.Prelude.{◌≡◌, IsTrue, ◌↔◌};
ghost use Rattle.spoc_base.specs.Address.{interval_covers, interval_meets};
ghost use Rattle.spoc_base.specs.Boxes.{box_covers, box_meets, asks_no_more, agree};
ghost use Rattle.spoc_base.specs.Shown.{interval_of, ports_of, box_of};
ghost use Rattle.spoc_base.specs.Pieces.{header_box_meets};
ghost use Rattle.spoc_base.specs.PlainSets.{IsPorts, IsByteAsked, IsBox, IsProperSet};
ghost use Rattle.piece_laws.specs.HeaderBoxes.{header_box_covers, IsAddressRange, IsHeaderBox, HoldsAll, HoldBoth};
ghost use Rattle.box_algebra.specs.Shown.{header_box_of};

use spoc_base::{AddrRange, PortRange, TBox};

/// A set of headers: those whose source is in `src`, whose destination is in `dst`, and whose
/// transport is in `t`.
#[derive(Clone, Copy, Debug, PartialEq, Eq)]
pub struct Box4 {
    pub src: AddrRange,
    pub dst: AddrRange,
    pub t: TBox,
}

/// Whether `a` holds each header that `b` holds.
pub fn covers(a: &Box4, b: &Box4) -> bool
    ensures test { result ≡ header_box_covers (header_box_of a.now) (header_box_of b.now) }
    ensures inclusion { IsProperSet (box_of b.now.t) → (IsTrue result ↔ HoldsAll (header_box_of a.now) (header_box_of b.now)) }
{
    box_is_proper(b);
    is_covering(a, b)
}

/// Whether some header is in both.
pub fn meets(a: &Box4, b: &Box4) -> bool
    ensures test { result ≡ header_box_meets (header_box_of a.now) (header_box_of b.now) }
    ensures common { IsProperSet (box_of a.now.t) → IsProperSet (box_of b.now.t) → (IsTrue result ↔ HoldBoth (header_box_of a.now) (header_box_of b.now)) }
{
    box_is_proper(a);
    box_is_proper(b);
    is_meeting(a, b)
}

/// The test of `covers`, part by part.
fn is_covering(a: &Box4, b: &Box4) -> bool
    ensures { result ≡ header_box_covers (header_box_of a.now) (header_box_of b.now) }
{
    range_covers(a.src, b.src) && range_covers(a.dst, b.dst) && transport_covers(a.t, b.t)
}

/// The test of `meets`, part by part.
fn is_meeting(a: &Box4, b: &Box4) -> bool
    ensures { result ≡ header_box_meets (header_box_of a.now) (header_box_of b.now) }
{
    range_meets(a.src, b.src) && range_meets(a.dst, b.dst) && transport_meets(a.t, b.t)
}

fn range_covers(a: AddrRange, b: AddrRange) -> bool
    ensures { result ≡ interval_covers (interval_of a) (interval_of b) }
{
    a.lo().0 <= b.lo().0 && b.hi().0 <= a.hi().0
}

fn range_meets(a: AddrRange, b: AddrRange) -> bool
    ensures { result ≡ interval_meets (interval_of a) (interval_of b) }
{
    a.lo().0 <= b.hi().0 && b.lo().0 <= a.hi().0
}

fn ports_cover(a: PortRange, b: PortRange) -> bool
    ensures { result ≡ interval_covers (ports_of a) (ports_of b) }
{
    a.lo() <= b.lo() && b.hi() <= a.hi()
}

fn ports_meet(a: PortRange, b: PortRange) -> bool
    ensures { result ≡ interval_meets (ports_of a) (ports_of b) }
{
    a.lo() <= b.hi() && b.lo() <= a.hi()
}

/// Whether `a` asks for no number, or for the one that `b` asks for.
fn asks_less(a: Option<u8>, b: Option<u8>) -> bool
    ensures { result ≡ asks_no_more a b }
{
    match (a, b) {
        (None, _) => true,
        (Some(m), Some(n)) => m == n,
        (Some(_), None) => false,
    }
}

/// Whether the two don't ask for two numbers.
fn agrees(a: Option<u8>, b: Option<u8>) -> bool
    ensures { result ≡ agree a b }
{
    match (a, b) {
        (Some(m), Some(n)) => m == n,
        _ => true,
    }
}

/// Whether `a` holds each transport that `b` holds.
pub(crate) fn transport_covers(a: TBox, b: TBox) -> bool
    ensures { result ≡ box_covers (box_of a) (box_of b) }
{
    match (a, b) {
        (TBox::Any, _) => true,
        (
            TBox::Tcp { src, dst, est },
            TBox::Tcp {
                src: s,
                dst: d,
                est: e,
            },
        ) => { ports_cover(src, s) && ports_cover(dst, d) && (!est || e) }
        (TBox::Udp { src, dst }, TBox::Udp { src: s, dst: d }) => {
            ports_cover(src, s) && ports_cover(dst, d)
        }
        (TBox::Icmp { kind, code }, TBox::Icmp { kind: k, code: c }) => {
            asks_less(kind, k) && asks_less(code, c)
        }
        (TBox::Other { proto }, TBox::Other { proto: n }) => proto == n,
        _ => false,
    }
}

/// Whether some transport is in both.
fn transport_meets(a: TBox, b: TBox) -> bool
    ensures { result ≡ box_meets (box_of a) (box_of b) }
{
    match (a, b) {
        (TBox::Any, _) => true,
        (_, TBox::Any) => true,
        (TBox::Tcp { src, dst, .. }, TBox::Tcp { src: s, dst: d, .. }) => ports_meet(src, s)
            && ports_meet(dst, d),
        (TBox::Udp { src, dst }, TBox::Udp { src: s, dst: d }) => {
            ports_meet(src, s) && ports_meet(dst, d)
        }
        (TBox::Icmp { kind, code }, TBox::Icmp { kind: k, code: c }) => {
            agrees(kind, k) && agrees(code, c)
        }
        (TBox::Other { proto }, TBox::Other { proto: n }) => proto == n,
        _ => false,
    }
}

/// The ranges of a box ascend, and its numbers are those of addresses, ports, types and codes. This
/// does nothing: the fact is its contract.
pub fn box_is_proper(b: &Box4)
    ensures { IsProperSet (box_of b.now.t) → IsHeaderBox (header_box_of b.now) }
{
    range_is_proper(b.src);
    range_is_proper(b.dst);
    set_is_proper(b.t);
}

fn range_is_proper(r: AddrRange)
    ensures { IsAddressRange (interval_of r) }
{
    let _first = r.lo();
    let _last = r.hi();
}

fn ports_are_proper(r: PortRange)
    ensures { IsPorts (ports_of r) }
{
    let _first = r.lo();
    let _last = r.hi();
}

fn number_is_proper(n: Option<u8>)
    ensures { IsByteAsked n }
{
    if let Some(_number) = n {}
}

fn set_is_proper(t: TBox)
    ensures { IsProperSet (box_of t) → IsBox (box_of t) }
{
    match t {
        TBox::Tcp { src, dst, .. } | TBox::Udp { src, dst } => {
            ports_are_proper(src);
            ports_are_proper(dst);
        }
        TBox::Icmp { kind, code } => {
            number_is_proper(kind);
            number_is_proper(code);
        }
        _ => {}
    }
}
