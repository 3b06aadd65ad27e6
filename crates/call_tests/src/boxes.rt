// Sets of headers as boxes, and the prefixes of a range.
ghost use Rattle.std.specs.Prelude.{◌≡◌, IfOk};
ghost use Rattle.spoc_base.specs.Shown.{box_of};
ghost use Rattle.spoc_base.specs.PlainSets.{IsUnmarked};

use crate::lists::{Kind, headers};
use box_algebra::{Box4, cover_range, covers, meets, minus};
use spoc_base::{Addr, AddrRange, PortRange, TBox};
use std::test::Fail;

fn addresses(lo: u32, hi: u32) -> Result<AddrRange, &'static str> {
    AddrRange::new(Addr(lo), Addr(hi)).ok_or("addresses")
}

fn ports(lo: u16, hi: u16) -> Result<PortRange, &'static str> {
    PortRange::new(lo, hi).ok_or("ports")
}

// Any source and any destination.
fn any_with(t: TBox) -> Result<Box4, &'static str>
    ensures { IfOk result (λ b. b.t ≡ t) }
{
    let all = addresses(0, u32::MAX)?;
    Ok(Box4 {
        src: all,
        dst: all,
        t,
    })
}

fn tcp_to(lo: u16, hi: u16) -> Result<TBox, &'static str> {
    Ok(TBox::Tcp {
        src: PortRange::full(),
        dst: ports(lo, hi)?,
        est: false,
    })
}

#[test]
fn tcp_without_one_port(rt: HostRuntime) -> Result<(), Fail> {
    let full = PortRange::full();
    let web = ports(80, 80)?;
    let a = any_with(TBox::Tcp {
        src: full,
        dst: full,
        est: false,
    })?;
    let b = any_with(TBox::Tcp {
        src: full,
        dst: web,
        est: false,
    })?;
    let below = any_with(tcp_to(0, 79)?)?;
    let above = any_with(tcp_to(81, 65535)?)?;
    let pieces = minus(rt.alloc(), &a, &b)?;
    assert_eq!(rt; pieces.as_slice(), [below, above].as_slice());
    Ok(())
}

// The first and the last address of two ranges, whether the first covers the second, and whether they meet.
static RANGES: [((u32, u32), (u32, u32), bool, bool); 9] = [
    ((0, u32::MAX), (0, u32::MAX), true, true),
    ((0, u32::MAX), (u32::MAX, u32::MAX), true, true),
    ((7, 7), (7, 7), true, true),
    ((7, 7), (8, 8), false, false),
    ((0, 9), (10, 19), false, false),
    ((0, 10), (10, 19), false, true),
    ((0, 9), (1, 9), true, true),
    ((0, 9), (1, 10), false, true),
    ((1, 9), (0, 9), false, true),
];

#[test]
fn edges_of_ranges(rt: HostRuntime) -> Result<(), Fail> {
    for (first, second, covering, meeting) in &RANGES {
        let mut a = any_with(TBox::Any)?;
        let mut b = a;
        a.dst = addresses(first.0, first.1)?;
        b.dst = addresses(second.0, second.1)?;
        let found = (covers(&a, &b), meets(&a, &b));
        assert!(rt; found == (*covering, *meeting), "{first:?} {second:?}");
    }
    Ok(())
}

const FULL: (u16, u16) = (0, 65535);

// Two sets of transports, whether the first covers the second, and whether they meet.
static TRANSPORTS: [(Kind, Kind, bool, bool); 11] = [
    (Kind::Any, Kind::Icmp(None, None), true, true),
    (Kind::Icmp(None, None), Kind::Any, false, true),
    (
        Kind::Icmp(None, None),
        Kind::Icmp(Some(8), Some(0)),
        true,
        true,
    ),
    (
        Kind::Icmp(Some(8), None),
        Kind::Icmp(Some(8), Some(0)),
        true,
        true,
    ),
    (
        Kind::Icmp(Some(8), Some(0)),
        Kind::Icmp(Some(8), None),
        false,
        true,
    ),
    (
        Kind::Icmp(Some(8), Some(0)),
        Kind::Icmp(Some(0), None),
        false,
        false,
    ),
    (
        Kind::Tcp(FULL, FULL, false),
        Kind::Tcp(FULL, FULL, true),
        true,
        true,
    ),
    (
        Kind::Tcp(FULL, FULL, true),
        Kind::Tcp(FULL, FULL, false),
        false,
        true,
    ),
    (
        Kind::Tcp(FULL, FULL, false),
        Kind::Udp(FULL, FULL),
        false,
        false,
    ),
    (Kind::Other(50), Kind::Other(50), true, true),
    (Kind::Other(50), Kind::Other(51), false, false),
];

#[test]
fn edges_of_transports(rt: HostRuntime) -> Result<(), Fail> {
    for (first, second, covering, meeting) in &TRANSPORTS {
        let a = any_with(headers(&rt, *first))?;
        let b = any_with(headers(&rt, *second))?;
        let found = (covers(&a, &b), meets(&a, &b));
        assert!(rt; found == (*covering, *meeting), "{first:?} {second:?}");
    }
    Ok(())
}

fn icmp(kind: Option<u8>, code: Option<u8>) -> TBox
    ensures { IsUnmarked (box_of result) }
{
    TBox::Icmp { kind, code }
}

// How many pieces are left, where both boxes have these sources and destinations.
fn count(rt: &HostRuntime, t: TBox, u: TBox) -> Result<usize, Fail>
    requires first { IsUnmarked (box_of t) }
    requires second { IsUnmarked (box_of u) }
{
    let a = any_with(t)?;
    let b = any_with(u)?;
    Ok(minus(rt.alloc(), &a, &b)?.len())
}

#[test]
fn pieces_are_counted(rt: HostRuntime) -> Result<(), Fail> {
    assert_eq!(rt; count(&rt, TBox::Any, TBox::Any)?, 0);
    assert_eq!(rt; count(&rt, TBox::Any, icmp(None, None))?, 254);
    assert_eq!(rt; count(&rt, TBox::Any, TBox::Other { proto: 255 })?, 254);
    assert_eq!(rt; count(&rt, TBox::Any, icmp(Some(8), Some(0)))?, 764);
    assert_eq!(rt; count(&rt, icmp(None, None), icmp(Some(8), None))?, 255);
    assert_eq!(rt;
        count(&rt, icmp(Some(8), None), icmp(Some(8), Some(255)))?,
        255
    );
    assert_eq!(rt; count(&rt, icmp(Some(8), None), icmp(Some(9), None))?, 1);
    let mut a = any_with(TBox::Any)?;
    let mut b = any_with(icmp(Some(8), Some(0)))?;
    b.src = addresses(1, u32::MAX - 1)?;
    b.dst = b.src;
    assert_eq!(rt; minus(rt.alloc(), &a, &b)?.len(), 768);
    a.t = icmp(Some(8), Some(0));
    a.dst = addresses(0, 9)?;
    assert_eq!(rt; minus(rt.alloc(), &a, &b)?.len(), 3);
    Ok(())
}

// The first and the last address of a range, and how many prefixes cover it.
static COVERS: [(u32, u32, usize); 7] = [
    (0, u32::MAX, 1),
    (0, 0, 1),
    (u32::MAX, u32::MAX, 1),
    (1, u32::MAX - 1, 62),
    (0, u32::MAX - 1, 32),
    (7, 8, 2),
    (8, 15, 1),
];

#[test]
fn ranges_are_covered(rt: HostRuntime) -> Result<(), Fail> {
    for (lo, hi, want) in &COVERS {
        let cover = cover_range(rt.alloc(), addresses(*lo, *hi)?)?;
        assert_eq!(rt; cover.len(), *want, "{lo} {hi}");
    }
    Ok(())
}
