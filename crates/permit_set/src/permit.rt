ghost use Rattle.std.specs.Prelude.{◌≡◌, true, map, option_map};
ghost use Rattle.std.specs.List.{list_any};
ghost use Rattle.spoc_base.specs.Boxes.{TcpPorts, UdpPorts};
ghost use Rattle.spoc_base.specs.Shown.{box_of, ports_of};
ghost use Rattle.policy_model.specs.Permits.{end_holds as end_has, permit_holds, mirrors_of, is_permitted, is_reply};
ghost use Rattle.permit_set.specs.Shown.{end_of, permit_of, point_of, packet_of};
ghost use Rattle.permit_set.specs.Slots.{two_slots};

use crate::packet::{Packet, Point, is_answer_kind, swap};
use spoc_base::{AddrRange, NetId, PortRange, TBox};

/// A range of addresses of a network: its own, before any translation.
#[derive(Clone, Copy, Debug, PartialEq, Eq)]
pub struct End {
    pub net: NetId,
    pub range: AddrRange,
}

/// Packets from the source to the destination whose transport is in the set.
#[derive(Clone, Copy, Debug, PartialEq, Eq)]
pub struct Permit {
    pub src: End,
    pub dst: End,
    pub t: TBox,
}

/// Whether the permit holds the packet.
pub fn holds(p: &Permit, x: &Packet) -> bool
    ensures { result ≡ permit_holds (permit_of p.now) (packet_of x.now) }
{
    end_holds(p.src, x.src) && end_holds(p.dst, x.dst) && p.t.holds(x.t)
}

// Whether the address is one of these, at their network.
fn end_holds(e: End, x: Point) -> bool
    ensures { result ≡ end_has (end_of e) (point_of x) }
{
    e.net.0 == x.net.0 && e.range.lo().0 <= x.addr.0 && x.addr.0 <= e.range.hi().0
}

/// The permits of the replies to what the permit holds, where an access list keeps no
/// connections. TCP has one, of established segments, and UDP has one; any transport has both,
/// TCP first; other transports have none. Those there are stand first.
pub fn mirrors(p: &Permit) -> [Option<Permit>; 2]
    ensures { map (option_map permit_of) result ≡ two_slots (mirrors_of (permit_of p.now)) }
{
    let full = PortRange::full();
    match p.t {
        TBox::Any => [
            Some(back(p, established(full, full))),
            Some(back(p, udp(full, full))),
        ],
        TBox::Tcp { src, dst, .. } => [Some(back(p, established(dst, src))), None],
        TBox::Udp { src, dst } => [Some(back(p, udp(dst, src))), None],
        TBox::Icmp { .. } | TBox::Other { .. } => [None, None],
    }
}

// The permit for the way back, of this transport.
fn back(p: &Permit, t: TBox) -> Permit
    ensures { result ≡ record { src = p.now.dst; dst = p.now.src; t = t } }
{
    Permit {
        src: p.dst,
        dst: p.src,
        t,
    }
}

fn established(src: PortRange, dst: PortRange) -> TBox
    ensures { box_of result ≡ TcpPorts (ports_of src) (ports_of dst) true }
{
    TBox::Tcp {
        src,
        dst,
        est: true,
    }
}

fn udp(src: PortRange, dst: PortRange) -> TBox
    ensures { box_of result ≡ UdpPorts (ports_of src) (ports_of dst) }
{
    TBox::Udp { src, dst }
}

/// Whether some permit holds the packet.
pub fn wanted(all: &[Permit], x: &Packet) -> bool
    ensures { result ≡ is_permitted (map permit_of all.now) (packet_of x.now) }
{
    some_holds(all, x)
}

// Whether one of the permits holds the packet.
fn some_holds(all: &[Permit], x: &Packet) -> bool
    ensures { result ≡ list_any (λ p. permit_holds (permit_of p) (packet_of x.now)) all.now }
{
    all.iter().any(|p| holds(p, x))
}

/// Whether the packet may be a reply, and some permit holds the packet on the way back.
pub fn answers(all: &[Permit], x: &Packet) -> bool
    ensures { result ≡ is_reply (map permit_of all.now) (packet_of x.now) }
{
    is_answer_kind(x.t) && wanted(all, &swap(*x))
}
