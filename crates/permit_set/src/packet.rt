ghost use Rattle.std.specs.Prelude.{◌≡◌};
ghost use Rattle.policy_model.specs.Permits.{swapped_packet, may_be_reply};
ghost use Rattle.permit_set.specs.Shown.{packet_of};

use spoc_base::{Addr, NetId, Transport};

/// An address of a network: one of its own, before any translation.
#[derive(Clone, Copy, Debug, PartialEq, Eq)]
pub struct Point {
    pub net: NetId,
    pub addr: Addr,
}

/// A packet from one address to another.
#[derive(Clone, Copy, Debug, PartialEq, Eq)]
pub struct Packet {
    pub src: Point,
    pub dst: Point,
    pub t: Transport,
}

/// The packet on the way back: its ends exchanged, and its ports where it has ports. The
/// established mark stays.
pub fn swap(x: Packet) -> Packet
    ensures { packet_of result ≡ swapped_packet (packet_of x) }
{
    let t = match x.t {
        Transport::Tcp { src, dst, est } => Transport::Tcp {
            src: dst,
            dst: src,
            est,
        },
        Transport::Udp { src, dst } => Transport::Udp { src: dst, dst: src },
        other => other,
    };
    Packet {
        src: x.dst,
        dst: x.src,
        t,
    }
}

/// Whether such a packet may be a reply: an established TCP segment, or UDP.
pub fn is_answer_kind(t: Transport) -> bool
    ensures { result ≡ may_be_reply t }
{
    match t {
        Transport::Tcp { est, .. } => est,
        Transport::Udp { .. } => true,
        _ => false,
    }
}
