ghost use Rattle.std.specs.Prelude.{◌≡◌, ◌↔◌, ◌≤◌, IsSome, IfSome};
ghost use Rattle.spoc_base.specs.Boxes.{all_ports, box_holds};
ghost use Rattle.spoc_base.specs.Address.{within};

/// A range of TCP or UDP ports, both its ends among them. The first is not above the last.
#[derive(Clone, Copy, Debug, PartialEq, Eq)]
pub struct PortRange {
    lo: u16,
    hi: u16,
    ghost ordered: { lo ≤ hi },
}

/// What a packet has besides its addresses. `est` says that a TCP segment has ACK or RST set, as
/// `established` on Cisco IOS asks. The protocol number of `Other` is not 0, 1, 6 or 17.
#[derive(Clone, Copy, Debug, PartialEq, Eq)]
pub enum Transport {
    Tcp { src: u16, dst: u16, est: bool },
    Udp { src: u16, dst: u16 },
    Icmp { kind: u8, code: u8 },
    Other { proto: u8 },
}

/// A set of transports: what a service permits, or a line of an access list matches, besides
/// addresses. A TCP set with `est` holds established segments alone, and one without holds all.
/// `Icmp` has no code where it has no kind. The protocol number of `Other` is not 0, 1, 6 or 17.
#[derive(Clone, Copy, Debug, PartialEq, Eq)]
pub enum TBox {
    Any,
    Tcp {
        src: PortRange,
        dst: PortRange,
        est: bool,
    },
    Udp {
        src: PortRange,
        dst: PortRange,
    },
    Icmp {
        kind: Option<u8>,
        code: Option<u8>,
    },
    Other {
        proto: u8,
    },
}

impl PortRange {
    ghost use Rattle.spoc_base.specs.Shown.{ports_of};

    /// `None` exactly where `lo` is above `hi`.
    pub fn new(lo: u16, hi: u16) -> Option<PortRange>
        ensures valid { IsSome result ↔ (lo ≤ hi) }
        ensures value { IfSome result (λ r. ports_of r ≡ record { first = lo; last = hi }) }
    {
        if lo <= hi {
            Some(PortRange { lo, hi })
        } else {
            None
        }
    }

    /// All ports, 0 to 65535.
    pub fn full() -> PortRange
        ensures { ports_of result ≡ all_ports }
    {
        PortRange { lo: 0, hi: 65535 }
    }

    /// The first port.
    pub fn lo(self) -> u16
        ensures value { result ≡ (ports_of self).first }
        ensures ordered { (ports_of self).first ≤ (ports_of self).last }
    {
        self.lo
    }

    /// The last port.
    pub fn hi(self) -> u16
        ensures { result ≡ (ports_of self).last }
    {
        self.hi
    }

    /// Whether the port is in the range.
    pub fn holds(self, port: u16) -> bool
        ensures { result ≡ within (ports_of self) port }
    {
        self.lo <= port && port <= self.hi
    }
}

impl TBox {
    ghost use Rattle.spoc_base.specs.Shown.{box_of};

    /// Whether the transport is in the set.
    pub fn holds(self, t: Transport) -> bool
        ensures { result ≡ box_holds (box_of self) t }
    {
        match (self, t) {
            (TBox::Any, _) => true,
            (
                TBox::Tcp { src, dst, est },
                Transport::Tcp {
                    src: s,
                    dst: d,
                    est: e,
                },
            ) => { src.holds(s) && dst.holds(d) && (!est || e) }
            (TBox::Udp { src, dst }, Transport::Udp { src: s, dst: d }) => {
                src.holds(s) && dst.holds(d)
            }
            (TBox::Icmp { kind, code }, Transport::Icmp { kind: k, code: c }) => {
                kind.is_none_or(|n| n == k) && code.is_none_or(|n| n == c)
            }
            (TBox::Other { proto }, Transport::Other { proto: n }) => proto == n,
            _ => false,
        }
    }
}
