ghost use Rattle.std.specs.Prelude.{◌≡◌};
ghost use Rattle.spoc_base.specs.declared.fault.Refusal.TheVariants.{Memory};

use crate::place::{Named, Span};
use crate::text::NoMemory;
use std::alloc::{AllocError, AllocFailed};

/// Why a policy is refused: the first fault of its files, with what is printed of it. `file` is a
/// place in the sources, and an offset counts bytes from 0.
///
/// The variants stand in the order in which faults are told: of several that a policy has, the
/// variant that stands first counts. Of several cases of one variant that with the least values
/// counts, compared in the order in which they are printed, unless the variant says otherwise: files
/// go by their paths, things by their first declaration, zones by their least network.
///
/// A zone is a set of networks that unmanaged routers join. A tag names a translation of networks:
/// it is active in the zones where the translated prefixes are seen. As seen from a zone a network
/// has the prefix of its active tag, or else its own; from a router, the prefix of a tag that
/// none of its interfaces binds and that is active in a zone of the router, or else its own. A
/// walk between two zones passes managed routers and no zone or router twice; it is allowed where
/// no path restriction has two members among its interfaces.
#[derive(Clone, Copy, Debug, PartialEq, Eq)]
pub enum Fault {
    /// No token begins at this offset.
    Lex {
        file: u32,
        offset: u32,
    },
    /// A word of the policy language that this compiler leaves out stands here.
    LeftOut {
        file: u32,
        offset: u32,
        word: Span,
    },
    /// A bracket here opens a seventeenth level.
    Deep {
        file: u32,
        offset: u32,
    },
    /// The longest run of whole declarations ends before the token that begins here.
    Syntax {
        file: u32,
        offset: u32,
    },
    /// A second declaration has this kind and name: the first such one is told. Names are compared
    /// over all files, but those of interfaces within one router, and those of tags within one
    /// network.
    Twice {
        name: Named,
    },
    /// This name is used, and nothing of its kind is declared by it. The first use is told.
    Unknown {
        name: Named,
    },
    /// This group or protocolgroup reaches itself by the groups that it names.
    Circle {
        name: Named,
    },
    /// The top declaration `name` breaks the rule `k`, 1 to 14, for the parts of a declaration. The
    /// declarations are compared before the rules.
    ///
    /// | k | broken where |
    /// |---|---|
    /// | 1 | a network or a `nat` part has not exactly one `ip` |
    /// | 2 | a host has not exactly one of `ip` and `range`, or the ends of its range are reversed |
    /// | 3 | an address or range of a host leaves the prefix of its network |
    /// | 4 | a prefix has a host bit |
    /// | 5 | a `nat` prefix has another length than that of its network |
    /// | 6 | `managed`, `model` or `routing` stands twice in a router, or a managed router has no model `IOS` or `ASA` |
    /// | 7 | `ip`, `hardware` or `bind_nat` stands twice in an interface, or one of a managed router has no `ip` or no `hardware` |
    /// | 8 | an interface's address is outside the prefix of its network |
    /// | 9 | an interface has the address of an earlier interface of the same network |
    /// | 10 | two interfaces of a managed router have one hardware |
    /// | 11 | an interface of an unmanaged router has `bind_nat`, or one tag stands twice in it |
    /// | 12 | a path restriction has a member of an unmanaged router, or fewer than two different members |
    /// | 13 | a port is above 65535, a port range is reversed, an ICMP number is above 255, or `proto` has 0, 1, 6, 17 or a number above 255 |
    /// | 14 | a rule has no `user` in its source or destination; an area has no anchor and no border, two anchors, two border parts, or a border at an unmanaged router; an aggregate has not exactly one `link`, or two `ip`; a term names an interface of an unmanaged router without address |
    Shape {
        k: u8,
        name: Named,
    },
    /// The policy passes a limit of the compiler.
    Limit {
        what: LimitWord,
    },
    /// The zone of this border, an interface, isn't in the area.
    AreaSplit {
        area: Named,
        border: Named,
    },
    /// The tag is active in the zone by one way into it, and barred there by another way, which
    /// goes round the interfaces that bind the tag. Zones are compared first.
    NatConflict {
        tag: Named,
        zone: Named,
    },
    /// Two tags of the network are active in the zone. Zones are compared first.
    NatTwice {
        net: Named,
        zone: Named,
        first: Named,
        second: Named,
    },
    /// The tag translates the network, and is active in the network's own zone.
    NatInside {
        net: Named,
        tag: Named,
    },
    /// Zones and routers see the networks by more than 256 different sets of tags.
    LimitViews,
    /// Two networks have one prefix, as seen from `at`, a zone or a router. Zones go before routers,
    /// and `at` is compared first.
    SamePrefix {
        first: Named,
        second: Named,
        at: Named,
    },
    /// As seen from `at`, a zone or a router, an address of the host or interface `name` belongs
    /// to another network: the prefix of `net` is the longest that holds it. Zones go before routers,
    /// and `at` is compared first; then hosts go before interfaces.
    HostShadowed {
        name: Named,
        net: Named,
        at: Named,
    },
    /// A rule of the service has this interface of a managed router as its source or destination.
    ManagedEnd {
        service: Named,
        iface: Named,
    },
    /// The rules give more than 4,000,000 permits, each with one source, one destination and one
    /// protocol.
    LimitPermits,
    /// A rule permits packets between these two networks, their zones differ, and no allowed walk
    /// joins the zones.
    NoPath {
        src: Named,
        dst: Named,
    },
    /// A rule permits packets between these two networks, their zones differ, and `net`, one of the
    /// two, is hidden in the zone, which an allowed walk between theirs passes. Permits are compared
    /// first, then zones; the source goes before the destination.
    HiddenEnd {
        src: Named,
        dst: Named,
        net: Named,
        zone: Named,
    },
    /// All access lists together have more than 4,000,000 lines before they are optimised.
    LimitLines,
    /// There are more than 4,000,000 pairs of a router that gets static routes and a network to which
    /// it has a hop that isn't direct.
    LimitRoutes,
    /// The router needs a static route to the network by way of this interface, which has no
    /// address.
    NoHopAddress {
        router: Named,
        net: Named,
        iface: Named,
    },
    /// The router, which gets static routes, has two hops to the network. The two least are told:
    /// hops go by the interface that they leave the router by, a direct one before others, and then
    /// by the next interface.
    AmbiguousHop {
        router: Named,
        net: Named,
        first: HopAt,
        second: HopAt,
    },
}

/// A limit of the compiler on what one policy declares.
#[derive(Clone, Copy, Debug, PartialEq, Eq)]
pub enum LimitWord {
    /// More than 65,535 networks.
    Networks,
    /// More than 65,535 routers, or more than 4,095 managed ones.
    Routers,
    /// More than 65,535 interfaces.
    Interfaces,
    /// More than 1,000,000 hosts.
    Hosts,
    /// More than 65,535 services.
    Services,
    /// A name, or the hardware of an interface, of more than 100 bytes.
    Names,
    /// Groups or protocolgroups that nest more than 64 deep. One that names no other of its kind
    /// has depth 1.
    Nesting,
}

/// How a router sends on packets to a network: its hop, as it is printed.
#[derive(Clone, Copy, Debug, PartialEq, Eq)]
pub enum HopAt {
    /// By this interface of the next router.
    Next(Named),
    /// Straight into the network, by this interface of its own.
    Direct(Named),
}

/// Why a call gives no result: a fault of the policy, or want of memory.
#[derive(Clone, Copy, Debug, PartialEq, Eq)]
pub enum Refusal {
    Policy(Fault),
    Memory,
}

impl From<NoMemory> for Refusal {
    ghost from_gives = { λ _ refusal. refusal ≡ Memory };

    fn from(_: NoMemory) -> Refusal {
        Refusal::Memory
    }
}

impl From<AllocError> for Refusal {
    ghost from_gives = { λ _ refusal. refusal ≡ Memory };

    fn from(_: AllocError) -> Refusal {
        Refusal::Memory
    }
}

impl<T: Drop> From<AllocFailed<T>> for Refusal {
    ghost from_gives = { λ _ refusal. refusal ≡ Memory };

    fn from(_: AllocFailed<T>) -> Refusal {
        Refusal::Memory
    }
}
