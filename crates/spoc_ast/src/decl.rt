use crate::set::SetTree;
use crate::word::{PortName, Word};

/// The declarations of a policy file, in their order.
#[derive(Clone, Copy)]
pub struct File<'a> {
    pub decls: &'a [Decl<'a>],
}

/// A declaration. `desc` is the text of its description, where it has one.
#[derive(Clone, Copy)]
pub enum Decl<'a> {
    Network {
        name: Word<'a>,
        desc: Option<Word<'a>>,
        parts: &'a [NetPart<'a>],
    },
    Router {
        name: Word<'a>,
        desc: Option<Word<'a>>,
        parts: &'a [RoutPart<'a>],
    },
    Group {
        name: Word<'a>,
        desc: Option<Word<'a>>,
        /// None where the group is empty.
        objects: Option<SetTree<'a>>,
    },
    Area {
        name: Word<'a>,
        desc: Option<Word<'a>>,
        parts: &'a [AreaPart<'a>],
    },
    Aggregate {
        name: Word<'a>,
        desc: Option<Word<'a>>,
        parts: &'a [AnyPart<'a>],
    },
    Protocol {
        name: Word<'a>,
        simple: Simple<'a>,
        notes: &'a [Word<'a>],
    },
    ProtocolGroup {
        name: Word<'a>,
        prts: &'a [Prt<'a>],
    },
    Restriction {
        name: Word<'a>,
        desc: Option<Word<'a>>,
        ports: &'a [PortName<'a>],
    },
    Service {
        name: Word<'a>,
        desc: Option<Word<'a>>,
        idle: &'a [Idle<'a>],
        user: SetTree<'a>,
        rules: &'a [RuleTree<'a>],
    },
}

/// A part of a network's declaration.
#[derive(Clone, Copy)]
pub enum NetPart<'a> {
    /// The network's own prefix.
    Ip(Word<'a>),
    /// A host of the network.
    Host {
        name: Word<'a>,
        parts: &'a [HostPart<'a>],
    },
    /// A translation of the network, by the name of its tag.
    Nat {
        name: Word<'a>,
        parts: &'a [NatPart<'a>],
    },
    Idle(Idle<'a>),
}

/// A part of a host's declaration: its address, or the words over which its range is spread.
#[derive(Clone, Copy)]
pub enum HostPart<'a> {
    Ip(Word<'a>),
    Range(&'a [Word<'a>]),
    Idle(Idle<'a>),
}

/// A part of a translation: the prefix that the network has where the tag is in force, or that it is
/// hidden there.
#[derive(Clone, Copy)]
pub enum NatPart<'a> {
    Ip(Word<'a>),
    Hidden,
}

/// A part of a router's declaration.
#[derive(Clone, Copy)]
pub enum RoutPart<'a> {
    /// `managed`, with the word behind `=` where there is one.
    Managed(Option<Word<'a>>),
    Model(Word<'a>),
    Routing(Word<'a>),
    /// An interface, by the name of its network.
    Iface {
        name: Word<'a>,
        parts: &'a [IfPart<'a>],
    },
    Idle(Idle<'a>),
}

/// A part of an interface.
#[derive(Clone, Copy)]
pub enum IfPart<'a> {
    Ip(Word<'a>),
    Hardware(Word<'a>),
    /// The names of the tags that are in force behind the interface.
    BindNat(&'a [Word<'a>]),
    /// The address that the interface shares with others of its network.
    Virtual(&'a [VirtPart<'a>]),
    Idle(Idle<'a>),
}

/// A part of a shared address: the address itself, and the kind and the number of the protocol by
/// which routers share it. Kind and number have no effect.
#[derive(Clone, Copy)]
pub enum VirtPart<'a> {
    Ip(Word<'a>),
    Kind(Word<'a>),
    Id(Word<'a>),
}

/// A part of an area's declaration.
#[derive(Clone, Copy)]
pub enum AreaPart<'a> {
    /// The name of the network in whose zone the area starts.
    Anchor(Word<'a>),
    Border(&'a [PortName<'a>]),
    Idle(Idle<'a>),
}

/// A part of an aggregate's declaration.
#[derive(Clone, Copy)]
pub enum AnyPart<'a> {
    /// The name of the network whose zone the aggregate speaks of.
    Link(Word<'a>),
    Ip(Word<'a>),
    Idle(Idle<'a>),
}

/// A protocol with its ports or numbers, as the words over which these are spread; there are no
/// words where nothing is said of them.
#[derive(Clone, Copy)]
pub enum Simple<'a> {
    Ip,
    Tcp(&'a [Word<'a>]),
    Udp(&'a [Word<'a>]),
    Icmp(&'a [Word<'a>]),
    Proto(Word<'a>),
}

/// A protocol of a rule or a protocol group.
#[derive(Clone, Copy)]
pub enum Prt<'a> {
    Simple(Simple<'a>),
    /// The name of a declared protocol.
    Protocol(Word<'a>),
    /// The name of a protocol group.
    Group(Word<'a>),
}

/// A rule of a service: what its sources may send to its destinations, or may not where `deny` is
/// true.
#[derive(Clone, Copy)]
pub struct RuleTree<'a> {
    pub deny: bool,
    pub src: SetTree<'a>,
    pub dst: SetTree<'a>,
    pub prts: &'a [Prt<'a>],
}

/// A part without effect, as `owner = x;`: its first word, and the words behind `=`.
#[derive(Clone, Copy)]
pub struct Idle<'a> {
    pub key: Word<'a>,
    pub values: &'a [Word<'a>],
}
