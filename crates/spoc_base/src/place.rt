use crate::text::Text;

/// A policy file: its path below the policy folder, and its bytes.
#[derive(Debug, Drop)]
pub struct Source {
    pub path: Text,
    pub text: Text,
}

/// A part of one source: the bytes from `start` up to `end`, counted from 0, `end` not among
/// them. `file` is the place of the source in the list of sources.
#[derive(Clone, Copy, Debug, PartialEq, Eq)]
pub struct Span {
    pub file: u32,
    pub start: u32,
    pub end: u32,
}

/// The kind of a declared thing, printed before its name as in `network:n1`. A `Zone` is printed
/// by the name of its least network, as in `zone:n1`.
#[derive(Clone, Copy, Debug, PartialEq, Eq)]
pub enum Kind {
    Network,
    Host,
    Router,
    Group,
    Area,
    Aggregate,
    Protocol,
    ProtocolGroup,
    Restriction,
    Service,
    Tag,
    Zone,
}

/// A declared thing by its name in the sources.
#[derive(Clone, Copy, Debug, PartialEq, Eq)]
pub enum Named {
    /// A kind and a name, as in `network:n1`.
    Plain(Kind, Span),
    /// The interface of a router at a network, as in `interface:r1.n1`: first the router's name,
    /// then the network's.
    Iface(Span, Span),
}
