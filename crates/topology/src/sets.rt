use spoc_base::{HostId, IfId, NetId, Prefix};

/// A set of objects: the members of each part, in order.
#[cycle(sets)]
#[derive(Clone, Copy)]
pub struct Union<'a> {
    pub parts: &'a [Inter<'a>],
}

/// A part of a union: the members of the first term that each further term keeps.
#[cycle(sets)]
#[derive(Clone, Copy)]
pub struct Inter<'a> {
    pub first: Term<'a>,
    pub rest: &'a [Further<'a>],
}

/// A further term of a part. Only its members stay, or, where `without` is true, only what is
/// none of them.
#[cycle(sets)]
#[derive(Clone, Copy)]
pub struct Further<'a> {
    pub without: bool,
    pub term: Term<'a>,
}

/// Objects by their numbers, or made from other objects. Groups, aggregates and areas go by
/// their places in their lists.
#[cycle(sets)]
#[derive(Clone, Copy)]
pub enum Term<'a> {
    Net(NetId),
    Host(HostId),
    Iface(IfId),
    Group(u32),
    Aggregate(u32),
    Area(u32),
    /// What the service names as its user.
    User,
    /// The networks of the objects.
    Nets(&'a Union<'a>),
    /// The hosts of the objects.
    Hosts(&'a Union<'a>),
    /// The networks of the zones of the objects, those inside the prefix where there is one.
    Anys(Option<Prefix>, &'a Union<'a>),
}
