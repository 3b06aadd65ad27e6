use crate::sets::Union;
use spoc_base::{
    Addr, AddrRange, Dialect, IfId, Named, NetId, Prefix, RouterId, Source, Span, TBox, TagId,
};

/// A network: its own prefix, and the prefix to which each of its tags translates it, with none
/// where the tag hides it.
#[derive(Clone, Copy)]
pub struct Network<'a> {
    pub name: Named,
    pub own: Prefix,
    pub nats: &'a [(TagId, Option<Prefix>)],
}

/// A host, or a range of hosts, of a network.
#[derive(Clone, Copy)]
pub struct Host {
    pub name: Named,
    pub net: NetId,
    pub range: AddrRange,
}

/// What a managed router runs. Where `fixed` is true, its routes are static.
#[derive(Clone, Copy, Debug, PartialEq, Eq)]
pub struct Device {
    pub dialect: Dialect,
    pub fixed: bool,
}

/// A router, with no device where it isn't managed.
#[derive(Clone, Copy)]
pub struct Router {
    pub name: Named,
    pub device: Option<Device>,
}

/// An interface of a router at a network: its own address, the address that it shares with other
/// interfaces of the network, its name on the device, and the tags that it binds. The span of
/// `hardware` is empty where there is none.
#[derive(Clone, Copy)]
pub struct Iface<'a> {
    pub name: Named,
    pub router: RouterId,
    pub net: NetId,
    pub addr: Option<Addr>,
    pub shared: Option<Addr>,
    pub hardware: Span,
    pub binds: &'a [TagId],
}

/// Interfaces of which a walk may use one at most: a declared restriction, or one that a shared
/// address implies, which is named by its least member.
#[derive(Clone, Copy)]
pub struct Restriction<'a> {
    pub name: Named,
    pub members: &'a [IfId],
}

/// A tag by which interfaces ask for translations.
#[derive(Clone, Copy)]
pub struct Tag {
    pub name: Named,
}

/// A named set of objects. An empty one has a union without parts.
#[derive(Clone, Copy)]
pub struct Group<'a> {
    pub name: Named,
    pub objects: &'a Union<'a>,
}

/// Zones round an anchor, or behind the first border, up to the borders.
#[derive(Clone, Copy)]
pub struct Area<'a> {
    pub name: Named,
    pub anchor: Option<NetId>,
    pub borders: &'a [IfId],
}

/// The networks of the zone of a network, those inside a prefix where there is one.
#[derive(Clone, Copy)]
pub struct Aggregate {
    pub name: Named,
    pub link: NetId,
    pub only: Option<Prefix>,
}

/// A rule of a service: each source may send to each destination what is in one of the boxes, or
/// must not where the rule denies.
#[derive(Clone, Copy)]
pub struct Rule<'a> {
    pub deny: bool,
    pub src: &'a Union<'a>,
    pub dst: &'a Union<'a>,
    pub prts: &'a [TBox],
}

/// A service: its user, and its rules.
#[derive(Clone, Copy)]
pub struct Service<'a> {
    pub name: Named,
    pub user: &'a Union<'a>,
    pub rules: &'a [Rule<'a>],
}

/// Rows of interfaces that lie one behind the other. The k-th row is the part of `ids` from the
/// end before it, or 0, up to the k-th of `ends`.
#[derive(Clone, Copy)]
pub struct IfRows<'a> {
    pub ids: &'a [IfId],
    pub ends: &'a [u32],
}

/// The lists of a policy, and the interfaces of each router and at each network.
#[derive(Clone, Copy)]
pub struct Parts<'a> {
    pub sources: &'a [Source],
    pub nets: &'a [Network<'a>],
    pub hosts: &'a [Host],
    pub routers: &'a [Router],
    pub ifaces: &'a [Iface<'a>],
    pub tags: &'a [Tag],
    pub restrictions: &'a [Restriction<'a>],
    pub groups: &'a [Group<'a>],
    pub areas: &'a [Area<'a>],
    pub aggregates: &'a [Aggregate],
    pub services: &'a [Service<'a>],
    pub at_router: IfRows<'a>,
    pub at_net: IfRows<'a>,
}
