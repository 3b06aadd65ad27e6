use spoc_base::{Addr, IfId, Prefix, TBox, Transport};

/// A line of an access list. It matches the headers whose source is in one of the prefixes of `src`, whose destination is in one of `dst`, and whose
/// transport is in `t`, and permits or denies them. An end without prefixes matches nothing.
#[derive(Clone, Copy)]
pub struct Line<'s> {
    pub permit: bool,
    pub src: &'s [Prefix],
    pub dst: &'s [Prefix],
    pub t: TBox,
}

/// An access list, from its first line down.
#[derive(Clone, Copy)]
pub struct List<'s> {
    pub lines: &'s [Line<'s>],
}

/// A static route: addresses of `net` go out by the interface `out` to the gateway.
#[derive(Clone, Copy)]
pub struct Route {
    pub net: Prefix,
    pub gateway: Addr,
    pub out: IfId,
}

/// What one device is set up with: a list for each of its interfaces, in order, and its routes.
#[derive(Clone, Copy)]
pub struct Config<'s> {
    pub lists: &'s [List<'s>],
    pub routes: &'s [Route],
}

/// An interface of the device: its name there, and the own prefix of the network at which it stands.
#[derive(Clone, Copy)]
pub struct Port<'s> {
    pub iface: IfId,
    pub hardware: &'s [u8],
    pub connected: Prefix,
}

/// What a device sees of a packet, in the addresses of the zone from which it comes.
#[derive(Clone, Copy)]
pub struct Header {
    pub src: Addr,
    pub dst: Addr,
    pub t: Transport,
}

/// Where a table sends an address: out by an interface, to a gateway or, where the network is connected, directly.
#[derive(Clone, Copy)]
pub struct Hop {
    pub out: IfId,
    pub gateway: Option<Addr>,
}
