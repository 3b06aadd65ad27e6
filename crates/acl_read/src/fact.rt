use dev_config::Port;
use spoc_base::{Addr, Prefix, TBox};

/// The source or the destination of an entry: one prefix, or a group with the members that it has there.
#[derive(Clone, Copy)]
pub(crate) enum End<'t> {
    Prefix(Prefix),
    Group(&'t [u8], &'t [Prefix]),
}

/// An entry of an access list, with the members of its groups.
#[derive(Clone, Copy)]
pub(crate) struct Entry<'t> {
    pub(crate) permit: bool,
    pub(crate) src: End<'t>,
    pub(crate) dst: End<'t>,
    pub(crate) t: TBox,
}

/// What a line says below the lines above it.
#[derive(Clone, Copy)]
pub(crate) enum Fact<'t> {
    Remark(&'t [u8]),
    Sends {
        port: Port<'t>,
        net: Prefix,
        gateway: Addr,
    },
    OpensList(&'t [u8]),
    HasEntry {
        list: &'t [u8],
        entry: Entry<'t>,
    },
    OpensPort(&'t [u8]),
    Binds {
        hardware: &'t [u8],
        list: &'t [u8],
    },
    OpensGroup(&'t [u8]),
    HasMember {
        group: &'t [u8],
        member: Prefix,
    },
}
