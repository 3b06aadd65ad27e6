use spoc_base::{Addr, Prefix, TBox};

/// The source or the destination of an entry: one prefix or, on an ASA, an object group by its name.
#[derive(Clone, Copy)]
pub enum End<'t> {
    Prefix(Prefix),
    Group(&'t [u8]),
}

/// An entry of an access list, as it is written.
#[derive(Clone, Copy)]
pub struct Entry<'t> {
    pub permit: bool,
    pub src: End<'t>,
    pub dst: End<'t>,
    pub t: TBox,
}

/// What a line says by itself. Names are the line's own bytes. A name that the line doesn't tell, as that of the list to which an indented entry belongs, is empty.
#[derive(Clone, Copy)]
pub enum Command<'t> {
    /// A comment: what stands behind the `!`.
    Remark(&'t [u8]),
    /// A route to a network by a gateway. An ASA's line names the port too.
    Route {
        hardware: &'t [u8],
        net: Prefix,
        gateway: Addr,
    },
    /// A list begins, on IOS.
    List(&'t [u8]),
    /// An entry. An ASA's line names its list.
    Entry {
        list: &'t [u8],
        entry: Entry<'t>,
    },
    /// A port's lines begin, on IOS.
    Port(&'t [u8]),
    /// A port has a list. An ASA's line names the port too.
    Binding {
        hardware: &'t [u8],
        list: &'t [u8],
    },
    /// An object group begins, on an ASA.
    Group(&'t [u8]),
    /// A member of an object group, on an ASA.
    Member(Prefix),
}
