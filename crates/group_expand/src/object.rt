use spoc_base::{HostId, IfId, NetId};

/// What a set holds.
#[derive(Clone, Copy, Debug, PartialEq, Eq, Hash)]
pub enum Object {
    Net(NetId),
    Host(HostId),
    Iface(IfId),
}
