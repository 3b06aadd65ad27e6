use crate::area::Areas;
use crate::object::Object;
use spoc_base::HostId;
use std::alloc::Global;
use topology::Topo;
use zone_graph::ZoneGraph;

/// Where the names in sets are looked up: the policy, its zones and areas, the hosts of each
/// network, the set of each group, and what the service names as its user.
#[derive(Clone, Copy)]
pub(crate) struct Scope<'a> {
    pub alloc: Global,
    pub topo: Topo<'a>,
    pub graph: &'a ZoneGraph,
    pub areas: &'a Areas,
    pub hosts: &'a [Vec<HostId>],
    pub groups: &'a [Vec<Object>],
    pub user: &'a [Object],
}

/// What there is before the sets of groups are made.
#[derive(Clone, Copy)]
pub(crate) struct Base<'a> {
    pub alloc: Global,
    pub topo: Topo<'a>,
    pub graph: &'a ZoneGraph,
    pub areas: &'a Areas,
    pub hosts: &'a [Vec<HostId>],
}
