use group_expand::{Areas, GroupSets};
use std::alloc::Global;
use topology::Topo;
use zone_graph::ZoneGraph;

/// The policy with its zones, its areas and the sets of its groups.
#[derive(Clone, Copy)]
pub(crate) struct Scope<'a> {
    pub alloc: Global,
    pub topo: Topo<'a>,
    pub graph: &'a ZoneGraph,
    pub areas: &'a Areas,
    pub sets: &'a GroupSets,
}
