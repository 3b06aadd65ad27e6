use nat_view::Views;
use permit_set::Permit;
use topology::Topo;
use zone_graph::ZoneGraph;

/// The policy with its zones, its views and its permits.
#[derive(Clone, Copy)]
pub(crate) struct Viewed<'v> {
    pub topo: Topo<'v>,
    pub graph: &'v ZoneGraph,
    pub views: &'v Views<'v>,
    pub permits: &'v [Permit],
}
