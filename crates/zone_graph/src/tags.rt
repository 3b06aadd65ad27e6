ghost use Rattle.std.specs.Prelude.{◌≡◌, ◌<◌, ℕ, length, map};
ghost use Rattle.policy_model.specs.Tags.{zone_view, router_view};

use spoc_base::{RouterId, TagId, ZoneId};
use std::marker::Model;

/// The tags in force in each zone, and those that each router sees inside.
#[derive(Drop)]
pub struct TagTable {
    zones: Vec<Vec<TagId>>,
    inner: Vec<Vec<TagId>>,
}

impl Model for TagTable {
    ghost use Rattle.std.specs.Prelude.{map};
    ghost use Rattle.policy_model.specs.Tags.{Views};
    ghost use Rattle.zone_graph.specs.Grouped.{row_items};

    ghost Value = { Views };

    ghost view = { λ t. record { zones = map (λ row. map (λ tag. tag.0) row) (row_items t.zones.items); routers = map (λ row. map (λ tag. tag.0) row) (row_items t.inner.items) } };
}

impl TagTable {
    ghost use Rattle.zone_graph.specs.Grouped.{row_items};

    /// A table of these tags: the k-th list is that of zone k, or of router k, ascending.
    pub fn new(zones: Vec<Vec<TagId>>, inner: Vec<Vec<TagId>>) -> TagTable
        ensures { result ≡ record { zones = map (λ row. map (λ tag. tag.0) row) (row_items zones.items); routers = map (λ row. map (λ tag. tag.0) row) (row_items inner.items) } }
    {
        TagTable { zones, inner }
    }

    /// The tags in force in a zone, ascending.
    pub fn zone(&self, z: ZoneId) -> &[TagId]
        requires { z.0 < length self.now.zones }
        ensures { map (λ tag. tag.0) result.now ≡ zone_view self.now z.0 }
    {
        &self.zones[z.0 as usize]
    }

    /// The tags that a router sees inside, ascending.
    pub fn inner(&self, r: RouterId) -> &[TagId]
        requires { r.0 < length self.now.routers }
        ensures { map (λ tag. tag.0) result.now ≡ router_view self.now r.0 }
    {
        &self.inner[r.0 as usize]
    }
}
