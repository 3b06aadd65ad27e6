ghost use Rattle.topology.specs.View.{policy_of};
ghost use Rattle.std.specs.Prelude.{length};
ghost use Rattle.nat_view.specs.Places.{AreTables, AreFew};
ghost use Rattle.std.proofs.Props.{props};

use crate::build::name_of;
use crate::fail::ViewAt;
use crate::firsts::first_places;
use crate::table::Table;
use crate::view::View;
use spoc_base::{NoMemory, RouterId, ZoneId};
use std::alloc::Global;
use topology::Topo;

/// The views of all zones and routers. Those with equal tags share one table.
#[derive(Drop)]
pub struct Views<'a> {
    pub(crate) topo: Topo<'a>,
    pub(crate) tables: Vec<Table>,
    pub(crate) places: Vec<usize>,
    pub(crate) zones: usize,
    ghost kept: { AreTables (policy_of topo) tables.items places.items } by { Prim.hlevel props },
    ghost few: { AreFew zones (length places.items) } by { Prim.hlevel props },
}

impl<'a> Views<'a> {
    ghost use Rattle.std.specs.Prelude.{◌≡◌, ◌<◌, length, map, IfOk, IsTrue};
    ghost use Rattle.policy_model.specs.Faults.{all_views};
    ghost use Rattle.nat_view.specs.Firsts.{AreFirsts};
    ghost use Rattle.nat_view.specs.Fails.{place_seen, place_number};
    ghost use Rattle.nat_view.specs.Seen.{has_view};
    ghost use Rattle.std.specs.List.{All};
    ghost use Rattle.std.specs.Prelude.{slice_index_or, []};
    ghost use Rattle.policy_model.specs.Tags.{zone_view, router_view};
    ghost use Rattle.topology.specs.View.{policy_of};
    ghost use Rattle.nat_view.specs.Places.{rows_of};
    ghost use Rattle.nat_view.specs.Sights.{sight_of};
    ghost use Rattle.nat_view.specs.Views.{seen_of};

    // The view of a row.
    fn at(&self, k: usize) -> View<'_>
        requires { k < length self.now.places.items }
        ensures { sight_of result ≡ record { policy = policy_of self.now.topo; tags = slice_index_or (rows_of self.now.tables.items self.now.places.items) k [] } }
    {
        View::new(self.topo, &self.tables[self.places[k]])
    }

    /// The view of a zone.
    pub fn zone(&self, z: ZoneId) -> View<'_>
        requires { z.0 < length (seen_of self.now).views.zones }
        ensures { sight_of result ≡ record { policy = (seen_of self.now).policy; tags = zone_view (seen_of self.now).views z.0 } }
    {
        self.at(z.0 as usize)
    }

    /// The view inside a router.
    pub fn router(&self, r: RouterId) -> View<'_>
        requires { r.0 < length (seen_of self.now).views.routers }
        ensures { sight_of result ≡ record { policy = (seen_of self.now).policy; tags = router_view (seen_of self.now).views r.0 } }
    {
        self.at(self.zones + r.0 as usize)
    }

    /// The zones, ascending, that stand for all: each zone has the same tags in force as one of
    /// these that isn't behind it.
    pub fn first_zones(&self, alloc: Global) -> Result<Vec<ZoneId>, NoMemory>
        ensures { IfOk result (λ v. AreFirsts (seen_of self.now).views.zones (map (λ z. z.0) v.items)) }
    {
        let listed = first_places(alloc, self.tables.len(), &self.places[..self.zones])?;
        let mut zones = Vec::new(alloc);
        for k in &listed {
            zones.push(ZoneId(*k as u32))?;
        }
        Ok(zones)
    }

    /// The zones and routers, zones first and each ascending, that stand for all: each zone and
    /// each router has the same tags in force as one of these that isn't behind it.
    pub fn first_places(&self, alloc: Global) -> Result<Vec<ViewAt>, NoMemory>
        ensures firsts { IfOk result (λ v. AreFirsts (all_views (seen_of self.now).views) (map (place_number (length (seen_of self.now).views.zones)) v.items)) }
        ensures viewed { IfOk result (λ v. All (λ at. IsTrue (has_view (seen_of self.now).views (place_seen at))) v.items) }
    {
        let listed = first_places(alloc, self.tables.len(), &self.places)?;
        let mut places = Vec::new(alloc);
        for k in &listed {
            places.push(name_of(self.zones as u32, *k))?;
        }
        Ok(places)
    }
}
