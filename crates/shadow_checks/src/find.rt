ghost use Rattle.std.specs.Prelude.{IfOk, IsTrue, MatchOption};
ghost use Rattle.policy_model.specs.FirstFault.{view_at};
ghost use Rattle.topology.specs.View.{policy_of};
ghost use Rattle.nat_view.specs.Fails.{place_seen};
ghost use Rattle.nat_view.specs.Seen.{has_view};
ghost use Rattle.nat_view.specs.Views.{seen_of};
ghost use Rattle.shadow_checks.specs.Holders.{HasNoneHere, IsFirstHere};
ghost use Rattle.shadow_checks.specs.Sightings.{IsReady, HasNone, IsFirst};

use crate::here::{Shadow, first_here};
use nat_view::{ViewAt, Views};
use spoc_base::NoMemory;
use std::alloc::Global;
use topology::Topo;

/// Where an address is seen at another network.
#[derive(Clone, Copy)]
pub(crate) struct Sighting {
    pub at: ViewAt,
    pub shadow: Shadow,
}

// The first shadow, if any, in the view of a place.
fn shadow_at(
    alloc: Global,
    topo: Topo<'_>,
    views: &Views<'_>,
    at: ViewAt,
) -> Result<Option<Shadow>, NoMemory>
    requires ready { IsReady (policy_of topo) (seen_of views.now) }
    requires viewed { IsTrue (has_view (seen_of views.now).views (place_seen at)) }
    ensures { IfOk result (λ found. MatchOption found (HasNoneHere (policy_of topo.entry) (view_at (seen_of views.now).views (place_seen at))) (λ s. IsFirstHere (policy_of topo.entry) (view_at (seen_of views.now).views (place_seen at)) s.holder s.net.0)) }
{
    match at {
        ViewAt::Zone(z) => first_here(alloc, topo, views.zone(z)),
        ViewAt::Router(r) => first_here(alloc, topo, views.router(r)),
    }
}

/// The first view, if any, that has a shadow, and the first one there. All zones come before all
/// routers. Of views with the same tags in force the first one alone is looked at.
pub(crate) fn first_sighting(
    alloc: Global,
    topo: Topo<'_>,
    views: &Views<'_>,
) -> Result<Option<Sighting>, NoMemory>
    requires { IsReady (policy_of topo) (seen_of views.now) }
    ensures { IfOk result (λ found. MatchOption found (HasNone (policy_of topo.entry) (seen_of views.now).views) (λ s. IsFirst (policy_of topo.entry) (seen_of views.now).views (place_seen s.at) s.shadow.holder s.shadow.net.0)) }
{
    let places = views.first_places(alloc)?;
    for k in 0..places.len() {
        let at = places[k];
        if let Some(shadow) = shadow_at(alloc, topo, views, at)? {
            return Ok(Some(Sighting { at, shadow }));
        }
    }
    Ok(None)
}
