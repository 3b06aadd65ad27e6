ghost use Rattle.std.specs.Prelude.{◌≡◌, ◌<◌, ◌≤◌, ◌+◌, ℕ, length, map, IfOk, IfErr, OnOk, OnErr};
ghost use Rattle.policy_model.specs.Blocks.{placement, list_at};
ghost use Rattle.policy_model.specs.Laws.{IsExactAt, PassesNothingElse};
ghost use Rattle.policy_laws.specs.Secured.{IsSecured};
ghost use Rattle.topology.specs.View.{policy_of};
ghost use Rattle.zone_graph.specs.Grouped.{IsGraphOf};
ghost use Rattle.permit_set.specs.Shown.{permit_of};
ghost use Rattle.dev_config.specs.Seen.{lines_of};
ghost use Rattle.nat_view.specs.Views.{seen_of};
ghost use Rattle.permit_lines.specs.Given.{site_with, AreKnown};
ghost use Rattle.acl_build.specs.Seen.{placement_seen};
ghost use Rattle.acl_build.specs.Limit.{RefusesLines};

use crate::blocks::push_blocks;
use crate::lines::push_last;
use bumpalo::Bump;
use dev_config::List;
use nat_view::Views;
use permit_lines::view_at;
use permit_set::{Permit, Placement};
use spoc_base::Refusal;
use std::alloc::Global;
use topology::Topo;
use zone_graph::ZoneGraph;

// The list at the interface, of no more lines than there may be.
fn list_of<'s>(
    alloc: Global,
    scratch: &'s Bump,
    topo: Topo<'_>,
    graph: &ZoneGraph,
    views: &Views<'_>,
    permits: &[Permit],
    place: &Placement,
    most: u64,
) -> Result<List<'s>, Refusal>
    requires graph { IsGraphOf (policy_of topo) graph.now }
    requires policy { (seen_of views.now).policy ≡ policy_of topo }
    requires zones { length (seen_of views.now).views.zones ≡ length graph.now.nets }
    requires permits { AreKnown (policy_of topo) (map permit_of permits.now) }
    requires iface { place.now.iface.0 < length (policy_of topo).ifaces }
    requires place { placement_seen place.now ≡ placement (site_with (policy_of topo) graph.now) (seen_of views.now).views (map permit_of permits.now) place.now.iface.0 }
    ensures list { IfOk result (λ list. lines_of list ≡ list_at (site_with (policy_of topo.entry) graph.now) (seen_of views.now).views (map permit_of permits.now) place.now.iface.0) }
    ensures within { IfOk result (λ list. length list.lines.now ≤ most) }
    ensures refused { IfErr result (RefusesLines most (length (list_at (site_with (policy_of topo.entry) graph.now) (seen_of views.now).views (map permit_of permits.now) place.now.iface.0))) }
{
    let view = view_at(topo, graph, views, place.iface);
    let mut lines = Vec::new(alloc);
    push_blocks(
        alloc,
        scratch,
        view,
        permits,
        place.pairs.items(),
        most,
        &mut lines,
    )?;
    push_last(scratch, most, &mut lines)?;
    let lines = scratch.try_alloc_slice_copy(&lines)?;
    Ok(List { lines })
}

/// The access list at the interface of what is placed there, before it is optimised: pair by pair
/// the lines of the permits, then those of the replies to the way back, and then, where the pair is
/// closed, the denial of all else between its networks; and at the end the denial of everything. All
/// prefixes are as the interface's zone sees them. The list lies in `scratch`.
///
/// `left` is how many lines there may still be, and goes down by those of the list. A list of more
/// lines is refused, and is told before its lines are made; `left` stays then.
pub fn build<'s>(
    alloc: Global,
    scratch: &'s Bump,
    topo: Topo<'_>,
    graph: &ZoneGraph,
    views: &Views<'_>,
    permits: &[Permit],
    place: &Placement,
    left: &mut u64,
) -> Result<List<'s>, Refusal>
    requires graph { IsGraphOf (policy_of topo) graph.now }
    requires policy { (seen_of views.now).policy ≡ policy_of topo }
    requires zones { length (seen_of views.now).views.zones ≡ length graph.now.nets }
    requires permits { AreKnown (policy_of topo) (map permit_of permits.now) }
    requires iface { place.now.iface.0 < length (policy_of topo).ifaces }
    requires place { placement_seen place.now ≡ placement (site_with (policy_of topo) graph.now) (seen_of views.now).views (map permit_of permits.now) place.now.iface.0 }
    ensures list { IfOk result (λ list. lines_of list ≡ list_at (site_with (policy_of topo.entry) graph.now) (seen_of views.now).views (map permit_of permits.now) place.now.iface.0) }
    ensures left { OnOk result (left.new + length (list_at (site_with (policy_of topo.entry) graph.now) (seen_of views.now).views (map permit_of permits.now) place.now.iface.0) ≡ left.old) }
    ensures refused { IfErr result (RefusesLines left.old (length (list_at (site_with (policy_of topo.entry) graph.now) (seen_of views.now).views (map permit_of permits.now) place.now.iface.0))) }
    ensures kept { OnErr result (left.new ≡ left.old) }
    ensures exact { IfOk result (λ list. IsSecured (site_with (policy_of topo.entry) graph.now) (seen_of views.now).views (map permit_of permits.now) place.now.iface.0 → IsExactAt (site_with (policy_of topo.entry) graph.now) (seen_of views.now).views (map permit_of permits.now) place.now.iface.0 (lines_of list)) }
    ensures nothing_else { IfOk result (λ list. IsSecured (site_with (policy_of topo.entry) graph.now) (seen_of views.now).views (map permit_of permits.now) place.now.iface.0 → PassesNothingElse (site_with (policy_of topo.entry) graph.now) (seen_of views.now).views (map permit_of permits.now) place.now.iface.0 (lines_of list)) }
{
    let list = list_of(alloc, scratch, topo, graph, views, permits, place, *left)?;
    *left -= list.lines.len() as u64;
    Ok(list)
}
