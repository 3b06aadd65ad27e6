ghost use Rattle.std.specs.Prelude.{◌≡◌, ◌+◌, ◌<◌, ◌≤◌, ◌++◌, ◌∷◌, [], drop, length, map, Ok, Err, IfOk, IfErr, OnOk};
ghost use Rattle.policy_model.specs.FirstFault.{most_items};
ghost use Rattle.policy_model.specs.Policy.{router_at, is_managed};
ghost use Rattle.policy_laws.specs.Shaped.{IsShaped};
ghost use Rattle.topology.specs.First.{IsRefusalOf};
ghost use Rattle.topology.specs.View.{policy_of};
ghost use Rattle.nat_view.specs.Views.{seen_of};
ghost use Rattle.permit_set.specs.Shown.{permit_of};
ghost use Rattle.dev_config.specs.Seen.{lines_of};
ghost use Rattle.fault_text.specs.Texts.{fault_line};
ghost use Rattle.policy_outcome.specs.Outcome.{after_services, list_for, lists_for, written_for};
ghost use Rattle.policy_outcome.specs.Found.{meaning_in, pairs_in, IsFound};
ghost use Rattle.policy_lists.specs.Known.{IsViewed};
ghost use Rattle.acl_build.specs.Limit.{RefusesLines};
ghost use Rattle.policy_lists.specs.Coming.{ArePlacedFrom};
ghost use Rattle.policy_lists.specs.Walking.{line_total};

use crate::places::places_of;
use crate::viewed::Viewed;
use acl_build::build;
use bumpalo::Bump;
use dev_config::List;
use nat_view::Views;
use permit_set::{Permit, Placement};
use spoc_base::{IfId, NoMemory, Refusal};
use std::alloc::Global;
use topology::Topo;
use zone_graph::ZoneGraph;

// How many lines all lists together may have before they are optimised.
const MOST_LINES: u64 = 4_000_000;

// How many interfaces there are.
fn iface_count(topo: Topo<'_>) -> u32
    ensures { result ≡ length (policy_of topo.entry).ifaces }
{
    topo.ifaces().len() as u32
}

// Whether the interface is one of a managed router.
fn is_managed_iface(topo: Topo<'_>, i: IfId) -> bool
    requires { i.0 < length (policy_of topo).ifaces }
    ensures { result ≡ is_managed (policy_of topo.entry) (router_at (policy_of topo.entry) i.0) }
{
    topo.router(topo.iface(i).router).device.is_some()
}

// The list at an interface: that of the next placement where its router is managed, and an empty
// one elsewhere; and where the placements of the interfaces behind it begin. `left` goes down by
// the lines of the list.
fn list_here<'s>(
    alloc: Global,
    scratch: &'s Bump,
    viewed: &Viewed<'_>,
    places: &[Placement],
    next: u32,
    i: IfId,
    left: &mut u64,
) -> Result<(List<'s>, u32), Refusal>
    requires viewed { IsViewed viewed.now }
    requires there { i.0 < length (policy_of viewed.now.topo).ifaces }
    requires before { next ≤ i.0 }
    requires places { ArePlacedFrom (meaning_in viewed.now.topo) i.0 (drop next places.now) }
    ensures list { IfOk result (λ r. lines_of r.0 ≡ list_for (meaning_in viewed.now.topo) i.0) }
    ensures before { IfOk result (λ r. r.1 ≤ i.0 + 1) }
    ensures places { IfOk result (λ r. ArePlacedFrom (meaning_in viewed.now.topo) (i.0 + 1) (drop r.1 places.now)) }
    ensures left { OnOk result (left.new + length (list_for (meaning_in viewed.now.topo) i.0) ≡ left.old) }
    ensures refused { IfErr result (RefusesLines left.old (length (list_for (meaning_in viewed.now.topo) i.0))) }
{
    let topo = viewed.topo;
    if !is_managed_iface(topo, i) {
        return Ok((List { lines: &[] }, next));
    }
    let place = &places[next as usize];
    let list = build(
        alloc,
        scratch,
        topo,
        viewed.graph,
        viewed.views,
        viewed.permits,
        place,
        left,
    )?;
    Ok((list, next + 1))
}

// Puts a list behind the others.
fn push_list<'s>(lists: &mut Vec<List<'s>>, list: List<'s>) -> Result<(), NoMemory>
    ensures { OnOk result (lists.new.items ≡ lists.old.items ++ list.entry ∷ []) }
{
    let Ok(()) = lists.push(list) else {
        return Err(NoMemory);
    };
    Ok(())
}

// The list at each interface, by what is placed at those of managed routers, unless all of them have
// too many lines.
fn lists_of<'s>(
    alloc: Global,
    scratch: &'s Bump,
    viewed: &Viewed<'_>,
    places: &[Placement],
) -> Result<Vec<List<'s>>, Refusal>
    requires viewed { IsViewed viewed.now }
    requires places { ArePlacedFrom (meaning_in viewed.now.topo) 0 places.now }
    ensures lists { IfOk result (λ lists. map lines_of lists.items ≡ lists_for (meaning_in viewed.now.topo)) }
    ensures few { OnOk result (line_total (meaning_in viewed.now.topo) ≤ most_items) }
    ensures refused { IfErr result (RefusesLines most_items (line_total (meaning_in viewed.now.topo))) }
{
    let mut lists = Vec::new(alloc);
    let mut left = MOST_LINES;
    let mut next = 0;
    for i in 0..iface_count(viewed.topo) {
        let i = IfId(i);
        let (list, after) = list_here(alloc, scratch, viewed, places, next, i, &mut left)?;
        push_list(&mut lists, list)?;
        next = after;
    }
    Ok(lists)
}

/// The access list of each interface, by number, before it is optimised; those of routers that
/// aren't managed are empty. The lists lie in `scratch`.
///
/// A refusal tells the first permit without a path, or else the first hidden end on a walk, or else
/// that the lists have more than 4,000,000 lines together.
pub fn lists<'s>(
    alloc: Global,
    scratch: &'s Bump,
    topo: Topo<'_>,
    graph: &ZoneGraph,
    views: &Views<'_>,
    permits: &[Permit],
) -> Result<Vec<List<'s>>, Refusal>
    requires found { IsFound topo graph.now (seen_of views.now).views (map permit_of permits.now) }
    requires policy { (seen_of views.now).policy ≡ policy_of topo }
    requires shaped { IsShaped (policy_of topo) }
    ensures lists { IfOk result (λ lists. map lines_of lists.items ≡ lists_for (meaning_in topo.entry)) }
    ensures clear { OnOk result (after_services (meaning_in topo.entry) ≡ Ok (written_for (meaning_in topo.entry))) }
    ensures refused { IfErr result (IsRefusalOf (λ fault. after_services (meaning_in topo.entry) ≡ Err (fault_line (pairs_in topo.entry) fault))) }
{
    let viewed = Viewed {
        topo,
        graph,
        views,
        permits,
    };
    let places = places_of(alloc, &viewed)?;
    let lists = lists_of(alloc, scratch, &viewed, &places)?;
    Ok(lists)
}
