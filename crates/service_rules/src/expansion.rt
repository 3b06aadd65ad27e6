ghost use Rattle.std.specs.Prelude.{◌≡◌, ◌<◌, ◌≤◌, ℕ, suc, List, length, map, nat_lt, take, IfOk, IfErr, slice_index_or};
ghost use Rattle.policy_model.specs.FirstFault.{ManagedEnd, most_items, no_service};
ghost use Rattle.policy_model.specs.Headline.{Meaning};
ghost use Rattle.policy_model.specs.Objects.{AreAreas};
ghost use Rattle.policy_model.specs.Permits.{listed_permits, permits_of};
ghost use Rattle.topology.specs.First.{HasNone, IsRefusalOf, TellsFirst};
ghost use Rattle.topology.specs.Told.{IsTold};
ghost use Rattle.topology.specs.View.{policy_of, sources_of};
ghost use Rattle.zone_graph.specs.Grouped.{IsGraphOf};
ghost use Rattle.group_expand.specs.Seen.{site_of};
ghost use Rattle.group_expand.specs.Sets.{AreTables};
ghost use Rattle.permit_set.specs.Shown.{permit_of};
ghost use Rattle.service_rules.specs.Ends.{listed};
ghost use Rattle.service_rules.specs.Faults.{AreClear, TellsRule};
ghost use Rattle.service_rules.specs.Scope.{IsScope, site_in};

use crate::count::count;
use crate::managed::first_managed;
use crate::permits::list;
use crate::scope::Scope;
use group_expand::{Areas, GroupSets};
use permit_pieces::permits_left;
use permit_set::Permit;
use spoc_base::{Fault, IfId, NoMemory, Refusal};
use std::alloc::Global;
use topology::Topo;
use zone_graph::ZoneGraph;

// How many permits there may be, and how many denials.
const MOST_PERMITS: usize = 4_000_000;

// Whether the rules of the action list more than may be.
fn are_too_many(scope: &Scope<'_>, deny: bool) -> Result<bool, NoMemory>
    requires { IsScope scope.now }
    ensures { IfOk result (λ many. many ≡ nat_lt most_items (length (listed deny (site_in scope.now) scope.now.areas.now))) }
{
    Ok(count(scope, deny)? > MOST_PERMITS as u64)
}

// The fault of a rule with an interface of a managed router at an end.
fn end_fault(topo: Topo<'_>, k: u32, i: IfId) -> Fault
    requires service { k < length (policy_of topo).services }
    requires iface { i.0 < length (policy_of topo).ifaces }
    ensures { (zones : List ℕ) → IsTold (sources_of topo.entry) (record { policy = policy_of topo.entry; zones = zones }) (ManagedEnd k i.0) result }
{
    Fault::ManagedEnd {
        service: topo.services()[k as usize].name,
        iface: topo.iface(i).name,
    }
}

// The expanded permits, or the first ones of too many. What denials leave is found only where there
// are denials.
fn expanded(scope: &Scope<'_>) -> Result<Vec<Permit>, NoMemory>
    requires scope { IsScope scope.now }
    requires few { length (listed_permits (site_in scope.now) scope.now.areas.now) ≤ most_items }
    ensures { IfOk result (λ found. map permit_of found.items ≡ take (suc most_items) (permits_of (site_in scope.now) scope.now.areas.now)) }
{
    let denials = list(scope, true)?;
    let permits = list(scope, false)?;
    if denials.is_empty() {
        return Ok(permits);
    }
    permits_left(scope.alloc, &permits, &denials, MOST_PERMITS + 1)
}

/// The permits of all services: service by service, rule by rule, each source with each
/// destination and each protocol, and of each the pieces that all denials leave, whatever service
/// they stand in.
///
/// A refusal tells the first service with an interface of a managed router at an end of a rule, or
/// that there are more than 4,000,000 listed permits, listed denials or expanded permits. The lists
/// are counted before any is made, and no more expanded permits are made than one above that.
pub fn expand(
    alloc: Global,
    topo: Topo<'_>,
    graph: &ZoneGraph,
    areas: &Areas,
    sets: &GroupSets,
) -> Result<Vec<Permit>, Refusal>
    requires graph { IsGraphOf (policy_of topo) graph.now }
    requires areas { AreAreas (site_of topo graph.now) areas.now }
    requires sets { AreTables (site_of topo graph.now) areas.now sets.now }
    ensures permits { IfOk result (λ found. map permit_of found.items ≡ permits_of (site_of topo.entry graph.now) areas.now) }
    ensures clear { IfOk result (λ found. AreClear (site_of topo.entry graph.now) areas.now) }
    ensures refused { IfErr result (IsRefusalOf (TellsRule (sources_of topo.entry) (site_of topo.entry graph.now) areas.now)) }
{
    let scope = Scope {
        alloc,
        topo,
        graph,
        areas,
        sets,
    };
    if let Some((k, i)) = first_managed(&scope)? {
        return Err(Refusal::Policy(end_fault(topo, k, i)));
    }
    if are_too_many(&scope, false)? || are_too_many(&scope, true)? {
        return Err(Refusal::Policy(Fault::LimitPermits));
    }
    let permits = expanded(&scope)?;
    if permits.len() > MOST_PERMITS {
        return Err(Refusal::Policy(Fault::LimitPermits));
    }
    Ok(permits)
}
