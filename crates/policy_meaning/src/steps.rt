ghost use Rattle.std.specs.Prelude.{◌≡◌, ◌≤◌, length, map, Err, IfOk, IfErr, OnOk};
ghost use Rattle.policy_laws.specs.Shaped.{IsShaped};
ghost use Rattle.policy_model.specs.Headline.{permits_in};
ghost use Rattle.policy_model.specs.Objects.{AreAreas};
ghost use Rattle.topology.specs.First.{IsRefusalOf};
ghost use Rattle.topology.specs.View.{policy_of};
ghost use Rattle.group_expand.specs.Seen.{site_of};
ghost use Rattle.nat_view.specs.Views.{seen_of};
ghost use Rattle.permit_set.specs.Shown.{permit_of};
ghost use Rattle.fault_text.specs.Texts.{fault_line};
ghost use Rattle.policy_outcome.specs.Outcome.{outcome_for, after_areas, after_tags, after_views, after_services};
ghost use Rattle.policy_outcome.specs.Found.{meaning_in, pairs_in, IsZoned};

use fault_text::told_lines_are_those;
use group_expand::group_sets::group_sets;
use group_expand::{Areas, areas};
use nat_domains::domains;
use nat_view::Views;
use permit_set::Permit;
use service_rules::expand;
use shadow_checks::refuse_shadowed;
use spoc_base::{NoMemory, Refusal};
use std::alloc::Global;
use topology::Topo;
use view_faults::views;
use zone_graph::{TagTable, ZoneGraph, zones};

/// The zones of a policy.
pub(crate) fn zones_found(alloc: Global, topo: Topo<'_>) -> Result<ZoneGraph, NoMemory>
    ensures { IfOk result (λ graph. IsZoned topo.entry graph) }
{
    zones(alloc, topo)
}

/// The zones of its areas, unless an area is split.
pub(crate) fn areas_found(
    alloc: Global,
    topo: Topo<'_>,
    graph: &ZoneGraph,
) -> Result<Areas, Refusal>
    requires { IsZoned topo graph.now }
    ensures areas { IfOk result (λ areas. AreAreas (site_of topo.entry graph.now) areas) }
    ensures are { IfOk result (λ areas. areas ≡ (meaning_in topo.entry).areas) }
    ensures clear { OnOk result (outcome_for (meaning_in topo.entry) ≡ after_areas (meaning_in topo.entry)) }
    ensures refused { IfErr result (IsRefusalOf (λ fault. outcome_for (meaning_in topo.entry) ≡ Err (fault_line (pairs_in topo.entry) fault))) }
{
    told_lines_are_those();
    areas(alloc, topo, graph)
}

/// The tags in force in its zones, unless one is in force where it must not be.
pub(crate) fn tags_found(
    alloc: Global,
    topo: Topo<'_>,
    graph: &ZoneGraph,
) -> Result<TagTable, Refusal>
    requires { IsZoned topo graph.now }
    ensures are { IfOk result (λ tags. tags ≡ (meaning_in topo.entry).views) }
    ensures clear { OnOk result (after_areas (meaning_in topo.entry) ≡ after_tags (meaning_in topo.entry)) }
    ensures refused { IfErr result (IsRefusalOf (λ fault. after_areas (meaning_in topo.entry) ≡ Err (fault_line (pairs_in topo.entry) fault))) }
{
    told_lines_are_those();
    domains(alloc, topo, graph)
}

/// The views of its zones and routers, unless too many of them differ, or two networks have one
/// prefix in one of them, or an address of a host or an interface lies at another network there.
pub(crate) fn views_found<'a>(
    alloc: Global,
    topo: Topo<'a>,
    graph: &ZoneGraph,
    tags: &TagTable,
) -> Result<Views<'a>, Refusal>
    requires zoned { IsZoned topo graph.now }
    requires are { tags.now ≡ (meaning_in topo).views }
    requires shaped { IsShaped (policy_of topo) }
    ensures policy { IfOk result (λ v. (seen_of v).policy ≡ policy_of topo.entry) }
    ensures are { IfOk result (λ v. (seen_of v).views ≡ (meaning_in topo.entry).views) }
    ensures clear { OnOk result (after_tags (meaning_in topo.entry) ≡ after_views (meaning_in topo.entry)) }
    ensures refused { IfErr result (IsRefusalOf (λ fault. after_tags (meaning_in topo.entry) ≡ Err (fault_line (pairs_in topo.entry) fault))) }
{
    told_lines_are_those();
    let views = views(alloc, topo, graph, tags)?;
    refuse_shadowed(alloc, topo, graph, &views)?;
    Ok(views)
}

/// Its expanded permits, unless an interface of a managed router is an end of a rule, or there are
/// too many.
pub(crate) fn permits_found(
    alloc: Global,
    topo: Topo<'_>,
    graph: &ZoneGraph,
    areas: &Areas,
) -> Result<Vec<Permit>, Refusal>
    requires zoned { IsZoned topo graph.now }
    requires areas { AreAreas (site_of topo graph.now) areas.now }
    requires are { areas.now ≡ (meaning_in topo).areas }
    ensures are { IfOk result (λ permits. map permit_of permits.items ≡ permits_in (meaning_in topo.entry)) }
    ensures few { IfOk result (λ permits. length (map permit_of permits.items) ≤ 4000000) }
    ensures clear { OnOk result (after_views (meaning_in topo.entry) ≡ after_services (meaning_in topo.entry)) }
    ensures refused { IfErr result (IsRefusalOf (λ fault. after_views (meaning_in topo.entry) ≡ Err (fault_line (pairs_in topo.entry) fault))) }
{
    told_lines_are_those();
    let sets = group_sets(alloc, topo, graph, areas)?;
    expand(alloc, topo, graph, areas, &sets)
}
