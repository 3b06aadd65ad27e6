ghost use Rattle.std.specs.Prelude.{◌≡◌, ◌==◌, ◌<◌, Ok, Err, IfOk, IfErr, map, length, filter, slice_index};
ghost use Rattle.policy_laws.specs.Shaped.{IsShaped};
ghost use Rattle.topology.specs.First.{IsRefusalOf};
ghost use Rattle.topology.specs.View.{policy_of};
ghost use Rattle.nat_view.specs.Views.{seen_of};
ghost use Rattle.permit_set.specs.Shown.{permit_of};
ghost use Rattle.fault_text.specs.Texts.{fault_line};
ghost use Rattle.device_files.specs.Seen.{file_of};
ghost use Rattle.policy_outcome.specs.Files.{files_for, line_total};
ghost use Rattle.policy_outcome.specs.Outcome.{outcome_for, lists_for, counts_for};
ghost use Rattle.policy_outcome.specs.Found.{meaning_in, pairs_in, IsFound};
ghost use Rattle.policy_compile.specs.Seen.{counts_of, written_of, AreZoned, is_within};

use bumpalo::Bump;
use device_files::{DeviceFile, DeviceFiles, device_files};
use permit_set::Permit;
use policy_lists::lists;
use policy_meaning::{Findings, found};
use spoc_base::{Refusal, Row};
use std::alloc::Global;
use topology::Topo;
use zone_graph::{ZoneGraph, zones_are_counted};

/// What was compiled, in numbers.
#[derive(Clone, Copy, Debug, PartialEq, Eq)]
pub struct Summary {
    /// how many networks there are
    pub networks: u64,
    /// how many zones
    pub zones: u64,
    /// how many managed routers
    pub routers: u64,
    /// how many expanded permits, repeats counted
    pub permits: u64,
    /// how many of these have both ends in one zone
    pub local: u64,
    /// how many lines the lists have as they are written, the last deny of each among them
    pub lines: u64,
    /// how many routes
    pub routes: u64,
}

/// A file for each managed router, in the order of the routers, and the summary.
#[derive(Debug, Drop)]
pub struct Compiled {
    pub files: Row<DeviceFile>,
    pub summary: Summary,
}

// Whether both ends of a permit are in one zone.
fn is_local(graph: &ZoneGraph, permit: &Permit) -> bool
    requires src { permit.now.src.net.0 < length graph.now.zones }
    requires dst { permit.now.dst.net.0 < length graph.now.zones }
    ensures { result ≡ is_within graph.now.zones (permit_of permit.now) }
{
    graph.zone_of(permit.src.net).0 == graph.zone_of(permit.dst.net).0
}

// How many permits have both ends in one zone.
fn local(graph: &ZoneGraph, permits: &[Permit]) -> usize
    requires { AreZoned graph.now.zones permits.now }
    ensures { result ≡ length (filter (is_within graph.now.zones) (map permit_of permits.now)) }
{
    let mut count = 0;
    for permit in permits {
        if is_local(graph, permit) {
            count += 1;
        }
    }
    count
}

// The counts of what was written.
fn summarize(topo: Topo<'_>, found: &Findings<'_>, made: &DeviceFiles) -> Summary
    requires found { IsFound topo found.now.graph (seen_of found.now.views).views (map permit_of found.now.permits.items) }
    requires files { map file_of made.now.files ≡ files_for (policy_of topo) (lists_for (meaning_in topo)) }
    requires lines { made.now.lines ≡ line_total (policy_of topo) (lists_for (meaning_in topo)) }
    ensures { counts_of result ≡ counts_for (meaning_in topo.entry) }
{
    zones_are_counted();
    Summary {
        networks: topo.nets().len() as u64,
        zones: u64::from(found.graph.count()),
        routers: made.files.items().len() as u64,
        permits: found.permits.len() as u64,
        local: local(&found.graph, &found.permits) as u64,
        lines: made.lines,
        routes: 0,
    }
}

/// The device files and the summary of a policy, or its first fault: that of its areas, tags, views
/// and services, and then that of its walks and lists.
pub fn compile(alloc: Global, topo: Topo<'_>) -> Result<Compiled, Refusal>
    requires shaped { IsShaped (policy_of topo) }
    ensures done { IfOk result (λ c. outcome_for (meaning_in topo.entry) ≡ Ok (written_of c)) }
    ensures refused { IfErr result (IsRefusalOf (λ fault. outcome_for (meaning_in topo.entry) ≡ Err (fault_line (pairs_in topo.entry) fault))) }
{
    let found = found(alloc, topo)?;
    let scratch = Bump::new(alloc);
    let lists = lists(
        alloc,
        &scratch,
        topo,
        &found.graph,
        &found.views,
        &found.permits,
    )?;
    let made = device_files(alloc, &scratch, topo, &lists)?;
    let summary = summarize(topo, &found, &made);
    Ok(Compiled {
        files: made.files,
        summary,
    })
}
