ghost use Rattle.std.specs.Prelude.{◌≡◌, ◌+◌, ◌<◌, ℕ, [], true, false, length, map, IfOk, OnOk};
ghost use Rattle.policy_model.specs.Objects.{AreAreas, objects_by};
ghost use Rattle.policy_model.specs.Policy.{group_of};
ghost use Rattle.topology.specs.View.{policy_of};
ghost use Rattle.zone_graph.specs.Grouped.{IsGraphOf};
ghost use Rattle.group_expand.specs.Groups.{AreFilled, HaveChains, waits};
ghost use Rattle.group_expand.specs.Scope.{IsBase, site_at};
ghost use Rattle.group_expand.specs.Seen.{site_of};
ghost use Rattle.group_expand.specs.Sets.{AreTables, are_there, group_set, host_rows, object_seen, rows_seen};
ghost use Rattle.group_expand.specs.Spread.{AreUnmarked, Grows, marked};

use crate::area::Areas;
use crate::expr::of_union;
use crate::hosts::{empty_rows, host_rows};
use crate::object::Object;
use crate::scope::{Base, Scope};
use crate::spread::unmarked;
use crate::waits::waits;
use spoc_base::{HostId, NoMemory};
use std::alloc::Global;
use std::marker::Model;
use topology::Topo;
use zone_graph::ZoneGraph;

/// The hosts of each network, and the set of each group.
#[derive(Drop)]
pub struct GroupSets {
    hosts: Vec<Vec<HostId>>,
    groups: Vec<Vec<Object>>,
}

impl Model for GroupSets {
    ghost use Rattle.group_expand.specs.Sets.{Tables, host_rows, rows_seen};

    ghost Value = { Tables };

    ghost view = { λ t. record { hosts = host_rows t.hosts.items; groups = rows_seen t.groups.items } };
}

impl GroupSets {
    /// The hosts of each network.
    pub(crate) fn hosts(&self) -> &[Vec<HostId>]
        ensures { host_rows result.now ≡ self.now.hosts }
    {
        &self.hosts
    }

    /// The set of each group.
    pub(crate) fn groups(&self) -> &[Vec<Object>]
        ensures { rows_seen result.now ≡ self.now.groups }
    {
        &self.groups
    }
}

// The set of a group, by the sets of the groups that it names.
fn set_of(base: &Base<'_>, groups: &[Vec<Object>], g: u32) -> Result<Vec<Object>, NoMemory>
    requires base { IsBase base.now }
    requires each { length groups.now ≡ length (policy_of base.now.topo).groups }
    requires members { (k : ℕ) → are_there (policy_of base.now.topo) (group_set (rows_seen groups.now) k) ≡ true }
    requires there { g < length (policy_of base.now.topo).groups }
    ensures { IfOk result (λ found. map object_seen found.items ≡ objects_by (site_at base.now) base.now.areas.now (group_set (rows_seen groups.now)) [] (group_of (policy_of base.now.topo) g).objects) }
{
    let scope = Scope {
        alloc: base.alloc,
        topo: base.topo,
        graph: base.graph,
        areas: base.areas,
        hosts: base.hosts,
        groups,
        user: &[],
    };
    of_union(&scope, base.topo.group(g).objects)
}

// Makes the set of a group, unless it is done or names one that isn't.
fn try_group(
    base: &Base<'_>,
    g: u32,
    groups: &mut [Vec<Object>],
    done: &mut [bool],
) -> Result<(), NoMemory>
    requires base { IsBase base.now }
    requires there { g < length (policy_of base.now.topo).groups }
    requires filled { AreFilled (site_at base.now) base.now.areas.now done.old (rows_seen groups.old) }
    ensures filled { OnOk result (AreFilled (site_at base.now) base.now.areas.now done.new (rows_seen groups.new)) }
    ensures grows { OnOk result (Grows done.old done.new) }
    ensures left { OnOk result (marked done.new g ≡ false → waits done.old (group_of (policy_of base.now.topo) g).objects ≡ true) }
{
    if done[g as usize] {
        return Ok(());
    }
    if waits(done, base.topo.group(g).objects) {
        return Ok(());
    }
    groups[g as usize] = set_of(base, groups, g)?;
    done[g as usize] = true;
    Ok(())
}

// How many groups there are.
fn group_count(topo: Topo<'_>) -> u32
    ensures { result ≡ length (policy_of topo.entry).groups }
{
    topo.groups().len() as u32
}

// Makes the sets of all groups of which the ones that they name are done.
fn round(base: &Base<'_>, groups: &mut [Vec<Object>], done: &mut [bool]) -> Result<(), NoMemory>
    requires base { IsBase base.now }
    requires filled { AreFilled (site_at base.now) base.now.areas.now done.old (rows_seen groups.old) }
    ensures filled { OnOk result (AreFilled (site_at base.now) base.now.areas.now done.new (rows_seen groups.new)) }
    ensures chains { OnOk result ((count : ℕ) → HaveChains (policy_of base.now.topo) done.old count → HaveChains (policy_of base.now.topo) done.new (count + 1)) }
{
    for g in 0..group_count(base.topo) {
        try_group(base, g, groups, done)?;
    }
    Ok(())
}

// Makes the sets of all groups. Groups nest 64 deep at most.
fn fill_sets(base: &Base<'_>, groups: &mut [Vec<Object>], done: &mut [bool]) -> Result<(), NoMemory>
    requires base { IsBase base.now }
    requires bare { AreUnmarked done.old (length (policy_of base.now.topo).groups) }
    requires filled { AreFilled (site_at base.now) base.now.areas.now done.old (rows_seen groups.old) }
    ensures filled { OnOk result (AreFilled (site_at base.now) base.now.areas.now done.new (rows_seen groups.new)) }
    ensures all { OnOk result ((g : ℕ) → g < length (policy_of base.now.topo).groups → marked done.new g ≡ true) }
{
    for _ in 0..64u32 {
        round(base, groups, done)?;
    }
    Ok(())
}

/// The set of each group, each made once.
pub fn group_sets(
    alloc: Global,
    topo: Topo<'_>,
    graph: &ZoneGraph,
    areas: &Areas,
) -> Result<GroupSets, NoMemory>
    requires graph { IsGraphOf (policy_of topo) graph.now }
    requires areas { AreAreas (site_of topo graph.now) areas.now }
    ensures { IfOk result (λ sets. AreTables (site_of topo.entry graph.now) areas.now sets) }
{
    let hosts = host_rows(alloc, topo)?;
    let count = group_count(topo);
    let mut groups = empty_rows(alloc, count)?;
    let mut done = unmarked(alloc, count as usize)?;
    let base = Base {
        alloc,
        topo,
        graph,
        areas,
        hosts: &hosts,
    };
    fill_sets(&base, &mut groups, &mut done)?;
    Ok(GroupSets { hosts, groups })
}
