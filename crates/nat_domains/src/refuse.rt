ghost use Rattle.std.specs.Prelude.{◌≡◌, ◌==◌, ◌<◌, ◌≤◌, ℕ, true, length, MatchOption};
ghost use Rattle.std.specs.List.{list_any};
ghost use Rattle.std.specs.List.Sorted.{IsStrictlyIncreasing};
ghost use Rattle.policy_model.specs.Tags.{AreViews};
ghost use Rattle.policy_model.specs.Faults.{has_tag, is_translated_inside};
ghost use Rattle.policy_model.specs.FirstFault.{NatConflict, NatTwice, NatInside};
ghost use Rattle.topology.specs.Told.{IsTold};
ghost use Rattle.topology.specs.View.{policy_of, sources_of};
ghost use Rattle.zone_graph.specs.Grouped.{IsGraphOf};
ghost use Rattle.nat_domains.specs.Marks.{site_of};
ghost use Rattle.nat_domains.specs.Places.{NonePasses, IsFirstPlace};
ghost use Rattle.nat_domains.specs.Translated.{numbers_of, is_tag_at, HasNoTwo, HasNoPair, HasNoTwice, HasNoInside, IsLeastPair, IsFirstPair, IsLeastInside};
ghost use Rattle.nat_domains.specs.Told.{TellsTwice, TellsInside};

use crate::look::net_count;
use crate::naming::{net_name, tag_name, zone_name};
use crate::table::Conflict;
use spoc_base::{Fault, NetId, Prefix, TagId, ZoneId};
use topology::Topo;
use zone_graph::{TagTable, ZoneGraph};

/// Two tags of a network that are in force in one zone.
#[derive(Clone, Copy)]
pub(crate) struct Twice {
    pub net: NetId,
    pub tag: TagId,
    pub other: TagId,
}

/// The fault of a conflict.
pub(crate) fn conflict_fault(topo: Topo<'_>, graph: &ZoneGraph, conflict: Conflict) -> Fault
    requires graph { IsGraphOf (policy_of topo) graph.now }
    requires zone { conflict.zone.0 < length graph.now.nets }
    requires tag { conflict.tag.0 < length (policy_of topo).tags }
    ensures { IsTold (sources_of topo.entry) (site_of topo.entry graph.now) (NatConflict conflict.tag.0 conflict.zone.0) result }
{
    Fault::NatConflict {
        tag: tag_name(topo, conflict.tag),
        zone: zone_name(topo, graph, conflict.zone),
    }
}

// The fault of a network that two tags translate in a zone.
fn told_twice(topo: Topo<'_>, graph: &ZoneGraph, z: ZoneId, twice: Twice) -> Fault
    requires graph { IsGraphOf (policy_of topo) graph.now }
    requires zone { z.0 < length graph.now.nets }
    requires net { twice.net.0 < length (policy_of topo).nets }
    requires tag { twice.tag.0 < length (policy_of topo).tags }
    requires other { twice.other.0 < length (policy_of topo).tags }
    ensures { IsTold (sources_of topo.entry) (site_of topo.entry graph.now) (NatTwice twice.net.0 z.0 twice.tag.0 twice.other.0) result }
{
    Fault::NatTwice {
        net: net_name(topo, twice.net),
        zone: zone_name(topo, graph, z),
        first: tag_name(topo, twice.tag),
        second: tag_name(topo, twice.other),
    }
}

// The fault of a network that a tag translates inside.
fn told_inside(topo: Topo<'_>, graph: &ZoneGraph, n: NetId, tag: TagId) -> Fault
    requires net { n.0 < length (policy_of topo).nets }
    requires tag { tag.0 < length (policy_of topo).tags }
    ensures { IsTold (sources_of topo.entry) (site_of topo.entry graph.now) (NatInside n.0 tag.0) result }
{
    Fault::NatInside {
        net: net_name(topo, n),
        tag: tag_name(topo, tag),
    }
}

fn has_nat(nats: &[(TagId, Option<Prefix>)], tag: TagId) -> bool
    ensures { result ≡ list_any (λ nat. nat.0.0 == tag.0) nats.now }
{
    nats.iter().any(|nat| nat.0.0 == tag.0)
}

// Whether a tag translates or hides a network.
fn translates(topo: Topo<'_>, n: NetId, tag: TagId) -> bool
    requires { n.0 < length (policy_of topo).nets }
    ensures { result ≡ has_tag (policy_of topo.entry) n.0 tag.0 }
{
    has_nat(topo.net(n).nats, tag)
}

// The first place in a row, from one on, at which a tag of the network stands.
fn first_tag(topo: Topo<'_>, n: NetId, row: &[TagId], from: usize) -> Option<usize>
    requires net { n.0 < length (policy_of topo).nets }
    requires from { from ≤ length row.now }
    ensures { MatchOption result (NonePasses (is_tag_at (policy_of topo.entry) n.0 (numbers_of row.now)) from (length row.now)) (λ place. IsFirstPlace (is_tag_at (policy_of topo.entry) n.0 (numbers_of row.now)) from (length row.now) place) }
{
    for k in from..row.len() {
        if translates(topo, n, row[k]) {
            return Some(k);
        }
    }
    None
}

// The first two tags of the network in a row.
fn two_tags(topo: Topo<'_>, n: NetId, row: &[TagId]) -> Option<Twice>
    requires net { n.0 < length (policy_of topo).nets }
    requires ascending { IsStrictlyIncreasing (numbers_of row.now) }
    ensures { MatchOption result (HasNoTwo (policy_of topo.entry) (numbers_of row.now) n.0) (λ two. (two.net.0 ≡ n.0) × IsLeastPair (policy_of topo.entry) (numbers_of row.now) n.0 two.tag.0 two.other.0) }
{
    if topo.net(n).nats.len() < 2 {
        return None;
    }
    let first = first_tag(topo, n, row, 0)?;
    let second = first_tag(topo, n, row, first + 1)?;
    Some(Twice {
        net: n,
        tag: row[first],
        other: row[second],
    })
}

// The first network with two tags in a row, and its first two.
fn first_pair(topo: Topo<'_>, row: &[TagId]) -> Option<Twice>
    requires { IsStrictlyIncreasing (numbers_of row.now) }
    ensures { MatchOption result (HasNoPair (policy_of topo.entry) (numbers_of row.now)) (λ two. IsFirstPair (policy_of topo.entry) (numbers_of row.now) two.net.0 two.tag.0 two.other.0) }
{
    if row.len() < 2 {
        return None;
    }
    for n in 0..net_count(topo) {
        if let Some(two) = two_tags(topo, NetId(n), row) {
            return Some(two);
        }
    }
    None
}

/// The first fault of a network that is translated twice.
pub(crate) fn twice_fault(topo: Topo<'_>, graph: &ZoneGraph, table: &TagTable) -> Option<Fault>
    requires graph { IsGraphOf (policy_of topo) graph.now }
    requires views { AreViews (site_of topo graph.now) table.now }
    ensures { MatchOption result (HasNoTwice (site_of topo.entry graph.now) table.now) (λ fault. TellsTwice (sources_of topo.entry) (site_of topo.entry graph.now) table.now fault) }
{
    for z in 0..graph.count() {
        if let Some(two) = first_pair(topo, table.zone(ZoneId(z))) {
            return Some(told_twice(topo, graph, ZoneId(z), two));
        }
    }
    None
}

// The first tag of a network that is in force in its own zone.
fn tag_inside(topo: Topo<'_>, graph: &ZoneGraph, table: &TagTable, n: NetId) -> Option<TagId>
    requires graph { IsGraphOf (policy_of topo) graph.now }
    requires views { AreViews (site_of topo graph.now) table.now }
    requires net { n.0 < length (policy_of topo).nets }
    ensures { MatchOption result ((tag : ℕ) → is_translated_inside (site_of topo.entry graph.now) table.now n.0 tag ≡ true → ⊥) (λ tag. IsLeastInside (site_of topo.entry graph.now) table.now n.0 tag.0) }
{
    let row = table.zone(graph.zone_of(n));
    let place = first_tag(topo, n, row, 0)?;
    Some(row[place])
}

/// The first fault of a network that is translated inside.
pub(crate) fn inside_fault(topo: Topo<'_>, graph: &ZoneGraph, table: &TagTable) -> Option<Fault>
    requires graph { IsGraphOf (policy_of topo) graph.now }
    requires views { AreViews (site_of topo graph.now) table.now }
    ensures { MatchOption result (HasNoInside (site_of topo.entry graph.now) table.now (length (policy_of topo.entry).nets)) (λ fault. TellsInside (sources_of topo.entry) (site_of topo.entry graph.now) table.now fault) }
{
    for n in 0..net_count(topo) {
        if let Some(tag) = tag_inside(topo, graph, table, NetId(n)) {
            return Some(told_inside(topo, graph, NetId(n), tag));
        }
    }
    None
}
