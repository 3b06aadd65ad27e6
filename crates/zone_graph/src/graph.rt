ghost use Rattle.std.specs.Prelude.{◌≡◌, ◌<◌, [], ℕ, length, map, IfOk, slice_index, slice_index_or};
ghost use Rattle.topology.specs.View.{policy_of};
ghost use Rattle.zone_graph.specs.Grouped.{IsGraphOf};

use crate::groups::{group_doors, group_nets};
use crate::labels::labels;
use spoc_base::{IfId, NetId, NoMemory, ZoneId};
use std::alloc::Global;
use std::marker::Model;
use topology::Topo;

/// The zones of a policy: the networks that no managed router parts. They are numbered from 0 by
/// their least networks.
#[derive(Drop)]
pub struct ZoneGraph {
    zones: Vec<u32>,
    count: u32,
    nets: Vec<Vec<NetId>>,
    doors: Vec<Vec<IfId>>,
}

impl Model for ZoneGraph {
    ghost use Rattle.std.specs.Prelude.{◌≡◌, length, map};
    ghost use Rattle.zone_graph.specs.Grouped.{Graph, row_items};

    ghost Value = { Graph };

    ghost view = { λ g. record { zones = g.zones.items; nets = map (λ row. map (λ n. n.0) row) (row_items g.nets.items); doors = map (λ row. map (λ i. i.0) row) (row_items g.doors.items) } };

    ghost invariant = { λ g. g.count ≡ length g.nets.items };
}

impl ZoneGraph {
    /// How many zones there are.
    pub fn count(&self) -> u32
        ensures { result ≡ length self.now.nets }
    {
        self.count
    }

    /// The zone of a network.
    pub fn zone_of(&self, n: NetId) -> ZoneId
        requires { n.0 < length self.now.zones }
        ensures { result.0 ≡ slice_index self.now.zones n.0 }
    {
        ZoneId(self.zones[n.0 as usize])
    }

    /// The least network of a zone.
    pub fn first_net(&self, z: ZoneId) -> NetId
        requires { z.0 < length self.now.nets }
        ensures { result.0 ≡ slice_index (slice_index_or self.now.nets z.0 []) 0 }
    {
        first_of(self.nets(z))
    }

    /// The networks of a zone, by number.
    pub fn nets(&self, z: ZoneId) -> &[NetId]
        requires { z.0 < length self.now.nets }
        ensures { map (λ n. n.0) result.now ≡ slice_index_or self.now.nets z.0 [] }
    {
        &self.nets[z.0 as usize]
    }

    /// The interfaces of managed routers in a zone, by number.
    pub fn doors(&self, z: ZoneId) -> &[IfId]
        requires { z.0 < length self.now.doors }
        ensures { map (λ i. i.0) result.now ≡ slice_index_or self.now.doors z.0 [] }
    {
        &self.doors[z.0 as usize]
    }
}

// The first of some networks. A zone always has one.
fn first_of(nets: &[NetId]) -> NetId
    ensures { result.0 ≡ slice_index (map (λ n. n.0) nets.now) 0 }
{
    match nets.first() {
        Some(n) => *n,
        None => NetId(0),
    }
}

/// The zones of a policy, by a forest of networks in which the routers that aren't managed tie
/// their own, in little more than linear time.
pub fn zones(alloc: Global, topo: Topo<'_>) -> Result<ZoneGraph, NoMemory>
    ensures { IfOk result (λ graph. IsGraphOf (policy_of topo.entry) graph) }
{
    let (zones, count) = labels(alloc, topo)?;
    let nets = group_nets(alloc, &zones, count)?;
    let doors = group_doors(alloc, topo, &zones, count)?;
    Ok(ZoneGraph {
        zones,
        count,
        nets,
        doors,
    })
}
