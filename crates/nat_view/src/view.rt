ghost use Rattle.topology.specs.View.{policy_of};
ghost use Rattle.nat_view.specs.Shown.{IsTableOf};
ghost use Rattle.std.proofs.Props.{props};

use crate::place::{moved, moved_range};
use crate::table::Table;
use spoc_base::{Addr, AddrRange, NetId, NoMemory, Prefix};
use std::alloc::Global;
use topology::Topo;

/// Where the addresses of networks lie at a place: in a zone, or inside a router.
#[derive(Clone, Copy)]
pub struct View<'v> {
    topo: Topo<'v>,
    table: &'v Table,
    ghost kept: { IsTableOf (policy_of topo) table.now } by { Prim.hlevel props },
}

impl<'v> View<'v> {
    ghost use Rattle.std.specs.Prelude.{◌≡◌, ◌<◌, ℕ, length, map, option_map, is_none, is_some, IfOk, Some, IsTrue};
    ghost use Rattle.spoc_base.specs.Address.{addresses, interval_covers};
    ghost use Rattle.spoc_base.specs.Shown.{cidr_of, interval_of};
    ghost use Rattle.policy_model.specs.Policy.{net_of};
    ghost use Rattle.policy_model.specs.Places as defined;
    ghost use Rattle.topology.specs.Sound.{keeps_length};
    ghost use Rattle.nat_view.specs.Seen.{nets_within};
    ghost use Rattle.nat_view.specs.Shown.{tags_of};
    ghost use Rattle.nat_view.specs.Sights.{sight_of};

    /// The view of a table.
    pub(crate) fn new(topo: Topo<'v>, table: &'v Table) -> View<'v>
        requires { IsTableOf (policy_of topo) table.now }
        ensures { sight_of result ≡ record { policy = policy_of topo.entry; tags = tags_of table.now } }
    {
        View { topo, table }
    }

    /// Whether a network is hidden here: it has no prefix, and no address of it lies anywhere.
    pub fn hidden(self, n: NetId) -> bool
        requires { n.0 < length (sight_of self).policy.nets }
        ensures { result ≡ is_none (defined.prefix_in (sight_of self.entry).policy (sight_of self.entry).tags n.0) }
    {
        self.seen_prefix(n).is_none()
    }

    /// The prefix of a network. `None` exactly where it is hidden.
    pub fn seen_prefix(self, n: NetId) -> Option<Prefix>
        requires { n.0 < length (sight_of self).policy.nets }
        ensures { option_map cidr_of result ≡ defined.prefix_in (sight_of self.entry).policy (sight_of self.entry).tags n.0 }
    {
        self.table.seen[n.0 as usize]
    }

    /// The prefix of a network that isn't hidden.
    pub fn prefix_in(self, n: NetId) -> Prefix
        requires there { n.0 < length (sight_of self).policy.nets }
        requires seen { IsTrue (is_some (defined.prefix_in (sight_of self).policy (sight_of self).tags n.0)) }
        ensures { defined.prefix_in (sight_of self.entry).policy (sight_of self.entry).tags n.0 ≡ Some (cidr_of result) }
    {
        match self.seen_prefix(n) {
            Some(prefix) => prefix,
            None => unreachable!(),
        }
    }

    /// The network with the longest prefix that holds the address. `None` exactly where none holds
    /// it. A hidden network holds none.
    pub fn place(self, a: Addr) -> Option<NetId>
        ensures { option_map (λ n. n.0) result ≡ defined.place (sight_of self.entry).policy (sight_of self.entry).tags a.0 }
    {
        self.table.tree.place(a)
    }

    // The own prefix of a network, and the one here, if it isn't hidden. Both have one length.
    fn prefixes(self, n: NetId) -> (Prefix, Option<Prefix>)
        requires { n.0 < length (sight_of self).policy.nets }
        ensures own { cidr_of result.0 ≡ (net_of (sight_of self.entry).policy n.0).own }
        ensures here { option_map cidr_of result.1 ≡ defined.prefix_in (sight_of self.entry).policy (sight_of self.entry).tags n.0 }
        ensures length { IsTrue (keeps_length (cidr_of result.0) (option_map cidr_of result.1)) }
    {
        (self.topo.net(n).own, self.table.seen[n.0 as usize])
    }

    /// Where an address of a network lies here. `None` exactly where the network is hidden, or the
    /// address is outside its own prefix.
    pub fn to_view(self, n: NetId, a: Addr) -> Option<Addr>
        requires { n.0 < length (sight_of self).policy.nets }
        ensures { option_map (λ x. x.0) result ≡ defined.to_view (sight_of self.entry).policy (sight_of self.entry).tags n.0 a.0 }
    {
        let (own, here) = self.prefixes(n);
        match here {
            Some(here) if own.holds(a) => Some(moved(own, here, a)),
            _ => None,
        }
    }

    /// Which address of a network lies at this one here. `None` exactly where the network is
    /// hidden, or this address is outside its prefix here.
    pub fn from_view(self, n: NetId, a: Addr) -> Option<Addr>
        requires { n.0 < length (sight_of self).policy.nets }
        ensures { option_map (λ x. x.0) result ≡ defined.from_view (sight_of self.entry).policy (sight_of self.entry).tags n.0 a.0 }
    {
        let (own, here) = self.prefixes(n);
        match here {
            Some(here) if here.holds(a) => Some(moved(here, own, a)),
            _ => None,
        }
    }

    /// Where a range of addresses of a network lies here. `None` exactly where the network is
    /// hidden.
    pub fn range_in(self, n: NetId, r: AddrRange) -> Option<AddrRange>
        requires there { n.0 < length (sight_of self).policy.nets }
        requires inside { IsTrue (interval_covers (addresses (net_of (sight_of self).policy n.0).own) (interval_of r)) }
        ensures { option_map interval_of result ≡ defined.range_in (sight_of self.entry).policy (sight_of self.entry).tags n.0 (interval_of r) }
    {
        let (own, here) = self.prefixes(n);
        match here {
            Some(here) => Some(moved_range(own, here, r)),
            None => None,
        }
    }

    /// The networks whose prefixes here are inside `p`, by number. Equal prefixes count, and hidden
    /// networks don't.
    pub fn inside(self, alloc: Global, p: Prefix) -> Result<Vec<NetId>, NoMemory>
        ensures { IfOk result (λ v. map (λ n. n.0) v.items ≡ nets_within (sight_of self.entry).policy (sight_of self.entry).tags (cidr_of p)) }
    {
        let found = self.table.tree.inside(alloc, p)?;
        Ok(found)
    }
}
