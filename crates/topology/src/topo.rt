ghost use Rattle.std.specs.Prelude.{◌≡◌, ◌<◌, ℕ, length, map};
ghost use Rattle.std.proofs.Props.{props};
ghost use Rattle.spoc_base.proofs.PlainProps.{box_prop, set_prop, unmarked_prop};
ghost use Rattle.topology.specs.Kept.{IsKept};

use crate::items::{
    Aggregate, Area, Group, Host, Iface, Network, Parts, Restriction, Router, Service, Tag,
};
use spoc_base::{HostId, IfId, NetId, RouterId, Span};

/// The network of a policy: its lists, and the interfaces of each router and at each network.
/// Each number in it is below the count of its kind, each name is a part of the sources, and
/// all that declarations must keep is kept.
#[derive(Clone, Copy)]
pub struct Topo<'a> {
    parts: Parts<'a>,
    pub ghost kept: { IsKept parts } by { Prim.hlevel (props, box_prop, set_prop, unmarked_prop) },
}

impl<'a> Topo<'a> {
    ghost use Rattle.std.specs.List.{All};
    ghost use Rattle.policy_model.specs.Policy.{net_of, host_of, router_of, iface_of, group_of, area_of, aggregate_of, net_at, router_at};
    ghost use Rattle.topology.specs.Texts.{LiesIn, text_at, IsCalled, IsIfaceCalled};
    ghost use Rattle.spoc_base.specs.declared.place.Kind.TheVariants as kind;
    ghost use Rattle.topology.specs.Seen.{net_seen, host_seen, router_seen, iface_seen, tag_seen, restriction_seen, group_seen, area_seen, aggregate_seen, service_seen, plain_of};
    ghost use Rattle.topology.specs.Kept.{ifaces_of, ifaces_at};
    ghost use Rattle.topology.specs.View.{policy_of, sources_of};

    /// The network of these lists, which must be sound.
    pub fn new(parts: Parts<'a>) -> Topo<'a>
        requires { IsKept parts }
        ensures policy { policy_of result ≡ plain_of parts.entry }
        ensures sources { sources_of result ≡ parts.entry.sources.now }
    {
        Topo { parts }
    }

    /// The networks, by number.
    pub fn nets(self) -> &'a [Network<'a>]
        ensures { map (net_seen (sources_of self.entry)) result.now ≡ (policy_of self.entry).nets }
    {
        self.parts.nets
    }

    /// The hosts, by number.
    pub fn hosts(self) -> &'a [Host]
        ensures { map (host_seen (sources_of self.entry)) result.now ≡ (policy_of self.entry).hosts }
    {
        self.parts.hosts
    }

    /// The routers, managed and unmanaged, by number.
    pub fn routers(self) -> &'a [Router]
        ensures { map (router_seen (sources_of self.entry)) result.now ≡ (policy_of self.entry).routers }
    {
        self.parts.routers
    }

    /// The interfaces, by number.
    pub fn ifaces(self) -> &'a [Iface<'a>]
        ensures { map (iface_seen (sources_of self.entry)) result.now ≡ (policy_of self.entry).ifaces }
    {
        self.parts.ifaces
    }

    /// The tags of translations, by number.
    pub fn tags(self) -> &'a [Tag]
        ensures seen { map (tag_seen (sources_of self.entry)) result.now ≡ (policy_of self.entry).tags }
        ensures named { All (λ x. IsCalled kind.Tag (sources_of self.entry) x.name) result.now }
    {
        self.parts.tags
    }

    /// The restrictions of paths, by number.
    pub fn restrictions(self) -> &'a [Restriction<'a>]
        ensures { map (restriction_seen (sources_of self.entry)) result.now ≡ (policy_of self.entry).restrictions }
    {
        self.parts.restrictions
    }

    /// The groups, by number.
    pub fn groups(self) -> &'a [Group<'a>]
        ensures { map (group_seen (sources_of self.entry)) result.now ≡ (policy_of self.entry).groups }
    {
        self.parts.groups
    }

    /// The areas, by number.
    pub fn areas(self) -> &'a [Area<'a>]
        ensures seen { map (area_seen (sources_of self.entry)) result.now ≡ (policy_of self.entry).areas }
        ensures named { All (λ x. IsCalled kind.Area (sources_of self.entry) x.name) result.now }
    {
        self.parts.areas
    }

    /// The aggregates, by number.
    pub fn aggregates(self) -> &'a [Aggregate]
        ensures { map (aggregate_seen (sources_of self.entry)) result.now ≡ (policy_of self.entry).aggregates }
    {
        self.parts.aggregates
    }

    /// The services, by number.
    pub fn services(self) -> &'a [Service<'a>]
        ensures seen { map (service_seen (sources_of self.entry)) result.now ≡ (policy_of self.entry).services }
        ensures named { All (λ x. IsCalled kind.Service (sources_of self.entry) x.name) result.now }
    {
        self.parts.services
    }

    /// The network of this number.
    pub fn net(self, n: NetId) -> Network<'a>
        requires { n.0 < length (policy_of self).nets }
        ensures seen { net_of (policy_of self.entry) n.0 ≡ net_seen (sources_of self.entry) result }
        ensures named { IsCalled kind.Network (sources_of self.entry) result.name }
    {
        self.parts.nets[n.0 as usize]
    }

    /// The host of this number.
    pub fn host(self, h: HostId) -> Host
        requires { h.0 < length (policy_of self).hosts }
        ensures seen { host_of (policy_of self.entry) h.0 ≡ host_seen (sources_of self.entry) result }
        ensures named { IsCalled kind.Host (sources_of self.entry) result.name }
    {
        self.parts.hosts[h.0 as usize]
    }

    /// The router of this number.
    pub fn router(self, r: RouterId) -> Router
        requires { r.0 < length (policy_of self).routers }
        ensures seen { router_of (policy_of self.entry) r.0 ≡ router_seen (sources_of self.entry) result }
        ensures named { IsCalled kind.Router (sources_of self.entry) result.name }
    {
        self.parts.routers[r.0 as usize]
    }

    /// The interface of this number.
    pub fn iface(self, i: IfId) -> Iface<'a>
        requires { i.0 < length (policy_of self).ifaces }
        ensures seen { iface_of (policy_of self.entry) i.0 ≡ iface_seen (sources_of self.entry) result }
        ensures named { IsIfaceCalled (sources_of self.entry) (router_of (policy_of self.entry) result.router.0).name (net_of (policy_of self.entry) result.net.0).name result.name }
        ensures hardware { LiesIn (sources_of self.entry) result.hardware }
    {
        self.parts.ifaces[i.0 as usize]
    }

    /// The group at this place.
    pub fn group(self, g: u32) -> Group<'a>
        requires { g < length (policy_of self).groups }
        ensures seen { group_of (policy_of self.entry) g ≡ group_seen (sources_of self.entry) result }
        ensures named { IsCalled kind.Group (sources_of self.entry) result.name }
    {
        self.parts.groups[g as usize]
    }

    /// The area at this place.
    pub fn area(self, k: u32) -> Area<'a>
        requires { k < length (policy_of self).areas }
        ensures seen { area_of (policy_of self.entry) k ≡ area_seen (sources_of self.entry) result }
        ensures named { IsCalled kind.Area (sources_of self.entry) result.name }
    {
        self.parts.areas[k as usize]
    }

    /// The aggregate at this place.
    pub fn aggregate(self, k: u32) -> Aggregate
        requires { k < length (policy_of self).aggregates }
        ensures seen { aggregate_of (policy_of self.entry) k ≡ aggregate_seen (sources_of self.entry) result }
        ensures named { IsCalled kind.Aggregate (sources_of self.entry) result.name }
    {
        self.parts.aggregates[k as usize]
    }

    /// The interfaces of a router, by number.
    pub fn ifs_of(self, r: RouterId) -> &'a [IfId]
        requires { r.0 < length (policy_of self).routers }
        ensures { map (λ i. i.0) result.now ≡ ifaces_of (policy_of self.entry) r.0 }
    {
        self.parts.at_router.row(r.0 as usize)
    }

    /// The interfaces at a network, by number.
    pub fn ifs_at(self, n: NetId) -> &'a [IfId]
        requires { n.0 < length (policy_of self).nets }
        ensures { map (λ i. i.0) result.now ≡ ifaces_at (policy_of self.entry) n.0 }
    {
        self.parts.at_net.row(n.0 as usize)
    }

    /// The bytes of a part of the sources.
    pub fn text(self, s: Span) -> &'a [u8]
        requires { LiesIn (sources_of self) s }
        ensures { result.now ≡ text_at (sources_of self.entry) s }
    {
        let source = &self.parts.sources[s.file as usize];
        &source.text.bytes()[s.start as usize..s.end as usize]
    }
}
