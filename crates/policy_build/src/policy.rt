ghost use Rattle.std.specs.Prelude.{◌≡◌, ◌<◌, true, map, length, IfOk};
ghost use Rattle.std.specs.List.{All, list_all};
ghost use Rattle.policy_decls.specs.Said.{policy_said};
ghost use Rattle.topology.specs.Sound.{IsSound};
ghost use Rattle.topology.specs.Seen.{iface_seen};
ghost use Rattle.topology.specs.Kept.{HoldsRows, ifaces_of, ifaces_at};
ghost use Rattle.topology.specs.View.{policy_of, sources_of};
ghost use Rattle.policy_build.specs.Views.{decls_of, sources_in};
ghost use Rattle.policy_build.specs.Fair.{declares_fair};
ghost use Rattle.policy_build.specs.Good.{IsGood};
ghost use Rattle.policy_build.specs.Ifaces.{IsPlaced};
ghost use Rattle.policy_build.specs.Rows.{owned_by, all_owned};

use crate::aggregates::aggregates;
use crate::areas::areas;
use crate::groups::groups;
use crate::hosts::hosts;
use crate::ifaces::ifaces;
use crate::nets::networks;
use crate::restrictions::restrictions;
use crate::routers::routers;
use crate::scope::Scope;
use crate::services::services;
use crate::sorting::rows;
use crate::tags::tags;
use spoc_base::NoMemory;
use std::alloc::Global;
use topology::{IfRows, Iface, Parts, Topo};

/// The policy of declarations that are good.
pub(crate) fn policy<'a>(scope: Scope<'a, '_>) -> Result<Topo<'a>, NoMemory>
    requires good { All (IsGood (sources_in scope)) (decls_of scope) }
    requires fair { list_all declares_fair (decls_of scope) ≡ true }
    requires placed { All (IsPlaced (decls_of scope)) (decls_of scope) }
    requires sound { IsSound (policy_said (decls_of scope)) }
    ensures policy { IfOk result (λ topo. policy_of topo ≡ policy_said (decls_of scope.entry)) }
    ensures sources { IfOk result (λ topo. sources_of topo ≡ sources_in scope.entry) }
{
    let nets = networks(scope)?;
    let hosts = hosts(scope)?;
    let routers = routers(scope)?;
    let ifaces = ifaces(scope)?;
    let tags = tags(scope)?;
    let groups = groups(scope)?;
    let areas = areas(scope)?;
    let aggregates = aggregates(scope)?;
    let services = services(scope)?;
    let router_count = routers.len();
    let net_count = nets.len();
    let at_router = at_routers(scope, ifaces, router_count)?;
    let at_net = at_nets(scope, ifaces, net_count)?;
    let restrictions = restrictions(scope, ifaces, at_net.ids)?;
    let parts = Parts {
        sources: scope.sources,
        nets,
        hosts,
        routers,
        ifaces,
        tags,
        restrictions,
        groups,
        areas,
        aggregates,
        services,
        at_router,
        at_net,
    };
    Ok(Topo::new(parts))
}

// The interfaces of each router.
fn at_routers<'a>(
    scope: Scope<'a, '_>,
    ifaces: &[Iface<'a>],
    count: usize,
) -> Result<IfRows<'a>, NoMemory>
    requires { All (λ i. i.router.0 < count) ifaces.now }
    ensures { IfOk result (λ rows. HoldsRows rows count (owned_by (map (λ i. i.router.0) ifaces.now))) }
{
    let owners = router_numbers(scope.alloc, ifaces)?;
    rows(scope.alloc, scope.arena, &owners, count)
}

fn router_numbers(alloc: Global, ifaces: &[Iface<'_>]) -> Result<Vec<u32>, NoMemory>
    ensures { IfOk result (λ owners. owners.items ≡ map (λ i. i.router.0) ifaces.now) }
{
    let mut owners = Vec::new(alloc);
    for iface in ifaces {
        owners.push(iface.router.0)?;
    }
    Ok(owners)
}

// The interfaces at each network.
fn at_nets<'a>(
    scope: Scope<'a, '_>,
    ifaces: &[Iface<'a>],
    count: usize,
) -> Result<IfRows<'a>, NoMemory>
    requires { All (λ i. i.net.0 < count) ifaces.now }
    ensures rows { IfOk result (λ rows. HoldsRows rows count (owned_by (map (λ i. i.net.0) ifaces.now))) }
    ensures whole { IfOk result (λ rows. map (λ i. i.0) rows.ids.now ≡ all_owned (map (λ i. i.net.0) ifaces.now) count) }
{
    let owners = net_numbers(scope.alloc, ifaces)?;
    rows(scope.alloc, scope.arena, &owners, count)
}

fn net_numbers(alloc: Global, ifaces: &[Iface<'_>]) -> Result<Vec<u32>, NoMemory>
    ensures { IfOk result (λ owners. owners.items ≡ map (λ i. i.net.0) ifaces.now) }
{
    let mut owners = Vec::new(alloc);
    for iface in ifaces {
        owners.push(iface.net.0)?;
    }
    Ok(owners)
}
