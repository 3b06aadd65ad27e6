ghost use Rattle.std.specs.Prelude.{◌≡◌, ◌++◌, map, flat_map, slice_get, option_map, IfOk, OnOk};
ghost use Rattle.std.specs.List.{All};
ghost use Rattle.spoc_base.specs.Shown.{interval_of};
ghost use Rattle.spoc_ast.specs.Seen.{word_seen, host_part_seen, net_part_seen, decl_seen};
ghost use Rattle.policy_decls.specs.Shapes.{spans_in};
ghost use Rattle.policy_decls.specs.Said.{range_or_none, hosts_said, adds_of, policy_said};
ghost use Rattle.policy_numbers.specs.Seen.{range_seen};
ghost use Rattle.spoc_base.specs.declared.place.Kind.TheVariants as kind;
ghost use Rattle.topology.specs.Texts.{IsCalled};
ghost use Rattle.topology.specs.Seen.{host_seen};
ghost use Rattle.policy_build.specs.Views.{decls_of, sources_in, listed};
ghost use Rattle.policy_build.specs.Good.{IsOrdered, IsGoodNetPart, IsGood};

use crate::scope::Scope;
use bumpalo::Bump;
use bumpalo::collections::into_bump_slice;
use policy_names::NameKind;
use policy_numbers::{address, range};
use spoc_ast::{Decl, HostPart, NetPart};
use spoc_base::{Addr, AddrRange, Kind, NetId, NoMemory};
use std::alloc::Global;
use topology::Host;

/// The hosts, by number.
pub(crate) fn hosts<'a>(scope: Scope<'a, '_>) -> Result<&'a [Host], NoMemory>
    requires { All (IsGood (sources_in scope)) (decls_of scope) }
    ensures said { IfOk result (λ hosts. map (host_seen (sources_in scope.entry)) hosts.now ≡ (policy_said (decls_of scope.entry)).hosts) }
    ensures written { IfOk result (λ hosts. All (λ x. IsCalled kind.Host (sources_in scope.entry) x.name) hosts.now) }
{
    let mut found = Vec::new(scope.arena);
    for decl in scope.decls {
        add_hosts(scope, decl, &mut found)?;
    }
    Ok(into_bump_slice(found))
}

fn add_hosts<'a>(
    scope: Scope<'a, '_>,
    decl: &Decl<'a>,
    found: &mut Vec<Host, &'a Bump>,
) -> Result<(), NoMemory>
    requires good { IsGood (sources_in scope) (decl_seen decl.now) }
    requires written { All (λ x. IsCalled kind.Host (sources_in scope) x.name) found.old.items }
    ensures said { OnOk result (map (host_seen (sources_in scope.entry)) found.new.items ≡ map (host_seen (sources_in scope.entry)) found.old.items ++ (adds_of (decls_of scope.entry) (decl_seen decl.now)).hosts) }
    ensures written { OnOk result (All (λ x. IsCalled kind.Host (sources_in scope.entry) x.name) found.new.items) }
{
    let Decl::Network { name, parts, .. } = decl else {
        return Ok(());
    };
    let net = NetId(scope.number(NameKind::Network, *name));
    hosts_of(scope, net, parts, found)
}

// Adds the hosts of a network.
fn hosts_of<'a>(
    scope: Scope<'a, '_>,
    net: NetId,
    parts: &[NetPart<'a>],
    found: &mut Vec<Host, &'a Bump>,
) -> Result<(), NoMemory>
    requires good { All (IsGoodNetPart (sources_in scope)) (map net_part_seen parts.now) }
    requires written { All (λ x. IsCalled kind.Host (sources_in scope) x.name) found.old.items }
    ensures said { OnOk result (map (host_seen (sources_in scope.entry)) found.new.items ≡ map (host_seen (sources_in scope.entry)) found.old.items ++ flat_map (hosts_said net.0) (map net_part_seen parts.now)) }
    ensures written { OnOk result (All (λ x. IsCalled kind.Host (sources_in scope.entry) x.name) found.new.items) }
{
    for part in parts {
        add_host(scope, net, part, found)?;
    }
    Ok(())
}

fn add_host<'a>(
    scope: Scope<'a, '_>,
    net: NetId,
    part: &NetPart<'a>,
    found: &mut Vec<Host, &'a Bump>,
) -> Result<(), NoMemory>
    requires good { IsGoodNetPart (sources_in scope) (net_part_seen part.now) }
    requires written { All (λ x. IsCalled kind.Host (sources_in scope) x.name) found.old.items }
    ensures said { OnOk result (map (host_seen (sources_in scope.entry)) found.new.items ≡ map (host_seen (sources_in scope.entry)) found.old.items ++ hosts_said net.0 (net_part_seen part.now)) }
    ensures written { OnOk result (All (λ x. IsCalled kind.Host (sources_in scope.entry) x.name) found.new.items) }
{
    let NetPart::Host { name, parts } = part else {
        return Ok(());
    };
    let range = host_range(scope.alloc, parts)?;
    let host = Host {
        name: scope.named(Kind::Host, *name),
        net,
        range,
    };
    let Ok(()) = found.push(host) else {
        return Err(NoMemory);
    };
    Ok(())
}

// The addresses of a host, by its first part that has some.
fn host_range(alloc: Global, parts: &[HostPart<'_>]) -> Result<AddrRange, NoMemory>
    requires { IsOrdered (range_or_none (slice_get (flat_map spans_in (map host_part_seen parts.now)) 0)) }
    ensures { IfOk result (λ range. interval_of range ≡ range_or_none (slice_get (flat_map spans_in (map host_part_seen parts.now)) 0)) }
{
    let (low, high) = match first_span(alloc, parts)? {
        Some(span) => span,
        None => (Addr(0), Addr(0)),
    };
    Ok(AddrRange::new(low, high).unwrap())
}

fn first_span(alloc: Global, parts: &[HostPart<'_>]) -> Result<Option<(Addr, Addr)>, NoMemory>
    ensures { IfOk result (λ span. option_map range_seen span ≡ slice_get (flat_map spans_in (map host_part_seen parts.now)) 0) }
{
    for part in parts {
        if let Some(span) = span(alloc, part)? {
            return Ok(Some(span));
        }
    }
    Ok(None)
}

// The addresses of a part of a host, from the first to the last.
fn span(alloc: Global, part: &HostPart<'_>) -> Result<Option<(Addr, Addr)>, NoMemory>
    ensures { IfOk result (λ span. spans_in (host_part_seen part.now) ≡ listed (option_map range_seen span)) }
{
    match part {
        HostPart::Ip(word) => Ok(alone(address(word.text))),
        HostPart::Range(words) => range(alloc, words),
        HostPart::Idle(_) => Ok(None),
    }
}

// A range of one address.
fn alone(address: Option<Addr>) -> Option<(Addr, Addr)>
    ensures { option_map range_seen result ≡ option_map (λ a. (a.0, a.0)) address }
{
    match address {
        Some(address) => Some((address, address)),
        None => None,
    }
}
