ghost use Rattle.std.specs.Prelude.{◌≡◌, ◌++◌, [], ◌∷◌, map, flat_map, slice_get, option_map, option_and_then, IfOk, OnOk};
ghost use Rattle.std.specs.List.{All};
ghost use Rattle.spoc_ast.specs.Seen.{word_seen, virt_part_seen, if_part_seen, rout_part_seen, decl_seen};
ghost use Rattle.policy_decls.specs.Numbers.{address_of};
ghost use Rattle.policy_decls.specs.Lookup.{addresses_in, hardware_in, binds_in, ifaces_in};
ghost use Rattle.policy_decls.specs.Shapes.{ips_in_virtual};
ghost use Rattle.policy_decls.specs.Said.{number_of_tag, shared_in, text_or_none, iface_said, policy_said};
ghost use Rattle.topology.specs.Texts.{LiesIn, text_at};
ghost use Rattle.topology.specs.Seen.{iface_seen};
ghost use Rattle.policy_build.specs.Views.{decls_of, sources_in};
ghost use Rattle.policy_build.specs.Ifaces.{IsRouterCalled, IsNetCalled, IsPartPlaced, IsPlaced, IsIfaceIn, iface_in, ifaces_said_in};
ghost use Rattle.policy_build.specs.Words.{IsWordOf};
ghost use Rattle.policy_build.specs.Good.{IsGoodIfPart, IsGoodRoutPart, IsGood};

use crate::scope::Scope;
use bumpalo::Bump;
use bumpalo::collections::into_bump_slice;
use policy_names::NameKind;
use policy_numbers::address;
use spoc_ast::{Decl, IfPart, PortName, RoutPart, VirtPart, Word};
use spoc_base::{Addr, NetId, NoMemory, RouterId, Span, TagId};
use topology::Iface;

/// The interfaces, by number.
pub(crate) fn ifaces<'a>(scope: Scope<'a, '_>) -> Result<&'a [Iface<'a>], NoMemory>
    requires good { All (IsGood (sources_in scope)) (decls_of scope) }
    requires placed { All (IsPlaced (decls_of scope)) (decls_of scope) }
    ensures said { IfOk result (λ ifaces. map (iface_seen (sources_in scope.entry)) ifaces.now ≡ (policy_said (decls_of scope.entry)).ifaces) }
    ensures written { IfOk result (λ ifaces. All (IsIfaceIn (sources_in scope.entry) (decls_of scope.entry)) ifaces.now) }
{
    let mut found = Vec::new(scope.arena);
    for decl in scope.decls {
        add_ifaces(scope, decl, &mut found)?;
    }
    Ok(into_bump_slice(found))
}

fn add_ifaces<'a>(
    scope: Scope<'a, '_>,
    decl: &Decl<'a>,
    found: &mut Vec<Iface<'a>, &'a Bump>,
) -> Result<(), NoMemory>
    requires good { IsGood (sources_in scope) (decl_seen decl.now) }
    requires placed { IsPlaced (decls_of scope) (decl_seen decl.now) }
    requires written { All (IsIfaceIn (sources_in scope) (decls_of scope)) found.old.items }
    ensures said { OnOk result (map (iface_seen (sources_in scope.entry)) found.new.items ≡ map (iface_seen (sources_in scope.entry)) found.old.items ++ map (iface_said (decls_of scope.entry)) (ifaces_in (decl_seen decl.now))) }
    ensures written { OnOk result (All (IsIfaceIn (sources_in scope.entry) (decls_of scope.entry)) found.new.items) }
{
    match decl {
        Decl::Router { name, parts, .. } => ifaces_of(scope, *name, parts, found),
        _ => Ok(()),
    }
}

// Adds the interfaces of a router.
fn ifaces_of<'a>(
    scope: Scope<'a, '_>,
    router: Word<'a>,
    parts: &[RoutPart<'a>],
    found: &mut Vec<Iface<'a>, &'a Bump>,
) -> Result<(), NoMemory>
    requires name { IsWordOf (sources_in scope) (word_seen router) }
    requires called { IsRouterCalled (decls_of scope) (word_seen router) }
    requires good { All (IsGoodRoutPart (sources_in scope)) (map rout_part_seen parts.now) }
    requires placed { All (IsPartPlaced (decls_of scope)) (map rout_part_seen parts.now) }
    requires written { All (IsIfaceIn (sources_in scope) (decls_of scope)) found.old.items }
    ensures said { OnOk result (map (iface_seen (sources_in scope.entry)) found.new.items ≡ map (iface_seen (sources_in scope.entry)) found.old.items ++ flat_map (ifaces_said_in (decls_of scope.entry) (word_seen router.entry)) (map rout_part_seen parts.now)) }
    ensures written { OnOk result (All (IsIfaceIn (sources_in scope.entry) (decls_of scope.entry)) found.new.items) }
{
    for part in parts {
        add_iface(scope, router, part, found)?;
    }
    Ok(())
}

fn add_iface<'a>(
    scope: Scope<'a, '_>,
    router: Word<'a>,
    part: &RoutPart<'a>,
    found: &mut Vec<Iface<'a>, &'a Bump>,
) -> Result<(), NoMemory>
    requires name { IsWordOf (sources_in scope) (word_seen router) }
    requires called { IsRouterCalled (decls_of scope) (word_seen router) }
    requires good { IsGoodRoutPart (sources_in scope) (rout_part_seen part.now) }
    requires placed { IsPartPlaced (decls_of scope) (rout_part_seen part.now) }
    requires written { All (IsIfaceIn (sources_in scope) (decls_of scope)) found.old.items }
    ensures said { OnOk result (map (iface_seen (sources_in scope.entry)) found.new.items ≡ map (iface_seen (sources_in scope.entry)) found.old.items ++ ifaces_said_in (decls_of scope.entry) (word_seen router.entry) (rout_part_seen part.now)) }
    ensures written { OnOk result (All (IsIfaceIn (sources_in scope.entry) (decls_of scope.entry)) found.new.items) }
{
    let RoutPart::Iface { name, parts } = part else {
        return Ok(());
    };
    let iface = iface(scope, router, *name, parts)?;
    let Ok(()) = found.push(iface) else {
        return Err(NoMemory);
    };
    Ok(())
}

fn iface<'a>(
    scope: Scope<'a, '_>,
    router: Word<'a>,
    net: Word<'a>,
    parts: &[IfPart<'a>],
) -> Result<Iface<'a>, NoMemory>
    requires router { IsWordOf (sources_in scope) (word_seen router) }
    requires net { IsWordOf (sources_in scope) (word_seen net) }
    requires called { IsRouterCalled (decls_of scope) (word_seen router) }
    requires placed { IsNetCalled (decls_of scope) (word_seen net) }
    requires parts { All (IsGoodIfPart (sources_in scope)) (map if_part_seen parts.now) }
    ensures said { IfOk result (λ iface. iface_seen (sources_in scope.entry) iface ≡ iface_in (decls_of scope.entry) (word_seen router.entry) (word_seen net.entry) (map if_part_seen parts.now)) }
    ensures written { IfOk result (λ iface. IsIfaceIn (sources_in scope.entry) (decls_of scope.entry) iface) }
{
    let binds = binds(scope, parts)?;
    Ok(Iface {
        name: scope.port_named(PortName { router, net }),
        router: RouterId(scope.number(NameKind::Router, router)),
        net: NetId(scope.number(NameKind::Network, net)),
        addr: first_address(parts),
        shared: shared_address(parts),
        hardware: hardware(scope, router, parts),
        binds,
    })
}

fn first_address(parts: &[IfPart<'_>]) -> Option<Addr>
    ensures { option_map (λ a. a.0) result ≡ option_and_then (λ w. address_of w.text) (slice_get (flat_map addresses_in (map if_part_seen parts.now)) 0) }
{
    match first_ip(parts) {
        Some(word) => address(word.text),
        None => None,
    }
}

fn first_ip<'a>(parts: &[IfPart<'a>]) -> Option<Word<'a>>
    ensures { option_map word_seen result ≡ slice_get (flat_map addresses_in (map if_part_seen parts.now)) 0 }
{
    for part in parts {
        if let IfPart::Ip(word) = part {
            return Some(*word);
        }
    }
    None
}

// The address that the interface shares with others.
fn shared_address(parts: &[IfPart<'_>]) -> Option<Addr>
    ensures { option_map (λ a. a.0) result ≡ option_and_then (λ w. address_of w.text) (slice_get (flat_map shared_in (map if_part_seen parts.now)) 0) }
{
    match first_shared(parts) {
        Some(word) => address(word.text),
        None => None,
    }
}

fn first_shared<'a>(parts: &[IfPart<'a>]) -> Option<Word<'a>>
    ensures { option_map word_seen result ≡ slice_get (flat_map shared_in (map if_part_seen parts.now)) 0 }
{
    for part in parts {
        if let Some(word) = shared_of(part) {
            return Some(word);
        }
    }
    None
}

fn shared_of<'a>(part: &IfPart<'a>) -> Option<Word<'a>>
    ensures { option_map word_seen result ≡ slice_get (shared_in (if_part_seen part.now)) 0 }
{
    match part {
        IfPart::Virtual(parts) => first_virtual(parts),
        _ => None,
    }
}

fn first_virtual<'a>(parts: &[VirtPart<'a>]) -> Option<Word<'a>>
    ensures { option_map word_seen result ≡ slice_get (flat_map ips_in_virtual (map virt_part_seen parts.now)) 0 }
{
    for part in parts {
        if let VirtPart::Ip(word) = part {
            return Some(*word);
        }
    }
    None
}

// The name on the device. Where there is none, an empty part of the sources.
fn hardware<'a>(scope: Scope<'a, '_>, router: Word<'a>, parts: &[IfPart<'a>]) -> Span
    requires router { IsWordOf (sources_in scope) (word_seen router) }
    requires parts { All (IsGoodIfPart (sources_in scope)) (map if_part_seen parts.now) }
    ensures said { text_at (sources_in scope.entry) result ≡ text_or_none (slice_get (flat_map hardware_in (map if_part_seen parts.now)) 0) }
    ensures written { LiesIn (sources_in scope.entry) result }
{
    match first_hardware(parts) {
        Some(word) => word.span,
        None => Span {
            file: router.span.file,
            start: router.span.start,
            end: router.span.start,
        },
    }
}

fn first_hardware<'a>(parts: &[IfPart<'a>]) -> Option<Word<'a>>
    ensures { option_map word_seen result ≡ slice_get (flat_map hardware_in (map if_part_seen parts.now)) 0 }
{
    for part in parts {
        if let IfPart::Hardware(word) = part {
            return Some(*word);
        }
    }
    None
}

// The tags that are bound, in order.
#[tactic(auto, using(crate::proofs::Grown::flat_map_append))]
fn binds<'a>(scope: Scope<'a, '_>, parts: &[IfPart<'a>]) -> Result<&'a [TagId], NoMemory>
    ensures { IfOk result (λ binds. map (λ tag. tag.0) binds.now ≡ flat_map (map (number_of_tag (decls_of scope.entry))) (flat_map binds_in (map if_part_seen parts.now))) }
{
    let mut found = Vec::new(scope.arena);
    for part in parts {
        add_binds(scope, part, &mut found)?;
    }
    Ok(into_bump_slice(found))
}

fn add_binds<'a>(
    scope: Scope<'a, '_>,
    part: &IfPart<'a>,
    found: &mut Vec<TagId, &'a Bump>,
) -> Result<(), NoMemory>
    ensures { OnOk result (map (λ tag. tag.0) found.new.items ≡ map (λ tag. tag.0) found.old.items ++ flat_map (map (number_of_tag (decls_of scope.entry))) (binds_in (if_part_seen part.now))) }
{
    match part {
        IfPart::BindNat(tags) => add_tags(scope, tags, found),
        _ => Ok(()),
    }
}

fn add_tags<'a>(
    scope: Scope<'a, '_>,
    tags: &[Word<'a>],
    found: &mut Vec<TagId, &'a Bump>,
) -> Result<(), NoMemory>
    ensures { OnOk result (map (λ tag. tag.0) found.new.items ≡ map (λ tag. tag.0) found.old.items ++ map (number_of_tag (decls_of scope.entry)) (map word_seen tags.now)) }
{
    for tag in tags {
        add_tag(scope, *tag, found)?;
    }
    Ok(())
}

fn add_tag<'a>(
    scope: Scope<'a, '_>,
    tag: Word<'a>,
    found: &mut Vec<TagId, &'a Bump>,
) -> Result<(), NoMemory>
    ensures { OnOk result (map (λ tag. tag.0) found.new.items ≡ map (λ tag. tag.0) found.old.items ++ number_of_tag (decls_of scope.entry) (word_seen tag.entry) ∷ []) }
{
    found.push(TagId(scope.tag(tag)))?;
    Ok(())
}
