ghost use Rattle.std.specs.Prelude.{◌≡◌, ◌++◌, [], ◌∷◌, map, flat_map, slice_get, option_map, option_and_then, IfOk, OnOk, Some};
ghost use Rattle.std.specs.List.{All};
ghost use Rattle.spoc_base.specs.Shown.{cidr_of};
ghost use Rattle.spoc_ast.specs.Seen.{word_seen, nat_part_seen, net_part_seen, decl_seen};
ghost use Rattle.policy_decls.specs.Lookup.{ips_in_net_part, ips_in_nat_part, only_one, own_prefix};
ghost use Rattle.policy_decls.specs.Said.{cidr_or_any, nats_said, adds_of, policy_said};
ghost use Rattle.spoc_base.specs.declared.place.Kind.TheVariants as kind;
ghost use Rattle.topology.specs.Texts.{IsCalled};
ghost use Rattle.topology.specs.Seen.{net_seen};
ghost use Rattle.policy_build.specs.Views.{decls_of, sources_in, nat_seen};
ghost use Rattle.policy_build.specs.Aligned.{aligned_prefix};
ghost use Rattle.policy_build.specs.Words.{IsWordOf};
ghost use Rattle.policy_build.specs.Good.{IsAligned, IsGoodNetPart, IsGood};

use crate::scope::Scope;
use crate::values::{or_any, prefix, prefix_in};
use bumpalo::Bump;
use bumpalo::collections::into_bump_slice;
use spoc_ast::{Decl, NatPart, NetPart, Word};
use spoc_base::{Kind, NoMemory, Prefix, TagId};
use std::alloc::Global;
use topology::Network;

/// The networks, by number.
pub(crate) fn networks<'a>(scope: Scope<'a, '_>) -> Result<&'a [Network<'a>], NoMemory>
    requires { All (IsGood (sources_in scope)) (decls_of scope) }
    ensures said { IfOk result (λ nets. map (net_seen (sources_in scope.entry)) nets.now ≡ (policy_said (decls_of scope.entry)).nets) }
    ensures written { IfOk result (λ nets. All (λ x. IsCalled kind.Network (sources_in scope.entry) x.name) nets.now) }
{
    let mut found = Vec::new(scope.arena);
    for decl in scope.decls {
        add_network(scope, decl, &mut found)?;
    }
    Ok(into_bump_slice(found))
}

fn add_network<'a>(
    scope: Scope<'a, '_>,
    decl: &Decl<'a>,
    found: &mut Vec<Network<'a>, &'a Bump>,
) -> Result<(), NoMemory>
    requires { IsGood (sources_in scope) (decl_seen decl.now) }
    ensures said { OnOk result (map (net_seen (sources_in scope.entry)) found.new.items ≡ map (net_seen (sources_in scope.entry)) found.old.items ++ (adds_of (decls_of scope.entry) (decl_seen decl.now)).nets) }
    ensures written { OnOk result (All (λ x. IsCalled kind.Network (sources_in scope.entry) x.name) found.old.items → All (λ x. IsCalled kind.Network (sources_in scope.entry) x.name) found.new.items) }
{
    let Decl::Network { name, parts, .. } = decl else {
        return Ok(());
    };
    let net = network(scope, *name, parts)?;
    let Ok(()) = found.push(net) else {
        return Err(NoMemory);
    };
    Ok(())
}

fn network<'a>(
    scope: Scope<'a, '_>,
    name: Word<'a>,
    parts: &[NetPart<'a>],
) -> Result<Network<'a>, NoMemory>
    requires name { IsWordOf (sources_in scope) (word_seen name) }
    requires own { IsAligned (own_prefix (map net_part_seen parts.now)) }
    requires parts { All (IsGoodNetPart (sources_in scope)) (map net_part_seen parts.now) }
    ensures said { IfOk result (λ net. net_seen (sources_in scope.entry) net ≡ record { name = name.entry.text.now; own = cidr_or_any (own_prefix (map net_part_seen parts.now)); nats = flat_map (nats_said (decls_of scope.entry)) (map net_part_seen parts.now) }) }
    ensures written { IfOk result (λ net. IsCalled kind.Network (sources_in scope.entry) net.name) }
{
    let own = own(scope.alloc, parts)?;
    let nats = nats(scope, parts)?;
    Ok(Network {
        name: scope.named(Kind::Network, name),
        own,
        nats,
    })
}

// The own prefix, where there is exactly one without host bits, or that of all addresses.
fn own(alloc: Global, parts: &[NetPart<'_>]) -> Result<Prefix, NoMemory>
    requires { IsAligned (own_prefix (map net_part_seen parts.now)) }
    ensures { IfOk result (λ own. cidr_of own ≡ cidr_or_any (own_prefix (map net_part_seen parts.now))) }
{
    let mut ips = Vec::new(alloc);
    for part in parts {
        add_ip(part, &mut ips)?;
    }
    Ok(or_any(only(&ips)))
}

fn add_ip<'a>(part: &NetPart<'a>, ips: &mut Vec<Word<'a>>) -> Result<(), NoMemory>
    ensures { OnOk result (map word_seen ips.new.items ≡ map word_seen ips.old.items ++ ips_in_net_part (net_part_seen part.now)) }
{
    if let NetPart::Ip(word) = part {
        ips.push(*word)?;
    }
    Ok(())
}

fn only(ips: &[Word<'_>]) -> Option<Prefix>
    ensures { option_map cidr_of result ≡ option_and_then aligned_prefix (only_one (map word_seen ips.now)) }
{
    match ips {
        [word] => prefix(*word),
        _ => None,
    }
}

// The translations, in order. A tag that hides the network has no prefix.
fn nats<'a>(
    scope: Scope<'a, '_>,
    parts: &[NetPart<'a>],
) -> Result<&'a [(TagId, Option<Prefix>)], NoMemory>
    requires { All (IsGoodNetPart (sources_in scope)) (map net_part_seen parts.now) }
    ensures { IfOk result (λ nats. map nat_seen nats.now ≡ flat_map (nats_said (decls_of scope.entry)) (map net_part_seen parts.now)) }
{
    let mut found = Vec::new(scope.arena);
    for part in parts {
        add_nat(scope, part, &mut found)?;
    }
    Ok(into_bump_slice(found))
}

fn add_nat<'a>(
    scope: Scope<'a, '_>,
    part: &NetPart<'a>,
    found: &mut Vec<(TagId, Option<Prefix>), &'a Bump>,
) -> Result<(), NoMemory>
    requires { IsGoodNetPart (sources_in scope) (net_part_seen part.now) }
    ensures { OnOk result (map nat_seen found.new.items ≡ map nat_seen found.old.items ++ nats_said (decls_of scope.entry) (net_part_seen part.now)) }
{
    let NetPart::Nat { name, parts } = part else {
        return Ok(());
    };
    let tag = TagId(scope.tag(*name));
    let Ok(()) = found.push((tag, prefix_in(first_ip(parts)))) else {
        return Err(NoMemory);
    };
    Ok(())
}

fn first_ip<'a>(parts: &[NatPart<'a>]) -> Option<Word<'a>>
    ensures { option_map word_seen result ≡ slice_get (flat_map ips_in_nat_part (map nat_part_seen parts.now)) 0 }
{
    for part in parts {
        if let NatPart::Ip(word) = part {
            return Some(*word);
        }
    }
    None
}
