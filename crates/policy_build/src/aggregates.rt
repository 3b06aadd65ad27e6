ghost use Rattle.std.specs.Prelude.{◌≡◌, ◌++◌, map, flat_map, slice_get, option_map, IfOk, OnOk};
ghost use Rattle.std.specs.List.{All};
ghost use Rattle.spoc_ast.specs.Seen.{word_seen, any_part_seen, decl_seen};
ghost use Rattle.policy_decls.specs.Names.{NetworkName};
ghost use Rattle.policy_decls.specs.Shapes.{links_in, ips_in_any_part};
ghost use Rattle.policy_decls.specs.Said.{or_zero, number_of_name, adds_of, policy_said};
ghost use Rattle.spoc_base.specs.declared.place.Kind.TheVariants as kind;
ghost use Rattle.topology.specs.Texts.{IsCalled};
ghost use Rattle.topology.specs.Seen.{aggregate_seen};
ghost use Rattle.policy_build.specs.Views.{decls_of, sources_in};
ghost use Rattle.policy_build.specs.Good.{IsGood};

use crate::scope::Scope;
use crate::values::prefix_in;
use bumpalo::Bump;
use bumpalo::collections::into_bump_slice;
use policy_names::NameKind;
use spoc_ast::{AnyPart, Decl, Word};
use spoc_base::{Kind, NetId, NoMemory};
use topology::Aggregate;

/// The aggregates, by number.
pub(crate) fn aggregates<'a>(scope: Scope<'a, '_>) -> Result<&'a [Aggregate], NoMemory>
    requires { All (IsGood (sources_in scope)) (decls_of scope) }
    ensures said { IfOk result (λ aggregates. map (aggregate_seen (sources_in scope.entry)) aggregates.now ≡ (policy_said (decls_of scope.entry)).aggregates) }
    ensures written { IfOk result (λ aggregates. All (λ x. IsCalled kind.Aggregate (sources_in scope.entry) x.name) aggregates.now) }
{
    let mut found = Vec::new(scope.arena);
    for decl in scope.decls {
        add_aggregate(scope, decl, &mut found)?;
    }
    Ok(into_bump_slice(found))
}

fn add_aggregate<'a>(
    scope: Scope<'a, '_>,
    decl: &Decl<'a>,
    found: &mut Vec<Aggregate, &'a Bump>,
) -> Result<(), NoMemory>
    requires good { IsGood (sources_in scope) (decl_seen decl.now) }
    requires written { All (λ x. IsCalled kind.Aggregate (sources_in scope) x.name) found.old.items }
    ensures said { OnOk result (map (aggregate_seen (sources_in scope.entry)) found.new.items ≡ map (aggregate_seen (sources_in scope.entry)) found.old.items ++ (adds_of (decls_of scope.entry) (decl_seen decl.now)).aggregates) }
    ensures written { OnOk result (All (λ x. IsCalled kind.Aggregate (sources_in scope.entry) x.name) found.new.items) }
{
    let Decl::Aggregate { name, parts, .. } = decl else {
        return Ok(());
    };
    let aggregate = Aggregate {
        name: scope.named(Kind::Aggregate, *name),
        link: link(scope, parts),
        only: prefix_in(first_ip(parts)),
    };
    let Ok(()) = found.push(aggregate) else {
        return Err(NoMemory);
    };
    Ok(())
}

fn link<'a>(scope: Scope<'a, '_>, parts: &[AnyPart<'a>]) -> NetId
    ensures { result.0 ≡ or_zero (option_map (number_of_name (decls_of scope.entry) NetworkName) (slice_get (flat_map links_in (map any_part_seen parts.now)) 0)) }
{
    match first_link(parts) {
        Some(name) => NetId(scope.number(NameKind::Network, name)),
        None => NetId(0),
    }
}

fn first_link<'a>(parts: &[AnyPart<'a>]) -> Option<Word<'a>>
    ensures { option_map word_seen result ≡ slice_get (flat_map links_in (map any_part_seen parts.now)) 0 }
{
    for part in parts {
        if let AnyPart::Link(name) = part {
            return Some(*name);
        }
    }
    None
}

fn first_ip<'a>(parts: &[AnyPart<'a>]) -> Option<Word<'a>>
    ensures { option_map word_seen result ≡ slice_get (flat_map ips_in_any_part (map any_part_seen parts.now)) 0 }
{
    for part in parts {
        if let AnyPart::Ip(word) = part {
            return Some(*word);
        }
    }
    None
}
