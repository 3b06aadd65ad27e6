ghost use Rattle.std.specs.Prelude.{◌≡◌, ◌++◌, map, flat_map, slice_get, option_map, IfOk, OnOk};
ghost use Rattle.std.specs.List.{All};
ghost use Rattle.spoc_ast.specs.Seen.{word_seen, area_part_seen, decl_seen};
ghost use Rattle.policy_decls.specs.Names.{NetworkName};
ghost use Rattle.policy_decls.specs.Shapes.{anchors_in, borders_in};
ghost use Rattle.policy_decls.specs.Said.{number_of_name, number_of_port, adds_of, policy_said};
ghost use Rattle.spoc_base.specs.declared.place.Kind.TheVariants as kind;
ghost use Rattle.topology.specs.Texts.{IsCalled};
ghost use Rattle.topology.specs.Seen.{area_seen};
ghost use Rattle.policy_build.specs.Views.{decls_of, sources_in};
ghost use Rattle.policy_build.specs.Good.{IsGood};

use crate::restrictions::add_ports;
use crate::scope::Scope;
use bumpalo::Bump;
use bumpalo::collections::into_bump_slice;
use policy_names::NameKind;
use spoc_ast::{AreaPart, Decl, Word};
use spoc_base::{IfId, Kind, NetId, NoMemory};
use topology::Area;

/// The areas, by number.
pub(crate) fn areas<'a>(scope: Scope<'a, '_>) -> Result<&'a [Area<'a>], NoMemory>
    requires { All (IsGood (sources_in scope)) (decls_of scope) }
    ensures said { IfOk result (λ areas. map (area_seen (sources_in scope.entry)) areas.now ≡ (policy_said (decls_of scope.entry)).areas) }
    ensures written { IfOk result (λ areas. All (λ x. IsCalled kind.Area (sources_in scope.entry) x.name) areas.now) }
{
    let mut found = Vec::new(scope.arena);
    for decl in scope.decls {
        add_area(scope, decl, &mut found)?;
    }
    Ok(into_bump_slice(found))
}

fn add_area<'a>(
    scope: Scope<'a, '_>,
    decl: &Decl<'a>,
    found: &mut Vec<Area<'a>, &'a Bump>,
) -> Result<(), NoMemory>
    requires good { IsGood (sources_in scope) (decl_seen decl.now) }
    requires written { All (λ x. IsCalled kind.Area (sources_in scope) x.name) found.old.items }
    ensures said { OnOk result (map (area_seen (sources_in scope.entry)) found.new.items ≡ map (area_seen (sources_in scope.entry)) found.old.items ++ (adds_of (decls_of scope.entry) (decl_seen decl.now)).areas) }
    ensures written { OnOk result (All (λ x. IsCalled kind.Area (sources_in scope.entry) x.name) found.new.items) }
{
    let Decl::Area { name, parts, .. } = decl else {
        return Ok(());
    };
    let area = Area {
        name: scope.named(Kind::Area, *name),
        anchor: anchor(scope, parts),
        borders: borders(scope, parts)?,
    };
    let Ok(()) = found.push(area) else {
        return Err(NoMemory);
    };
    Ok(())
}

fn anchor<'a>(scope: Scope<'a, '_>, parts: &[AreaPart<'a>]) -> Option<NetId>
    ensures { option_map (λ n. n.0) result ≡ option_map (number_of_name (decls_of scope.entry) NetworkName) (slice_get (flat_map anchors_in (map area_part_seen parts.now)) 0) }
{
    match first_anchor(parts) {
        Some(name) => Some(NetId(scope.number(NameKind::Network, name))),
        None => None,
    }
}

fn first_anchor<'a>(parts: &[AreaPart<'a>]) -> Option<Word<'a>>
    ensures { option_map word_seen result ≡ slice_get (flat_map anchors_in (map area_part_seen parts.now)) 0 }
{
    for part in parts {
        if let AreaPart::Anchor(name) = part {
            return Some(*name);
        }
    }
    None
}

#[tactic(auto, using(crate::proofs::Grown::flat_map_append))]
fn borders<'a>(scope: Scope<'a, '_>, parts: &[AreaPart<'a>]) -> Result<&'a [IfId], NoMemory>
    ensures { IfOk result (λ borders. map (λ i. i.0) borders.now ≡ flat_map (map (number_of_port (decls_of scope.entry))) (flat_map borders_in (map area_part_seen parts.now))) }
{
    let mut found = Vec::new(scope.arena);
    for part in parts {
        add_borders(scope, part, &mut found)?;
    }
    Ok(into_bump_slice(found))
}

fn add_borders<'a>(
    scope: Scope<'a, '_>,
    part: &AreaPart<'a>,
    found: &mut Vec<IfId, &'a Bump>,
) -> Result<(), NoMemory>
    ensures { OnOk result (map (λ i. i.0) found.new.items ≡ map (λ i. i.0) found.old.items ++ flat_map (map (number_of_port (decls_of scope.entry))) (borders_in (area_part_seen part.now))) }
{
    match part {
        AreaPart::Border(ports) => add_ports(scope, ports, found),
        AreaPart::Anchor(_) | AreaPart::Idle(_) => Ok(()),
    }
}
