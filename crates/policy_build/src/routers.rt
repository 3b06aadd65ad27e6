ghost use Rattle.std.specs.Prelude.{◌≡◌, ◌++◌, map, flat_map, option_map, IfOk, OnOk, codes, not};
ghost use Rattle.std.specs.List.{All, list_any};
ghost use Rattle.std.specs.Str.{bytes_eq};
ghost use Rattle.policy_model.specs.Lists.{is_nothing};
ghost use Rattle.spoc_ast.specs.Seen.{rout_part_seen, decl_seen};
ghost use Rattle.policy_decls.specs.Lookup.{is_managed_router, models_in, routings_in};
ghost use Rattle.policy_decls.specs.Said.{dialect_in, device_in, adds_of, policy_said};
ghost use Rattle.spoc_base.specs.declared.place.Kind.TheVariants as kind;
ghost use Rattle.topology.specs.Texts.{IsCalled};
ghost use Rattle.topology.specs.Seen.{device_seen, router_seen};
ghost use Rattle.policy_build.specs.Views.{decls_of, sources_in};
ghost use Rattle.policy_build.specs.Good.{IsGood};

use crate::scope::Scope;
use bumpalo::Bump;
use bumpalo::collections::into_bump_slice;
use spoc_ast::{Decl, RoutPart};
use spoc_base::{Dialect, Kind, NoMemory};
use topology::{Device, Router};

/// The routers, by number.
pub(crate) fn routers<'a>(scope: Scope<'a, '_>) -> Result<&'a [Router], NoMemory>
    requires { All (IsGood (sources_in scope)) (decls_of scope) }
    ensures said { IfOk result (λ routers. map (router_seen (sources_in scope.entry)) routers.now ≡ (policy_said (decls_of scope.entry)).routers) }
    ensures written { IfOk result (λ routers. All (λ x. IsCalled kind.Router (sources_in scope.entry) x.name) routers.now) }
{
    let mut found = Vec::new(scope.arena);
    for decl in scope.decls {
        add_router(scope, decl, &mut found)?;
    }
    Ok(into_bump_slice(found))
}

fn add_router<'a>(
    scope: Scope<'a, '_>,
    decl: &Decl<'a>,
    found: &mut Vec<Router, &'a Bump>,
) -> Result<(), NoMemory>
    requires good { IsGood (sources_in scope) (decl_seen decl.now) }
    requires written { All (λ x. IsCalled kind.Router (sources_in scope) x.name) found.old.items }
    ensures said { OnOk result (map (router_seen (sources_in scope.entry)) found.new.items ≡ map (router_seen (sources_in scope.entry)) found.old.items ++ (adds_of (decls_of scope.entry) (decl_seen decl.now)).routers) }
    ensures written { OnOk result (All (λ x. IsCalled kind.Router (sources_in scope.entry) x.name) found.new.items) }
{
    let Decl::Router { name, parts, .. } = decl else {
        return Ok(());
    };
    let router = Router {
        name: scope.named(Kind::Router, *name),
        device: device(parts),
    };
    let Ok(()) = found.push(router) else {
        return Err(NoMemory);
    };
    Ok(())
}

// What the router runs, None where it isn't managed.
fn device(parts: &[RoutPart<'_>]) -> Option<Device>
    ensures { option_map device_seen result ≡ device_in (map rout_part_seen parts.now) }
{
    if !is_managed(parts) {
        return None;
    }
    Some(Device {
        dialect: dialect(parts),
        fixed: !has_routing(parts),
    })
}

fn is_managed(parts: &[RoutPart<'_>]) -> bool
    ensures { result ≡ is_managed_router (map rout_part_seen parts.now) }
{
    for part in parts {
        if let RoutPart::Managed(_) = part {
            return true;
        }
    }
    false
}

fn dialect(parts: &[RoutPart<'_>]) -> Dialect
    ensures { result ≡ dialect_in (map rout_part_seen parts.now) }
{
    if has_asa(parts) {
        Dialect::Asa
    } else {
        Dialect::Ios
    }
}

fn has_asa(parts: &[RoutPart<'_>]) -> bool
    ensures { result ≡ list_any (λ w. bytes_eq w.text (codes "ASA")) (flat_map models_in (map rout_part_seen parts.now)) }
{
    for part in parts {
        if is_asa(part) {
            return true;
        }
    }
    false
}

fn is_asa(part: &RoutPart<'_>) -> bool
    ensures { result ≡ list_any (λ w. bytes_eq w.text (codes "ASA")) (models_in (rout_part_seen part.now)) }
{
    match part {
        RoutPart::Model(word) => word.text == b"ASA".as_slice(),
        _ => false,
    }
}

fn has_routing(parts: &[RoutPart<'_>]) -> bool
    ensures { result ≡ not (is_nothing (flat_map routings_in (map rout_part_seen parts.now))) }
{
    for part in parts {
        if let RoutPart::Routing(_) = part {
            return true;
        }
    }
    false
}
