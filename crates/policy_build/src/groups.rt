ghost use Rattle.std.specs.Prelude.{◌≡◌, ◌++◌, true, map, option_map, IfOk, OnOk};
ghost use Rattle.std.specs.List.{All};
ghost use Rattle.policy_model.specs.Policy.{NoObjects};
ghost use Rattle.spoc_ast.specs.Seen.{set_seen, decl_seen};
ghost use Rattle.policy_decls.specs.Said.{expr_or_none, adds_of, policy_said};
ghost use Rattle.topology.specs.Expressions.{expr_of};
ghost use Rattle.spoc_base.specs.declared.place.Kind.TheVariants as kind;
ghost use Rattle.topology.specs.Texts.{IsCalled};
ghost use Rattle.topology.specs.Seen.{group_seen};
ghost use Rattle.policy_build.specs.Views.{decls_of, sources_in};
ghost use Rattle.policy_build.specs.Good.{asks_aligned_objects, IsGood};

use crate::scope::Scope;
use crate::sets::union;
use bumpalo::Bump;
use bumpalo::collections::into_bump_slice;
use spoc_ast::{Decl, SetTree};
use spoc_base::{Kind, NoMemory};
use topology::{Group, Union};

/// The groups, by number.
pub(crate) fn groups<'a>(scope: Scope<'a, '_>) -> Result<&'a [Group<'a>], NoMemory>
    requires { All (IsGood (sources_in scope)) (decls_of scope) }
    ensures said { IfOk result (λ groups. map (group_seen (sources_in scope.entry)) groups.now ≡ (policy_said (decls_of scope.entry)).groups) }
    ensures written { IfOk result (λ groups. All (λ x. IsCalled kind.Group (sources_in scope.entry) x.name) groups.now) }
{
    let mut found = Vec::new(scope.arena);
    for decl in scope.decls {
        add_group(scope, decl, &mut found)?;
    }
    Ok(into_bump_slice(found))
}

fn add_group<'a>(
    scope: Scope<'a, '_>,
    decl: &Decl<'a>,
    found: &mut Vec<Group<'a>, &'a Bump>,
) -> Result<(), NoMemory>
    requires good { IsGood (sources_in scope) (decl_seen decl.now) }
    requires written { All (λ x. IsCalled kind.Group (sources_in scope) x.name) found.old.items }
    ensures said { OnOk result (map (group_seen (sources_in scope.entry)) found.new.items ≡ map (group_seen (sources_in scope.entry)) found.old.items ++ (adds_of (decls_of scope.entry) (decl_seen decl.now)).groups) }
    ensures written { OnOk result (All (λ x. IsCalled kind.Group (sources_in scope.entry) x.name) found.new.items) }
{
    let Decl::Group { name, objects, .. } = decl else {
        return Ok(());
    };
    let group = Group {
        name: scope.named(Kind::Group, *name),
        objects: objects_in(scope, objects)?,
    };
    let Ok(()) = found.push(group) else {
        return Err(NoMemory);
    };
    Ok(())
}

fn objects_in<'a>(
    scope: Scope<'a, '_>,
    objects: &Option<SetTree<'a>>,
) -> Result<&'a Union<'a>, NoMemory>
    requires { asks_aligned_objects (option_map set_seen objects.now) ≡ true }
    ensures { IfOk result (λ union. expr_of union.now ≡ expr_or_none (decls_of scope.entry) (option_map set_seen objects.now)) }
{
    match objects {
        Some(set) => union(scope, set),
        None => Ok(scope.arena.try_alloc(nothing())?),
    }
}

// The union of no part.
fn nothing<'a>() -> Union<'a>
    ensures { expr_of result ≡ NoObjects }
{
    Union { parts: &[] }
}
