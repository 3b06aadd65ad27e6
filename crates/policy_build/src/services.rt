ghost use Rattle.std.specs.Prelude.{◌≡◌, ◌++◌, [], ◌∷◌, true, map, flat_map, IfOk, OnOk};
ghost use Rattle.std.specs.List.{All, list_all};
ghost use Rattle.spoc_ast.specs.Seen as ast;
ghost use Rattle.policy_decls.specs.Said.{most_boxes, policy_said};
ghost use Rattle.spoc_base.specs.declared.place.Kind.TheVariants as kind;
ghost use Rattle.topology.specs.Texts.{IsCalled};
ghost use Rattle.topology.specs.Seen.{rule_seen, service_seen};
ghost use Rattle.policy_build.specs.Views.{decls_of, sources_in};
ghost use Rattle.policy_build.specs.Fair.{declares_fair};
ghost use Rattle.policy_build.specs.Good.{IsGoodRule, IsGood};
ghost use Rattle.policy_build.specs.Services.{rule_at, services_at};

use crate::expand::Expander;
use crate::protocols::declared_protocols;
use crate::scope::Scope;
use crate::sets::union;
use bumpalo::Bump;
use bumpalo::collections::into_bump_slice;
use spoc_ast::{Decl, RuleTree};
use spoc_base::{Kind, NoMemory};
use topology::{Rule, Service};

/// How deep protocol groups nest at most, with a protocol below them.
const MOST_NESTED: u8 = 65;

/// The services, by number.
pub(crate) fn services<'a>(scope: Scope<'a, '_>) -> Result<&'a [Service<'a>], NoMemory>
    requires good { All (IsGood (sources_in scope)) (decls_of scope) }
    requires fair { list_all declares_fair (decls_of scope) ≡ true }
    ensures said { IfOk result (λ services. map (service_seen (sources_in scope.entry)) services.now ≡ (policy_said (decls_of scope.entry)).services) }
    ensures written { IfOk result (λ services. All (λ x. IsCalled kind.Service (sources_in scope.entry) x.name) services.now) }
{
    let protocols = declared_protocols(scope)?;
    services_by(Expander {
        scope,
        protocols: &protocols,
        depth: MOST_NESTED,
        most: most_kept(),
    })
}

// How many protocols of a rule are kept at most: one more than there may be permits.
fn most_kept() -> usize
    ensures { result ≡ most_boxes }
{
    4_000_001
}

fn services_by<'a>(by: Expander<'a, '_>) -> Result<&'a [Service<'a>], NoMemory>
    requires good { All (IsGood (sources_in by.scope)) (decls_of by.scope) }
    requires fair { list_all declares_fair (decls_of by.scope) ≡ true }
    ensures said { IfOk result (λ services. map (service_seen (sources_in by.entry.scope)) services.now ≡ flat_map (services_at (decls_of by.entry.scope) by.entry.depth by.entry.most) (decls_of by.entry.scope)) }
    ensures written { IfOk result (λ services. All (λ x. IsCalled kind.Service (sources_in by.entry.scope) x.name) services.now) }
{
    let mut found = Vec::new(by.scope.arena);
    for decl in by.scope.decls {
        add_service(by, decl, &mut found)?;
    }
    Ok(into_bump_slice(found))
}

fn add_service<'a>(
    by: Expander<'a, '_>,
    decl: &Decl<'a>,
    found: &mut Vec<Service<'a>, &'a Bump>,
) -> Result<(), NoMemory>
    requires good { IsGood (sources_in by.scope) (ast.decl_seen decl.now) }
    requires fair { list_all declares_fair (decls_of by.scope) ≡ true }
    requires written { All (λ x. IsCalled kind.Service (sources_in by.scope) x.name) found.old.items }
    ensures said { OnOk result (map (service_seen (sources_in by.entry.scope)) found.new.items ≡ map (service_seen (sources_in by.entry.scope)) found.old.items ++ services_at (decls_of by.entry.scope) by.entry.depth by.entry.most (ast.decl_seen decl.now)) }
    ensures written { OnOk result (All (λ x. IsCalled kind.Service (sources_in by.entry.scope) x.name) found.new.items) }
{
    let Decl::Service {
        name,
        user,
        rules,
        ..
    } = decl
    else {
        return Ok(());
    };
    let user = union(by.scope, user)?;
    let rules = rules_of(by, rules)?;
    let service = Service {
        name: by.scope.named(Kind::Service, *name),
        user,
        rules,
    };
    let Ok(()) = found.push(service) else {
        return Err(NoMemory);
    };
    Ok(())
}

// The rules of a service.
fn rules_of<'a>(by: Expander<'a, '_>, rules: &[RuleTree<'a>]) -> Result<&'a [Rule<'a>], NoMemory>
    requires good { All IsGoodRule (map ast.rule_seen rules.now) }
    requires fair { list_all declares_fair (decls_of by.scope) ≡ true }
    ensures { IfOk result (λ found. map rule_seen found.now ≡ map (rule_at (decls_of by.entry.scope) by.entry.depth by.entry.most) (map ast.rule_seen rules.now)) }
{
    let mut found = Vec::new(by.scope.arena);
    for rule in rules {
        add_rule(by, rule, &mut found)?;
    }
    Ok(into_bump_slice(found))
}

fn add_rule<'a>(
    by: Expander<'a, '_>,
    rule: &RuleTree<'a>,
    found: &mut Vec<Rule<'a>, &'a Bump>,
) -> Result<(), NoMemory>
    requires good { IsGoodRule (ast.rule_seen rule.now) }
    requires fair { list_all declares_fair (decls_of by.scope) ≡ true }
    ensures { OnOk result (map rule_seen found.new.items ≡ map rule_seen found.old.items ++ rule_at (decls_of by.entry.scope) by.entry.depth by.entry.most (ast.rule_seen rule.now) ∷ []) }
{
    let rule = rule_of(by, rule)?;
    let Ok(()) = found.push(rule) else {
        return Err(NoMemory);
    };
    Ok(())
}

fn rule_of<'a>(by: Expander<'a, '_>, rule: &RuleTree<'a>) -> Result<Rule<'a>, NoMemory>
    requires good { IsGoodRule (ast.rule_seen rule.now) }
    requires fair { list_all declares_fair (decls_of by.scope) ≡ true }
    ensures { IfOk result (λ found. rule_seen found ≡ rule_at (decls_of by.entry.scope) by.entry.depth by.entry.most (ast.rule_seen rule.now)) }
{
    let src = union(by.scope, &rule.src)?;
    let dst = union(by.scope, &rule.dst)?;
    let prts = by.boxes(rule.prts)?;
    Ok(Rule {
        deny: rule.deny,
        src,
        dst,
        prts,
    })
}
