ghost use Rattle.std.specs.Prelude.{◌≡◌, true, IfOk};
ghost use Rattle.spoc_ast.specs.Seen.{set_seen, inter_seen, term_seen};
ghost use Rattle.policy_decls.specs.Said.{expr_in};
ghost use Rattle.topology.specs.Expressions.{expr_of, part_of, term_of};
ghost use Rattle.policy_build.specs.Views.{decls_of};
ghost use Rattle.policy_build.specs.Aligned.{asks_aligned, aligned_expr};

use crate::scope::Scope;
use crate::values::prefix_in;
use bumpalo::collections::into_bump_slice;
use policy_names::NameKind;
use spoc_ast::{InterTree, SetTree, TermTree};
use spoc_base::{HostId, IfId, NetId, NoMemory};
use topology::{Further, Inter, Term, Union};

/// The union that a set says, in the arena.
#[tactic(auto, using(crate::proofs::Unions::expr_aligned))]
pub(crate) fn union<'a>(scope: Scope<'a, '_>, set: &SetTree<'a>) -> Result<&'a Union<'a>, NoMemory>
    requires { asks_aligned (set_seen set.now) ≡ true }
    ensures { IfOk result (λ union. expr_of union.now ≡ expr_in (decls_of scope.entry) (set_seen set.now)) }
{
    let union = parts(scope, set)?;
    Ok(scope.arena.try_alloc(union)?)
}

// The parts of a set, in order.
#[cycle(sets)]
#[tactic(auto, using(crate::proofs::Unions::set_said))]
fn parts<'a>(scope: Scope<'a, '_>, set: &SetTree<'a>) -> Result<Union<'a>, NoMemory>
    ensures { IfOk result (λ union. expr_of union ≡ aligned_expr (decls_of scope.entry) (set_seen set.now)) }
{
    let mut found = Vec::new(scope.arena);
    for inter in set.inters {
        let part = part(scope, inter)?;
        let Ok(()) = found.push(part) else {
            return Err(NoMemory);
        };
    }
    Ok(Union {
        parts: into_bump_slice(found),
    })
}

// A part: its first term, and each further term.
#[cycle(sets)]
#[tactic(auto, using(crate::proofs::Unions::part_said))]
fn part<'a>(scope: Scope<'a, '_>, inter: &InterTree<'a>) -> Result<Inter<'a>, NoMemory>
    ensures { IfOk result (λ part. part_of part ≡ aligned_expr (decls_of scope.entry) (inter_seen inter.now)) }
{
    let first = term(scope, &inter.first)?;
    let mut found = Vec::new(scope.arena);
    for further in inter.rest {
        let term = term(scope, &further.term)?;
        let further = Further {
            without: further.without,
            term,
        };
        let Ok(()) = found.push(further) else {
            return Err(NoMemory);
        };
    }
    Ok(Inter {
        first,
        rest: into_bump_slice(found),
    })
}

#[cycle(sets)]
fn term<'a>(scope: Scope<'a, '_>, term: &TermTree<'a>) -> Result<Term<'a>, NoMemory>
    ensures { IfOk result (λ found. term_of found ≡ aligned_expr (decls_of scope.entry) (term_seen term.now)) }
{
    Ok(match term {
        TermTree::Network(name) => Term::Net(NetId(scope.number(NameKind::Network, *name))),
        TermTree::Host(name) => Term::Host(HostId(scope.number(NameKind::Host, *name))),
        TermTree::Port(port) => Term::Iface(IfId(scope.port(*port))),
        TermTree::Group(name) => Term::Group(scope.number(NameKind::Group, *name)),
        TermTree::Aggregate(name) => Term::Aggregate(scope.number(NameKind::Aggregate, *name)),
        TermTree::Area(name) => Term::Area(scope.number(NameKind::Area, *name)),
        TermTree::User => Term::User,
        TermTree::Nets(set) => Term::Nets(inner(scope, set)?),
        TermTree::Hosts(set) => Term::Hosts(inner(scope, set)?),
        TermTree::Anys(only, set) => Term::Anys(prefix_in(*only), inner(scope, set)?),
    })
}

// The union of a set in brackets.
#[cycle(sets)]
fn inner<'a>(scope: Scope<'a, '_>, set: &SetTree<'a>) -> Result<&'a Union<'a>, NoMemory>
    ensures { IfOk result (λ union. expr_of union.now ≡ aligned_expr (decls_of scope.entry) (set_seen set.now)) }
{
    let union = parts(scope, set)?;
    Ok(scope.arena.try_alloc(union)?)
}
