ghost use Rattle.std.specs.Prelude.{◌≡◌, true, map, IfOk};
ghost use Rattle.policy_model.specs.Objects.{object_set};
ghost use Rattle.topology.specs.Expressions.{expr_of, part_of, term_of};
ghost use Rattle.topology.specs.Sound.{is_sound_expr};
ghost use Rattle.topology.specs.View.{policy_of};
ghost use Rattle.group_expand.specs.Scope.{IsScope, objects_in};
ghost use Rattle.group_expand.specs.Sets.{object_seen};

use crate::members::{hosts_of, nets_of, of_group, of_user, one};
use crate::narrow::narrow;
use crate::object::Object;
use crate::object_set::ObjectSet;
use crate::scope::Scope;
use crate::zone_nets::{of_aggregate, of_area, zones_of};
use spoc_base::NoMemory;
use topology::{Inter, Term, Union};

/// The objects of a union: those of each part, in order and without repeats.
#[cycle(sets)]
#[tactic(auto, using(crate::proofs::UnionSets::union_begins, crate::proofs::UnionSets::union_goes_on, crate::proofs::UnionSets::union_sound))]
pub(crate) fn of_union(scope: &Scope<'_>, set: &Union<'_>) -> Result<Vec<Object>, NoMemory>
    requires scope { IsScope scope.now }
    requires sound { is_sound_expr (policy_of scope.now.topo) true true (expr_of set.now) ≡ true }
    ensures { IfOk result (λ found. map object_seen found.items ≡ objects_in scope.now (expr_of set.now)) }
{
    let mut found = ObjectSet::new(scope.alloc);
    for part in set.parts {
        let objects = of_part(scope, part)?;
        found.add_all(&objects)?;
    }
    found.list(scope.alloc)
}

// The objects of a part: those of its first term, narrowed by each further term.
#[cycle(sets)]
#[tactic(auto, using(crate::proofs::UnionSets::part_begins, crate::proofs::UnionSets::part_goes_on, crate::proofs::UnionSets::part_sound))]
fn of_part(scope: &Scope<'_>, part: &Inter<'_>) -> Result<Vec<Object>, NoMemory>
    requires scope { IsScope scope.now }
    requires sound { is_sound_expr (policy_of scope.now.topo) true true (part_of part.now) ≡ true }
    ensures { IfOk result (λ found. map object_seen found.items ≡ objects_in scope.now (part_of part.now)) }
{
    let mut found = of_term(scope, &part.first)?;
    for further in part.rest {
        let others = of_term(scope, &further.term)?;
        found = narrow(scope.alloc, &found, &others, further.without)?;
    }
    Ok(found)
}

#[cycle(sets)]
#[tactic(auto, using(crate::proofs::SoundSets::sound_set))]
fn of_term(scope: &Scope<'_>, term: &Term<'_>) -> Result<Vec<Object>, NoMemory>
    requires scope { IsScope scope.now }
    requires sound { is_sound_expr (policy_of scope.now.topo) true true (term_of term.now) ≡ true }
    ensures { IfOk result (λ found. map object_seen found.items ≡ objects_in scope.now (term_of term.now)) }
{
    match term {
        Term::Net(n) => one(scope.alloc, Object::Net(*n)),
        Term::Host(h) => one(scope.alloc, Object::Host(*h)),
        Term::Iface(i) => one(scope.alloc, Object::Iface(*i)),
        Term::Group(g) => of_group(scope, *g),
        Term::Aggregate(k) => of_aggregate(scope, *k),
        Term::Area(k) => of_area(scope, *k),
        Term::User => of_user(scope),
        Term::Nets(set) => {
            let inner = of_union(scope, set)?;
            nets_of(scope, &inner)
        }
        Term::Hosts(set) => {
            let inner = of_union(scope, set)?;
            hosts_of(scope, &inner)
        }
        Term::Anys(only, set) => {
            let inner = of_union(scope, set)?;
            zones_of(scope, *only, &inner)
        }
    }
}
