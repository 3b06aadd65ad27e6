ghost use Rattle.std.specs.Prelude.{◌≡◌};
ghost use Rattle.topology.specs.Expressions.{expr_of, part_of, term_of};
ghost use Rattle.group_expand.specs.Groups.{waits};
ghost use Rattle.group_expand.specs.Spread.{marked};

use topology::{Inter, Term, Union};

// Whether a group is done.
fn is_done(done: &[bool], g: u32) -> bool
    ensures { result ≡ marked done.now g }
{
    done.get(g as usize).copied().unwrap_or(false)
}

/// Whether a union names a group that isn't done.
#[cycle(waits)]
#[tactic(auto, using(crate::proofs::Waiting::waits_set))]
pub(crate) fn waits(done: &[bool], set: &Union<'_>) -> bool
    ensures { result ≡ waits done.now (expr_of set.now) }
{
    for part in set.parts {
        if part_waits(done, part) {
            return true;
        }
    }
    false
}

#[cycle(waits)]
#[tactic(auto, using(crate::proofs::Waiting::waits_part))]
fn part_waits(done: &[bool], part: &Inter<'_>) -> bool
    ensures { result ≡ waits done.now (part_of part.now) }
{
    if term_waits(done, &part.first) {
        return true;
    }
    for further in part.rest {
        if term_waits(done, &further.term) {
            return true;
        }
    }
    false
}

#[cycle(waits)]
#[tactic(auto, using(crate::proofs::Waiting::waits_group))]
fn term_waits(done: &[bool], term: &Term<'_>) -> bool
    ensures { result ≡ waits done.now (term_of term.now) }
{
    match term {
        Term::Net(_)
        | Term::Host(_)
        | Term::Iface(_)
        | Term::Aggregate(_)
        | Term::Area(_)
        | Term::User => false,
        Term::Group(g) => !is_done(done, *g),
        Term::Nets(set) | Term::Hosts(set) | Term::Anys(_, set) => waits(done, set),
    }
}
