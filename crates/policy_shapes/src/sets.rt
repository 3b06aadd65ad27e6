ghost use Rattle.std.specs.Prelude.{◌≡◌, map};
ghost use Rattle.spoc_ast.specs.Seen.{set_seen, inter_seen, term_seen, decl_seen};
ghost use Rattle.policy_decls.specs.Shapes.{says_user};
ghost use Rattle.policy_shapes.specs.Sets.{asks_unaligned, names_bare};

use crate::policy::Policy;
use crate::word::is_unaligned;
use spoc_ast::{InterTree, SetTree, TermTree};

/// Whether a set asks for a prefix with a host bit.
#[cycle(asks)]
#[tactic(auto, using(crate::proofs::SetTests::asks_set))]
pub(crate) fn asks_unaligned(set: &SetTree<'_>) -> bool
    ensures { result ≡ asks_unaligned (set_seen set.now) }
{
    for part in set.inters {
        if part_asks(part) {
            return true;
        }
    }
    false
}

#[cycle(asks)]
#[tactic(auto, using(crate::proofs::SetTests::asks_part))]
fn part_asks(part: &InterTree<'_>) -> bool
    ensures { result ≡ asks_unaligned (inter_seen part.now) }
{
    if term_asks(&part.first) {
        return true;
    }
    for further in part.rest {
        if term_asks(&further.term) {
            return true;
        }
    }
    false
}

#[cycle(asks)]
fn term_asks(term: &TermTree<'_>) -> bool
    ensures { result ≡ asks_unaligned (term_seen term.now) }
{
    match term {
        TermTree::Network(_)
        | TermTree::Host(_)
        | TermTree::Port(_)
        | TermTree::Group(_)
        | TermTree::Aggregate(_)
        | TermTree::Area(_)
        | TermTree::User => false,
        TermTree::Nets(set) | TermTree::Hosts(set) | TermTree::Anys(None, set) => {
            asks_unaligned(set)
        }
        TermTree::Anys(Some(only), set) => is_unaligned(only) || asks_unaligned(set),
    }
}

/// Whether a set names the user.
#[cycle(users)]
#[tactic(auto, using(crate::proofs::SetTests::users_set))]
pub(crate) fn says_user(set: &SetTree<'_>) -> bool
    ensures { result ≡ says_user (set_seen set.now) }
{
    for part in set.inters {
        if part_says_user(part) {
            return true;
        }
    }
    false
}

#[cycle(users)]
#[tactic(auto, using(crate::proofs::SetTests::users_part))]
fn part_says_user(part: &InterTree<'_>) -> bool
    ensures { result ≡ says_user (inter_seen part.now) }
{
    if term_says_user(&part.first) {
        return true;
    }
    for further in part.rest {
        if term_says_user(&further.term) {
            return true;
        }
    }
    false
}

#[cycle(users)]
fn term_says_user(term: &TermTree<'_>) -> bool
    ensures { result ≡ says_user (term_seen term.now) }
{
    match term {
        TermTree::Network(_)
        | TermTree::Host(_)
        | TermTree::Port(_)
        | TermTree::Group(_)
        | TermTree::Aggregate(_)
        | TermTree::Area(_) => false,
        TermTree::User => true,
        TermTree::Nets(set) | TermTree::Hosts(set) | TermTree::Anys(_, set) => says_user(set),
    }
}

/// Whether a set names an interface of an unmanaged router that has no address.
#[cycle(bares)]
#[tactic(auto, using(crate::proofs::SetTests::bares_set))]
pub(crate) fn names_bare(policy: &Policy<'_, '_>, set: &SetTree<'_>) -> bool
    ensures { result ≡ names_bare (map decl_seen policy.now) (set_seen set.now) }
{
    for part in set.inters {
        if part_names_bare(policy, part) {
            return true;
        }
    }
    false
}

#[cycle(bares)]
#[tactic(auto, using(crate::proofs::SetTests::bares_part))]
fn part_names_bare(policy: &Policy<'_, '_>, part: &InterTree<'_>) -> bool
    ensures { result ≡ names_bare (map decl_seen policy.now) (inter_seen part.now) }
{
    if term_names_bare(policy, &part.first) {
        return true;
    }
    for further in part.rest {
        if term_names_bare(policy, &further.term) {
            return true;
        }
    }
    false
}

#[cycle(bares)]
fn term_names_bare(policy: &Policy<'_, '_>, term: &TermTree<'_>) -> bool
    ensures { result ≡ names_bare (map decl_seen policy.now) (term_seen term.now) }
{
    match term {
        TermTree::Network(_)
        | TermTree::Host(_)
        | TermTree::Group(_)
        | TermTree::Aggregate(_)
        | TermTree::Area(_)
        | TermTree::User => false,
        TermTree::Port(port) => policy.is_bare(port),
        TermTree::Nets(set) | TermTree::Hosts(set) | TermTree::Anys(_, set) => {
            names_bare(policy, set)
        }
    }
}
