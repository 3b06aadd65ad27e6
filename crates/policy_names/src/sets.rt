ghost use Rattle.std.specs.Prelude.{◌≡◌, ◌++◌, OnOk};
ghost use Rattle.spoc_ast.specs.Seen.{set_seen, inter_seen, term_seen};
ghost use Rattle.policy_decls.specs.Uses.{uses_in_set};
ghost use Rattle.policy_names.specs.Seen.{GrowsBy};

use crate::mention::{Mention, NameKind};
use crate::names::{add_plain, add_port};
use spoc_ast::{InterTree, SetTree, TermTree};
use spoc_base::NoMemory;

/// Adds the names that stand in a set, those of each part in turn.
#[cycle(sets)]
#[tactic(auto, using(crate::proofs::SetUses::uses_of_set))]
pub(crate) fn add_set<'a>(set: &SetTree<'a>, found: &mut Vec<Mention<'a>>) -> Result<(), NoMemory>
    ensures { OnOk result (GrowsBy (uses_in_set (set_seen set.now)) found.old.items found.new.items) }
{
    for part in set.inters {
        add_part(part, found)?;
    }
    Ok(())
}

// The names of the first term of a part, then those of each further term.
#[cycle(sets)]
#[tactic(auto, using(crate::proofs::SetUses::uses_of_part))]
fn add_part<'a>(part: &InterTree<'a>, found: &mut Vec<Mention<'a>>) -> Result<(), NoMemory>
    ensures { OnOk result (GrowsBy (uses_in_set (inter_seen part.now)) found.old.items found.new.items) }
{
    add_term(&part.first, found)?;
    for further in part.rest {
        add_term(&further.term, found)?;
    }
    Ok(())
}

#[cycle(sets)]
fn add_term<'a>(term: &TermTree<'a>, found: &mut Vec<Mention<'a>>) -> Result<(), NoMemory>
    ensures { OnOk result (GrowsBy (uses_in_set (term_seen term.now)) found.old.items found.new.items) }
{
    match term {
        TermTree::Network(name) => add_plain(NameKind::Network, *name, found),
        TermTree::Host(name) => add_plain(NameKind::Host, *name, found),
        TermTree::Port(port) => add_port(*port, found),
        TermTree::Group(name) => add_plain(NameKind::Group, *name, found),
        TermTree::Aggregate(name) => add_plain(NameKind::Aggregate, *name, found),
        TermTree::Area(name) => add_plain(NameKind::Area, *name, found),
        TermTree::User => Ok(()),
        TermTree::Nets(set) | TermTree::Hosts(set) | TermTree::Anys(_, set) => add_set(set, found),
    }
}
