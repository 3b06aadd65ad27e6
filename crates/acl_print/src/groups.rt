ghost use Rattle.std.specs.Prelude.{◌≡◌, [], IfOk, map, flat_map, fold};
ghost use Rattle.spoc_base.specs.Shown.{cidr_of};
ghost use Rattle.dev_config.specs.Seen.{line_of, lines_of};
ghost use Rattle.acl_print.specs.Groups.{group_number, groups_of, ends_of, with_group};
ghost use Rattle.acl_print.specs.Seen.{member_seen};

use dev_config::{Line, List};
use indexmap::IndexSet;
use spoc_base::{Addr, NoMemory, Prefix};
use std::alloc::Global;
use std::marker::Model;

/// A prefix of a group, in a form that can be hashed.
#[derive(Clone, Copy, PartialEq, Eq, Hash)]
pub(crate) struct Member {
    pub(crate) net: Addr,
    pub(crate) len: u8,
}

/// The groups of a file, each once, numbered from 0.
#[derive(Drop)]
pub(crate) struct Groups {
    alloc: Global,
    set: IndexSet<Vec<Member>>,
}

impl Model for Groups {
    ghost use Rattle.std.specs.Prelude.{List, map};
    ghost use Rattle.spoc_base.specs.Address.{Cidr};
    ghost use Rattle.acl_print.specs.Seen.{member_seen};

    ghost Value = { List (List Cidr) };

    ghost view = { λ g. map (λ k. map member_seen k.items) g.set.keys };
}

// The prefixes in the form of members.
fn members(alloc: Global, prefixes: &[Prefix]) -> Result<Vec<Member>, NoMemory>
    ensures { IfOk result (λ found. map member_seen found.items ≡ map cidr_of prefixes.now) }
{
    let mut found = Vec::new(alloc);
    for p in prefixes {
        found.push(Member {
            net: p.net(),
            len: p.len(),
        })?;
    }
    Ok(found)
}

fn add_line(groups: &mut Groups, line: &Line<'_>) -> Result<(), NoMemory>
    ensures { IfOk result (λ _. groups.new ≡ fold with_group groups.old (ends_of (line_of line.now))) }
{
    groups.add(line.src)?;
    groups.add(line.dst)?;
    Ok(())
}

fn add_lines(groups: &mut Groups, lines: &[Line<'_>]) -> Result<(), NoMemory>
    ensures { IfOk result (λ _. groups.new ≡ fold with_group groups.old (flat_map ends_of (map line_of lines.now))) }
{
    for line in lines {
        add_line(groups, line)?;
    }
    Ok(())
}

fn add_lists(groups: &mut Groups, lists: &[List<'_>]) -> Result<(), NoMemory>
    ensures { IfOk result (λ _. groups.new ≡ fold with_group groups.old (flat_map (λ lines. flat_map ends_of lines) (map lines_of lists.now))) }
{
    for list in lists {
        add_lines(groups, list.lines)?;
    }
    Ok(())
}

impl Groups {
    /// No groups.
    pub(crate) fn none(alloc: Global) -> Groups
        ensures { result ≡ [] }
    {
        Groups {
            alloc,
            set: IndexSet::new(alloc),
        }
    }

    /// The groups of these lists, in the order of their first use.
    pub(crate) fn of(alloc: Global, lists: &[List<'_>]) -> Result<Groups, NoMemory>
        ensures { IfOk result (λ groups. groups ≡ groups_of (map lines_of lists.now)) }
    {
        let mut groups = Groups::none(alloc);
        add_lists(&mut groups, lists)?;
        Ok(groups)
    }

    /// The members of each group.
    pub(crate) fn lists(&self) -> &[Vec<Member>]
        ensures { map (λ k. map member_seen k.items) result.now ≡ self.now }
    {
        self.set.as_slice()
    }

    // Adds an end, unless it is no group or there already.
    fn add(&mut self, prefixes: &[Prefix]) -> Result<(), NoMemory>
        ensures { IfOk result (λ _. self.new ≡ with_group self.old (map cidr_of prefixes.now)) }
    {
        if prefixes.len() <= 1 {
            return Ok(());
        }
        let key = members(self.alloc, prefixes)?;
        self.set.insert(key)?;
        Ok(())
    }

    /// The number of the group with these prefixes, and 0 where there is none.
    pub(crate) fn number(&self, prefixes: &[Prefix]) -> Result<usize, NoMemory>
        ensures { IfOk result (λ k. k ≡ group_number self.now (map cidr_of prefixes.now)) }
    {
        let key = members(self.alloc, prefixes)?;
        Ok(self.set.get_index_of(&key).unwrap_or(0))
    }
}
