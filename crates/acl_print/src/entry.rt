ghost use Rattle.std.specs.Prelude.{◌≡◌, ◌++◌, IfOk, map};
ghost use Rattle.spoc_base.specs.Shown.{cidr_of};
ghost use Rattle.dev_config.specs.Seen.{line_of};
ghost use Rattle.acl_print.specs.Groups.{group_name};
ghost use Rattle.acl_print.specs.Entries.{group_end, end_text, entry_text};

use crate::groups::Groups;
use crate::word::{
    put, put_action, put_mark, put_number, put_other_ports, put_prefix, put_protocol,
    put_source_ports,
};
use dev_config::Line;
use spoc_base::{Dialect, NoMemory, Prefix};

/// The name of the group with this number.
pub(crate) fn put_group_name(out: &mut Vec<u8>, k: usize) -> Result<(), NoMemory>
    ensures { IfOk result (λ _. out.new.items ≡ out.old.items ++ group_name k) }
{
    put(out, b"g")?;
    put_number(out, k as u64)
}

// The group of these prefixes by its name.
fn put_group(out: &mut Vec<u8>, groups: &Groups, prefixes: &[Prefix]) -> Result<(), NoMemory>
    ensures { IfOk result (λ _. out.new.items ≡ out.old.items ++ group_end groups.now (map cidr_of prefixes.now)) }
{
    let k = groups.number(prefixes)?;
    put(out, b"object-group ")?;
    put_group_name(out, k)?;
    Ok(())
}

// A source or destination.
#[tactic(auto, unfolding(crate::specs::Entries::end_text))]
fn put_end(
    out: &mut Vec<u8>,
    dialect: Dialect,
    groups: &Groups,
    prefixes: &[Prefix],
) -> Result<(), NoMemory>
    ensures { IfOk result (λ _. out.new.items ≡ out.old.items ++ end_text dialect groups.now (map cidr_of prefixes.now)) }
{
    match (dialect, prefixes) {
        (_, []) => Ok(()),
        (Dialect::Asa, [_, _, ..]) => put_group(out, groups, prefixes),
        (_, [p, ..]) => put_prefix(out, dialect, *p),
    }
}

/// A line of an access list, from its action on.
#[tactic(auto, unfolding(crate::specs::Entries::entry_text))]
pub(crate) fn put_entry(
    out: &mut Vec<u8>,
    dialect: Dialect,
    groups: &Groups,
    line: &Line<'_>,
) -> Result<(), NoMemory>
    ensures { IfOk result (λ _. out.new.items ≡ out.old.items ++ entry_text dialect groups.now (line_of line.now)) }
{
    put_action(out, line.permit)?;
    put_protocol(out, line.t)?;
    put_end(out, dialect, groups, line.src)?;
    put_source_ports(out, line.t)?;
    put(out, b" ")?;
    put_end(out, dialect, groups, line.dst)?;
    put_other_ports(out, line.t)?;
    put_mark(out, dialect, line.t)?;
    Ok(())
}
