ghost use Rattle.std.specs.Prelude.{◌≡◌, ◌<◌, None, IfOk};
ghost use Rattle.std.specs.List.{list_any};
ghost use Rattle.policy_decls.specs.Names.{declared_names};
ghost use Rattle.policy_decls.specs.Nesting.{nesting_names, nests};
ghost use Rattle.policy_decls.specs.Faults.{name_twice, name_unknown};
ghost use Rattle.policy_decls.specs.Limits as limits;
ghost use Rattle.policy_names.specs.Seen.{decls_of};
ghost use Rattle.policy_nesting.specs.Nodes.{AreNamed};

use crate::group_graph::graph_of;
use crate::nodes::Nesting;
use policy_names::NameTable;
use spoc_ast::File;
use spoc_base::NoMemory;
use std::alloc::Global;

// Groups nest 64 deep at most.
pub(crate) const TOO_DEEP: u32 = 65;

/// Whether there are 65 groups, or 65 protocol groups, of which each names the next. An error comes
/// from want of memory alone.
pub fn nest_too_deep(
    alloc: Global,
    table: &NameTable<'_>,
    files: &[File<'_>],
) -> Result<bool, NoMemory>
    requires table { table.now ≡ declared_names (decls_of files.now) }
    requires once { name_twice (decls_of files.now) ≡ None }
    requires known { name_unknown (decls_of files.now) ≡ None }
    ensures { IfOk result (λ deep. deep ≡ limits.nest_too_deep (decls_of files.now)) }
{
    nest_deep(alloc, table, TOO_DEEP, files)
}

// Whether so many groups, or protocol groups, nest.
fn nest_deep(
    alloc: Global,
    table: &NameTable<'_>,
    depth: u32,
    files: &[File<'_>],
) -> Result<bool, NoMemory>
    requires depth { 0 < depth }
    requires table { table.now ≡ declared_names (decls_of files.now) }
    requires named { AreNamed (decls_of files.now) }
    ensures { IfOk result (λ deep. deep ≡ list_any (nests (decls_of files.now) depth) (nesting_names (decls_of files.now))) }
{
    let objects = graph_of(alloc, table, Nesting::Objects, depth, files)?;
    let protocols = graph_of(alloc, table, Nesting::Protocols, depth, files)?;
    let deep = any_flag(&objects.deep);
    if deep {
        return Ok(true);
    }
    Ok(any_flag(&protocols.deep))
}

fn any_flag(flags: &[bool]) -> bool
    ensures { result ≡ list_any (λ flag. flag) flags.now }
{
    flags.iter().any(|flag| *flag)
}
