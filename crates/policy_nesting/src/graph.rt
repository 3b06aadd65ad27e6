ghost use Rattle.std.specs.Prelude.{◌≡◌, ◌<◌, length, map, IfOk};
ghost use Rattle.std.specs.List.{list_any};
ghost use Rattle.policy_nesting.specs.Graph.{row_at, flag_at, AreNodes, AreChains};

use spoc_base::{NoMemory, Row};
use std::alloc::Global;

/// The flag of a node; false where there is no such node.
pub(crate) fn flag(flags: &[bool], node: u32) -> bool
    ensures { result ≡ flag_at flags.now node }
{
    flags.get(node as usize).copied().unwrap_or(false)
}

/// The nodes that a node names.
pub(crate) fn row(rows: &[Row<u32>], node: u32) -> &[u32]
    requires { node < length rows.now }
    ensures { result.now ≡ row_at rows.now node }
{
    rows[node as usize].items()
}

/// Of each node, whether so many nodes of which each names the next begin there. `depth` is 1 or
/// more.
pub(crate) fn chains(alloc: Global, rows: &[Row<u32>], depth: u32) -> Result<Vec<bool>, NoMemory>
    requires depth { 0 < depth }
    requires nodes { AreNodes rows.now }
    ensures { IfOk result (λ flags. AreChains rows.now depth flags.items) }
{
    let mut flags = vec![in alloc; true; rows.len()]?;
    for _ in 1..depth {
        flags = longer(alloc, rows, &flags)?;
    }
    Ok(flags)
}

// Of each node, whether it names one that is flagged.
fn longer(alloc: Global, rows: &[Row<u32>], flags: &[bool]) -> Result<Vec<bool>, NoMemory>
    ensures { IfOk result (λ next. next.items ≡ map (list_any (flag_at flags.now)) rows.now) }
{
    let mut next = Vec::new(alloc);
    for row in rows {
        next.push(names_flagged(row.items(), flags))?;
    }
    Ok(next)
}

fn names_flagged(row: &[u32], flags: &[bool]) -> bool
    ensures { result ≡ list_any (flag_at flags.now) row.now }
{
    row.iter().any(|node| flag(flags, *node))
}
