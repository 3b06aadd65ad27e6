ghost use Rattle.std.specs.Prelude.{◌≡◌, ℕ, ◌<◌, ◌≤◌, true, Bool, List, [], ◌∷◌, ◌++◌, length, IfOk, OnOk};
ghost use Rattle.policy_nesting.specs.Graph.{leads, are_below, AreNodes};
ghost use Rattle.policy_nesting.specs.Search.{Marks};

use crate::graph::{flag, row};
use spoc_base::{NoMemory, Row};
use std::alloc::Global;

/// Whether a node names itself, or one that does, and so on: a search of all nodes to which it
/// leads, each of which is looked at once.
pub(crate) fn returns(alloc: Global, rows: &[Row<u32>], start: u32) -> Result<bool, NoMemory>
    requires start { start < length rows.now }
    requires nodes { AreNodes rows.now }
    ensures { IfOk result (λ back. (n : ℕ) → length rows.now ≤ n → back ≡ leads rows.now n start start) }
{
    let mut marked = vec![in alloc; false; rows.len()]?;
    let mut found = Vec::new(alloc);
    mark(&mut marked, &mut found, row(rows, start))?;
    for next in 0..rows.len() {
        if next >= found.len() {
            return Ok(flag(&marked, start));
        }
        let node = found[next];
        mark(&mut marked, &mut found, row(rows, node))?;
    }
    Ok(flag(&marked, start))
}

// Marks the nodes of a row, and adds those that weren't marked to what has been found.
fn mark(marked: &mut Vec<bool>, found: &mut Vec<u32>, row: &[u32]) -> Result<(), NoMemory>
    requires { are_below (length marked.old.items) row.now ≡ true }
    ensures { OnOk result (Marks row.now marked.old.items found.old.items marked.new.items found.new.items) }
{
    for node in row {
        mark_one(marked, found, *node)?;
    }
    Ok(())
}

fn mark_one(marked: &mut Vec<bool>, found: &mut Vec<u32>, node: u32) -> Result<(), NoMemory>
    requires { node < length marked.old.items }
    ensures { OnOk result ((row : List ℕ) (before : List Bool) (first : List ℕ) → Marks row before first marked.old.items found.old.items → Marks (row ++ node ∷ []) before first marked.new.items found.new.items) }
{
    if flag(marked, node) {
        return Ok(());
    }
    marked[node as usize] = true;
    found.push(node)?;
    Ok(())
}
