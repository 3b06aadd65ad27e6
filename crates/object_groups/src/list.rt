ghost use Rattle.std.specs.Prelude.{◌≡◌, IfOk};
ghost use Rattle.policy_model.specs.Grouped.{grouped_lines};
ghost use Rattle.policy_model.specs.Laws.{IsJoinedUp};
ghost use Rattle.dev_config.specs.Seen.{lines_of};

use crate::runs::joined_once;
use bumpalo::Bump;
use dev_config::List;
use spoc_base::NoMemory;
use std::alloc::Global;

/// The list with groups of prefixes. Each longest run of neighbours that have one action, one transport and the same
/// destinations becomes one line with all their sources, in order and without repeats; then each longest run with the same
/// sources becomes one with all their destinations; and so on in turn, until neither changes anything. The new list decides each
/// header as before, and no two neighbours of it can be joined. It lies in `scratch`, as do the prefixes of joined lines, those of
/// turns in between too; the other prefixes lie where they lay. The only error is want of memory.
///
/// The time of a turn grows with the lines that are left and their prefixes: each line is compared with one other, and each prefix
/// of an end that is joined is hashed once. Each turn but the last takes a line away. In a list with one prefix at each end and no
/// line twice, a line that is joined in turn `n` has at least `n` sources and `n` destinations by then, so that there is at most
/// one turn more than the square root of the number of lines.
pub fn group<'s>(alloc: Global, scratch: &'s Bump, list: &List<'s>) -> Result<List<'s>, NoMemory>
    ensures list { IfOk result (λ new. lines_of new ≡ grouped_lines (lines_of list.now)) }
    ensures joined { IfOk result (λ new. IsJoinedUp (lines_of list.now) (lines_of new)) }
{
    let mut before = list.lines.len();
    let mut left = joined_once(alloc, scratch, list.lines)?;
    while left.len() < before {
        before = left.len();
        left = joined_once(alloc, scratch, &left)?;
    }
    let lines = scratch.try_alloc_slice_copy(&left)?;
    Ok(List { lines })
}
