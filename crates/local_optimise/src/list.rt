ghost use Rattle.std.specs.Prelude.{◌≡◌, IfOk};
ghost use Rattle.policy_model.specs.Optimised.{optimised_lines};
ghost use Rattle.policy_model.specs.Laws.{IsOptimised};
ghost use Rattle.dev_config.specs.Seen.{lines_of};

use crate::first_pass::uncovered;
use crate::second_pass::unrepeated;
use bumpalo::Bump;
use dev_config::List;
use spoc_base::NoMemory;
use std::alloc::Global;

/// The list without needless lines. From the top, each line that an earlier one covers is left out,
/// whatever their actions. Then, from the last line up, each line is left out that a later remaining
/// line of the same action covers, where no remaining line of the other action between the two meets
/// it. The new list decides each header as before, and neither rule leaves out more of it. It lies in
/// `scratch`, and its prefixes lie where they lay. The only error is want of memory.
pub fn optimise<'s>(alloc: Global, scratch: &'s Bump, list: &List<'s>) -> Result<List<'s>, NoMemory>
    ensures list { IfOk result (λ new. lines_of new ≡ optimised_lines (lines_of list.now)) }
    ensures optimised { IfOk result (λ new. IsOptimised (lines_of list.now) (lines_of new)) }
{
    let uncovered = uncovered(alloc, list.lines)?;
    let left = unrepeated(alloc, &uncovered)?;
    let lines = scratch.try_alloc_slice_copy(&left)?;
    Ok(List { lines })
}
