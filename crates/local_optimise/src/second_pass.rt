ghost use Rattle.std.specs.Prelude.{◌≡◌, map, IfOk};
ghost use Rattle.policy_model.specs.Optimised.{without_repeated};
ghost use Rattle.dev_config.specs.Seen.{line_of};

use crate::remaining::Remaining;
use dev_config::Line;
use spoc_base::NoMemory;
use std::alloc::Global;

/// From the last line up, the lines that the remaining ones below don't repeat.
pub(crate) fn unrepeated<'s>(alloc: Global, lines: &[Line<'s>]) -> Result<Vec<Line<'s>>, NoMemory>
    ensures { IfOk result (λ left. map line_of left.items ≡ without_repeated (map line_of lines.now)) }
{
    let mut below = Remaining::new(alloc);
    let mut left = lines.len();
    while left > 0 {
        left -= 1;
        let line = &lines[left];
        if !below.is_repeating(line) {
            below.put(*line)?;
        }
    }
    let mut kept = below.into_lines();
    kept.reverse();
    Ok(kept)
}
