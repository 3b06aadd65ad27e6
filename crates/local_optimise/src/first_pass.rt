ghost use Rattle.std.specs.Prelude.{◌≡◌, map, IfOk};
ghost use Rattle.policy_model.specs.Optimised.{without_covered};
ghost use Rattle.dev_config.specs.Seen.{line_of};

use crate::shelf::Shelf;
use dev_config::Line;
use spoc_base::NoMemory;
use std::alloc::Global;

/// From the top, the lines that no earlier line covers, whatever the actions.
pub(crate) fn uncovered<'s>(alloc: Global, lines: &[Line<'s>]) -> Result<Vec<Line<'s>>, NoMemory>
    ensures { IfOk result (λ left. map line_of left.items ≡ without_covered (map line_of lines.now)) }
{
    let mut above = Shelf::new(alloc);
    for line in lines {
        if !above.is_covered(line) {
            above.put(*line)?;
        }
    }
    Ok(above.into_lines())
}
