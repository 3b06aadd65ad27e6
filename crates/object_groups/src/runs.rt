ghost use Rattle.std.specs.Prelude.{◌≡◌, ◌++◌, ◌∷◌, [], map, IfOk, OnOk};
ghost use Rattle.policy_model.specs.Grouped.{sources_joined, destinations_joined};
ghost use Rattle.dev_config.specs.Seen.{line_of};
ghost use Rattle.object_groups.specs.Runs.{mirrored, run_as_one};

use crate::compare::count_joinable;
use crate::members::all_sources;
use bumpalo::Bump;
use dev_config::Line;
use spoc_base::NoMemory;
use std::alloc::Global;

// A run as one line: the first of its lines with the sources of all. A line alone stays as it is.
fn joined_run<'s>(
    alloc: Global,
    scratch: &'s Bump,
    first: &Line<'s>,
    run: &[Line<'s>],
) -> Result<Line<'s>, NoMemory>
    ensures { IfOk result (λ line. line_of line ≡ run_as_one (line_of first.now) (map line_of run.now)) }
{
    let mut line = *first;
    if run.len() > 1 {
        line.src = all_sources(alloc, scratch, run)?;
    }
    Ok(line)
}

// The line with its ends exchanged.
fn mirror(line: Line<'_>) -> Line<'_>
    ensures { line_of result ≡ mirrored (line_of line.entry) }
{
    Line {
        src: line.dst,
        dst: line.src,
        ..line
    }
}

// Puts the line behind the others.
fn push_line<'s>(lines: &mut Vec<Line<'s>>, line: Line<'s>) -> Result<(), NoMemory>
    ensures { OnOk result (map line_of lines.new.items ≡ map line_of lines.old.items ++ line_of line.entry ∷ []) }
{
    let Ok(()) = lines.push(line) else {
        return Err(NoMemory);
    };
    Ok(())
}

// Joins each longest run of neighbours that differ in their sources alone, and exchanges the ends of each line, so that a second
// call joins those that differ in their destinations alone and puts the ends back. Each line is compared once, with the first one
// of the run above it, and each source of a joined run is looked up once.
fn joined_and_mirrored<'s>(
    alloc: Global,
    scratch: &'s Bump,
    lines: &[Line<'s>],
) -> Result<Vec<Line<'s>>, NoMemory>
    ensures { IfOk result (λ joined. map line_of joined.items ≡ map mirrored (sources_joined (map line_of lines.now))) }
{
    let mut joined = Vec::new(alloc);
    let mut left = lines;
    while let Some((first, others)) = left.split_first() {
        let count = 1 + count_joinable(first, others);
        let line = joined_run(alloc, scratch, first, &left[..count])?;
        push_line(&mut joined, mirror(line))?;
        left = &left[count..];
    }
    Ok(joined)
}

/// Joins neighbours that differ in their sources alone, and then those that differ in their destinations alone.
pub(crate) fn joined_once<'s>(
    alloc: Global,
    scratch: &'s Bump,
    lines: &[Line<'s>],
) -> Result<Vec<Line<'s>>, NoMemory>
    ensures { IfOk result (λ joined. map line_of joined.items ≡ destinations_joined (sources_joined (map line_of lines.now))) }
{
    let by_source = joined_and_mirrored(alloc, scratch, lines)?;
    joined_and_mirrored(alloc, scratch, &by_source)
}
