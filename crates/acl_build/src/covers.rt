ghost use Rattle.std.specs.Prelude.{◌≡◌, ◌↔◌, ◌+◌, ◌≤◌, length, IfErr, OnOk, IsTrue};
ghost use Rattle.permit_lines.specs.Pieces.{lines_of_cover};
ghost use Rattle.permit_lines.specs.Seen.{cover_seen, lines_of_covers};
ghost use Rattle.acl_build.specs.Seen.{GrowsBy};
ghost use Rattle.acl_build.specs.Limit.{RefusesLines};

use crate::lines::{kept, push_lines};
use bumpalo::Bump;
use dev_config::Line;
use permit_lines::PermitCover;
use spoc_base::{Fault, Refusal};

// Whether there may be a permit's lines more than are there.
fn has_room(there: usize, cover: &PermitCover, most: u64) -> bool
    ensures { IsTrue result ↔ (there + length (lines_of_cover (cover_seen cover.now)) ≤ most) }
{
    match most.checked_sub(there as u64) {
        Some(room) => cover.fits(room),
        None => false,
    }
}

// Puts the lines of a permit behind the others, unless there are too many then: that is told before
// they are made.
fn push_cover<'s>(
    scratch: &'s Bump,
    cover: &PermitCover,
    most: u64,
    lines: &mut Vec<Line<'s>>,
) -> Result<(), Refusal>
    ensures lines { OnOk result (GrowsBy (lines_of_cover (cover_seen cover.now)) lines.old.items lines.new.items) }
    ensures refused { IfErr result (RefusesLines most (length lines.old.items + length (lines_of_cover (cover_seen cover.now)))) }
{
    if !has_room(lines.len(), cover, most) {
        return Err(Refusal::Policy(Fault::LimitLines));
    }
    let srcs = kept(scratch, cover.srcs.items())?;
    let dsts = kept(scratch, cover.dsts.items())?;
    push_lines(lines, srcs, dsts, cover.t)?;
    Ok(())
}

/// Puts the lines of some permits behind the others, unless there are too many then.
pub(crate) fn push_covers<'s>(
    scratch: &'s Bump,
    covers: &[PermitCover],
    most: u64,
    lines: &mut Vec<Line<'s>>,
) -> Result<(), Refusal>
    ensures lines { OnOk result (GrowsBy (lines_of_covers covers.now) lines.old.items lines.new.items) }
    ensures refused { IfErr result (RefusesLines most (length lines.old.items + length (lines_of_covers covers.now))) }
{
    for cover in covers {
        push_cover(scratch, cover, most, lines)?;
    }
    Ok(())
}
