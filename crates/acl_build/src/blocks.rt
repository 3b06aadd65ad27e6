ghost use Rattle.std.specs.Prelude.{◌≡◌, ◌<◌, ◌+◌, ℕ, length, map, flat_map, IfErr, OnOk};
ghost use Rattle.std.specs.List.{All};
ghost use Rattle.permit_set.specs.Shown.{permit_of};
ghost use Rattle.nat_view.specs.Sights.{sight_of};
ghost use Rattle.permit_lines.specs.Given.{AreKnown};
ghost use Rattle.acl_build.specs.Given.{IsBlock};
ghost use Rattle.acl_build.specs.Pieces.{closing_of, lines_of_block};
ghost use Rattle.acl_build.specs.Seen.{block_seen, GrowsBy};
ghost use Rattle.acl_build.specs.Limit.{RefusesLines};

use crate::covers::push_covers;
use crate::lines::push_denial;
use bumpalo::Bump;
use dev_config::Line;
use nat_view::View;
use permit_lines::pair_covers;
use permit_set::{PairBlock, Permit};
use spoc_base::Refusal;
use std::alloc::Global;

// Puts the denial of all else between the block's networks behind the others, where it is closed,
// unless there are too many lines then.
fn push_closing<'s>(
    scratch: &'s Bump,
    view: View<'_>,
    block: &PairBlock,
    most: u64,
    lines: &mut Vec<Line<'s>>,
) -> Result<(), Refusal>
    requires src { block.now.src.0 < length (sight_of view).policy.nets }
    requires dst { block.now.dst.0 < length (sight_of view).policy.nets }
    ensures lines { OnOk result (GrowsBy (closing_of (sight_of view.entry).policy (sight_of view.entry).tags (block_seen block.now)) lines.old.items lines.new.items) }
    ensures refused { IfErr result (RefusesLines most (length lines.old.items + length (closing_of (sight_of view.entry).policy (sight_of view.entry).tags (block_seen block.now)))) }
{
    if !block.closed {
        return Ok(());
    }
    let Some(src) = view.seen_prefix(block.src) else {
        return Ok(());
    };
    let Some(dst) = view.seen_prefix(block.dst) else {
        return Ok(());
    };
    push_denial(scratch, src, dst, most, lines)
}

// Puts the lines of a block behind the others: those of its permits, then those of the replies, and
// then its denial.
fn push_block<'s>(
    alloc: Global,
    scratch: &'s Bump,
    view: View<'_>,
    permits: &[Permit],
    block: &PairBlock,
    most: u64,
    lines: &mut Vec<Line<'s>>,
) -> Result<(), Refusal>
    requires known { AreKnown (sight_of view).policy (map permit_of permits.now) }
    requires block { IsBlock (sight_of view).policy (length permits.now) (block_seen block.now) }
    ensures lines { OnOk result (GrowsBy (lines_of_block (sight_of view.entry).policy (sight_of view.entry).tags (map permit_of permits.now) (block_seen block.now)) lines.old.items lines.new.items) }
    ensures refused { IfErr result (RefusesLines most (length lines.old.items + length (lines_of_block (sight_of view.entry).policy (sight_of view.entry).tags (map permit_of permits.now) (block_seen block.now)))) }
{
    let covers = pair_covers(
        alloc,
        view,
        permits,
        block.forward.items(),
        block.mirrored.items(),
    )?;
    push_covers(scratch, &covers, most, lines)?;
    push_closing(scratch, view, block, most, lines)
}

/// Puts the lines of the blocks behind the others, block by block, unless there are too many then.
pub(crate) fn push_blocks<'s>(
    alloc: Global,
    scratch: &'s Bump,
    view: View<'_>,
    permits: &[Permit],
    blocks: &[PairBlock],
    most: u64,
    lines: &mut Vec<Line<'s>>,
) -> Result<(), Refusal>
    requires known { AreKnown (sight_of view).policy (map permit_of permits.now) }
    requires blocks { All (λ b. IsBlock (sight_of view).policy (length permits.now) (block_seen b)) blocks.now }
    ensures lines { OnOk result (GrowsBy (flat_map (lines_of_block (sight_of view.entry).policy (sight_of view.entry).tags (map permit_of permits.now)) (map block_seen blocks.now)) lines.old.items lines.new.items) }
    ensures refused { IfErr result (RefusesLines most (length lines.old.items + length (flat_map (lines_of_block (sight_of view.entry).policy (sight_of view.entry).tags (map permit_of permits.now)) (map block_seen blocks.now)))) }
{
    for block in blocks {
        push_block(alloc, scratch, view, permits, block, most, lines)?;
    }
    Ok(())
}
