ghost use Rattle.std.specs.Prelude.{◌≡◌, ◌+◌, ◌≤◌, ◌∷◌, [], length, map, flat_map, false, IfOk, IfErr, OnOk};
ghost use Rattle.spoc_base.specs.Address.{any_address};
ghost use Rattle.spoc_base.specs.Boxes.{AnyTransport};
ghost use Rattle.spoc_base.specs.Shown.{cidr_of, box_of};
ghost use Rattle.policy_model.specs.Filters.{deny_all as last_line};
ghost use Rattle.dev_config.specs.Seen.{line_of};
ghost use Rattle.permit_lines.specs.Pieces.{permit_line};
ghost use Rattle.acl_build.specs.Pieces.{lines_from};
ghost use Rattle.acl_build.specs.Seen.{GrowsBy};
ghost use Rattle.acl_build.specs.Limit.{RefusesLines};

use bumpalo::Bump;
use dev_config::Line;
use spoc_base::{Addr, Fault, NoMemory, Prefix, Refusal, TBox};
use std::slice::from_ref;

// Puts a line behind the others.
fn push_line<'s>(lines: &mut Vec<Line<'s>>, line: Line<'s>) -> Result<(), NoMemory>
    ensures { OnOk result (GrowsBy (line_of line.entry ∷ []) lines.old.items lines.new.items) }
{
    let Ok(()) = lines.push(line) else {
        return Err(NoMemory);
    };
    Ok(())
}

// Puts a line for each destination behind the others.
fn push_from<'s>(
    lines: &mut Vec<Line<'s>>,
    src: &'s Prefix,
    dsts: &'s [Prefix],
    t: TBox,
) -> Result<(), NoMemory>
    ensures { OnOk result (GrowsBy (map (permit_line (box_of t) (cidr_of src.now)) (map cidr_of dsts.now)) lines.old.items lines.new.items) }
{
    for dst in dsts {
        let line = Line {
            permit: true,
            src: from_ref(src),
            dst: from_ref(dst),
            t,
        };
        push_line(lines, line)?;
    }
    Ok(())
}

/// Puts a line for each source and each destination behind the others, source by source.
pub(crate) fn push_lines<'s>(
    lines: &mut Vec<Line<'s>>,
    srcs: &'s [Prefix],
    dsts: &'s [Prefix],
    t: TBox,
) -> Result<(), NoMemory>
    ensures { OnOk result (GrowsBy (flat_map (lines_from (box_of t) (map cidr_of dsts.now)) (map cidr_of srcs.now)) lines.old.items lines.new.items) }
{
    for src in srcs {
        push_from(lines, src, dsts, t)?;
    }
    Ok(())
}

/// Puts the denial of all between two prefixes behind the others, unless there are too many then.
pub(crate) fn push_denial<'s>(
    scratch: &'s Bump,
    src: Prefix,
    dst: Prefix,
    most: u64,
    lines: &mut Vec<Line<'s>>,
) -> Result<(), Refusal>
    ensures lines { OnOk result (GrowsBy (record { permit = false; src = cidr_of src ∷ []; dst = cidr_of dst ∷ []; box = AnyTransport } ∷ []) lines.old.items lines.new.items) }
    ensures room { OnOk result (length lines.new.items ≤ most) }
    ensures refused { IfErr result (RefusesLines most (length lines.old.items + 1)) }
{
    if lines.len() as u64 >= most {
        return Err(Refusal::Policy(Fault::LimitLines));
    }
    let src = kept(scratch, &[src])?;
    let dst = kept(scratch, &[dst])?;
    let line = Line {
        permit: false,
        src,
        dst,
        t: TBox::Any,
    };
    push_line(lines, line)?;
    Ok(())
}

/// Puts the denial of everything behind the others, unless there are too many then.
pub(crate) fn push_last<'s>(
    scratch: &'s Bump,
    most: u64,
    lines: &mut Vec<Line<'s>>,
) -> Result<(), Refusal>
    ensures lines { OnOk result (GrowsBy (last_line ∷ []) lines.old.items lines.new.items) }
    ensures room { OnOk result (length lines.new.items ≤ most) }
    ensures refused { IfErr result (RefusesLines most (length lines.old.items + 1)) }
{
    let any = any_prefix();
    push_denial(scratch, any, any, most, lines)
}

// The prefix of all addresses.
fn any_prefix() -> Prefix
    ensures { cidr_of result ≡ any_address }
{
    match Prefix::new(Addr(0), 0) {
        Some(any) => any,
        None => unreachable!(),
    }
}

/// The prefixes, in the arena.
pub(crate) fn kept<'s>(scratch: &'s Bump, prefixes: &[Prefix]) -> Result<&'s [Prefix], NoMemory>
    ensures { IfOk result (λ all. all.now ≡ prefixes.now) }
{
    let all = scratch.try_alloc_slice_copy(prefixes)?;
    Ok(all)
}
