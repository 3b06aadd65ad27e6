ghost use Rattle.std.specs.Prelude.{◌≡◌, ◌+◌, ◌<◌, ◌≤◌, ◌∷◌, ◌++◌, [], length, map, flat_map, take, option_map, IfOk, OnOk};
ghost use Rattle.std.specs.List.{sum_by};
ghost use Rattle.spoc_base.specs.Pieces.{HeaderBox, listed};
ghost use Rattle.policy_model.specs.Permits.{box_of_permit, permit_of_box, pieces_left_by};
ghost use Rattle.box_algebra.specs.Shown.{header_box_of};
ghost use Rattle.permit_set.specs.Shown.{permit_of};
ghost use Rattle.permit_pieces.specs.Left.{left_from, left_between, left_of, part_of, parts_of, work_from};
ghost use Rattle.permit_pieces.specs.Rows.{table_of};

use crate::denials::{Denials, box_in};
use box_algebra::{Box4, meets, parts};
use permit_set::{End, Permit};
use spoc_base::NoMemory;
use std::alloc::Global;

/// A part of a permit, and how many denials have been taken from it: the first ones of its row.
#[derive(Clone, Copy)]
pub(crate) struct Piece {
    pub part: Box4,
    pub taken: usize,
}

// The next denial that has something in common with the part, or how many denials there are.
fn next_meeting(denials: &[Box4], part: &Box4, from: usize) -> usize
    ensures left { left_from (map header_box_of denials.now) (header_box_of part.now, from) ≡ left_from (map header_box_of denials.now) (header_box_of part.now, result) }
    ensures work { work_from (map header_box_of denials.now) (header_box_of part.now, result) ≤ work_from (map header_box_of denials.now) (header_box_of part.now, from) }
{
    let mut next = from;
    while next < denials.len() && !meets(part, &denials[next]) {
        next += 1;
    }
    next
}

// Puts parts before those that wait, in their order.
fn put_first(mut parts: Vec<Box4>, taken: usize, waiting: &mut Vec<Piece>) -> Result<(), NoMemory>
    ensures { OnOk result (parts_of waiting.new.items ≡ map (λ b. (b, taken)) (map header_box_of parts.items) ++ parts_of waiting.old.items) }
{
    while let Some(part) = parts.pop() {
        waiting.push(Piece { part, taken })?;
    }
    Ok(())
}

// The part, where no denial takes from it any more; else the pieces that the next one leaves of it
// are put before those that wait.
fn split(
    alloc: Global,
    denials: &[Box4],
    piece: Piece,
    waiting: &mut Vec<Piece>,
) -> Result<Option<Box4>, NoMemory>
    ensures left { IfOk result (λ last. listed (option_map header_box_of last) ++ flat_map (left_from (map header_box_of denials.now)) (parts_of waiting.new.items) ≡ left_from (map header_box_of denials.now) (part_of piece) ++ flat_map (left_from (map header_box_of denials.now)) (parts_of waiting.old.items)) }
    ensures work { OnOk result (sum_by (work_from (map header_box_of denials.now)) (parts_of waiting.new.items) < work_from (map header_box_of denials.now) (part_of piece) + sum_by (work_from (map header_box_of denials.now)) (parts_of waiting.old.items)) }
{
    let next = next_meeting(denials, &piece.part, piece.taken);
    if next >= denials.len() {
        return Ok(Some(piece.part));
    }
    put_first(
        parts(alloc, &piece.part, &denials[next])?,
        next + 1,
        waiting,
    )?;
    Ok(None)
}

// The box between the permit's two networks.
fn permit_in(q: &Permit, part: Box4) -> Permit
    ensures { permit_of result ≡ permit_of_box (permit_of q.now) (header_box_of part) }
{
    Permit {
        src: End {
            net: q.src.net,
            range: part.src,
        },
        dst: End {
            net: q.dst.net,
            range: part.dst,
        },
        t: part.t,
    }
}

// Adds what the denials leave of the permit, until there are as many permits as may be. The pieces
// are made one by one, so that besides those that wait only those of the list are held.
fn add_left(
    alloc: Global,
    denials: &[Box4],
    q: &Permit,
    most: usize,
    found: &mut Vec<Permit>,
) -> Result<(), NoMemory>
    requires { length found.old.items ≤ most }
    ensures { OnOk result (map permit_of found.new.items ≡ take most (map permit_of found.old.items ++ map (permit_of_box (permit_of q.now)) (left_of (map header_box_of denials.now) (box_of_permit (permit_of q.now))))) }
{
    let mut waiting = Vec::new(alloc);
    waiting.push(Piece {
        part: box_in(q),
        taken: 0,
    })?;
    while let Some(piece) = waiting.pop() {
        if found.len() >= most {
            return Ok(());
        }
        if let Some(part) = split(alloc, denials, piece, &mut waiting)? {
            found.push(permit_in(q, part))?;
        }
    }
    Ok(())
}

// What the denials leave of the permits, by their rows.
fn left_by_rows(
    alloc: Global,
    permits: &[Permit],
    denials: &Denials,
    most: usize,
) -> Result<Vec<Permit>, NoMemory>
    ensures { IfOk result (λ found. map permit_of found.items ≡ take most (flat_map (left_between (table_of denials.now)) (map permit_of permits.now))) }
{
    let mut found = Vec::new(alloc);
    for q in permits {
        add_left(
            alloc,
            denials.between(q.src.net, q.dst.net),
            q,
            most,
            &mut found,
        )?;
    }
    Ok(found)
}

/// The pieces of permits that denials leave, permit by permit: each denial in turn takes from each
/// piece of a permit between its own two networks. Only the first `most` pieces where there are
/// more.
pub fn permits_left(
    alloc: Global,
    permits: &[Permit],
    denials: &[Permit],
    most: usize,
) -> Result<Vec<Permit>, NoMemory>
    ensures { IfOk result (λ found. map permit_of found.items ≡ take most (flat_map (λ q. pieces_left_by (map permit_of denials.now) (q ∷ [])) (map permit_of permits.now))) }
{
    let rows = Denials::of(alloc, denials)?;
    left_by_rows(alloc, permits, &rows, most)
}
