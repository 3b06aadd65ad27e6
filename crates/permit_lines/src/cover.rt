ghost use Rattle.std.specs.Prelude.{◌≡◌, ◌↔◌, ◌*◌, ◌≤◌, length, map, IfOk, IsTrue};
ghost use Rattle.spoc_base.specs.Shown.{cidr_of};
ghost use Rattle.policy_model.specs.Blocks.{end_cover as cover_in_view};
ghost use Rattle.permit_set.specs.Shown.{end_of, permit_of};
ghost use Rattle.nat_view.specs.Sights.{sight_of};
ghost use Rattle.permit_lines.specs.Given.{IsKnownEnd, IsKnown};
ghost use Rattle.permit_lines.specs.Pieces.{cover_in, lines_of_cover};
ghost use Rattle.permit_lines.specs.Seen.{cover_seen};

use box_algebra::cover_range;
use nat_view::View;
use permit_set::{End, Permit};
use spoc_base::{NoMemory, Prefix, Row, TBox};
use std::alloc::Global;

/// The lines of a permit where a view is: one for each of the sources with each of the
/// destinations, source by source. The prefixes make up the permit's ends.
#[derive(Drop)]
pub struct PermitCover {
    pub srcs: Row<Prefix>,
    pub dsts: Row<Prefix>,
    pub t: TBox,
}

impl PermitCover {
    /// Whether there are no more lines than this. They aren't made for that.
    pub fn fits(&self, room: u64) -> bool
        ensures { IsTrue result ↔ (length (lines_of_cover (cover_seen self.now)) ≤ room) }
    {
        is_product_within(self.srcs.items().len(), self.dsts.items().len(), room)
    }
}

// Whether the product is at most this number.
fn is_product_within(a: usize, b: usize, most: u64) -> bool
    ensures { IsTrue result ↔ (a * b ≤ most) }
{
    match a.checked_mul(b) {
        Some(product) => product as u64 <= most,
        None => false,
    }
}

// The prefixes that make up the range of an end where the view is, none where its network is
// hidden.
fn end_cover(alloc: Global, view: View<'_>, end: End) -> Result<Vec<Prefix>, NoMemory>
    requires { IsKnownEnd (sight_of view).policy (end_of end) }
    ensures { IfOk result (λ all. map cidr_of all.items ≡ cover_in_view (sight_of view.entry).policy (sight_of view.entry).tags (end_of end)) }
{
    match view.range_in(end.net, end.range) {
        Some(range) => cover_range(alloc, range),
        None => Ok(Vec::new(alloc)),
    }
}

/// The lines of a permit where the view is. Each of its ends is covered once.
pub(crate) fn cover_of(alloc: Global, view: View<'_>, q: &Permit) -> Result<PermitCover, NoMemory>
    requires { IsKnown (sight_of view).policy (permit_of q.now) }
    ensures { IfOk result (λ cover. cover_seen cover ≡ cover_in (sight_of view.entry).policy (sight_of view.entry).tags (permit_of q.now)) }
{
    let srcs = end_cover(alloc, view, q.src)?;
    let dsts = end_cover(alloc, view, q.dst)?;
    Ok(PermitCover {
        srcs: Row::of(srcs),
        dsts: Row::of(dsts),
        t: q.t,
    })
}
