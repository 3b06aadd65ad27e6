ghost use Rattle.std.specs.Prelude.{◌≡◌, ◌++◌, ◌∷◌, [], IsTrue, false, Some, map, reverse, OnOk};
ghost use Rattle.policy_model.specs.Optimised.{is_repeated};
ghost use Rattle.dev_config.specs.Seen.{line_of};
ghost use Rattle.local_optimise.specs.Held.{held_by, last_across, is_nearer};
ghost use Rattle.local_optimise.specs.Remaining.{AreRemaining};

use crate::chains::Chains;
use crate::keys::{Mask, asked_by, bits_of, first_net, of_action};
use crate::pairs::{is_crossing, is_meeting};
use crate::shelf::Shelf;
use dev_config::Line;
use indexmap::IndexMap;
use spoc_base::NoMemory;
use std::alloc::Global;

/// The lines that remain below a line, from the last one up, chained by their actions too.
#[derive(Drop)]
pub(crate) struct Remaining<'s> {
    shelf: Shelf<'s>,
    actions: Chains,
    ends: IndexMap<Ends, usize>,
}

// An action, and a stem of sources and one of destinations.
type Ends = (bool, (u8, u32), (u8, u32));

// What the mask asks of the ends, at the line's values.
fn ends_of(mask: Mask, line: &Line<'_>) -> Ends {
    let src = bits_of(mask.src, first_net(line.src));
    let dst = bits_of(mask.dst, first_net(line.dst));
    (mask.permit, (mask.src, src), (mask.dst, dst))
}

impl<'s> Remaining<'s> {
    /// No lines.
    pub(crate) fn new(alloc: Global) -> Remaining<'s>
        ensures none { held_by result.shelf ≡ [] }
        ensures chained { AreRemaining result }
    {
        Remaining {
            shelf: Shelf::new(alloc),
            actions: Chains::new(alloc),
            ends: IndexMap::new(alloc),
        }
    }

    /// Adds a line above the others.
    pub(crate) fn put(&mut self, line: Line<'s>) -> Result<(), NoMemory>
        requires { AreRemaining self.old }
        ensures lines { OnOk result (held_by self.new.shelf ≡ held_by self.old.shelf ++ line_of line.entry ∷ []) }
        ensures chained { OnOk result (AreRemaining self.new) }
    {
        let place = self.shelf.len();
        self.ends.insert(ends_of(asked_by(&line), &line), place)?;
        self.actions.add(of_action(line.permit))?;
        self.shelf.put(line)?;
        Ok(())
    }

    // Whether the line at a place stands above the floor, has the other action and meets the line.
    fn is_across_at(&self, line: &Line<'_>, floor: usize, place: usize) -> bool
        ensures { IsTrue result → is_nearer (Some floor) (last_across (line_of line.now) (held_by self.now.shelf)) ≡ false }
    {
        if place < floor || self.shelf.len() <= place {
            return false;
        }
        is_crossing(line, self.shelf.at(place))
    }

    // Whether a line of the other action above a place is known to meet the line: one whose ends hold
    // the line's. Where this is false, there may be others.
    fn is_known_across(&self, line: &Line<'_>, floor: usize) -> bool
        ensures { IsTrue result → is_nearer (Some floor) (last_across (line_of line.now) (held_by self.now.shelf)) ≡ false }
    {
        for mask in self.shelf.masks() {
            if mask.permit != line.permit {
                if let Some(place) = self.ends.get(&ends_of(*mask, line)) {
                    if self.is_across_at(line, floor, *place) {
                        return true;
                    }
                }
            }
        }
        false
    }

    // Whether none of the lines of the other action above a place meets the line.
    fn is_clear_above(&self, line: &Line<'_>, floor: usize) -> bool
        requires { AreRemaining self.now }
        ensures { result ≡ is_nearer (Some floor) (last_across (line_of line.now) (held_by self.now.shelf)) }
    {
        let mut cursor = self.actions.last(&of_action(!line.permit));
        while let Some(place) = cursor {
            if place < floor {
                return true;
            }
            if is_meeting(self.shelf.at(place), line) {
                return false;
            }
            cursor = self.actions.before(place);
        }
        true
    }

    // The same, by the lines that are found by their ends first.
    fn is_clear(&self, line: &Line<'_>, floor: usize) -> bool
        requires { AreRemaining self.now }
        ensures { result ≡ is_nearer (Some floor) (last_across (line_of line.now) (held_by self.now.shelf)) }
    {
        if self.is_known_across(line, floor) {
            return false;
        }
        self.is_clear_above(line, floor)
    }

    /// Whether a line below of the same action covers the line, and none of the other action between
    /// the two meets it.
    pub(crate) fn is_repeating(&self, line: &Line<'_>) -> bool
        requires { AreRemaining self.now }
        ensures { result ≡ is_repeated (line_of line.now) (reverse (held_by self.now.shelf)) }
    {
        match self.shelf.nearest(line, false) {
            Some(place) => self.is_clear(line, place),
            None => false,
        }
    }

    /// The lines, from the last one up.
    pub(crate) fn into_lines(self) -> Vec<Line<'s>>
        ensures { map line_of result.items ≡ held_by self.entry.shelf }
    {
        self.shelf.into_lines()
    }
}
