ghost use Rattle.std.specs.Prelude.{◌≡◌, ◌&&◌, ◌++◌, ◌∷◌, ◌<◌, [], map, length, OnOk};
ghost use Rattle.std.specs.List.{list_any};
ghost use Rattle.policy_model.specs.Filters.{line_covers};
ghost use Rattle.dev_config.specs.Seen.{line_of};
ghost use Rattle.local_optimise.specs.Chained.{later};
ghost use Rattle.local_optimise.specs.Keys as plain;
ghost use Rattle.local_optimise.specs.Held.{held_by, line_at, IsIndexed, last_under, last_cover, last_by};

use crate::chains::Chains;
use crate::keys::{Key, Mask, asked_by, first_length, first_net, values_of};
use crate::pairs::is_covering;
use crate::stem_set::StemSet;
use dev_config::Line;
use indexmap::IndexSet;
use spoc_base::NoMemory;
use std::alloc::Global;

/// Lines that are held, in order, and found by what they ask of headers.
#[derive(Drop)]
pub(crate) struct Shelf<'s> {
    lines: Vec<Line<'s>>,
    chains: Chains,
    masks: IndexSet<Mask>,
    sources: StemSet,
    destinations: StemSet,
}

// Whether the action of the one will do for the other: any does, or only the same.
fn is_suiting(any: bool, one: bool, other: bool) -> bool
    ensures { result ≡ plain.suits any one other }
{
    any || one == other
}

// Whether a line with this mask may cover the line.
fn is_probable(any: bool, line: &Line<'_>, mask: &Mask) -> bool
    ensures { result ≡ plain.may_cover any (line_of line.now) mask.now }
{
    is_suiting(any, line.permit, mask.permit)
        && mask.src <= first_length(line.src)
        && mask.dst <= first_length(line.dst)
}

// Whether a line with this mask may cover the line, and there are lines with its stems of sources and of
// destinations.
fn is_worth(
    any: bool,
    line: &Line<'_>,
    mask: &Mask,
    sources: &[bool; 256],
    destinations: &[bool; 256],
) -> bool
    ensures { result ≡ (plain.may_cover any (line_of line.now) mask.now && (plain.may_be sources.now mask.now.src && plain.may_be destinations.now mask.now.dst)) }
{
    is_probable(any, line, mask)
        && (sources[usize::from(mask.src)] && destinations[usize::from(mask.dst)])
}

// The later one of two places, where there are any.
fn later_of(one: Option<usize>, other: Option<usize>) -> Option<usize>
    ensures { result ≡ later one other }
{
    match (one, other) {
        (None, _) => other,
        (Some(_), None) => one,
        (Some(m), Some(n)) => Some(if m < n { n } else { m }),
    }
}

// Puts the line behind the others.
fn push_line<'s>(lines: &mut Vec<Line<'s>>, line: Line<'s>) -> Result<(), NoMemory>
    ensures { OnOk result (map line_of lines.new.items ≡ map line_of lines.old.items ++ line_of line.entry ∷ []) }
{
    let Ok(()) = lines.push(line) else {
        return Err(NoMemory);
    };
    Ok(())
}

impl<'s> Shelf<'s> {
    /// No lines.
    pub(crate) fn new(alloc: Global) -> Shelf<'s>
        ensures none { held_by result ≡ [] }
        ensures indexed { IsIndexed result }
    {
        Shelf {
            lines: Vec::new(alloc),
            chains: Chains::new(alloc),
            masks: IndexSet::new(alloc),
            sources: StemSet::new(alloc),
            destinations: StemSet::new(alloc),
        }
    }

    /// Adds a line behind the others.
    pub(crate) fn put(&mut self, line: Line<'s>) -> Result<(), NoMemory>
        requires { IsIndexed self.old }
        ensures lines { OnOk result (held_by self.new ≡ held_by self.old ++ line_of line.entry ∷ []) }
        ensures indexed { OnOk result (IsIndexed self.new) }
    {
        let mask = asked_by(&line);
        let key = values_of(mask, &line);
        self.masks.insert(mask)?;
        self.sources.add(key.mask.src, key.src)?;
        self.destinations.add(key.mask.dst, key.dst)?;
        self.chains.add(key)?;
        push_line(&mut self.lines, line)?;
        Ok(())
    }

    // Of the lines with the key, the last one that covers the line.
    fn last_with(&self, key: Key, line: &Line<'_>) -> Option<usize>
        requires { IsIndexed self.now }
        ensures { result ≡ last_under key (line_of line.now) (held_by self.now) }
    {
        let mut cursor = self.chains.last(&key);
        while let Some(place) = cursor {
            if is_covering(self.at(place), line) {
                return Some(place);
            }
            cursor = self.chains.before(place);
        }
        None
    }

    // Of all lines, the last one that covers the line, with its action or with any.
    fn last_of_all(&self, line: &Line<'_>, any: bool) -> Option<usize>
        ensures { result ≡ last_cover any (line_of line.now) (held_by self.now) }
    {
        let mut left = self.lines.len();
        while left > 0 {
            left -= 1;
            let other = self.at(left);
            if is_suiting(any, line.permit, other.permit) && is_covering(other, line) {
                return Some(left);
            }
        }
        None
    }

    // The same by the masks, for a line with prefixes at both ends.
    fn last_by_masks(&self, line: &Line<'_>, any: bool) -> Option<usize>
        requires { IsIndexed self.now }
        ensures { result ≡ last_by any (line_of line.now) self.now.masks.keys (held_by self.now) }
    {
        let sources = self.sources.known(first_net(line.src));
        let destinations = self.destinations.known(first_net(line.dst));
        let mut found = None;
        for mask in self.masks.as_slice() {
            if is_worth(any, line, mask, &sources, &destinations) {
                found = later_of(found, self.last_with(values_of(*mask, line), line));
            }
        }
        found
    }

    /// The place of the last line that covers the line, with its action or with any.
    pub(crate) fn nearest(&self, line: &Line<'_>, any: bool) -> Option<usize>
        requires { IsIndexed self.now }
        ensures { result ≡ last_cover any (line_of line.now) (held_by self.now) }
    {
        if line.src.is_empty() || line.dst.is_empty() {
            return self.last_of_all(line, any);
        }
        self.last_by_masks(line, any)
    }

    /// Whether one of the lines covers the line, whatever the actions.
    pub(crate) fn is_covered(&self, line: &Line<'_>) -> bool
        requires { IsIndexed self.now }
        ensures { result ≡ list_any (λ m. line_covers m (line_of line.now)) (held_by self.now) }
    {
        self.nearest(line, true).is_some()
    }

    /// What lines ask, each once.
    pub(crate) fn masks(&self) -> &[Mask]
        ensures { result.now ≡ self.now.masks.keys }
    {
        self.masks.as_slice()
    }

    /// How many lines there are.
    pub(crate) fn len(&self) -> usize
        ensures { result ≡ length self.now.lines.items }
    {
        self.lines.len()
    }

    /// The line at a place.
    pub(crate) fn at(&self, place: usize) -> &Line<'s>
        requires { place < length self.now.lines.items }
        ensures { line_of result.now ≡ line_at (held_by self.now) place }
    {
        &self.lines[place]
    }

    /// The lines, in order.
    pub(crate) fn into_lines(self) -> Vec<Line<'s>>
        ensures { map line_of result.items ≡ held_by self.entry }
    {
        self.lines
    }
}
