ghost use Rattle.std.specs.Prelude.{◌≡◌, ◌<◌, not, length, position, [], ◌∷◌, ◌++◌, if◌then◌else◌, IfOk, IfSome};
ghost use Rattle.std.specs.List.{list_any};
ghost use Rattle.policy_names.specs.Tables.{same_key, key};

use indexmap::IndexSet;
use spoc_base::NoMemory;
use std::alloc::Global;
use std::marker::Model;

/// Different names with their owners, numbered from 0 in the order in which they came.
#[derive(Drop)]
pub(crate) struct Keys<'a> {
    set: IndexSet<(&'a [u8], &'a [u8])>,
}

impl<'a> Model for Keys<'a> {
    ghost use Rattle.std.specs.Prelude.{List, map};
    ghost use Rattle.policy_names.specs.Tables.{Key, key};

    ghost Value = { List Key };

    ghost view = { λ a. map (λ k. key k.0.now k.1.now) a.set.keys };
}

impl<'a> Keys<'a> {
    /// A table of no names.
    pub(crate) fn new(alloc: Global) -> Keys<'a>
        ensures { result ≡ [] }
    {
        Keys {
            set: IndexSet::new(alloc),
        }
    }

    /// How many names there are.
    pub(crate) fn len(&self) -> usize
        ensures { result ≡ length self.now }
    {
        self.set.len()
    }

    /// The number of a name.
    pub(crate) fn find(&self, owner: &[u8], text: &[u8]) -> Option<usize>
        ensures number { result ≡ position (same_key (key owner.now text.now)) self.now }
        ensures within { IfSome result (λ n. n < length self.now) }
    {
        self.set.get_index_of(&(owner, text))
    }

    /// Adds a name behind the others. False exactly where it is there, and then nothing changes.
    pub(crate) fn add(&mut self, owner: &'a [u8], text: &'a [u8]) -> Result<bool, NoMemory>
        ensures added { IfOk result (λ new. new ≡ not (list_any (same_key (key owner.now text.now)) self.old)) }
        ensures names { IfOk result (λ new. self.new ≡ (if new then self.old ++ key owner.now text.now ∷ [] else self.old)) }
    {
        Ok(self.set.insert((owner, text))?)
    }
}
