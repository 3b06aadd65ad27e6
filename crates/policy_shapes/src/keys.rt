ghost use Rattle.std.specs.Prelude.{◌≡◌, not, [], ◌∷◌, ◌++◌, if◌then◌else◌, IfOk, OnOk};
ghost use Rattle.policy_shapes.specs.Keys.{key, has_key, with_keys};

use indexmap::IndexSet;
use spoc_base::NoMemory;
use std::alloc::Global;
use std::marker::Model;

/// A set of names with their owners.
#[derive(Drop)]
pub(crate) struct Keys<'a> {
    set: IndexSet<(&'a [u8], &'a [u8])>,
}

impl<'a> Model for Keys<'a> {
    ghost use Rattle.std.specs.Prelude.{List, map};
    ghost use Rattle.policy_shapes.specs.Keys.{Key, key};

    ghost Value = { List Key };

    ghost view = { λ a. map (λ k. key k.0.now k.1.now) a.set.keys };
}

impl<'a> Keys<'a> {
    /// The set of no names.
    pub(crate) fn new(alloc: Global) -> Keys<'a>
        ensures { result ≡ [] }
    {
        Keys {
            set: IndexSet::new(alloc),
        }
    }

    /// Whether a name is in the set.
    pub(crate) fn holds(&self, owner: &[u8], text: &[u8]) -> bool
        ensures { result ≡ has_key self.now (key owner.now text.now) }
    {
        self.set.contains(&(owner, text))
    }

    // Adds a name behind the others, unless it is there.
    fn insert(&mut self, owner: &'a [u8], text: &'a [u8]) -> Result<bool, NoMemory>
        ensures added { IfOk result (λ new. new ≡ not (has_key self.old (key owner.now text.now))) }
        ensures names { IfOk result (λ new. self.new ≡ (if new then self.old ++ key owner.now text.now ∷ [] else self.old)) }
    {
        Ok(self.set.insert((owner, text))?)
    }

    /// Adds a name. False exactly where it was there.
    pub(crate) fn add(&mut self, owner: &'a [u8], text: &'a [u8]) -> Result<bool, NoMemory>
        ensures added { IfOk result (λ new. new ≡ not (has_key self.old (key owner.now text.now))) }
        ensures names { OnOk result (has_key self.new ≡ with_keys (has_key self.old) (key owner.now text.now ∷ [])) }
    {
        self.insert(owner, text)
    }
}
