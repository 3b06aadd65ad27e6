ghost use Rattle.std.specs.Prelude.{◌≡◌, ℕ, suc, ◌<◌, ◌≤◌, length, slice_index_or, OnOk};
ghost use Rattle.local_optimise.specs.Chained.{AreChained, last_with};
ghost use Rattle.local_optimise.specs.declared.keys.Key.{Key as KeySeen};

use crate::keys::Key;
use indexmap::IndexMap;
use spoc_base::NoMemory;
use std::alloc::Global;

/// Places from 0 on, each with a key: the last place of each key, and from each place the one before
/// it with the same key.
#[derive(Drop)]
pub(crate) struct Chains {
    heads: IndexMap<Key, usize>,
    links: Vec<Option<usize>>,
}

impl Chains {
    /// No places.
    pub(crate) fn new(alloc: Global) -> Chains
        ensures chained { (keys : ℕ → KeySeen) → AreChained result keys }
        ensures count { length result.links.items ≡ 0 }
    {
        Chains {
            heads: IndexMap::new(alloc),
            links: Vec::new(alloc),
        }
    }

    /// Adds the next place, with its key.
    pub(crate) fn add(&mut self, key: Key) -> Result<(), NoMemory>
        ensures chained { OnOk result ((old new : ℕ → KeySeen) → AreChained self.old old → ((i : ℕ) → i < length self.old.links.items → new i ≡ old i) → new (length self.old.links.items) ≡ key → AreChained self.new new) }
        ensures count { OnOk result (length self.new.links.items ≡ suc (length self.old.links.items)) }
    {
        let place = self.links.len();
        let before = self.last(&key);
        self.heads.insert(key, place)?;
        self.links.push(before)?;
        Ok(())
    }

    /// The last place with the key.
    pub(crate) fn last(&self, key: &Key) -> Option<usize>
        ensures { (keys : ℕ → KeySeen) → AreChained self.now keys → result ≡ last_with keys key.now (length self.now.links.items) }
    {
        self.heads.get(key).copied()
    }

    /// The last place before this one with the same key.
    pub(crate) fn before(&self, place: usize) -> Option<usize>
        requires { place < length self.now.links.items }
        ensures { (keys : ℕ → KeySeen) → AreChained self.now keys → result ≡ last_with keys (keys place) place }
    {
        self.links[place]
    }
}
