ghost use Rattle.std.specs.Prelude.{◌≡◌, ◌++◌, [], ◌∷◌, OnOk};

use spoc_base::NoMemory;
use std::alloc::Global;
use std::marker::Model;

/// Places of a list, in order.
#[derive(Drop)]
pub(crate) struct Places {
    list: Vec<u32>,
}

impl Model for Places {
    ghost use Rattle.std.specs.Prelude.{List, ℕ};

    ghost Value = { List ℕ };

    ghost view = { λ p. p.list.items };
}

impl Places {
    /// No places.
    pub(crate) fn new(alloc: Global) -> Places
        ensures { result ≡ [] }
    {
        Places {
            list: Vec::new(alloc),
        }
    }

    /// Adds a place behind the others.
    pub(crate) fn push(&mut self, place: u32) -> Result<(), NoMemory>
        ensures { OnOk result (self.new ≡ self.old ++ place ∷ []) }
    {
        self.list.push(place)?;
        Ok(())
    }

    /// The places.
    pub(crate) fn list(&self) -> &[u32]
        ensures { result.now ≡ self.now }
    {
        &self.list
    }
}
