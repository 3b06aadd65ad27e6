ghost use Rattle.std.specs.Prelude.{◌≡◌, [], ◌∷◌, ◌++◌, List, ℕ, length, map, IfOk};
ghost use Rattle.policy_model.specs.Lists.{once_each};
ghost use Rattle.policy_model.specs.Faults.{same_numbers};

use indexmap::IndexSet;
use spoc_base::{NoMemory, TagId};
use std::alloc::Global;
use std::marker::Model;

/// Rows of tags, each once, in the order in which they came.
#[derive(Drop)]
pub(crate) struct RowSet<'a> {
    set: IndexSet<&'a [TagId]>,
}

impl<'a> Model for RowSet<'a> {
    ghost use Rattle.std.specs.Prelude.{List, ℕ, map};

    ghost Value = { List (List ℕ) };

    ghost view = { λ s. map (λ row. map (λ tag. tag.0) row.now) s.set.keys };
}

impl<'a> RowSet<'a> {
    /// No rows.
    pub(crate) fn new(alloc: Global) -> RowSet<'a>
        ensures { result ≡ [] }
    {
        RowSet {
            set: IndexSet::new(alloc),
        }
    }

    /// Adds a row, unless it is there.
    pub(crate) fn add(&mut self, row: &'a [TagId]) -> Result<(), NoMemory>
        ensures { IfOk result (λ _. (rows : List (List ℕ)) → self.old ≡ once_each same_numbers rows → self.new ≡ once_each same_numbers (rows ++ map (λ tag. tag.0) row.now ∷ [])) }
    {
        self.set.insert(row)?;
        Ok(())
    }

    /// How many rows there are.
    pub(crate) fn count(&self) -> usize
        ensures { result ≡ length self.now }
    {
        self.set.len()
    }
}
