ghost use Rattle.std.specs.Prelude.{◌≡◌, ◌==◌, ◌||◌, ℕ, not, [], IfOk, OnOk};
ghost use Rattle.policy_model.specs.Lists.{has};
ghost use Rattle.group_expand.specs.Seen.{numbers_of};

use indexmap::IndexSet;
use spoc_base::{NoMemory, ZoneId};
use std::alloc::Global;
use std::marker::Model;

/// A set of zones.
#[derive(Drop)]
pub(crate) struct ZoneSet {
    set: IndexSet<u32>,
}

impl Model for ZoneSet {
    ghost use Rattle.std.specs.Prelude.{ℕ, List};

    ghost Value = { List ℕ };

    ghost view = { λ s. s.set.keys };
}

impl ZoneSet {
    /// A set of no zones.
    pub(crate) fn new(alloc: Global) -> ZoneSet
        ensures { result ≡ [] }
    {
        ZoneSet {
            set: IndexSet::new(alloc),
        }
    }

    /// Adds a zone. False exactly where it is there.
    pub(crate) fn add(&mut self, z: ZoneId) -> Result<bool, NoMemory>
        ensures added { IfOk result (λ new. new ≡ not (has self.old z.0)) }
        ensures zones { IfOk result (λ new. (x : ℕ) → has self.new x ≡ (has self.old x || (z.0 == x))) }
    {
        Ok(self.set.insert(z.0)?)
    }

    /// Whether the zone is there.
    pub(crate) fn has(&self, z: ZoneId) -> bool
        ensures { result ≡ has self.now z.0 }
    {
        self.set.contains(&z.0)
    }
}
