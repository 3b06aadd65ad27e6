ghost use Rattle.std.specs.Prelude.{◌≡◌, ◌||◌, [], length, OnOk};
ghost use Rattle.local_optimise.specs.Keys.{Stem, same_stem, has_stem, TellsStems};

use crate::keys::bits_of;
use indexmap::IndexSet;
use spoc_base::{Addr, NoMemory};
use std::alloc::Global;

/// Stems of addresses: how many leading bits, and which.
#[derive(Drop)]
pub(crate) struct StemSet {
    stems: IndexSet<(u8, u32)>,
    lengths: IndexSet<u8>,
}

impl StemSet {
    /// No stems.
    pub(crate) fn new(alloc: Global) -> StemSet
        ensures { result.stems.keys ≡ [] }
    {
        StemSet {
            stems: IndexSet::new(alloc),
            lengths: IndexSet::new(alloc),
        }
    }

    /// Adds a stem, unless it is there.
    pub(crate) fn add(&mut self, len: u8, bits: u32) -> Result<(), NoMemory>
        ensures { OnOk result ((b : Stem) → has_stem self.new.stems.keys b ≡ (has_stem self.old.stems.keys b || same_stem b (len, bits))) }
    {
        self.stems.insert((len, bits))?;
        self.lengths.insert(len)?;
        Ok(())
    }

    /// By length, false where none of the stems of that length is the start of the address.
    pub(crate) fn known(&self, a: Addr) -> [bool; 256]
        ensures { TellsStems self.now.stems.keys a.0 result }
    {
        let mut known = [true; 256];
        for len in self.lengths.as_slice() {
            known[usize::from(*len)] = self.stems.contains(&(*len, bits_of(*len, a)));
        }
        known
    }
}
