ghost use Rattle.std.specs.Prelude.{◌≡◌, ◌||◌, [], ℕ, length, position, OnOk};
ghost use Rattle.std.specs.List.{list_any};
ghost use Rattle.policy_build.specs.Sharing.{same_pair};

use indexmap::IndexSet;
use spoc_base::{Addr, NetId, NoMemory};
use std::alloc::Global;
use std::marker::Model;

/// The addresses that interfaces share, each with its network, in the order in which they came.
#[derive(Drop)]
pub(crate) struct SharedKeys {
    set: IndexSet<(u32, u32)>,
}

impl Model for SharedKeys {
    ghost use Rattle.std.specs.Prelude.{ℕ, List};

    ghost Value = { List (ℕ × ℕ) };

    ghost view = { λ s. s.set.keys };
}

impl SharedKeys {
    /// No addresses.
    pub(crate) fn new(alloc: Global) -> SharedKeys
        ensures { result ≡ [] }
    {
        SharedKeys {
            set: IndexSet::new(alloc),
        }
    }

    /// Adds an address of a network, unless it is there.
    pub(crate) fn add(&mut self, net: NetId, addr: Addr) -> Result<(), NoMemory>
        ensures { OnOk result ((k : ℕ × ℕ) → list_any (same_pair k) self.new ≡ (list_any (same_pair k) self.old || same_pair k (net.0, addr.0))) }
    {
        self.set.insert((net.0, addr.0))?;
        Ok(())
    }

    /// The place of an address of a network, None where it isn't there.
    pub(crate) fn find(&self, net: NetId, addr: Addr) -> Option<usize>
        ensures { result ≡ position (same_pair (net.0, addr.0)) self.now }
    {
        self.set.get_index_of(&(net.0, addr.0))
    }

    /// How many there are.
    pub(crate) fn count(&self) -> usize
        ensures { result ≡ length self.now }
    {
        self.set.len()
    }
}
