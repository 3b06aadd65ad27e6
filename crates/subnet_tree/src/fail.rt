ghost use Rattle.std.specs.Prelude.{◌≡◌};
ghost use Rattle.subnet_tree.specs.declared.fail.TreeFail.TheVariants.{Memory};

use spoc_base::{NetId, NoMemory};
use std::alloc::{AllocError, AllocFailed};

/// Why no tree is built.
#[derive(Clone, Copy, Debug, PartialEq, Eq)]
pub enum TreeFail {
    /// These two networks have one prefix. The first number is the lesser one, and the pair is the
    /// least of such pairs, by its first number and then by its second.
    Same(NetId, NetId),
    /// Memory ran out.
    Memory,
}

impl From<NoMemory> for TreeFail {
    ghost from_gives = { λ _ fail. fail ≡ Memory };

    fn from(_: NoMemory) -> TreeFail {
        TreeFail::Memory
    }
}

impl From<AllocError> for TreeFail {
    ghost from_gives = { λ _ fail. fail ≡ Memory };

    fn from(_: AllocError) -> TreeFail {
        TreeFail::Memory
    }
}

impl<T: Drop> From<AllocFailed<T>> for TreeFail {
    ghost from_gives = { λ _ fail. fail ≡ Memory };

    fn from(_: AllocFailed<T>) -> TreeFail {
        TreeFail::Memory
    }
}
