ghost use Rattle.std.specs.Prelude.{◌≡◌};
ghost use Rattle.nat_view.specs.declared.fail.ViewFail.TheVariants.{Memory};

use spoc_base::{NetId, NoMemory, RouterId, ZoneId};
use std::alloc::{AllocError, AllocFailed};

/// Where a view is: in a zone, or inside a router.
#[derive(Clone, Copy, Debug, PartialEq, Eq)]
pub enum ViewAt {
    Zone(ZoneId),
    Router(RouterId),
}

/// Why there are no views.
#[derive(Clone, Copy, Debug, PartialEq, Eq)]
pub enum ViewFail {
    /// These two networks have one prefix there. It is the first such place, all zones coming
    /// before all routers, and the least such pair, by its first network and then by its second.
    Same(ViewAt, NetId, NetId),
    /// Memory ran out.
    Memory,
}

impl From<NoMemory> for ViewFail {
    ghost from_gives = { λ _ fail. fail ≡ Memory };

    fn from(_: NoMemory) -> ViewFail {
        ViewFail::Memory
    }
}

impl From<AllocError> for ViewFail {
    ghost from_gives = { λ _ fail. fail ≡ Memory };

    fn from(_: AllocError) -> ViewFail {
        ViewFail::Memory
    }
}

impl<T: Drop> From<AllocFailed<T>> for ViewFail {
    ghost from_gives = { λ _ fail. fail ≡ Memory };

    fn from(_: AllocFailed<T>) -> ViewFail {
        ViewFail::Memory
    }
}
