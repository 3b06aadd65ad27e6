ghost use Rattle.std.specs.Prelude.{◌≡◌, ◌<◌, length, map, slice_index_or, IfOk, IfSome, IfNone};
ghost use Rattle.std.specs.List.{AllPairs, Contains};
ghost use Rattle.closed_pairs.specs.Seen.{pair_seen};
ghost use Rattle.closed_pairs.specs.Flags.{key_of, IsKeyBefore};

use crate::pairs::PairPermits;
use spoc_base::{NetId, NoMemory};
use std::alloc::Global;

/// The pairs by the numbers of their networks.
pub(crate) fn keys_of(alloc: Global, pairs: &[PairPermits<'_>]) -> Result<Vec<(u32, u32)>, NoMemory>
    ensures { IfOk result (λ keys. keys.items ≡ map (λ e. key_of (pair_seen e)) pairs.now) }
{
    let mut keys = Vec::new(alloc);
    for pair in pairs {
        keys.push((pair.src.0, pair.dst.0))?;
    }
    Ok(keys)
}

/// The place of a pair among pairs in order. `None` exactly where it isn't one of them.
pub(crate) fn place_of(keys: &[(u32, u32)], pair: (NetId, NetId)) -> Option<usize>
    requires { AllPairs IsKeyBefore keys.now }
    ensures below { IfSome result (λ k. k < length keys.now) }
    ensures is { IfSome result (λ k. slice_index_or keys.now k (0, 0) ≡ (pair.0.0, pair.1.0)) }
    ensures none { IfNone result (Contains keys.now (pair.0.0, pair.1.0) → ⊥) }
{
    match keys.binary_search(&(pair.0.0, pair.1.0)) {
        Ok(k) => Some(k),
        Err(_) => None,
    }
}
