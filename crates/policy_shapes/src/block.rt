ghost use Rattle.std.specs.Prelude.{◌≡◌, ◌^◌, ◌-◌, ◌<◌};
ghost use Rattle.spoc_base.specs.Address.{addresses, interval_covers, prefix_holds};
ghost use Rattle.policy_decls.specs.Lookup as plain;
ghost use Rattle.policy_shapes.specs.Seen.{block_seen};

use spoc_base::Addr;

/// A prefix as it is written: an address, in which a host bit may be set, and how many of its
/// leading bits count, from 0 to 32.
#[derive(Clone, Copy)]
pub(crate) struct Block {
    pub(crate) net: Addr,
    pub(crate) len: u8,
}

// How many addresses agree in so many leading bits.
fn size(len: u8) -> u64
    ensures is { result ≡ 2 ^ (32 - len) }
    ensures some { 0 < result }
{
    2u64.pow(32u32.saturating_sub(u32::from(len)))
}

impl Block {
    /// The prefix without its host bits.
    pub(crate) fn aligned(&self) -> Block
        ensures { block_seen result ≡ plain.aligned (block_seen self.now) }
    {
        let net = u64::from(self.net.0);
        let first = net - net % size(self.len);
        Block {
            net: Addr(first as u32),
            len: self.len,
        }
    }

    /// Whether a host bit is set.
    pub(crate) fn has_host_bit(&self) -> bool
        ensures { result ≡ plain.has_host_bit (block_seen self.now) }
    {
        u64::from(self.net.0) % size(self.len) > 0
    }

    /// Whether an address is among the addresses from `net` on.
    pub(crate) fn holds(&self, address: Addr) -> bool
        ensures { result ≡ prefix_holds (block_seen self.now) address.0 }
    {
        let first = u64::from(self.net.0);
        let address = u64::from(address.0);
        first <= address && address < first + size(self.len)
    }

    /// Whether a range is part of the addresses from `net` on.
    pub(crate) fn covers(&self, low: Addr, high: Addr) -> bool
        ensures { result ≡ interval_covers (addresses (block_seen self.now)) (record { first = low.0; last = high.0 }) }
    {
        let first = u64::from(self.net.0);
        first <= u64::from(low.0) && u64::from(high.0) <= first + (size(self.len) - 1)
    }
}
