ghost use Rattle.std.specs.Prelude.{◌≡◌, ◌+◌, ◌-◌, ◌%◌, ◌^◌, ◌<◌, ◌≤◌, ◌↔◌, map, IfOk, IsTrue};
ghost use Rattle.spoc_base.specs.Address.{cover_of, block_at};
ghost use Rattle.spoc_base.specs.Shown.{cidr_of, interval_of};
ghost use Rattle.list_laws.specs.Covers.{IsFewest};
ghost use Rattle.box_algebra.specs.Blocks.{IsLargestBlock};

use spoc_base::{Addr, AddrRange, NoMemory, Prefix};
use std::alloc::Global;

/// The prefixes that make up the range, ascending. No two have an address in common, no shorter
/// list makes up the range, and there are at most 62.
pub fn cover_range(alloc: Global, r: AddrRange) -> Result<Vec<Prefix>, NoMemory>
    ensures cover { IfOk result (λ v. map cidr_of v.items ≡ cover_of (interval_of r)) }
    ensures fewest { IfOk result (λ v. IsFewest (interval_of r) (map cidr_of v.items)) }
{
    let end = u64::from(r.hi().0) + 1;
    let mut low = u64::from(r.lo().0);
    let mut cover = Vec::new(alloc);
    while low < end {
        let bits = largest_block(low, end);
        cover.push(block(low, bits))?;
        low += size(bits);
    }
    Ok(cover)
}

/// How many last bits are free in the largest block that begins at `low` and ends at `end` or
/// before.
fn largest_block(low: u64, end: u64) -> u8
    requires some { low < end }
    requires small { end ≤ 4294967296 }
    ensures { IsLargestBlock low end result }
{
    let mut bits = 0u8;
    while bits < 32 && has_block(low, end, bits + 1) {
        bits += 1;
    }
    bits
}

fn has_block(low: u64, end: u64, bits: u8) -> bool
    requires short { bits ≤ 32 }
    requires small { end ≤ 4294967296 }
    requires inside { low ≤ end }
    ensures { IsTrue result ↔ ((low % 2 ^ bits ≡ 0) × (low + 2 ^ bits ≤ end)) }
{
    low % size(bits) == 0 && low + size(bits) <= end
}

fn block(low: u64, bits: u8) -> Prefix
    requires short { bits ≤ 32 }
    requires small { low < 4294967296 }
    requires aligned { low % 2 ^ bits ≡ 0 }
    ensures { cidr_of result ≡ block_at low bits }
{
    match Prefix::new(Addr(low as u32), 32 - bits) {
        Some(p) => p,
        None => unreachable!(),
    }
}

/// How many addresses a block with this many free bits has.
fn size(bits: u8) -> u64
    requires { bits ≤ 32 }
    ensures value { result ≡ 2 ^ bits }
    ensures small { result ≤ 4294967296 }
{
    1u64 << bits
}
