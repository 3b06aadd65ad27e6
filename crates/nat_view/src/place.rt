ghost use Rattle.std.specs.Prelude.{◌≡◌, ◌≤◌, IsTrue};
ghost use Rattle.spoc_base.specs.Address.{addresses, interval_covers, prefix_holds};
ghost use Rattle.spoc_base.specs.Shown.{cidr_of, interval_of};
ghost use Rattle.policy_model.specs.Places.{moved as moved_address, moved_range as moved_interval};

use spoc_base::{Addr, AddrRange, Prefix};

/// An address of the first prefix, as far from the start of the second.
pub(crate) fn moved(from: Prefix, to: Prefix, a: Addr) -> Addr
    requires held { IsTrue (prefix_holds (cidr_of from) a.0) }
    requires length { (cidr_of to).len ≡ (cidr_of from).len }
    ensures { result.0 ≡ moved_address (cidr_of from) (cidr_of to) a.0 }
{
    Addr(to.net().0 + (a.0 - from.net().0))
}

/// A range of addresses of the first prefix, as far from the start of the second.
pub(crate) fn moved_range(from: Prefix, to: Prefix, r: AddrRange) -> AddrRange
    requires inside { IsTrue (interval_covers (addresses (cidr_of from)) (interval_of r)) }
    requires length { (cidr_of to).len ≡ (cidr_of from).len }
    ensures { interval_of result ≡ moved_interval (cidr_of from) (cidr_of to) (interval_of r) }
{
    let lo = moved(from, to, r.lo());
    let hi = moved(from, to, r.hi());
    match AddrRange::new(lo, hi) {
        Some(range) => range,
        None => unreachable!(),
    }
}
