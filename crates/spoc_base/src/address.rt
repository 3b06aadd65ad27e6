ghost use Rattle.std.specs.Prelude.{◌≡◌, ◌↔◌, ◌≤◌, ◌-◌, ◌%◌, ◌^◌, IsTrue, IsSome, IfSome};
ghost use Rattle.spoc_base.specs.Address.{IsCidr, prefix_holds, is_inside, addresses};

/// An IPv4 address, as the number of its 32 bits, the first of its four bytes being the highest.
#[derive(Clone, Copy, Debug, PartialEq, Eq, PartialOrd, Ord, Hash)]
pub struct Addr(pub u32);

/// A prefix in the sense of RFC 4632: a network address and a length of 0 to 32, with no host bit
/// set, as in `10.1.1.0/24`.
#[derive(Clone, Copy, Debug, PartialEq, Eq)]
pub struct Prefix {
    net: Addr,
    len: u8,
    ghost short: { len ≤ 32 },
    ghost aligned: { net.0 % 2 ^ (32 - len) ≡ 0 },
}

/// A range of addresses, both its ends among them. The first is not above the last.
#[derive(Clone, Copy, Debug, PartialEq, Eq)]
pub struct AddrRange {
    lo: Addr,
    hi: Addr,
    ghost ordered: { lo.0 ≤ hi.0 },
}

impl Prefix {
    ghost use Rattle.spoc_base.specs.Shown.{cidr_of, interval_of};

    /// `None` exactly where the length is above 32 or a host bit is set.
    pub fn new(net: Addr, len: u8) -> Option<Prefix>
        ensures valid { IsSome result ↔ IsCidr (record { net = net.0; len = len }) }
        ensures value { IfSome result (λ p. cidr_of p ≡ record { net = net.0; len = len }) }
    {
        if len > 32 {
            return None;
        }
        let size = 1u64 << (32 - len);
        if u64::from(net.0) % size == 0 {
            Some(Prefix { net, len })
        } else {
            None
        }
    }

    /// The network address, which is the first address of the prefix.
    pub fn net(self) -> Addr
        ensures { result.0 ≡ (cidr_of self).net }
    {
        self.net
    }

    /// How many leading bits are fixed, 0 to 32.
    pub fn len(self) -> u8
        ensures value { result ≡ (cidr_of self).len }
        ensures valid { IsCidr (cidr_of self) }
    {
        self.len
    }

    /// Whether the address is one of the prefix.
    pub fn holds(self, a: Addr) -> bool
        ensures { result ≡ prefix_holds (cidr_of self) a.0 }
    {
        let size = 1u64 << (32 - self.len);
        self.net.0 <= a.0 && u64::from(a.0) < u64::from(self.net.0) + size
    }

    /// Whether each address of this prefix is one of `outer`. Equal prefixes count.
    pub fn inside(self, outer: Prefix) -> bool
        ensures { result ≡ is_inside (cidr_of self) (cidr_of outer) }
    {
        outer.len <= self.len && outer.holds(self.net)
    }

    /// All addresses of the prefix, from the first to the last.
    pub fn range(self) -> AddrRange
        ensures { interval_of result ≡ addresses (cidr_of self) }
    {
        let size = 1u64 << (32 - self.len);
        let last = u64::from(self.net.0) + (size - 1);
        AddrRange {
            lo: self.net,
            hi: Addr(last as u32),
        }
    }
}

impl AddrRange {
    ghost use Rattle.spoc_base.specs.Shown.{interval_of};

    /// `None` exactly where `lo` is above `hi`.
    pub fn new(lo: Addr, hi: Addr) -> Option<AddrRange>
        ensures valid { IsSome result ↔ (lo.0 ≤ hi.0) }
        ensures value { IfSome result (λ r. interval_of r ≡ record { first = lo.0; last = hi.0 }) }
    {
        if lo.0 <= hi.0 {
            Some(AddrRange { lo, hi })
        } else {
            None
        }
    }

    /// The first address.
    pub fn lo(self) -> Addr
        ensures value { result.0 ≡ (interval_of self).first }
        ensures ordered { (interval_of self).first ≤ (interval_of self).last }
    {
        self.lo
    }

    /// The last address.
    pub fn hi(self) -> Addr
        ensures { result.0 ≡ (interval_of self).last }
    {
        self.hi
    }
}
