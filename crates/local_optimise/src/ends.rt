ghost use Rattle.std.specs.Prelude.{◌≡◌, ◌||◌, map};
ghost use Rattle.std.specs.List.{list_any};
ghost use Rattle.spoc_base.specs.Address.{is_inside};
ghost use Rattle.spoc_base.specs.Shown.{cidr_of};
ghost use Rattle.policy_model.specs.Filters.{prefixes_cover, prefixes_meet};

use spoc_base::Prefix;

// Whether the prefix is inside one of the others.
fn is_within(p: Prefix, outer: &[Prefix]) -> bool
    ensures { result ≡ list_any (is_inside (cidr_of p)) (map cidr_of outer.now) }
{
    for q in outer {
        if p.inside(*q) {
            return true;
        }
    }
    false
}

// Whether the prefix has an address in common with one of the others.
fn is_touching(p: Prefix, others: &[Prefix]) -> bool
    ensures { result ≡ list_any (λ q. is_inside (cidr_of p) q || is_inside q (cidr_of p)) (map cidr_of others.now) }
{
    for q in others {
        if p.inside(*q) || q.inside(p) {
            return true;
        }
    }
    false
}

/// Whether each of the inner prefixes is inside one of the outer.
pub(crate) fn end_covers(outer: &[Prefix], inner: &[Prefix]) -> bool
    ensures { result ≡ prefixes_cover (map cidr_of outer.now) (map cidr_of inner.now) }
{
    for p in inner {
        if !is_within(*p, outer) {
            return false;
        }
    }
    true
}

/// Whether some prefix of the one and some of the other have an address in common.
pub(crate) fn end_meets(one: &[Prefix], other: &[Prefix]) -> bool
    ensures { result ≡ prefixes_meet (map cidr_of one.now) (map cidr_of other.now) }
{
    for p in one {
        if is_touching(*p, other) {
            return true;
        }
    }
    false
}
