ghost use Rattle.std.specs.Prelude.{◌≡◌, map};
ghost use Rattle.spoc_base.specs.Shown.{cidr_of};
ghost use Rattle.policy_model.specs.Filters.{prefixes_hold, line_matches, passes};
ghost use Rattle.dev_config.specs.Seen.{line_of, lines_of, header_of};

use crate::setup::{Header, Line, List};
use spoc_base::{Addr, Prefix};

// Whether one of the prefixes holds the address.
fn any_holds(prefixes: &[Prefix], a: Addr) -> bool
    ensures { result ≡ prefixes_hold (map cidr_of prefixes.now) a.0 }
{
    for p in prefixes {
        if p.holds(a) {
            return true;
        }
    }
    false
}

// Whether the line matches the header.
fn is_match(line: &Line<'_>, h: &Header) -> bool
    ensures { result ≡ line_matches (line_of line.now) (header_of h.now) }
{
    any_holds(line.src, h.src) && any_holds(line.dst, h.dst) && line.t.holds(h.t)
}

/// Whether the list passes the header: the action of the first line that matches it, and `false` where none does.
pub fn first_match(list: &List<'_>, h: &Header) -> bool
    ensures { result ≡ passes (lines_of list.now) (header_of h.now) }
{
    for line in list.lines {
        if is_match(line, h) {
            return line.permit;
        }
    }
    false
}
