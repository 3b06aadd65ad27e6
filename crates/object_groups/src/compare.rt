ghost use Rattle.std.specs.Prelude.{◌≡◌, ◌≤◌, true, false, length, map, take, slice_get, IfSome};
ghost use Rattle.std.specs.List.{list_all};
ghost use Rattle.spoc_base.specs.Boxes.{same_box};
ghost use Rattle.spoc_base.specs.Shown.{cidr_of, box_of};
ghost use Rattle.policy_model.specs.Grouped.{same_prefixes, share_destinations};
ghost use Rattle.dev_config.specs.Seen.{line_of};

use dev_config::Line;
use spoc_base::{Prefix, TBox};

// Whether both hold the same transports.
fn is_same_transport(one: TBox, other: TBox) -> bool
    ensures { result ≡ same_box (box_of one) (box_of other) }
{
    one == other
}

// Whether both have the same prefixes in the same order. Lists of two lengths differ at once.
fn is_same_end(one: &[Prefix], other: &[Prefix]) -> bool
    ensures { result ≡ same_prefixes (map cidr_of one.now) (map cidr_of other.now) }
{
    one == other
}

// Whether both lines have one action, one transport and one list of destinations.
fn is_joinable(one: &Line<'_>, other: &Line<'_>) -> bool
    ensures { result ≡ share_destinations (line_of one.now) (line_of other.now) }
{
    one.permit == other.permit
        && is_same_transport(one.t, other.t)
        && is_same_end(one.dst, other.dst)
}

/// How many of the other lines, from the first of them on, have the action, the transport and the destinations of the line.
pub(crate) fn count_joinable(line: &Line<'_>, others: &[Line<'_>]) -> usize
    ensures within { result ≤ length others.now }
    ensures joinable { list_all (λ m. share_destinations (line_of line.now) (line_of m)) (take result others.now) ≡ true }
    ensures longest { IfSome (slice_get others.now result) (λ m. share_destinations (line_of line.now) (line_of m) ≡ false) }
{
    let mut count = 0;
    for other in others {
        if !is_joinable(line, other) {
            return count;
        }
        count += 1;
    }
    count
}
