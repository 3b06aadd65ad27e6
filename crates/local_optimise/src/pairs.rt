ghost use Rattle.std.specs.Prelude.{◌≡◌};
ghost use Rattle.spoc_base.specs.Boxes.{box_covers, box_meets};
ghost use Rattle.spoc_base.specs.Shown.{interval_of, box_of};
ghost use Rattle.policy_model.specs.Filters.{line_covers, line_meets};
ghost use Rattle.policy_model.specs.Optimised.{same_action};
ghost use Rattle.box_algebra.specs.Shown.{header_box_of};
ghost use Rattle.dev_config.specs.Seen.{line_of};
ghost use Rattle.local_optimise.specs.Held.{is_across};

use crate::ends::{end_covers, end_meets};
use box_algebra::{Box4, covers, meets};
use dev_config::Line;
use spoc_base::{Addr, AddrRange, TBox};

// All addresses.
fn all_addresses() -> AddrRange
    ensures { interval_of result ≡ record { first = 0; last = 4294967295 } }
{
    match AddrRange::new(Addr(0), Addr(u32::MAX)) {
        Some(all) => all,
        None => unreachable!(),
    }
}

// The headers of these transports, whatever their addresses.
fn headers_of(t: TBox) -> Box4
    ensures { header_box_of result ≡ record { src = record { first = 0; last = 4294967295 }; dst = record { first = 0; last = 4294967295 }; transport = box_of t } }
{
    let all = all_addresses();
    Box4 {
        src: all,
        dst: all,
        t,
    }
}

// Whether the one holds each transport that the other holds.
fn transport_covers(one: TBox, other: TBox) -> bool
    ensures { result ≡ box_covers (box_of one) (box_of other) }
{
    covers(&headers_of(one), &headers_of(other))
}

// Whether some transport is in both.
fn transport_meets(one: TBox, other: TBox) -> bool
    ensures { result ≡ box_meets (box_of one) (box_of other) }
{
    meets(&headers_of(one), &headers_of(other))
}

/// Whether the one line matches all that the other matches, whatever their actions.
pub(crate) fn is_covering(one: &Line<'_>, other: &Line<'_>) -> bool
    ensures { result ≡ line_covers (line_of one.now) (line_of other.now) }
{
    end_covers(one.src, other.src)
        && end_covers(one.dst, other.dst)
        && transport_covers(one.t, other.t)
}

/// Whether some header matches both lines.
pub(crate) fn is_meeting(one: &Line<'_>, other: &Line<'_>) -> bool
    ensures { result ≡ line_meets (line_of one.now) (line_of other.now) }
{
    end_meets(one.src, other.src)
        && end_meets(one.dst, other.dst)
        && transport_meets(one.t, other.t)
}

// Whether both lines permit, or both deny.
fn is_same_action(one: &Line<'_>, other: &Line<'_>) -> bool
    ensures { result ≡ same_action one.now.permit other.now.permit }
{
    one.permit == other.permit
}

/// Whether the other line has the other action and meets the line.
pub(crate) fn is_crossing(line: &Line<'_>, other: &Line<'_>) -> bool
    ensures { result ≡ is_across (line_of line.now) (line_of other.now) }
{
    !is_same_action(line, other) && is_meeting(other, line)
}
