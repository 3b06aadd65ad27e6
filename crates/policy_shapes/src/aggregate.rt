ghost use Rattle.std.specs.Prelude.{◌≡◌, length, map, flat_map};
ghost use Rattle.std.specs.List.{list_any};
ghost use Rattle.spoc_ast.specs.Seen.{any_part_seen};
ghost use Rattle.policy_decls.specs.Shapes as shapes;
ghost use Rattle.policy_shapes.specs.Rows.{aggregate_rows};

use crate::word::is_unaligned;
use spoc_ast::AnyPart;

fn link_count(parts: &[AnyPart<'_>]) -> usize
    ensures { result ≡ length (flat_map shapes.links_in (map any_part_seen parts.now)) }
{
    let mut count = 0;
    for part in parts {
        if let AnyPart::Link(_) = part {
            count += 1;
        }
    }
    count
}

fn prefix_count(parts: &[AnyPart<'_>]) -> usize
    ensures { result ≡ length (flat_map shapes.ips_in_any_part (map any_part_seen parts.now)) }
{
    let mut count = 0;
    for part in parts {
        if let AnyPart::Ip(_) = part {
            count += 1;
        }
    }
    count
}

fn any_unaligned(parts: &[AnyPart<'_>]) -> bool
    ensures { result ≡ list_any shapes.is_unaligned (flat_map shapes.ips_in_any_part (map any_part_seen parts.now)) }
{
    for part in parts {
        if let AnyPart::Ip(word) = part
            && is_unaligned(word)
        {
            return true;
        }
    }
    false
}

/// The least number of what must not stand in an aggregate of these parts and does, 4 or 14.
pub(crate) fn aggregate_shape(parts: &[AnyPart<'_>]) -> Option<u8>
    ensures { result ≡ aggregate_rows (map any_part_seen parts.now) }
{
    if any_unaligned(parts) {
        return Some(4);
    }
    if link_count(parts) != 1 || prefix_count(parts) > 1 {
        return Some(14);
    }
    None
}
