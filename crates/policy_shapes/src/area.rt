ghost use Rattle.std.specs.Prelude.{◌≡◌, length, map, flat_map};
ghost use Rattle.std.specs.List.{list_any};
ghost use Rattle.spoc_ast.specs.Seen.{area_part_seen, decl_seen};
ghost use Rattle.policy_decls.specs.Shapes as shapes;
ghost use Rattle.policy_shapes.specs.Rows.{area_rows};

use crate::policy::Policy;
use crate::restriction::any_unmanaged;
use spoc_ast::AreaPart;

fn anchor_count(parts: &[AreaPart<'_>]) -> usize
    ensures { result ≡ length (flat_map shapes.anchors_in (map area_part_seen parts.now)) }
{
    let mut count = 0;
    for part in parts {
        if let AreaPart::Anchor(_) = part {
            count += 1;
        }
    }
    count
}

fn border_count(parts: &[AreaPart<'_>]) -> usize
    ensures { result ≡ length (flat_map shapes.borders_in (map area_part_seen parts.now)) }
{
    let mut count = 0;
    for part in parts {
        if let AreaPart::Border(_) = part {
            count += 1;
        }
    }
    count
}

fn any_unmanaged_border(policy: &Policy<'_, '_>, parts: &[AreaPart<'_>]) -> bool
    ensures { result ≡ list_any (list_any (shapes.is_unmanaged_port (map decl_seen policy.now))) (flat_map shapes.borders_in (map area_part_seen parts.now)) }
{
    for part in parts {
        if let AreaPart::Border(ports) = part
            && any_unmanaged(policy, ports)
        {
            return true;
        }
    }
    false
}

// Whether an area of these parts has no anchor and no border, or two anchors, or two border parts,
// or a border of an unmanaged router.
#[tactic(auto, using(crate::proofs::Lists::nothing_counted))]
fn is_bad_area(policy: &Policy<'_, '_>, parts: &[AreaPart<'_>]) -> bool
    ensures { result ≡ shapes.is_bad_area (map decl_seen policy.now) (map area_part_seen parts.now) }
{
    let anchors = anchor_count(parts);
    let borders = border_count(parts);
    if anchors == 0 && borders == 0 {
        return true;
    }
    if anchors > 1 || borders > 1 {
        return true;
    }
    any_unmanaged_border(policy, parts)
}

/// 14 where an area of these parts has no anchor and no border, or two anchors, or two border
/// parts, or a border of an unmanaged router.
pub(crate) fn area_shape(policy: &Policy<'_, '_>, parts: &[AreaPart<'_>]) -> Option<u8>
    ensures { result ≡ area_rows (map decl_seen policy.now) (map area_part_seen parts.now) }
{
    if is_bad_area(policy, parts) {
        return Some(14);
    }
    None
}
