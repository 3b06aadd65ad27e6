ghost use Rattle.std.specs.Prelude.{◌≡◌, None, length, filter, map, flat_map, IfOk};
ghost use Rattle.std.specs.List.{list_any};
ghost use Rattle.spoc_ast.specs.Seen.{word_seen, rout_part_seen, decl_seen};
ghost use Rattle.policy_decls.specs.Lookup as plain;
ghost use Rattle.policy_decls.specs.Shapes as shapes;
ghost use Rattle.policy_shapes.specs.Seen.{iface_seen};
ghost use Rattle.policy_shapes.specs.Keys.{has_key, with_keys, address_keys};
ghost use Rattle.policy_shapes.specs.Rows.{iface_rows, router_rows, router_ifaces};

use crate::clash::{is_bad_binding, share_address, share_hardware};
use crate::iface::{Iface, add_ifaces, is_managed};
use crate::keys::Keys;
use crate::policy::Policy;
use crate::shared::{is_bad_shared, is_outside_net};
use spoc_ast::{IfPart, RoutPart, Word};
use spoc_base::NoMemory;
use std::alloc::Global;

/// The least number of what must not stand in a router of these parts and does, from 6 to 11 or
/// 15, by the addresses of the interfaces that are declared before it. If there is none, the
/// addresses of its interfaces are added to those.
pub(crate) fn router_shape<'a>(
    alloc: Global,
    policy: &Policy<'_, '_>,
    earlier: &mut Keys<'a>,
    router: Word<'a>,
    parts: &[RoutPart<'a>],
) -> Result<Option<u8>, NoMemory>
    ensures shape { IfOk result (λ shape. shape ≡ router_rows (map decl_seen policy.now) (has_key earlier.old) (word_seen router.entry) (map rout_part_seen parts.now)) }
    ensures names { IfOk result (λ shape. shape ≡ None → has_key earlier.new ≡ with_keys (has_key earlier.old) (flat_map address_keys (router_ifaces (word_seen router.entry) (map rout_part_seen parts.now)))) }
{
    if is_bad_device(parts) {
        return Ok(Some(6));
    }
    let mut ifaces = Vec::new(alloc);
    add_ifaces(router, parts, &mut ifaces)?;
    ifaces_shape(alloc, policy, earlier, &ifaces)
}

// The least number from 7 on, for the interfaces of a router.
fn ifaces_shape<'a>(
    alloc: Global,
    policy: &Policy<'_, '_>,
    earlier: &mut Keys<'a>,
    ifaces: &[Iface<'a>],
) -> Result<Option<u8>, NoMemory>
    ensures shape { IfOk result (λ shape. shape ≡ iface_rows (map decl_seen policy.now) (has_key earlier.old) (map iface_seen ifaces.now)) }
    ensures names { IfOk result (λ shape. shape ≡ None → has_key earlier.new ≡ with_keys (has_key earlier.old) (flat_map address_keys (map iface_seen ifaces.now))) }
{
    if any_bad_iface(ifaces) {
        return Ok(Some(7));
    }
    if any_outside(policy, ifaces) {
        return Ok(Some(8));
    }
    if share_address(earlier, ifaces)? {
        return Ok(Some(9));
    }
    if share_hardware(alloc, ifaces)? {
        return Ok(Some(10));
    }
    if any_bad_binding(alloc, ifaces)? {
        return Ok(Some(11));
    }
    if any_bad_shared(policy, ifaces) {
        return Ok(Some(15));
    }
    Ok(None)
}

// How often `managed` stands in a router.
fn managed_count(parts: &[RoutPart<'_>]) -> usize
    ensures { result ≡ length (filter plain.managed_in (map rout_part_seen parts.now)) }
{
    let mut count = 0;
    for part in parts {
        if let RoutPart::Managed(_) = part {
            count += 1;
        }
    }
    count
}

fn model_count(parts: &[RoutPart<'_>]) -> usize
    ensures { result ≡ length (flat_map plain.models_in (map rout_part_seen parts.now)) }
{
    let mut count = 0;
    for part in parts {
        if let RoutPart::Model(_) = part {
            count += 1;
        }
    }
    count
}

fn routing_count(parts: &[RoutPart<'_>]) -> usize
    ensures { result ≡ length (flat_map plain.routings_in (map rout_part_seen parts.now)) }
{
    let mut count = 0;
    for part in parts {
        if let RoutPart::Routing(_) = part {
            count += 1;
        }
    }
    count
}

fn is_model(word: &Word<'_>) -> bool
    ensures { result ≡ shapes.is_model (word_seen word.now) }
{
    word.text == b"IOS".as_slice() || word.text == b"ASA".as_slice()
}

fn any_model(parts: &[RoutPart<'_>]) -> bool
    ensures { result ≡ list_any shapes.is_model (flat_map plain.models_in (map rout_part_seen parts.now)) }
{
    for part in parts {
        if let RoutPart::Model(word) = part
            && is_model(word)
        {
            return true;
        }
    }
    false
}

// Whether `managed`, `model` or `routing` stands twice, or the router is managed and hasn't the
// model IOS or ASA.
fn is_bad_device(parts: &[RoutPart<'_>]) -> bool
    ensures { result ≡ shapes.is_bad_device (map rout_part_seen parts.now) }
{
    if managed_count(parts) > 1 || model_count(parts) > 1 || routing_count(parts) > 1 {
        return true;
    }
    is_managed(parts) && !any_model(parts)
}

fn any_bad_iface(ifaces: &[Iface<'_>]) -> bool
    ensures { result ≡ list_any shapes.is_bad_iface (map iface_seen ifaces.now) }
{
    for iface in ifaces {
        if iface.is_bad() {
            return true;
        }
    }
    false
}

// Whether an interface's address is outside its network.
fn is_outside(policy: &Policy<'_, '_>, iface: &Iface<'_>) -> bool
    ensures { result ≡ shapes.is_outside (map decl_seen policy.now) (iface_seen iface.now) }
{
    for part in iface.parts {
        if let IfPart::Ip(word) = part
            && is_outside_net(policy, &iface.net, word)
        {
            return true;
        }
    }
    false
}

fn any_outside(policy: &Policy<'_, '_>, ifaces: &[Iface<'_>]) -> bool
    ensures { result ≡ list_any (shapes.is_outside (map decl_seen policy.now)) (map iface_seen ifaces.now) }
{
    for iface in ifaces {
        if is_outside(policy, iface) {
            return true;
        }
    }
    false
}

fn any_bad_binding(alloc: Global, ifaces: &[Iface<'_>]) -> Result<bool, NoMemory>
    ensures { IfOk result (λ bad. bad ≡ list_any shapes.is_bad_binding (map iface_seen ifaces.now)) }
{
    for iface in ifaces {
        if is_bad_binding(alloc, iface)? {
            return Ok(true);
        }
    }
    Ok(false)
}

fn any_bad_shared(policy: &Policy<'_, '_>, ifaces: &[Iface<'_>]) -> bool
    ensures { result ≡ list_any (shapes.is_bad_shared (map decl_seen policy.now)) (map iface_seen ifaces.now) }
{
    for iface in ifaces {
        if is_bad_shared(policy, iface) {
            return true;
        }
    }
    false
}
