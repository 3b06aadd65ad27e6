ghost use Rattle.std.specs.Prelude.{◌≡◌, false, [], map, flat_map, IfOk, OnOk};
ghost use Rattle.std.specs.List.{list_any};
ghost use Rattle.spoc_ast.specs.Seen.{word_seen, if_part_seen};
ghost use Rattle.policy_decls.specs.Lookup as plain;
ghost use Rattle.policy_decls.specs.Shapes as shapes;
ghost use Rattle.policy_shapes.specs.Seen.{iface_seen};
ghost use Rattle.policy_shapes.specs.Keys.{word_key, has_key, with_keys, clash_known, address_keys, hardware_asked, hardware_keys};

use crate::iface::Iface;
use crate::keys::Keys;
use spoc_ast::{IfPart, Word};
use spoc_base::NoMemory;
use std::alloc::Global;

fn holds_address(earlier: &Keys<'_>, iface: &Iface<'_>) -> bool
    ensures { result ≡ list_any (has_key earlier.now) (address_keys (iface_seen iface.now)) }
{
    for part in iface.parts {
        if let IfPart::Ip(word) = part
            && earlier.holds(iface.net.text, word.text)
        {
            return true;
        }
    }
    false
}

#[tactic(auto, using(crate::proofs::Known::with_none))]
fn add_address<'a>(net: Word<'a>, part: &IfPart<'a>, known: &mut Keys<'a>) -> Result<(), NoMemory>
    ensures { OnOk result (has_key known.new ≡ with_keys (has_key known.old) (map (word_key (word_seen net.entry).text) (plain.addresses_in (if_part_seen part.now)))) }
{
    match part {
        IfPart::Ip(word) => {
            known.add(net.text, word.text)?;
            Ok(())
        }
        IfPart::Hardware(_) | IfPart::BindNat(_) | IfPart::Virtual(_) | IfPart::Idle(_) => Ok(()),
    }
}

/// Adds the addresses of an interface, as some of its network.
pub(crate) fn add_addresses<'a>(iface: &Iface<'a>, known: &mut Keys<'a>) -> Result<(), NoMemory>
    ensures { OnOk result (has_key known.new ≡ with_keys (has_key known.old) (address_keys (iface_seen iface.now))) }
{
    for part in iface.parts {
        add_address(iface.net, part, known)?;
    }
    Ok(())
}

// Whether an address of the interface is one of an earlier interface of its network. If not, the
// addresses are added to those of the earlier interfaces.
fn note_addresses<'a>(earlier: &mut Keys<'a>, iface: &Iface<'a>) -> Result<bool, NoMemory>
    ensures clash { IfOk result (λ clash. clash ≡ list_any (has_key earlier.old) (address_keys (iface_seen iface.now))) }
    ensures names { IfOk result (λ clash. clash ≡ false → has_key earlier.new ≡ with_keys (has_key earlier.old) (address_keys (iface_seen iface.now))) }
{
    if holds_address(earlier, iface) {
        return Ok(true);
    }
    add_addresses(iface, earlier)?;
    Ok(false)
}

/// Whether an interface has the address of an earlier interface of the same network, or of one
/// before it in the list. If not, the addresses are added to those of the earlier interfaces.
pub(crate) fn share_address<'a>(
    earlier: &mut Keys<'a>,
    ifaces: &[Iface<'a>],
) -> Result<bool, NoMemory>
    ensures clash { IfOk result (λ clash. clash ≡ clash_known address_keys address_keys (has_key earlier.old) (map iface_seen ifaces.now)) }
    ensures names { IfOk result (λ clash. clash ≡ false → has_key earlier.new ≡ with_keys (has_key earlier.old) (flat_map address_keys (map iface_seen ifaces.now))) }
{
    for iface in ifaces {
        if note_addresses(earlier, iface)? {
            return Ok(true);
        }
    }
    Ok(false)
}

fn holds_hardware(earlier: &Keys<'_>, iface: &Iface<'_>) -> bool
    ensures { result ≡ list_any (has_key earlier.now) (hardware_keys (iface_seen iface.now)) }
{
    for part in iface.parts {
        if let IfPart::Hardware(word) = part
            && earlier.holds(b"", word.text)
        {
            return true;
        }
    }
    false
}

#[tactic(auto, using(crate::proofs::Known::with_none))]
fn add_name<'a>(part: &IfPart<'a>, known: &mut Keys<'a>) -> Result<(), NoMemory>
    ensures { OnOk result (has_key known.new ≡ with_keys (has_key known.old) (map (word_key []) (plain.hardware_in (if_part_seen part.now)))) }
{
    match part {
        IfPart::Hardware(word) => {
            known.add(b"", word.text)?;
            Ok(())
        }
        IfPart::Ip(_) | IfPart::BindNat(_) | IfPart::Virtual(_) | IfPart::Idle(_) => Ok(()),
    }
}

fn add_hardware<'a>(iface: &Iface<'a>, known: &mut Keys<'a>) -> Result<(), NoMemory>
    ensures { OnOk result (has_key known.new ≡ with_keys (has_key known.old) (hardware_keys (iface_seen iface.now))) }
{
    for part in iface.parts {
        add_name(part, known)?;
    }
    Ok(())
}

// Whether the interface is one of a managed router and has the hardware of an earlier one. If not,
// its hardware is added to that of the earlier ones.
fn note_hardware<'a>(earlier: &mut Keys<'a>, iface: &Iface<'a>) -> Result<bool, NoMemory>
    ensures clash { IfOk result (λ clash. clash ≡ list_any (has_key earlier.old) (hardware_asked (iface_seen iface.now))) }
    ensures names { IfOk result (λ clash. clash ≡ false → has_key earlier.new ≡ with_keys (has_key earlier.old) (hardware_keys (iface_seen iface.now))) }
{
    if iface.managed && holds_hardware(earlier, iface) {
        return Ok(true);
    }
    add_hardware(iface, earlier)?;
    Ok(false)
}

/// Whether two of the interfaces of a managed router have one hardware.
#[tactic(auto, using(crate::proofs::Clashes::hardware_clash))]
pub(crate) fn share_hardware(alloc: Global, ifaces: &[Iface<'_>]) -> Result<bool, NoMemory>
    ensures { IfOk result (λ clash. clash ≡ shapes.clash_with shapes.has_hardware_of [] (map iface_seen ifaces.now)) }
{
    let mut earlier = Keys::new(alloc);
    for iface in ifaces {
        if note_hardware(&mut earlier, iface)? {
            return Ok(true);
        }
    }
    Ok(false)
}

// Whether a tag stands among them twice.
#[tactic(auto, using(crate::proofs::Clashes::tags_clash))]
fn repeats(alloc: Global, tags: &[Word<'_>]) -> Result<bool, NoMemory>
    ensures { IfOk result (λ clash. clash ≡ shapes.clash_with shapes.same_texts [] (map word_seen tags.now)) }
{
    let mut earlier = Keys::new(alloc);
    for tag in tags {
        if !earlier.add(b"", tag.text)? {
            return Ok(true);
        }
    }
    Ok(false)
}

fn any_repeats(alloc: Global, iface: &Iface<'_>) -> Result<bool, NoMemory>
    ensures { IfOk result (λ bad. bad ≡ list_any (λ tags. shapes.clash_with shapes.same_texts [] tags) (plain.iface_binds (iface_seen iface.now))) }
{
    for part in iface.parts {
        if let IfPart::BindNat(tags) = part
            && repeats(alloc, tags)?
        {
            return Ok(true);
        }
    }
    Ok(false)
}

/// Whether an interface binds tags and its router isn't managed, or one tag stands in it twice.
#[tactic(auto, using(crate::proofs::Lists::nothing_counted))]
pub(crate) fn is_bad_binding(alloc: Global, iface: &Iface<'_>) -> Result<bool, NoMemory>
    ensures { IfOk result (λ bad. bad ≡ shapes.is_bad_binding (iface_seen iface.now)) }
{
    if !iface.managed && iface.bind_count() > 0 {
        return Ok(true);
    }
    any_repeats(alloc, iface)
}
