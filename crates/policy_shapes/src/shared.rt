ghost use Rattle.std.specs.Prelude.{◌≡◌, length, map, flat_map, option_map, slice_get};
ghost use Rattle.std.specs.List.{list_any};
ghost use Rattle.spoc_ast.specs.Seen.{word_seen, virt_part_seen, decl_seen};
ghost use Rattle.policy_decls.specs.Numbers.{holds_of};
ghost use Rattle.policy_decls.specs.Lookup as plain;
ghost use Rattle.policy_decls.specs.Shapes as shapes;
ghost use Rattle.policy_shapes.specs.Seen.{block_seen, iface_seen};
ghost use Rattle.policy_shapes.specs.Rows.{is_outside_of};

use crate::block::Block;
use crate::iface::Iface;
use crate::policy::Policy;
use policy_numbers::address;
use spoc_ast::{IfPart, VirtPart, Word};

// Whether a word is an address that isn't in the prefix.
fn is_outside_of(block: Block, word: &Word<'_>) -> bool
    ensures { result ≡ is_outside_of (block_seen block) (word_seen word.now) }
{
    match address(word.text) {
        Some(address) => !block.holds(address),
        None => false,
    }
}

fn leaves(own: Option<Block>, word: &Word<'_>) -> bool
    ensures { result ≡ holds_of (λ p. is_outside_of (plain.aligned p) (word_seen word.now)) (option_map block_seen own) }
{
    match own {
        Some(own) => is_outside_of(own.aligned(), word),
        None => false,
    }
}

/// Whether an address is outside the network of a name.
pub(crate) fn is_outside_net(policy: &Policy<'_, '_>, net: &Word<'_>, word: &Word<'_>) -> bool
    ensures { result ≡ shapes.is_outside_net (map decl_seen policy.now) (word_seen net.now) (word_seen word.now) }
{
    leaves(policy.own_prefix(net.text), word)
}

fn address_count(parts: &[VirtPart<'_>]) -> usize
    ensures { result ≡ length (flat_map shapes.ips_in_virtual (map virt_part_seen parts.now)) }
{
    let mut count = 0;
    for part in parts {
        if let VirtPart::Ip(_) = part {
            count += 1;
        }
    }
    count
}

fn first_address<'a>(parts: &[VirtPart<'a>]) -> Option<Word<'a>>
    ensures { option_map word_seen result ≡ slice_get (flat_map shapes.ips_in_virtual (map virt_part_seen parts.now)) 0 }
{
    for part in parts {
        if let VirtPart::Ip(word) = part {
            return Some(*word);
        }
    }
    None
}

fn only_address<'a>(parts: &[VirtPart<'a>]) -> Option<Word<'a>>
    ensures { option_map word_seen result ≡ plain.only_one (flat_map shapes.ips_in_virtual (map virt_part_seen parts.now)) }
{
    if address_count(parts) != 1 {
        return None;
    }
    first_address(parts)
}

// Whether a shared address hasn't exactly one address, or that is outside the network or an
// interface's address in it.
fn is_bad_virtual(policy: &Policy<'_, '_>, net: &Word<'_>, parts: &[VirtPart<'_>]) -> bool
    ensures { result ≡ shapes.is_bad_virtual (map decl_seen policy.now) (word_seen net.now) (map virt_part_seen parts.now) }
{
    match only_address(parts) {
        Some(word) => is_outside_net(policy, net, &word) || policy.is_taken(net, &word),
        None => true,
    }
}

fn any_bad_virtual(policy: &Policy<'_, '_>, iface: &Iface<'_>) -> bool
    ensures { result ≡ list_any (shapes.is_bad_virtual (map decl_seen policy.now) (word_seen iface.now.net)) (shapes.iface_virtuals (iface_seen iface.now)) }
{
    for part in iface.parts {
        if let IfPart::Virtual(parts) = part
            && is_bad_virtual(policy, &iface.net, parts)
        {
            return true;
        }
    }
    false
}

/// Whether an interface shares two addresses, or shares one and its router isn't managed, or
/// shares one that isn't exactly one address of its network which no interface there has.
#[tactic(auto, using(crate::proofs::Lists::nothing_counted))]
pub(crate) fn is_bad_shared(policy: &Policy<'_, '_>, iface: &Iface<'_>) -> bool
    ensures { result ≡ shapes.is_bad_shared (map decl_seen policy.now) (iface_seen iface.now) }
{
    let count = iface.virtual_count();
    if count > 1 || (!iface.managed && count > 0) {
        return true;
    }
    any_bad_virtual(policy, iface)
}
