ghost use Rattle.std.specs.Prelude.{◌≡◌, ◌<◌, not, nat_lt, ◌==◌, length, map, flat_map, option_map, slice_get, IfOk};
ghost use Rattle.std.specs.List.{list_any};
ghost use Rattle.spoc_base.specs.Address.{addresses, interval_covers};
ghost use Rattle.spoc_ast.specs.Seen.{word_seen, net_part_seen, nat_part_seen, host_part_seen};
ghost use Rattle.policy_decls.specs.Numbers.{holds_of, prefix_of};
ghost use Rattle.policy_decls.specs.Lookup as plain;
ghost use Rattle.policy_decls.specs.Shapes as shapes;
ghost use Rattle.policy_numbers.specs.Seen.{range_seen};
ghost use Rattle.policy_shapes.specs.Seen.{block_seen, listed};
ghost use Rattle.policy_shapes.specs.Rows.{network_rows, has_bad_nat, other_length};

use crate::block::Block;
use crate::word::{block, is_unaligned};
use policy_numbers::{address, range};
use spoc_ast::{HostPart, NatPart, NetPart, Word};
use spoc_base::{Addr, NoMemory};
use std::alloc::Global;

/// The least number of what must not stand in a network of these parts and does, from 1 to 5.
pub(crate) fn network_shape(alloc: Global, parts: &[NetPart<'_>]) -> Result<Option<u8>, NoMemory>
    ensures { IfOk result (λ shape. shape ≡ network_rows (map net_part_seen parts.now)) }
{
    if prefix_count(parts) != 1 || has_bad_nat(parts) {
        return Ok(Some(1));
    }
    if any_bad_host(alloc, parts)? {
        return Ok(Some(2));
    }
    let own = own_prefix(parts);
    if any_host_leaves(alloc, own, parts)? {
        return Ok(Some(3));
    }
    if own_unaligned(parts) || nats_unaligned(parts) {
        return Ok(Some(4));
    }
    if any_other_length(own, parts) {
        return Ok(Some(5));
    }
    Ok(None)
}

// How many prefixes of its own a network has.
fn prefix_count(parts: &[NetPart<'_>]) -> usize
    ensures { result ≡ length (flat_map plain.ips_in_net_part (map net_part_seen parts.now)) }
{
    let mut count = 0;
    for part in parts {
        if let NetPart::Ip(_) = part {
            count += 1;
        }
    }
    count
}

fn first_prefix<'a>(parts: &[NetPart<'a>]) -> Option<Word<'a>>
    ensures { option_map word_seen result ≡ slice_get (flat_map plain.ips_in_net_part (map net_part_seen parts.now)) 0 }
{
    for part in parts {
        if let NetPart::Ip(word) = part {
            return Some(*word);
        }
    }
    None
}

/// A network's own prefix, where it has exactly one.
pub(crate) fn own_prefix(parts: &[NetPart<'_>]) -> Option<Block>
    ensures { option_map block_seen result ≡ plain.own_prefix (map net_part_seen parts.now) }
{
    if prefix_count(parts) != 1 {
        return None;
    }
    let word = first_prefix(parts)?;
    block(&word)
}

// Whether a translation has no part or more than one.
fn is_bad_nat(parts: &[NatPart<'_>]) -> bool
    ensures { result ≡ not (shapes.has_one (map nat_part_seen parts.now)) }
{
    parts.len() != 1
}

fn has_bad_nat(parts: &[NetPart<'_>]) -> bool
    ensures { result ≡ has_bad_nat (map net_part_seen parts.now) }
{
    for part in parts {
        if let NetPart::Nat { parts, .. } = part
            && is_bad_nat(parts)
        {
            return true;
        }
    }
    false
}

// What a part of a host says: one address, as both ends, or the ends of a range.
fn span(alloc: Global, part: &HostPart<'_>) -> Result<Option<(Addr, Addr)>, NoMemory>
    ensures { IfOk result (λ span. listed (option_map range_seen span) ≡ shapes.spans_in (host_part_seen part.now)) }
{
    match part {
        HostPart::Ip(word) => match address(word.text) {
            Some(address) => Ok(Some((address, address))),
            None => Ok(None),
        },
        HostPart::Range(words) => range(alloc, words),
        HostPart::Idle(_) => Ok(None),
    }
}

// How many addresses and ranges a host has.
fn span_count(alloc: Global, host: &[HostPart<'_>]) -> Result<usize, NoMemory>
    ensures { IfOk result (λ count. count ≡ length (flat_map shapes.spans_in (map host_part_seen host.now))) }
{
    let mut count = 0;
    for part in host {
        if let Some(_) = span(alloc, part)? {
            count += 1;
        }
    }
    Ok(count)
}

// Whether a range's first address is above its last.
fn any_reversed(alloc: Global, host: &[HostPart<'_>]) -> Result<bool, NoMemory>
    ensures { IfOk result (λ bad. bad ≡ list_any (λ r. nat_lt r.1 r.0) (flat_map shapes.spans_in (map host_part_seen host.now))) }
{
    for part in host {
        if let Some((low, high)) = span(alloc, part)?
            && high.0 < low.0
        {
            return Ok(true);
        }
    }
    Ok(false)
}

// Whether an address or a range is no part of the prefix.
fn any_outside(alloc: Global, block: Block, host: &[HostPart<'_>]) -> Result<bool, NoMemory>
    ensures { IfOk result (λ bad. bad ≡ list_any (λ r. not (interval_covers (addresses (block_seen block)) (shapes.interval_in r))) (flat_map shapes.spans_in (map host_part_seen host.now))) }
{
    for part in host {
        if let Some((low, high)) = span(alloc, part)?
            && !block.covers(low, high)
        {
            return Ok(true);
        }
    }
    Ok(false)
}

fn is_bad_host(alloc: Global, host: &[HostPart<'_>]) -> Result<bool, NoMemory>
    ensures { IfOk result (λ bad. bad ≡ shapes.is_bad_host (map host_part_seen host.now)) }
{
    if span_count(alloc, host)? != 1 {
        return Ok(true);
    }
    any_reversed(alloc, host)
}

fn any_bad_host(alloc: Global, parts: &[NetPart<'_>]) -> Result<bool, NoMemory>
    ensures { IfOk result (λ bad. bad ≡ list_any shapes.is_bad_host (flat_map shapes.hosts_in (map net_part_seen parts.now))) }
{
    for part in parts {
        if let NetPart::Host { parts, .. } = part
            && is_bad_host(alloc, parts)?
        {
            return Ok(true);
        }
    }
    Ok(false)
}

fn any_leaves(alloc: Global, own: Block, parts: &[NetPart<'_>]) -> Result<bool, NoMemory>
    ensures { IfOk result (λ bad. bad ≡ list_any (shapes.leaves (block_seen own)) (flat_map shapes.hosts_in (map net_part_seen parts.now))) }
{
    for part in parts {
        if let NetPart::Host { parts, .. } = part
            && any_outside(alloc, own.aligned(), parts)?
        {
            return Ok(true);
        }
    }
    Ok(false)
}

fn any_host_leaves(
    alloc: Global,
    own: Option<Block>,
    parts: &[NetPart<'_>],
) -> Result<bool, NoMemory>
    ensures { IfOk result (λ bad. bad ≡ holds_of (λ p. list_any (shapes.leaves p) (flat_map shapes.hosts_in (map net_part_seen parts.now))) (option_map block_seen own)) }
{
    match own {
        Some(own) => any_leaves(alloc, own, parts),
        None => Ok(false),
    }
}

fn own_unaligned(parts: &[NetPart<'_>]) -> bool
    ensures { result ≡ list_any shapes.is_unaligned (flat_map plain.ips_in_net_part (map net_part_seen parts.now)) }
{
    for part in parts {
        if let NetPart::Ip(word) = part
            && is_unaligned(word)
        {
            return true;
        }
    }
    false
}

fn nat_unaligned(parts: &[NatPart<'_>]) -> bool
    ensures { result ≡ list_any shapes.is_unaligned (flat_map plain.ips_in_nat_part (map nat_part_seen parts.now)) }
{
    for part in parts {
        if let NatPart::Ip(word) = part
            && is_unaligned(word)
        {
            return true;
        }
    }
    false
}

#[tactic(auto, using(crate::proofs::Lists::any_of_both))]
fn nats_unaligned(parts: &[NetPart<'_>]) -> bool
    ensures { result ≡ list_any shapes.is_unaligned (flat_map plain.ips_in_nats (map net_part_seen parts.now)) }
{
    for part in parts {
        if let NetPart::Nat { parts, .. } = part
            && nat_unaligned(parts)
        {
            return true;
        }
    }
    false
}

// Whether a word is a prefix of another length.
fn has_other_length(own: Block, word: &Word<'_>) -> bool
    ensures { result ≡ other_length (block_seen own) (word_seen word.now) }
{
    match block(word) {
        Some(block) => block.len != own.len,
        None => false,
    }
}

fn nat_other_length(own: Block, parts: &[NatPart<'_>]) -> bool
    ensures { result ≡ list_any (other_length (block_seen own)) (flat_map plain.ips_in_nat_part (map nat_part_seen parts.now)) }
{
    for part in parts {
        if let NatPart::Ip(word) = part
            && has_other_length(own, word)
        {
            return true;
        }
    }
    false
}

#[tactic(auto, using(crate::proofs::Lists::any_of_both))]
fn some_other_length(own: Block, parts: &[NetPart<'_>]) -> bool
    ensures { result ≡ list_any (other_length (block_seen own)) (flat_map plain.ips_in_nats (map net_part_seen parts.now)) }
{
    for part in parts {
        if let NetPart::Nat { parts, .. } = part
            && nat_other_length(own, parts)
        {
            return true;
        }
    }
    false
}

fn any_other_length(own: Option<Block>, parts: &[NetPart<'_>]) -> bool
    ensures { result ≡ holds_of (λ p. list_any (other_length p) (flat_map plain.ips_in_nats (map net_part_seen parts.now))) (option_map block_seen own) }
{
    match own {
        Some(own) => some_other_length(own, parts),
        None => false,
    }
}
