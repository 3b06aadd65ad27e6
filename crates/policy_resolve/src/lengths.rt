ghost use Rattle.std.specs.Prelude.{◌≡◌, ◌||◌, map, flat_map, IfOk};
ghost use Rattle.std.specs.List.{list_any};
ghost use Rattle.spoc_ast.specs.Seen.{if_part_seen, rout_part_seen, decl_seen};
ghost use Rattle.policy_decls.specs.Names.{names_in};
ghost use Rattle.policy_decls.specs.Limits as plain;
ghost use Rattle.policy_names.specs.Seen.{mention_seen};
ghost use Rattle.policy_resolve.specs.Lengths.{is_long, is_long_name, is_long_part, is_long_iface, has_long_word};

use policy_names::{Mention, names_given};
use spoc_ast::{Decl, IfPart, RoutPart};
use spoc_base::NoMemory;
use std::alloc::Global;

// So many bytes a name or the hardware of an interface has at most.
const LONGEST: usize = 100;

/// Whether a name that is declared, or the hardware of an interface, has more than a hundred bytes.
/// An error comes from want of memory alone.
pub(crate) fn has_long_name(alloc: Global, decls: &[Decl<'_>]) -> Result<bool, NoMemory>
    ensures { IfOk result (λ long. long ≡ plain.has_long_name (map decl_seen decls.now)) }
{
    any_long_word(alloc, decls)
}

// Whether a name or the hardware in one of the declarations is too long.
fn any_long_word(alloc: Global, decls: &[Decl<'_>]) -> Result<bool, NoMemory>
    ensures { IfOk result (λ long. long ≡ list_any has_long_word (map decl_seen decls.now)) }
{
    for decl in decls {
        if has_long_word(alloc, decl)? {
            return Ok(true);
        }
    }
    Ok(false)
}

// Whether a name or the hardware in a declaration is too long.
fn has_long_word(alloc: Global, decl: &Decl<'_>) -> Result<bool, NoMemory>
    ensures { IfOk result (λ long. long ≡ has_long_word (decl_seen decl.now)) }
{
    let names = names_given(alloc, decl)?;
    if any_long_name(&names) {
        return Ok(true);
    }
    match decl {
        Decl::Router { parts, .. } => Ok(any_long_iface(parts)),
        _ => Ok(false),
    }
}

fn any_long_name(names: &[Mention<'_>]) -> bool
    ensures { result ≡ list_any is_long_name (map mention_seen names.now) }
{
    for name in names {
        if is_long(name.text) {
            return true;
        }
    }
    false
}

fn any_long_iface(parts: &[RoutPart<'_>]) -> bool
    ensures { result ≡ list_any is_long_iface (map rout_part_seen parts.now) }
{
    for part in parts {
        if is_long_iface(part) {
            return true;
        }
    }
    false
}

// Whether the part of a router is an interface whose hardware is too long.
fn is_long_iface(part: &RoutPart<'_>) -> bool
    ensures { result ≡ is_long_iface (rout_part_seen part.now) }
{
    match part {
        RoutPart::Iface { parts, .. } => any_long_part(parts),
        _ => false,
    }
}

fn any_long_part(parts: &[IfPart<'_>]) -> bool
    ensures { result ≡ list_any is_long_part (map if_part_seen parts.now) }
{
    for part in parts {
        if is_long_part(part) {
            return true;
        }
    }
    false
}

// Whether the part of an interface is hardware that is too long.
fn is_long_part(part: &IfPart<'_>) -> bool
    ensures { result ≡ is_long_part (if_part_seen part.now) }
{
    match part {
        IfPart::Hardware(word) => is_long(word.text),
        _ => false,
    }
}

fn is_long(text: &[u8]) -> bool
    ensures { result ≡ is_long text.now }
{
    text.len() > LONGEST
}
