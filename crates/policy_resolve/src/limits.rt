ghost use Rattle.std.specs.Prelude.{◌≡◌, ◌||◌, nat_lt, None, length, filter, map, IfOk};
ghost use Rattle.spoc_ast.specs.Seen.{rout_part_seen, decl_seen};
ghost use Rattle.policy_decls.specs.Names.{declared_names, RouterName};
ghost use Rattle.policy_decls.specs.Lookup.{is_managed_router};
ghost use Rattle.policy_decls.specs.Limits as plain;
ghost use Rattle.policy_decls.specs.Faults.{name_twice, name_unknown};
ghost use Rattle.policy_names.specs.Seen.{kind_seen, decls_of};
ghost use Rattle.policy_names.specs.Tables.{numbered, of_kind};

use crate::decls::all_decls;
use crate::lengths::has_long_name;
use policy_names::{NameKind, NameTable};
use policy_nesting::nest_too_deep;
use spoc_ast::{Decl, File, RoutPart};
use spoc_base::{LimitWord, NoMemory};
use std::alloc::Global;

// So many networks, routers, interfaces or services are declared at most.
const MOST: u32 = 65_535;

const MOST_MANAGED: usize = 4_095;

const MOST_HOSTS: u32 = 1_000_000;

/// The first limit that the declarations of the files pass, by the table of the names that they
/// declare. An error comes from want of memory alone.
pub(crate) fn first_limit(
    alloc: Global,
    table: &NameTable<'_>,
    files: &[File<'_>],
) -> Result<Option<LimitWord>, NoMemory>
    requires table { table.now ≡ declared_names (decls_of files.now) }
    requires once { name_twice (decls_of files.now) ≡ None }
    requires known { name_unknown (decls_of files.now) ≡ None }
    ensures { IfOk result (λ found. found ≡ plain.limit_passed (decls_of files.now)) }
{
    let decls = all_decls(alloc, files)?;
    if has_more(table, NameKind::Network, MOST) {
        return Ok(Some(LimitWord::Networks));
    }
    if has_more_routers(table, &decls) {
        return Ok(Some(LimitWord::Routers));
    }
    if has_more(table, NameKind::Iface, MOST) {
        return Ok(Some(LimitWord::Interfaces));
    }
    if has_more(table, NameKind::Host, MOST_HOSTS) {
        return Ok(Some(LimitWord::Hosts));
    }
    if has_more(table, NameKind::Service, MOST) {
        return Ok(Some(LimitWord::Services));
    }
    if has_long_name(alloc, &decls)? {
        return Ok(Some(LimitWord::Names));
    }
    if nest_too_deep(alloc, table, files)? {
        return Ok(Some(LimitWord::Nesting));
    }
    Ok(None)
}

// Whether there are more names of a kind than so many.
fn has_more(table: &NameTable<'_>, kind: NameKind, most: u32) -> bool
    ensures { result ≡ nat_lt most (length (numbered table.now (kind_seen kind))) }
{
    table.count(kind) > most
}

// Whether there are too many routers, or too many managed ones.
fn has_more_routers(table: &NameTable<'_>, decls: &[Decl<'_>]) -> bool
    ensures { result ≡ (nat_lt 65535 (length (of_kind table.now RouterName)) || nat_lt 4095 (plain.managed_count (map decl_seen decls.now))) }
{
    has_more(table, NameKind::Router, MOST) || managed_count(decls) > MOST_MANAGED
}

// How many managed routers there are.
fn managed_count(decls: &[Decl<'_>]) -> usize
    ensures { result ≡ plain.managed_count (map decl_seen decls.now) }
{
    let mut count = 0;
    for decl in decls {
        if declares_managed(decl) {
            count += 1;
        }
    }
    count
}

fn declares_managed(decl: &Decl<'_>) -> bool
    ensures { result ≡ plain.declares_managed (decl_seen decl.now) }
{
    match decl {
        Decl::Router { parts, .. } => is_managed(parts),
        _ => false,
    }
}

// Whether a router of these parts is managed.
fn is_managed(parts: &[RoutPart<'_>]) -> bool
    ensures { result ≡ is_managed_router (map rout_part_seen parts.now) }
{
    for part in parts {
        if let RoutPart::Managed(_) = part {
            return true;
        }
    }
    false
}
