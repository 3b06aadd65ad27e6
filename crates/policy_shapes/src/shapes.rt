ghost use Rattle.std.specs.Prelude.{◌≡◌, Some, None, [], map, IfOk};
ghost use Rattle.spoc_ast.specs.Seen.{decl_seen, simple_seen, prt_seen};
ghost use Rattle.policy_decls.specs.Names.{declared_names, names_in, shown_at};
ghost use Rattle.policy_decls.specs.Faults.{first_shape};
ghost use Rattle.policy_names.specs.Seen.{decls_of};
ghost use Rattle.policy_shapes.specs.Keys.{has_key, with_keys};
ghost use Rattle.policy_shapes.specs.Rows.{shape_by, decl_keys, first_by, protocol_rows, protocol_group_rows};

use crate::aggregate::aggregate_shape;
use crate::area::area_shape;
use crate::group::group_shape;
use crate::keys::Keys;
use crate::network::network_shape;
use crate::policy::Policy;
use crate::protocol::{any_bad_prt, is_bad_simple};
use crate::restriction::restriction_shape;
use crate::router::router_shape;
use crate::service::service_shape;
use policy_names::NameTable;
use spoc_ast::{Decl, File, Prt, Simple};
use spoc_base::{Kind, Named, NoMemory};
use std::alloc::Global;

/// The first declaration in which something stands that must not, with the least number of that:
///
/// 1. A network hasn't exactly one prefix, or a translation of it hasn't exactly one part: a prefix,
///    or that the network is hidden.
/// 2. A host hasn't exactly one address or range, or the first address of its range is above the
///    last.
/// 3. An address of a host is outside its network.
/// 4. A prefix has a host bit: of a network, a translation or an aggregate, or one that a set asks
///    for.
/// 5. A translation's prefix has another length than its network's.
/// 6. `managed`, `model` or `routing` stands twice in a router, or a managed router hasn't the
///    model IOS or ASA.
/// 7. `ip`, `hardware` or `bind_nat` stands twice in an interface, or an interface of a managed
///    router lacks an address or hardware.
/// 8. An interface's address is outside its network.
/// 9. An interface has the address of an earlier interface of the same network.
/// 10. Two interfaces of a managed router have one hardware.
/// 11. An interface of an unmanaged router binds tags, or a tag stands in an interface twice.
/// 12. A restriction has an interface of an unmanaged router, or fewer than two different ones.
/// 13. A port is above 65535, a range of ports has its last below its first, an ICMP number is
///     above 255, or a protocol number is above 255 or that of ICMP, TCP, UDP or 0.
/// 14. An area has no anchor and no border, two anchors, two border parts or a border of an
///     unmanaged router; an aggregate hasn't exactly one link or has two prefixes; a set names an
///     interface of an unmanaged router that has no address; or a rule names the user neither in
///     its source nor in its destination, be it one that permits or one that denies.
/// 15. An interface shares two addresses; it shares one and its router isn't managed; it hasn't
///     exactly one address to share; or that is outside the network or the address of an interface
///     of that network, declared before or behind it.
///
/// The table is that of the names that the files declare. An error comes from want of memory
/// alone.
pub fn first_shape<'a>(
    alloc: Global,
    table: &NameTable<'a>,
    files: &[File<'a>],
) -> Result<Option<(u8, Named)>, NoMemory>
    requires { table.now ≡ declared_names (decls_of files.now) }
    ensures { IfOk result (λ found. found ≡ first_shape (decls_of files.now)) }
{
    let decls = all_decls(alloc, files)?;
    let policy = Policy::new(alloc, table, &decls)?;
    first_among(alloc, &policy, &decls)
}

// The declarations of files, those of the first file first.
fn all_decls<'a>(alloc: Global, files: &[File<'a>]) -> Result<Vec<Decl<'a>>, NoMemory>
    ensures { IfOk result (λ found. map decl_seen found.items ≡ decls_of files.now) }
{
    let mut found = Vec::new(alloc);
    for file in files {
        found.extend_from_slice(file.decls)?;
    }
    Ok(found)
}

fn first_among<'a>(
    alloc: Global,
    policy: &Policy<'_, '_>,
    decls: &[Decl<'a>],
) -> Result<Option<(u8, Named)>, NoMemory>
    ensures { IfOk result (λ found. found ≡ first_by (map decl_seen policy.now) (has_key []) (map decl_seen decls.now)) }
{
    let mut earlier = Keys::new(alloc);
    for decl in decls {
        if let Some(number) = decl_shape(alloc, policy, &mut earlier, decl)? {
            return Ok(Some((number, name_of(decl))));
        }
    }
    Ok(None)
}

// The least number of what must not stand in the declaration and does, by the addresses of the
// interfaces that are declared before it. If there is none, those of its own are added to them.
#[tactic(auto, using(crate::proofs::Known::with_none))]
fn decl_shape<'a>(
    alloc: Global,
    policy: &Policy<'_, '_>,
    earlier: &mut Keys<'a>,
    decl: &Decl<'a>,
) -> Result<Option<u8>, NoMemory>
    ensures shape { IfOk result (λ shape. shape ≡ shape_by (map decl_seen policy.now) (has_key earlier.old) (decl_seen decl.now)) }
    ensures names { IfOk result (λ shape. shape ≡ None → has_key earlier.new ≡ with_keys (has_key earlier.old) (decl_keys (decl_seen decl.now))) }
{
    match decl {
        Decl::Network { parts, .. } => network_shape(alloc, parts),
        Decl::Router { name, parts, .. } => router_shape(alloc, policy, earlier, *name, parts),
        Decl::Group { objects, .. } => Ok(group_shape(policy, objects)),
        Decl::Area { parts, .. } => Ok(area_shape(policy, parts)),
        Decl::Aggregate { parts, .. } => Ok(aggregate_shape(parts)),
        Decl::Protocol { simple, .. } => protocol_shape(alloc, simple),
        Decl::ProtocolGroup { prts, .. } => protocol_group_shape(alloc, prts),
        Decl::Restriction { ports, .. } => Ok(restriction_shape(policy, ports)),
        Decl::Service { user, rules, .. } => service_shape(alloc, policy, user, rules),
    }
}

fn protocol_shape(alloc: Global, simple: &Simple<'_>) -> Result<Option<u8>, NoMemory>
    ensures { IfOk result (λ shape. shape ≡ protocol_rows (simple_seen simple.now)) }
{
    if is_bad_simple(alloc, simple)? {
        return Ok(Some(13));
    }
    Ok(None)
}

fn protocol_group_shape(alloc: Global, prts: &[Prt<'_>]) -> Result<Option<u8>, NoMemory>
    ensures { IfOk result (λ shape. shape ≡ protocol_group_rows (map prt_seen prts.now)) }
{
    if any_bad_prt(alloc, prts)? {
        return Ok(Some(13));
    }
    Ok(None)
}

// The name of a declaration.
fn name_of(decl: &Decl<'_>) -> Named
    ensures { Some result ≡ shown_at (names_in (decl_seen decl.now)) 0 }
{
    match decl {
        Decl::Network { name, .. } => Named::Plain(Kind::Network, name.span),
        Decl::Router { name, .. } => Named::Plain(Kind::Router, name.span),
        Decl::Group { name, .. } => Named::Plain(Kind::Group, name.span),
        Decl::Area { name, .. } => Named::Plain(Kind::Area, name.span),
        Decl::Aggregate { name, .. } => Named::Plain(Kind::Aggregate, name.span),
        Decl::Protocol { name, .. } => Named::Plain(Kind::Protocol, name.span),
        Decl::ProtocolGroup { name, .. } => Named::Plain(Kind::ProtocolGroup, name.span),
        Decl::Restriction { name, .. } => Named::Plain(Kind::Restriction, name.span),
        Decl::Service { name, .. } => Named::Plain(Kind::Service, name.span),
    }
}
