ghost use Rattle.std.specs.Prelude.{◌≡◌, false, map, flat_map, option_map, option_and_then, slice_get, unwrap_or, IfOk, OnOk};
ghost use Rattle.spoc_ast.specs.Seen.{decl_seen, port_seen, word_seen};
ghost use Rattle.policy_decls.specs.Names.{declared_names};
ghost use Rattle.policy_decls.specs.Lookup as plain;
ghost use Rattle.policy_decls.specs.Shapes.{is_bare_port, is_taken, is_unmanaged_port};
ghost use Rattle.policy_shapes.specs.Seen.{block_seen, iface_seen};
ghost use Rattle.policy_shapes.specs.Keys.{has_key, with_keys, address_keys};
ghost use Rattle.policy_shapes.specs.Policy.{own_prefixes, managed_flags, bare_keys, joined};

use crate::block::Block;
use crate::clash::add_addresses;
use crate::iface::{Iface, all_ifaces, is_managed};
use crate::keys::Keys;
use crate::network::own_prefix;
use policy_names::{NameKind, NameTable};
use spoc_ast::{Decl, PortName, Word};
use spoc_base::NoMemory;
use std::alloc::Global;
use std::marker::Model;

/// What is looked up in the declarations of a policy. Contracts see the declarations.
#[derive(Drop)]
pub(crate) struct Policy<'t, 'a> {
    decls: &'t [Decl<'a>],
    table: &'t NameTable<'a>,
    // By the numbers of networks.
    own: Vec<Option<Block>>,
    // By the numbers of routers.
    managed: Vec<bool>,
    // The interfaces of unmanaged routers that have no address.
    bare: Keys<'a>,
    // The addresses of interfaces, by their networks.
    taken: Keys<'a>,
}

impl<'t, 'a> Model for Policy<'t, 'a> {
    ghost use Rattle.std.specs.Prelude.{List, [], map, option_map};
    ghost use mir.Syntax.{named};
    ghost use Rattle.std.specs.Coded.{codes};
    ghost use Rattle.spoc_ast.specs.contracts.set.SetTree as set;
    ghost use Rattle.spoc_ast.specs.declared.decl.Decl.{Decl as Tree};
    ghost use Rattle.spoc_ast.specs.Seen.{decl_seen};
    ghost use Rattle.policy_shapes.specs.Seen.{block_seen};
    ghost use Rattle.policy_shapes.specs.Policy.{IsPolicy};

    ghost Value = { List Tree };

    ghost coded = { Prim.hlevel (codes, (set.the_row (record { mir = named 1; lft = [] })).coded) };

    ghost view = { λ p. p.decls.now };

    ghost invariant = { λ p. IsPolicy (map decl_seen p.decls.now) p.table.now (map (option_map block_seen) p.own.items) p.managed.items p.bare p.taken };
}

impl<'t, 'a> Policy<'t, 'a> {
    /// What is looked up in these declarations, by the table of their names.
    pub(crate) fn new(
        alloc: Global,
        table: &'t NameTable<'a>,
        decls: &'t [Decl<'a>],
    ) -> Result<Policy<'t, 'a>, NoMemory>
        requires { table.now ≡ declared_names (map decl_seen decls.now) }
        ensures { IfOk result (λ policy. policy ≡ decls.now) }
    {
        let ifaces = all_ifaces(alloc, decls)?;
        Ok(Policy {
            decls,
            table,
            own: blocks(alloc, decls)?,
            managed: flags(alloc, decls)?,
            bare: bare(alloc, &ifaces)?,
            taken: taken(alloc, &ifaces)?,
        })
    }

    /// The own prefix of the network of a name, where it has exactly one.
    pub(crate) fn own_prefix(&self, net: &[u8]) -> Option<Block>
        ensures { option_map block_seen result ≡ plain.own_prefix (plain.network_parts (map decl_seen self.now) net.now) }
    {
        block_at(&self.own, self.table.number(NameKind::Network, b"", net))
    }

    /// Whether the router of a name is managed.
    pub(crate) fn is_managed(&self, router: &[u8]) -> bool
        ensures { result ≡ plain.is_managed_router (plain.router_parts (map decl_seen self.now) router.now) }
    {
        flag_at(
            &self.managed,
            self.table.number(NameKind::Router, b"", router),
        )
    }

    /// Whether the router of an interface isn't managed.
    pub(crate) fn is_unmanaged(&self, port: &PortName<'_>) -> bool
        ensures { result ≡ is_unmanaged_port (map decl_seen self.now) (port_seen port.now) }
    {
        !self.is_managed(port.router.text)
    }

    /// Whether an interface is one of an unmanaged router and has no address.
    pub(crate) fn is_bare(&self, port: &PortName<'_>) -> bool
        ensures { result ≡ is_bare_port (map decl_seen self.now) (port_seen port.now) }
    {
        self.bare.holds(port.router.text, port.net.text)
    }

    /// Whether an interface of the network of a name has the address.
    pub(crate) fn is_taken(&self, net: &Word<'_>, address: &Word<'_>) -> bool
        ensures { result ≡ is_taken (map decl_seen self.now) (word_seen net.now) (word_seen address.now) }
    {
        self.taken.holds(net.text, address.text)
    }
}

fn block_at(own: &[Option<Block>], number: Option<u32>) -> Option<Block>
    ensures { option_map block_seen result ≡ joined (option_and_then (slice_get (map (option_map block_seen) own.now)) number) }
{
    match own.get(number? as usize) {
        Some(own) => *own,
        None => None,
    }
}

fn flag_at(managed: &[bool], number: Option<u32>) -> bool
    ensures { result ≡ unwrap_or (option_and_then (slice_get managed.now) number) false }
{
    match number {
        Some(number) => managed.get(number as usize).copied().unwrap_or(false),
        None => false,
    }
}

// The networks' own prefixes, in the order of their declarations.
fn blocks(alloc: Global, decls: &[Decl<'_>]) -> Result<Vec<Option<Block>>, NoMemory>
    ensures { IfOk result (λ found. map (option_map block_seen) found.items ≡ own_prefixes (map decl_seen decls.now)) }
{
    let mut found = Vec::new(alloc);
    for decl in decls {
        if let Decl::Network { parts, .. } = decl {
            found.push(own_prefix(parts))?;
        }
    }
    Ok(found)
}

// Whether the routers are managed, in the order of their declarations.
fn flags(alloc: Global, decls: &[Decl<'_>]) -> Result<Vec<bool>, NoMemory>
    ensures { IfOk result (λ found. found.items ≡ managed_flags (map decl_seen decls.now)) }
{
    let mut found = Vec::new(alloc);
    for decl in decls {
        if let Decl::Router { parts, .. } = decl {
            found.push(is_managed(parts))?;
        }
    }
    Ok(found)
}

// Those of the interfaces whose router isn't managed and that have no address.
fn bare<'a>(alloc: Global, ifaces: &[Iface<'a>]) -> Result<Keys<'a>, NoMemory>
    ensures { IfOk result (λ found. has_key found ≡ has_key (flat_map bare_keys (map iface_seen ifaces.now))) }
{
    let mut found = Keys::new(alloc);
    for iface in ifaces {
        add_if_bare(iface, &mut found)?;
    }
    Ok(found)
}

fn add_if_bare<'a>(iface: &Iface<'a>, found: &mut Keys<'a>) -> Result<(), NoMemory>
    ensures { OnOk result (has_key found.new ≡ with_keys (has_key found.old) (bare_keys (iface_seen iface.now))) }
{
    if !iface.is_bare() {
        return Ok(());
    }
    found.add(iface.router.text, iface.net.text)?;
    Ok(())
}

// The addresses of the interfaces, by their networks.
fn taken<'a>(alloc: Global, ifaces: &[Iface<'a>]) -> Result<Keys<'a>, NoMemory>
    ensures { IfOk result (λ found. has_key found ≡ has_key (flat_map address_keys (map iface_seen ifaces.now))) }
{
    let mut found = Keys::new(alloc);
    for iface in ifaces {
        add_addresses(iface, &mut found)?;
    }
    Ok(found)
}
