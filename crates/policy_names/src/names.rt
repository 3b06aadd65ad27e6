ghost use Rattle.std.specs.Prelude.{◌≡◌, map, flat_map, ◌∷◌, ◌++◌, [], IfOk, OnOk};
ghost use Rattle.spoc_ast.specs.Seen.{word_seen, port_seen, net_part_seen, rout_part_seen, decl_seen};
ghost use Rattle.policy_decls.specs.Names as plain;
ghost use Rattle.policy_names.specs.Seen.{kind_seen, mention_seen, GrowsBy};

use crate::mention::{Mention, NameKind};
use spoc_ast::{Decl, NetPart, PortName, RoutPart, Word};
use spoc_base::NoMemory;
use std::alloc::Global;

/// The names that a declaration gives, in the order in which they stand. An error comes from want
/// of memory alone.
pub fn names_given<'a>(alloc: Global, decl: &Decl<'a>) -> Result<Vec<Mention<'a>>, NoMemory>
    ensures { IfOk result (λ names. map mention_seen names.items ≡ plain.names_in (decl_seen decl.now)) }
{
    let mut names = Vec::new(alloc);
    add_names(decl, &mut names)?;
    Ok(names)
}

// Adds the names that a declaration gives.
pub(crate) fn add_names<'a>(decl: &Decl<'a>, found: &mut Vec<Mention<'a>>) -> Result<(), NoMemory>
    ensures { OnOk result (GrowsBy (plain.names_in (decl_seen decl.now)) found.old.items found.new.items) }
{
    match decl {
        Decl::Network { name, parts, .. } => add_network(*name, parts, found),
        Decl::Router { name, parts, .. } => add_router(*name, parts, found),
        Decl::Group { name, .. } => add_plain(NameKind::Group, *name, found),
        Decl::Area { name, .. } => add_plain(NameKind::Area, *name, found),
        Decl::Aggregate { name, .. } => add_plain(NameKind::Aggregate, *name, found),
        Decl::Protocol { name, .. } => add_plain(NameKind::Protocol, *name, found),
        Decl::ProtocolGroup { name, .. } => add_plain(NameKind::ProtocolGroup, *name, found),
        Decl::Restriction { name, .. } => add_plain(NameKind::Restriction, *name, found),
        Decl::Service { name, .. } => add_plain(NameKind::Service, *name, found),
    }
}

// Adds a name without an owner.
pub(crate) fn add_plain<'a>(
    kind: NameKind,
    name: Word<'a>,
    found: &mut Vec<Mention<'a>>,
) -> Result<(), NoMemory>
    ensures { OnOk result (GrowsBy (plain.mention (kind_seen kind) (word_seen name.entry) ∷ []) found.old.items found.new.items) }
{
    found.push(Mention::plain(kind, name))?;
    Ok(())
}

// Adds the interface of a router at a network.
pub(crate) fn add_port<'a>(port: PortName<'a>, found: &mut Vec<Mention<'a>>) -> Result<(), NoMemory>
    ensures { OnOk result (GrowsBy (plain.mention_port (port_seen port.entry) ∷ []) found.old.items found.new.items) }
{
    found.push(Mention::port(port))?;
    Ok(())
}

// Adds the names of a network, its hosts and its translations.
fn add_network<'a>(
    name: Word<'a>,
    parts: &[NetPart<'a>],
    found: &mut Vec<Mention<'a>>,
) -> Result<(), NoMemory>
    ensures { OnOk result (GrowsBy (plain.mention plain.NetworkName (word_seen name.entry) ∷ flat_map (plain.names_in_net_part (word_seen name.entry)) (map net_part_seen parts.now)) found.old.items found.new.items) }
{
    add_plain(NameKind::Network, name, found)?;
    for part in parts {
        add_net_part(name, part, found)?;
    }
    Ok(())
}

fn add_net_part<'a>(
    net: Word<'a>,
    part: &NetPart<'a>,
    found: &mut Vec<Mention<'a>>,
) -> Result<(), NoMemory>
    ensures { OnOk result (GrowsBy (plain.names_in_net_part (word_seen net.entry) (net_part_seen part.now)) found.old.items found.new.items) }
{
    match part {
        NetPart::Host { name, .. } => found.push(Mention::plain(NameKind::Host, *name))?,
        NetPart::Nat { name, .. } => found.push(Mention::within(NameKind::Tag, net, *name))?,
        NetPart::Ip(_) | NetPart::Idle(_) => {}
    }
    Ok(())
}

// Adds the names of a router and its interfaces.
fn add_router<'a>(
    name: Word<'a>,
    parts: &[RoutPart<'a>],
    found: &mut Vec<Mention<'a>>,
) -> Result<(), NoMemory>
    ensures { OnOk result (GrowsBy (plain.mention plain.RouterName (word_seen name.entry) ∷ flat_map (plain.names_in_rout_part (word_seen name.entry)) (map rout_part_seen parts.now)) found.old.items found.new.items) }
{
    add_plain(NameKind::Router, name, found)?;
    for part in parts {
        add_rout_part(name, part, found)?;
    }
    Ok(())
}

fn add_rout_part<'a>(
    router: Word<'a>,
    part: &RoutPart<'a>,
    found: &mut Vec<Mention<'a>>,
) -> Result<(), NoMemory>
    ensures { OnOk result (GrowsBy (plain.names_in_rout_part (word_seen router.entry) (rout_part_seen part.now)) found.old.items found.new.items) }
{
    if let RoutPart::Iface { name, .. } = part {
        found.push(Mention::port(PortName { router, net: *name }))?;
    }
    Ok(())
}
