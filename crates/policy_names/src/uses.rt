ghost use Rattle.std.specs.Prelude.{◌≡◌, map, flat_map, option_map, ◌∷◌, ◌++◌, [], IfOk, OnOk};
ghost use Rattle.spoc_ast.specs.Seen.{word_seen, port_seen, set_seen, if_part_seen, rout_part_seen, area_part_seen, any_part_seen, prt_seen, rule_seen, decl_seen};
ghost use Rattle.policy_decls.specs.Names as plain;
ghost use Rattle.policy_decls.specs.Uses.{uses_in, uses_in_set, uses_in_objects, uses_in_prt, uses_in_if_part, uses_in_rout_part, uses_in_area_part, uses_in_any_part, uses_in_rule};
ghost use Rattle.policy_names.specs.Seen.{mention_seen, GrowsBy};

use crate::mention::{Mention, NameKind};
use crate::names::{add_plain, add_port};
use crate::sets::add_set;
use spoc_ast::{AnyPart, AreaPart, Decl, IfPart, PortName, Prt, RoutPart, RuleTree, SetTree, Word};
use spoc_base::NoMemory;
use std::alloc::Global;

/// The names that a declaration uses, in the order in which they stand. Parts without effect use
/// none. An error comes from want of memory alone.
pub fn names_used<'a>(alloc: Global, decl: &Decl<'a>) -> Result<Vec<Mention<'a>>, NoMemory>
    ensures { IfOk result (λ names. map mention_seen names.items ≡ uses_in (decl_seen decl.now)) }
{
    let mut names = Vec::new(alloc);
    add_uses(decl, &mut names)?;
    Ok(names)
}

// Adds the names that a declaration uses.
pub(crate) fn add_uses<'a>(decl: &Decl<'a>, found: &mut Vec<Mention<'a>>) -> Result<(), NoMemory>
    ensures { OnOk result (GrowsBy (uses_in (decl_seen decl.now)) found.old.items found.new.items) }
{
    match decl {
        Decl::Network { .. } | Decl::Protocol { .. } => Ok(()),
        Decl::Router { parts, .. } => in_router(parts, found),
        Decl::Group { objects, .. } => in_objects(objects, found),
        Decl::Area { parts, .. } => in_area(parts, found),
        Decl::Aggregate { parts, .. } => in_aggregate(parts, found),
        Decl::ProtocolGroup { prts, .. } => in_prts(prts, found),
        Decl::Restriction { ports, .. } => in_ports(ports, found),
        Decl::Service { user, rules, .. } => in_service(user, rules, found),
    }
}

fn in_router<'a>(parts: &[RoutPart<'a>], found: &mut Vec<Mention<'a>>) -> Result<(), NoMemory>
    ensures { OnOk result (GrowsBy (flat_map uses_in_rout_part (map rout_part_seen parts.now)) found.old.items found.new.items) }
{
    for part in parts {
        in_rout_part(part, found)?;
    }
    Ok(())
}

fn in_rout_part<'a>(part: &RoutPart<'a>, found: &mut Vec<Mention<'a>>) -> Result<(), NoMemory>
    ensures { OnOk result (GrowsBy (uses_in_rout_part (rout_part_seen part.now)) found.old.items found.new.items) }
{
    match part {
        RoutPart::Iface { name, parts } => in_iface(*name, parts, found),
        RoutPart::Managed(_) | RoutPart::Model(_) | RoutPart::Routing(_) | RoutPart::Idle(_) => Ok(
            (),
        ),
    }
}

fn in_iface<'a>(
    net: Word<'a>,
    parts: &[IfPart<'a>],
    found: &mut Vec<Mention<'a>>,
) -> Result<(), NoMemory>
    ensures { OnOk result (GrowsBy (plain.mention plain.NetworkName (word_seen net.entry) ∷ flat_map uses_in_if_part (map if_part_seen parts.now)) found.old.items found.new.items) }
{
    add_plain(NameKind::Network, net, found)?;
    for part in parts {
        in_if_part(part, found)?;
    }
    Ok(())
}

fn in_if_part<'a>(part: &IfPart<'a>, found: &mut Vec<Mention<'a>>) -> Result<(), NoMemory>
    ensures { OnOk result (GrowsBy (uses_in_if_part (if_part_seen part.now)) found.old.items found.new.items) }
{
    match part {
        IfPart::BindNat(tags) => in_tags(tags, found),
        IfPart::Ip(_) | IfPart::Hardware(_) | IfPart::Virtual(_) | IfPart::Idle(_) => Ok(()),
    }
}

fn in_tags<'a>(tags: &[Word<'a>], found: &mut Vec<Mention<'a>>) -> Result<(), NoMemory>
    ensures { OnOk result (GrowsBy (map (plain.mention plain.TagName) (map word_seen tags.now)) found.old.items found.new.items) }
{
    for tag in tags {
        add_plain(NameKind::Tag, *tag, found)?;
    }
    Ok(())
}

fn in_ports<'a>(ports: &[PortName<'a>], found: &mut Vec<Mention<'a>>) -> Result<(), NoMemory>
    ensures { OnOk result (GrowsBy (map plain.mention_port (map port_seen ports.now)) found.old.items found.new.items) }
{
    for port in ports {
        add_port(*port, found)?;
    }
    Ok(())
}

fn in_objects<'a>(
    objects: &Option<SetTree<'a>>,
    found: &mut Vec<Mention<'a>>,
) -> Result<(), NoMemory>
    ensures { OnOk result (GrowsBy (uses_in_objects (option_map set_seen objects.now)) found.old.items found.new.items) }
{
    match objects {
        Some(set) => add_set(set, found),
        None => Ok(()),
    }
}

fn in_area<'a>(parts: &[AreaPart<'a>], found: &mut Vec<Mention<'a>>) -> Result<(), NoMemory>
    ensures { OnOk result (GrowsBy (flat_map uses_in_area_part (map area_part_seen parts.now)) found.old.items found.new.items) }
{
    for part in parts {
        in_area_part(part, found)?;
    }
    Ok(())
}

fn in_area_part<'a>(part: &AreaPart<'a>, found: &mut Vec<Mention<'a>>) -> Result<(), NoMemory>
    ensures { OnOk result (GrowsBy (uses_in_area_part (area_part_seen part.now)) found.old.items found.new.items) }
{
    match part {
        AreaPart::Anchor(name) => add_plain(NameKind::Network, *name, found),
        AreaPart::Border(ports) => in_ports(ports, found),
        AreaPart::Idle(_) => Ok(()),
    }
}

fn in_aggregate<'a>(parts: &[AnyPart<'a>], found: &mut Vec<Mention<'a>>) -> Result<(), NoMemory>
    ensures { OnOk result (GrowsBy (flat_map uses_in_any_part (map any_part_seen parts.now)) found.old.items found.new.items) }
{
    for part in parts {
        in_any_part(part, found)?;
    }
    Ok(())
}

fn in_any_part<'a>(part: &AnyPart<'a>, found: &mut Vec<Mention<'a>>) -> Result<(), NoMemory>
    ensures { OnOk result (GrowsBy (uses_in_any_part (any_part_seen part.now)) found.old.items found.new.items) }
{
    match part {
        AnyPart::Link(name) => add_plain(NameKind::Network, *name, found),
        AnyPart::Ip(_) | AnyPart::Idle(_) => Ok(()),
    }
}

fn in_prts<'a>(prts: &[Prt<'a>], found: &mut Vec<Mention<'a>>) -> Result<(), NoMemory>
    ensures { OnOk result (GrowsBy (flat_map uses_in_prt (map prt_seen prts.now)) found.old.items found.new.items) }
{
    for prt in prts {
        in_prt(prt, found)?;
    }
    Ok(())
}

fn in_prt<'a>(prt: &Prt<'a>, found: &mut Vec<Mention<'a>>) -> Result<(), NoMemory>
    ensures { OnOk result (GrowsBy (uses_in_prt (prt_seen prt.now)) found.old.items found.new.items) }
{
    match prt {
        Prt::Simple(_) => Ok(()),
        Prt::Protocol(name) => add_plain(NameKind::Protocol, *name, found),
        Prt::Group(name) => add_plain(NameKind::ProtocolGroup, *name, found),
    }
}

fn in_service<'a>(
    user: &SetTree<'a>,
    rules: &[RuleTree<'a>],
    found: &mut Vec<Mention<'a>>,
) -> Result<(), NoMemory>
    ensures { OnOk result (GrowsBy (uses_in_set (set_seen user.now) ++ flat_map uses_in_rule (map rule_seen rules.now)) found.old.items found.new.items) }
{
    add_set(user, found)?;
    for rule in rules {
        in_rule(rule, found)?;
    }
    Ok(())
}

fn in_rule<'a>(rule: &RuleTree<'a>, found: &mut Vec<Mention<'a>>) -> Result<(), NoMemory>
    ensures { OnOk result (GrowsBy (uses_in_rule (rule_seen rule.now)) found.old.items found.new.items) }
{
    add_set(&rule.src, found)?;
    add_set(&rule.dst, found)?;
    in_prts(rule.prts, found)
}
