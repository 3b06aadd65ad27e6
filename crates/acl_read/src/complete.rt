ghost use Rattle.std.specs.Prelude.{◌≡◌, map, option_map, IfOk};
ghost use Rattle.spoc_base.specs.Shown.{cidr_of, box_of};
ghost use Rattle.device_reading.specs.Grammar as grammar;
ghost use Rattle.device_lines.specs.Seen as lines;
ghost use Rattle.acl_read.specs.Completed as plain;
ghost use Rattle.acl_read.specs.Seen.{port_at, end_seen, entry_seen, fact_seen};

use crate::above::{
    binds_port, has_entry, has_hardware, members_of, opens_group, opens_list, opens_port, owner,
    port_for,
};
use crate::fact::{End, Entry, Fact};
use bumpalo::Bump;
use dev_config::Port;
use device_lines::{Command, End as NamedEnd, Entry as NamedEntry};
use spoc_base::{Addr, Dialect, NoMemory, Prefix};
use std::alloc::Global;

fn list_owner<'t>(dialect: Dialect, above: &[Fact<'t>]) -> Option<&'t [u8]>
    ensures { option_map (λ n. n.now) result ≡ plain.list_owner (grammar.owner dialect (map fact_seen above.now)) }
{
    match owner(dialect, above)? {
        Fact::OpensList(name) => Some(*name),
        _ => None,
    }
}

fn port_owner<'t>(dialect: Dialect, above: &[Fact<'t>]) -> Option<&'t [u8]>
    ensures { option_map (λ n. n.now) result ≡ plain.port_owner (grammar.owner dialect (map fact_seen above.now)) }
{
    match owner(dialect, above)? {
        Fact::OpensPort(hardware) => Some(*hardware),
        _ => None,
    }
}

fn group_owner<'t>(dialect: Dialect, above: &[Fact<'t>]) -> Option<&'t [u8]>
    ensures { option_map (λ n. n.now) result ≡ plain.group_owner (grammar.owner dialect (map fact_seen above.now)) }
{
    match owner(dialect, above)? {
        Fact::OpensGroup(name) => Some(*name),
        _ => None,
    }
}

// ---- IOS

fn ios_route<'t>(ports: &[Port<'t>], net: Prefix, gateway: Addr) -> Option<Fact<'t>>
    ensures { option_map fact_seen result ≡ plain.ios_route (map port_at ports.now) (cidr_of net) gateway.0 }
{
    let port = port_for(ports, gateway)?;
    Some(Fact::Sends { port, net, gateway })
}

fn ios_list<'t>(above: &[Fact<'t>], name: &'t [u8]) -> Option<Fact<'t>>
    ensures { option_map fact_seen result ≡ plain.ios_list (map fact_seen above.now) name.now }
{
    if opens_list(name, above) {
        return None;
    }
    Some(Fact::OpensList(name))
}

fn one_end<'t>(end: &NamedEnd<'t>) -> End<'t>
    ensures { end_seen result ≡ lines.end_of end.now }
{
    match end {
        NamedEnd::Prefix(p) => End::Prefix(*p),
        NamedEnd::Group(name) => End::Group(name, &[]),
    }
}

fn same_entry<'t>(entry: &NamedEntry<'t>) -> Entry<'t>
    ensures { entry_seen result ≡ lines.entry_of entry.now }
{
    Entry {
        permit: entry.permit,
        src: one_end(&entry.src),
        dst: one_end(&entry.dst),
        t: entry.t,
    }
}

fn ios_entry<'t>(above: &[Fact<'t>], entry: &NamedEntry<'t>) -> Option<Fact<'t>>
    ensures { option_map fact_seen result ≡ plain.ios_entry (map fact_seen above.now) (lines.entry_of entry.now) }
{
    let list = list_owner(Dialect::Ios, above)?;
    Some(Fact::HasEntry {
        list,
        entry: same_entry(entry),
    })
}

fn ios_port<'t>(ports: &[Port<'t>], above: &[Fact<'t>], hardware: &'t [u8]) -> Option<Fact<'t>>
    ensures { option_map fact_seen result ≡ plain.ios_port (map port_at ports.now) (map fact_seen above.now) hardware.now }
{
    if !has_hardware(hardware, ports) || opens_port(hardware, above) {
        return None;
    }
    Some(Fact::OpensPort(hardware))
}

fn ios_binding<'t>(above: &[Fact<'t>], list: &'t [u8]) -> Option<Fact<'t>>
    ensures { option_map fact_seen result ≡ plain.ios_binding (map fact_seen above.now) list.now }
{
    let hardware = port_owner(Dialect::Ios, above)?;
    if binds_port(hardware, above) || !opens_list(list, above) {
        return None;
    }
    Some(Fact::Binds { hardware, list })
}

fn complete_ios<'t>(
    ports: &[Port<'t>],
    above: &[Fact<'t>],
    command: &Command<'t>,
) -> Option<Fact<'t>>
    ensures { option_map fact_seen result ≡ plain.completed_ios (map port_at ports.now) (map fact_seen above.now) (lines.fact_of command.now) }
{
    match command {
        Command::Remark(text) => Some(Fact::Remark(text)),
        Command::Route { net, gateway, .. } => ios_route(ports, *net, *gateway),
        Command::List(name) => ios_list(above, name),
        Command::Entry { entry, .. } => ios_entry(above, entry),
        Command::Port(hardware) => ios_port(ports, above, hardware),
        Command::Binding { list, .. } => ios_binding(above, list),
        Command::Group(_) => None,
        Command::Member(_) => None,
    }
}

// ---- ASA

fn asa_route<'t>(
    ports: &[Port<'t>],
    hardware: &[u8],
    net: Prefix,
    gateway: Addr,
) -> Option<Fact<'t>>
    ensures { option_map fact_seen result ≡ plain.asa_route (map port_at ports.now) hardware.now (cidr_of net) gateway.0 }
{
    let port = port_for(ports, gateway)?;
    if port.hardware == hardware {
        Some(Fact::Sends { port, net, gateway })
    } else {
        None
    }
}

fn asa_group<'t>(above: &[Fact<'t>], name: &'t [u8]) -> Option<Fact<'t>>
    ensures { option_map fact_seen result ≡ plain.asa_group (map fact_seen above.now) name.now }
{
    if opens_group(name, above) {
        return None;
    }
    Some(Fact::OpensGroup(name))
}

fn asa_member<'t>(above: &[Fact<'t>], member: Prefix) -> Option<Fact<'t>>
    ensures { option_map fact_seen result ≡ plain.asa_member (map fact_seen above.now) (cidr_of member) }
{
    let group = group_owner(Dialect::Asa, above)?;
    Some(Fact::HasMember { group, member })
}

fn group_end<'t>(
    alloc: Global,
    scratch: &'t Bump,
    above: &[Fact<'t>],
    name: &'t [u8],
) -> Result<Option<End<'t>>, NoMemory>
    ensures { IfOk result (λ full. option_map end_seen full ≡ plain.group_end (map fact_seen above.now) name.now) }
{
    let members = members_of(alloc, name, above)?;
    if members.is_empty() {
        return Ok(None);
    }
    let kept = scratch.try_alloc_slice_copy(&members)?;
    Ok(Some(End::Group(name, kept)))
}

// The end with the members that its group has, where it has any.
fn full_end<'t>(
    alloc: Global,
    scratch: &'t Bump,
    above: &[Fact<'t>],
    end: &NamedEnd<'t>,
) -> Result<Option<End<'t>>, NoMemory>
    ensures { IfOk result (λ full. option_map end_seen full ≡ plain.full_end (map fact_seen above.now) (lines.end_of end.now)) }
{
    match end {
        NamedEnd::Prefix(p) => Ok(Some(End::Prefix(*p))),
        NamedEnd::Group(name) => group_end(alloc, scratch, above, name),
    }
}

fn asa_entry<'t>(
    alloc: Global,
    scratch: &'t Bump,
    above: &[Fact<'t>],
    list: &'t [u8],
    entry: &NamedEntry<'t>,
) -> Result<Option<Fact<'t>>, NoMemory>
    ensures { IfOk result (λ fact. option_map fact_seen fact ≡ plain.asa_entry (map fact_seen above.now) list.now (lines.entry_of entry.now)) }
{
    let Some(src) = full_end(alloc, scratch, above, &entry.src)? else {
        return Ok(None);
    };
    let Some(dst) = full_end(alloc, scratch, above, &entry.dst)? else {
        return Ok(None);
    };
    let entry = Entry {
        permit: entry.permit,
        src,
        dst,
        t: entry.t,
    };
    Ok(Some(Fact::HasEntry { list, entry }))
}

fn asa_binding<'t>(
    ports: &[Port<'t>],
    above: &[Fact<'t>],
    hardware: &'t [u8],
    list: &'t [u8],
) -> Option<Fact<'t>>
    ensures { option_map fact_seen result ≡ plain.asa_binding (map port_at ports.now) (map fact_seen above.now) hardware.now list.now }
{
    if !has_hardware(hardware, ports) || binds_port(hardware, above) || !has_entry(list, above) {
        return None;
    }
    Some(Fact::Binds { hardware, list })
}

fn complete_asa<'t>(
    alloc: Global,
    scratch: &'t Bump,
    ports: &[Port<'t>],
    above: &[Fact<'t>],
    command: &Command<'t>,
) -> Result<Option<Fact<'t>>, NoMemory>
    ensures { IfOk result (λ fact. option_map fact_seen fact ≡ plain.completed_asa (map port_at ports.now) (map fact_seen above.now) (lines.fact_of command.now)) }
{
    match command {
        Command::Remark(text) => Ok(Some(Fact::Remark(text))),
        Command::Route {
            hardware,
            net,
            gateway,
        } => Ok(asa_route(ports, hardware, *net, *gateway)),
        Command::List(_) => Ok(None),
        Command::Entry { list, entry } => asa_entry(alloc, scratch, above, list, entry),
        Command::Port(_) => Ok(None),
        Command::Binding { hardware, list } => Ok(asa_binding(ports, above, hardware, list)),
        Command::Group(name) => Ok(asa_group(above, name)),
        Command::Member(member) => Ok(asa_member(above, *member)),
    }
}

/// What a line says below these lines, by what it says by itself. `None` exactly where it may not stand there. An error comes from want of memory alone.
pub(crate) fn complete<'t>(
    alloc: Global,
    scratch: &'t Bump,
    dialect: Dialect,
    ports: &[Port<'t>],
    above: &[Fact<'t>],
    command: &Command<'t>,
) -> Result<Option<Fact<'t>>, NoMemory>
    ensures { IfOk result (λ fact. option_map fact_seen fact ≡ plain.completed dialect (map port_at ports.now) (map fact_seen above.now) (lines.fact_of command.now)) }
{
    match dialect {
        Dialect::Ios => Ok(complete_ios(ports, above, command)),
        Dialect::Asa => complete_asa(alloc, scratch, ports, above, command),
    }
}
