ghost use Rattle.std.specs.Prelude.{◌≡◌, map, filter, option_map, IfOk};
ghost use Rattle.std.specs.List.{list_any, last_or};
ghost use Rattle.spoc_base.specs.Shown.{cidr_of};
ghost use Rattle.device_reading.specs.Grammar as plain;
ghost use Rattle.acl_read.specs.Seen.{port_at, fact_seen, longer_port};

use crate::fact::Fact;
use dev_config::Port;
use spoc_base::{Addr, Dialect, NoMemory, Prefix};
use std::alloc::Global;

fn is_list(fact: &Fact<'_>, name: &[u8]) -> bool
    ensures { result ≡ plain.opens_list name.now (fact_seen fact.now) }
{
    match fact {
        Fact::OpensList(n) => *n == name,
        _ => false,
    }
}

/// Whether a list of this name was opened.
pub(crate) fn opens_list(name: &[u8], above: &[Fact<'_>]) -> bool
    ensures { result ≡ list_any (plain.opens_list name.now) (map fact_seen above.now) }
{
    for fact in above {
        if is_list(fact, name) {
            return true;
        }
    }
    false
}

fn is_port(fact: &Fact<'_>, hardware: &[u8]) -> bool
    ensures { result ≡ plain.opens_port hardware.now (fact_seen fact.now) }
{
    match fact {
        Fact::OpensPort(h) => *h == hardware,
        _ => false,
    }
}

/// Whether the lines of this port were opened.
pub(crate) fn opens_port(hardware: &[u8], above: &[Fact<'_>]) -> bool
    ensures { result ≡ list_any (plain.opens_port hardware.now) (map fact_seen above.now) }
{
    for fact in above {
        if is_port(fact, hardware) {
            return true;
        }
    }
    false
}

fn is_group(fact: &Fact<'_>, name: &[u8]) -> bool
    ensures { result ≡ plain.opens_group name.now (fact_seen fact.now) }
{
    match fact {
        Fact::OpensGroup(n) => *n == name,
        _ => false,
    }
}

/// Whether a group of this name was opened.
pub(crate) fn opens_group(name: &[u8], above: &[Fact<'_>]) -> bool
    ensures { result ≡ list_any (plain.opens_group name.now) (map fact_seen above.now) }
{
    for fact in above {
        if is_group(fact, name) {
            return true;
        }
    }
    false
}

fn is_entry(fact: &Fact<'_>, list: &[u8]) -> bool
    ensures { result ≡ plain.has_entry list.now (fact_seen fact.now) }
{
    match fact {
        Fact::HasEntry { list: n, .. } => *n == list,
        _ => false,
    }
}

/// Whether the list has an entry.
pub(crate) fn has_entry(list: &[u8], above: &[Fact<'_>]) -> bool
    ensures { result ≡ list_any (plain.has_entry list.now) (map fact_seen above.now) }
{
    for fact in above {
        if is_entry(fact, list) {
            return true;
        }
    }
    false
}

fn is_binding(fact: &Fact<'_>, hardware: &[u8]) -> bool
    ensures { result ≡ plain.binds_port hardware.now (fact_seen fact.now) }
{
    match fact {
        Fact::Binds { hardware: h, .. } => *h == hardware,
        _ => false,
    }
}

/// Whether the port has a list.
pub(crate) fn binds_port(hardware: &[u8], above: &[Fact<'_>]) -> bool
    ensures { result ≡ list_any (plain.binds_port hardware.now) (map fact_seen above.now) }
{
    for fact in above {
        if is_binding(fact, hardware) {
            return true;
        }
    }
    false
}

/// Whether a port has this hardware.
pub(crate) fn has_hardware(hardware: &[u8], ports: &[Port<'_>]) -> bool
    ensures { result ≡ list_any (plain.has_hardware hardware.now) (map port_at ports.now) }
{
    for port in ports {
        if port.hardware == hardware {
            return true;
        }
    }
    false
}

fn is_heading(dialect: Dialect, fact: &Fact<'_>) -> bool
    ensures { result ≡ plain.is_heading dialect (fact_seen fact.now) }
{
    match (dialect, fact) {
        (_, Fact::Remark(_)) => false,
        (Dialect::Ios, Fact::HasEntry { .. }) => false,
        (Dialect::Ios, Fact::Binds { .. }) => false,
        (_, Fact::HasMember { .. }) => false,
        _ => true,
    }
}

/// The line to which an indented line belongs.
pub(crate) fn owner<'a, 't>(dialect: Dialect, above: &'a [Fact<'t>]) -> Option<&'a Fact<'t>>
    ensures { option_map (λ f. fact_seen f.now) result ≡ plain.owner dialect (map fact_seen above.now) }
{
    let mut last: Option<&'a Fact<'t>> = None;
    for fact in above {
        if is_heading(dialect, fact) {
            last = Some(fact);
        }
    }
    last
}

/// The members of a group, in order. An error comes from want of memory alone.
pub(crate) fn members_of(
    alloc: Global,
    name: &[u8],
    above: &[Fact<'_>],
) -> Result<Vec<Prefix>, NoMemory>
    ensures { IfOk result (λ members. map cidr_of members.items ≡ plain.members_of name.now (map fact_seen above.now)) }
{
    let mut members = Vec::new(alloc);
    for fact in above {
        if let Fact::HasMember { group, member } = fact
            && *group == name
        {
            members.push(*member)?;
        }
    }
    Ok(members)
}

fn longer<'t>(best: Option<Port<'t>>, port: &Port<'t>) -> Port<'t>
    ensures { port_at result ≡ longer_port (option_map port_at best.entry) (port_at port.now) }
{
    match best {
        None => *port,
        Some(b) => {
            if b.connected.len() < port.connected.len() {
                *port
            } else {
                b
            }
        }
    }
}

/// The port with the longest prefix that holds the address, the first of equally long ones.
pub(crate) fn port_for<'t>(ports: &[Port<'t>], a: Addr) -> Option<Port<'t>>
    ensures { option_map port_at result ≡ plain.port_for (map port_at ports.now) a.0 }
{
    let mut best: Option<Port<'t>> = None;
    for port in ports {
        if port.connected.holds(a) {
            best = Some(longer(best, port));
        }
    }
    best
}
