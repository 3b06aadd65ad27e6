ghost use Rattle.std.specs.Prelude.{◌≡◌, ◌++◌, IfOk, map, flat_map, length};
ghost use Rattle.dev_config.specs.Seen.{line_of, lines_of, route_of, config_of};
ghost use Rattle.acl_print.specs.Seen.{port_seen, member_seen};
ghost use Rattle.acl_print.specs.Groups.{addresses_text, member_text, group_text, groups_text};
ghost use Rattle.acl_print.specs.DeviceText.{hardware_of, each_list, asa_route_text, asa_line_text, asa_list_text, asa_binding_text, asa_text};

use crate::entry::{put_entry, put_group_name};
use crate::groups::{Groups, Member};
use crate::word::{put, put_address, put_host, put_list_name, put_network};
use dev_config::{Config, Line, List, Port, Route};
use spoc_base::{Dialect, IfId, NoMemory};
use std::alloc::Global;

// The hardware of the first port with this number, and nothing where there is none.
fn hardware_of<'p>(ports: &[Port<'p>], number: IfId) -> &'p [u8]
    ensures { result.now ≡ hardware_of (map port_seen ports.now) number.0 }
{
    for port in ports {
        if port.iface == number {
            return port.hardware;
        }
    }
    b""
}

fn put_route(out: &mut Vec<u8>, ports: &[Port<'_>], route: &Route) -> Result<(), NoMemory>
    ensures { IfOk result (λ _. out.new.items ≡ out.old.items ++ asa_route_text (map port_seen ports.now) (route_of route.now)) }
{
    put(out, b"route ")?;
    put(out, hardware_of(ports, route.out))?;
    put(out, b" ")?;
    put_network(out, route.net.net(), route.net.len())?;
    put(out, b" ")?;
    put_address(out, route.gateway)?;
    put(out, b"\n")?;
    Ok(())
}

fn put_routes(out: &mut Vec<u8>, ports: &[Port<'_>], routes: &[Route]) -> Result<(), NoMemory>
    ensures { IfOk result (λ _. out.new.items ≡ out.old.items ++ flat_map (asa_route_text (map port_seen ports.now)) (map route_of routes.now)) }
{
    for route in routes {
        put_route(out, ports, route)?;
    }
    Ok(())
}

fn put_member(out: &mut Vec<u8>, member: &Member) -> Result<(), NoMemory>
    ensures { IfOk result (λ _. out.new.items ≡ out.old.items ++ member_text (member_seen member.now)) }
{
    put(out, b" network-object ")?;
    put_addresses(out, member)?;
    put(out, b"\n")?;
    Ok(())
}

fn put_addresses(out: &mut Vec<u8>, member: &Member) -> Result<(), NoMemory>
    ensures { IfOk result (λ _. out.new.items ≡ out.old.items ++ addresses_text (member_seen member.now)) }
{
    if member.len == 32 {
        return put_host(out, member.net);
    }
    put_network(out, member.net, member.len)
}

fn put_group(out: &mut Vec<u8>, k: usize, members: &[Member]) -> Result<(), NoMemory>
    ensures { IfOk result (λ _. out.new.items ≡ out.old.items ++ group_text k (map member_seen members.now)) }
{
    put(out, b"object-group network ")?;
    put_group_name(out, k)?;
    put(out, b"\n")?;
    put_members(out, members)?;
    Ok(())
}

fn put_members(out: &mut Vec<u8>, members: &[Member]) -> Result<(), NoMemory>
    ensures { IfOk result (λ _. out.new.items ≡ out.old.items ++ flat_map member_text (map member_seen members.now)) }
{
    for member in members {
        put_member(out, member)?;
    }
    Ok(())
}

fn put_groups(out: &mut Vec<u8>, groups: &[Vec<Member>]) -> Result<(), NoMemory>
    ensures { IfOk result (λ _. out.new.items ≡ out.old.items ++ groups_text 0 (map (λ g. map member_seen g.items) groups.now)) }
{
    for (k, members) in groups.iter().enumerate() {
        put_group(out, k, members.as_slice())?;
    }
    Ok(())
}

fn put_line(
    out: &mut Vec<u8>,
    groups: &Groups,
    port: &Port<'_>,
    line: &Line<'_>,
) -> Result<(), NoMemory>
    ensures { IfOk result (λ _. out.new.items ≡ out.old.items ++ asa_line_text groups.now (port_seen port.now) (line_of line.now)) }
{
    put(out, b"access-list ")?;
    put_list_name(out, port.hardware)?;
    put(out, b" extended ")?;
    put_entry(out, Dialect::Asa, groups, line)?;
    put(out, b"\n")?;
    Ok(())
}

fn put_list(
    out: &mut Vec<u8>,
    groups: &Groups,
    port: &Port<'_>,
    list: &List<'_>,
) -> Result<(), NoMemory>
    ensures { IfOk result (λ _. out.new.items ≡ out.old.items ++ asa_list_text groups.now (port_seen port.now) (lines_of list.now)) }
{
    for line in list.lines {
        put_line(out, groups, port, line)?;
    }
    Ok(())
}

fn put_lists(
    out: &mut Vec<u8>,
    groups: &Groups,
    ports: &[Port<'_>],
    lists: &[List<'_>],
) -> Result<(), NoMemory>
    requires lists { length lists.now ≡ length ports.now }
    ensures { IfOk result (λ _. out.new.items ≡ out.old.items ++ each_list (asa_list_text groups.now) (map port_seen ports.now) (map lines_of lists.now)) }
{
    for (k, port) in ports.iter().enumerate() {
        put_list(out, groups, port, &lists[k])?;
    }
    Ok(())
}

fn put_binding(out: &mut Vec<u8>, port: &Port<'_>) -> Result<(), NoMemory>
    ensures { IfOk result (λ _. out.new.items ≡ out.old.items ++ asa_binding_text (port_seen port.now)) }
{
    put(out, b"access-group ")?;
    put_list_name(out, port.hardware)?;
    put(out, b" in interface ")?;
    put(out, port.hardware)?;
    put(out, b"\n")?;
    Ok(())
}

fn put_bindings(out: &mut Vec<u8>, ports: &[Port<'_>]) -> Result<(), NoMemory>
    ensures { IfOk result (λ _. out.new.items ≡ out.old.items ++ flat_map asa_binding_text (map port_seen ports.now)) }
{
    for port in ports {
        put_binding(out, port)?;
    }
    Ok(())
}

/// The file of an ASA device.
pub(crate) fn put_asa(
    out: &mut Vec<u8>,
    alloc: Global,
    name: &[u8],
    ports: &[Port<'_>],
    config: &Config<'_>,
) -> Result<(), NoMemory>
    requires lists { length config.now.lists.now ≡ length ports.now }
    ensures { IfOk result (λ _. out.new.items ≡ out.old.items ++ asa_text name.now (map port_seen ports.now) (config_of config.now)) }
{
    let groups = Groups::of(alloc, config.lists)?;
    put(out, b"! ")?;
    put(out, name)?;
    put(out, b" ASA\n")?;
    put_routes(out, ports, config.routes)?;
    put_groups(out, groups.lists())?;
    put_lists(out, &groups, ports, config.lists)?;
    put_bindings(out, ports)?;
    Ok(())
}
