ghost use Rattle.std.specs.Prelude.{◌≡◌, ◌++◌, [], IfOk, map, flat_map, length};
ghost use Rattle.dev_config.specs.Seen.{line_of, lines_of, route_of, config_of};
ghost use Rattle.acl_print.specs.Seen.{port_seen};
ghost use Rattle.acl_print.specs.DeviceText.{ios_route_text, ios_line_text, ios_list_text, each_list, ios_binding_text, ios_text};

use crate::entry::put_entry;
use crate::groups::Groups;
use crate::word::{put, put_address, put_list_name, put_network};
use dev_config::{Config, Line, List, Port, Route};
use spoc_base::{Dialect, NoMemory};
use std::alloc::Global;

fn put_route(out: &mut Vec<u8>, route: &Route) -> Result<(), NoMemory>
    ensures { IfOk result (λ _. out.new.items ≡ out.old.items ++ ios_route_text (route_of route.now)) }
{
    put(out, b"ip route ")?;
    put_network(out, route.net.net(), route.net.len())?;
    put(out, b" ")?;
    put_address(out, route.gateway)?;
    put(out, b"\n")
}

fn put_routes(out: &mut Vec<u8>, routes: &[Route]) -> Result<(), NoMemory>
    ensures { IfOk result (λ _. out.new.items ≡ out.old.items ++ flat_map ios_route_text (map route_of routes.now)) }
{
    for route in routes {
        put_route(out, route)?;
    }
    Ok(())
}

fn put_line(out: &mut Vec<u8>, none: &Groups, line: &Line<'_>) -> Result<(), NoMemory>
    requires none { none.now ≡ [] }
    ensures { IfOk result (λ _. out.new.items ≡ out.old.items ++ ios_line_text (line_of line.now)) }
{
    put(out, b" ")?;
    put_entry(out, Dialect::Ios, none, line)?;
    put(out, b"\n")
}

fn put_lines(out: &mut Vec<u8>, none: &Groups, lines: &[Line<'_>]) -> Result<(), NoMemory>
    requires none { none.now ≡ [] }
    ensures { IfOk result (λ _. out.new.items ≡ out.old.items ++ flat_map ios_line_text (map line_of lines.now)) }
{
    for line in lines {
        put_line(out, none, line)?;
    }
    Ok(())
}

fn put_list(
    out: &mut Vec<u8>,
    none: &Groups,
    port: &Port<'_>,
    list: &List<'_>,
) -> Result<(), NoMemory>
    requires none { none.now ≡ [] }
    ensures { IfOk result (λ _. out.new.items ≡ out.old.items ++ ios_list_text (port_seen port.now) (lines_of list.now)) }
{
    put(out, b"ip access-list extended ")?;
    put_list_name(out, port.hardware)?;
    put(out, b"\n")?;
    put_lines(out, none, list.lines)?;
    Ok(())
}

fn put_lists(
    out: &mut Vec<u8>,
    none: &Groups,
    ports: &[Port<'_>],
    lists: &[List<'_>],
) -> Result<(), NoMemory>
    requires none { none.now ≡ [] }
    requires lists { length lists.now ≡ length ports.now }
    ensures { IfOk result (λ _. out.new.items ≡ out.old.items ++ each_list ios_list_text (map port_seen ports.now) (map lines_of lists.now)) }
{
    for (k, port) in ports.iter().enumerate() {
        put_list(out, none, port, &lists[k])?;
    }
    Ok(())
}

fn put_binding(out: &mut Vec<u8>, port: &Port<'_>) -> Result<(), NoMemory>
    ensures { IfOk result (λ _. out.new.items ≡ out.old.items ++ ios_binding_text (port_seen port.now)) }
{
    put(out, b"interface ")?;
    put(out, port.hardware)?;
    put(out, b"\n ip access-group ")?;
    put_list_name(out, port.hardware)?;
    put(out, b" in\n")
}

fn put_bindings(out: &mut Vec<u8>, ports: &[Port<'_>]) -> Result<(), NoMemory>
    ensures { IfOk result (λ _. out.new.items ≡ out.old.items ++ flat_map ios_binding_text (map port_seen ports.now)) }
{
    for port in ports {
        put_binding(out, port)?;
    }
    Ok(())
}

/// The file of an IOS device.
pub(crate) fn put_ios(
    out: &mut Vec<u8>,
    alloc: Global,
    name: &[u8],
    ports: &[Port<'_>],
    config: &Config<'_>,
) -> Result<(), NoMemory>
    requires lists { length config.now.lists.now ≡ length ports.now }
    ensures { IfOk result (λ _. out.new.items ≡ out.old.items ++ ios_text name.now (map port_seen ports.now) (config_of config.now)) }
{
    let none = Groups::none(alloc);
    put(out, b"! ")?;
    put(out, name)?;
    put(out, b" IOS\n")?;
    put_routes(out, config.routes)?;
    put_lists(out, &none, ports, config.lists)?;
    put_bindings(out, ports)?;
    Ok(())
}
