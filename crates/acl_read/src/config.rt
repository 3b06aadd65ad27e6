ghost use Rattle.std.specs.Prelude.{◌≡◌, ◌∷◌, [], map, flat_map, IfOk};
ghost use Rattle.spoc_base.specs.Shown.{cidr_of};
ghost use Rattle.dev_config.specs.Seen as seen;
ghost use Rattle.device_reading.specs.Facts as facts;
ghost use Rattle.device_reading.specs.Reading as plain;
ghost use Rattle.acl_read.specs.Seen.{port_at, end_seen, entry_seen, fact_seen, every_bound};

use crate::above::binds_port;
use crate::fact::{End, Entry, Fact};
use bumpalo::Bump;
use bumpalo::collections::into_bump_slice;
use dev_config::{Config, Line, List, Port, Route};
use spoc_base::{NoMemory, Prefix};
use std::alloc::Global;

fn prefixes<'t>(scratch: &'t Bump, end: &End<'t>) -> Result<&'t [Prefix], NoMemory>
    ensures { IfOk result (λ prefixes. map cidr_of prefixes.now ≡ facts.prefixes_of (end_seen end.now)) }
{
    match end {
        End::Prefix(p) => Ok(scratch.try_alloc_slice_copy(&[*p])?),
        End::Group(_, members) => Ok(members),
    }
}

fn line<'t>(scratch: &'t Bump, entry: &Entry<'t>) -> Result<Line<'t>, NoMemory>
    ensures { IfOk result (λ line. seen.line_of line ≡ facts.line_of (entry_seen entry.now)) }
{
    let src = prefixes(scratch, &entry.src)?;
    let dst = prefixes(scratch, &entry.dst)?;
    Ok(Line {
        permit: entry.permit,
        src,
        dst,
        t: entry.t,
    })
}

// The lines of a list, in order.
fn entries_of<'t>(
    alloc: Global,
    scratch: &'t Bump,
    all: &[Fact<'t>],
    name: &[u8],
) -> Result<Vec<Line<'t>>, NoMemory>
    ensures { IfOk result (λ lines. map seen.line_of lines.items ≡ plain.entries_of (map fact_seen all.now) name.now) }
{
    let mut lines = Vec::new(alloc);
    for fact in all {
        if let Fact::HasEntry { list, entry } = fact
            && *list == name
        {
            let line = line(scratch, entry)?;
            let Ok(()) = lines.push(line) else {
                return Err(NoMemory);
            };
        }
    }
    Ok(lines)
}

// The lines of the list that this line gives to the hardware, where it gives one.
fn bound_entries<'t>(
    alloc: Global,
    scratch: &'t Bump,
    all: &[Fact<'t>],
    hardware: &[u8],
    fact: &Fact<'t>,
) -> Result<Vec<Line<'t>>, NoMemory>
    ensures { IfOk result (λ lines. map seen.line_of lines.items ≡ plain.bound_entries (map fact_seen all.now) hardware.now (fact_seen fact.now)) }
{
    match fact {
        Fact::Binds { hardware: h, list } if *h == hardware => {
            entries_of(alloc, scratch, all, list)
        }
        _ => Ok(Vec::new(alloc)),
    }
}

// The lines of the list that a port has.
fn entries_at<'t>(
    alloc: Global,
    scratch: &'t Bump,
    all: &[Fact<'t>],
    port: &Port<'t>,
) -> Result<Vec<Line<'t>>, NoMemory>
    ensures { IfOk result (λ lines. map seen.line_of lines.items ≡ plain.entries_at (map fact_seen all.now) (port_at port.now)) }
{
    let mut lines = Vec::new(alloc);
    for fact in all {
        let more = bound_entries(alloc, scratch, all, port.hardware, fact)?;
        let Ok(()) = lines.extend_from_slice(&more) else {
            return Err(NoMemory);
        };
    }
    Ok(lines)
}

fn list_at<'t>(
    alloc: Global,
    scratch: &'t Bump,
    all: &[Fact<'t>],
    port: &Port<'t>,
) -> Result<List<'t>, NoMemory>
    ensures { IfOk result (λ list. seen.lines_of list ≡ plain.entries_at (map fact_seen all.now) (port_at port.now)) }
{
    let lines = entries_at(alloc, scratch, all, port)?;
    let lines = scratch.try_alloc_slice_copy(&lines)?;
    Ok(List { lines })
}

fn lists<'t>(
    alloc: Global,
    scratch: &'t Bump,
    all: &[Fact<'t>],
    ports: &[Port<'t>],
) -> Result<Vec<List<'t>, &'t Bump>, NoMemory>
    ensures { IfOk result (λ lists. map seen.lines_of lists.items ≡ map (plain.entries_at (map fact_seen all.now)) (map port_at ports.now)) }
{
    let mut lists = Vec::new(scratch);
    for port in ports {
        let list = list_at(alloc, scratch, all, port)?;
        let Ok(()) = lists.push(list) else {
            return Err(NoMemory);
        };
    }
    Ok(lists)
}

fn routes(alloc: Global, all: &[Fact<'_>]) -> Result<Vec<Route>, NoMemory>
    ensures { IfOk result (λ routes. map seen.route_of routes.items ≡ flat_map plain.route_in (map fact_seen all.now)) }
{
    let mut routes = Vec::new(alloc);
    for fact in all {
        if let Fact::Sends { port, net, gateway } = fact {
            let route = Route {
                net: *net,
                gateway: *gateway,
                out: port.iface,
            };
            let Ok(()) = routes.push(route) else {
                return Err(NoMemory);
            };
        }
    }
    Ok(routes)
}

fn kept_routes<'t>(scratch: &'t Bump, routes: &[Route]) -> Result<&'t [Route], NoMemory>
    ensures { IfOk result (λ kept. kept.now ≡ routes.now) }
{
    Ok(scratch.try_alloc_slice_copy(routes)?)
}

/// What the lines say: for each port the entries of its list, and the routes, both in the order of the lines. An error comes from want of memory alone.
pub(crate) fn config<'t>(
    alloc: Global,
    scratch: &'t Bump,
    all: &[Fact<'t>],
    ports: &[Port<'t>],
) -> Result<Config<'t>, NoMemory>
    ensures { IfOk result (λ config. seen.config_of config ≡ plain.config_of (map port_at ports.now) (map fact_seen all.now)) }
{
    let lists = lists(alloc, scratch, all, ports)?;
    let routes = routes(alloc, all)?;
    let lists = into_bump_slice(lists);
    let routes = kept_routes(scratch, &routes)?;
    Ok(Config { lists, routes })
}

/// Whether each port has a list.
pub(crate) fn are_bound(all: &[Fact<'_>], ports: &[Port<'_>]) -> bool
    ensures { result ≡ every_bound (map port_at ports.now) (map fact_seen all.now) }
{
    for port in ports {
        if !binds_port(port.hardware, all) {
            return false;
        }
    }
    true
}
