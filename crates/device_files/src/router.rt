ghost use Rattle.std.specs.Prelude.{◌≡◌, ◌<◌, ◌+◌, [], length, map, sum_by, slice_index_or, IfOk};
ghost use Rattle.policy_model.specs.Policy.{router_of, is_managed};
ghost use Rattle.policy_model.specs.Tags.{ifaces_of};
ghost use Rattle.acl_print.specs.Seen.{port_seen};
ghost use Rattle.dev_config.specs.Seen.{lines_of};
ghost use Rattle.topology.specs.View.{policy_of};
ghost use Rattle.policy_model.specs.Blocks.{is_grouped_at};
ghost use Rattle.policy_outcome.specs.Files.{dialect_of, port_of, as_written};

use bumpalo::Bump;
use dev_config::{List, Port};
use local_optimise::optimise;
use object_groups::group;
use spoc_base::{Dialect, IfId, Named, NoMemory, RouterId};
use std::alloc::Global;
use topology::Topo;

/// What a router runs; IOS where it isn't managed.
pub(crate) fn dialect(topo: Topo<'_>, r: RouterId) -> Dialect
    requires { r.0 < length (policy_of topo).routers }
    ensures { result ≡ dialect_of (router_of (policy_of topo.entry) r.0).device }
{
    match topo.router(r).device {
        None => Dialect::Ios,
        Some(device) => device.dialect,
    }
}

/// The name of a router.
pub(crate) fn name<'a>(topo: Topo<'a>, r: RouterId) -> &'a [u8]
    requires { r.0 < length (policy_of topo).routers }
    ensures { result.now ≡ (router_of (policy_of topo.entry) r.0).name }
{
    match topo.router(r).name {
        Named::Plain(_, span) => topo.text(span),
        Named::Iface(_, _) => b"",
    }
}

// An interface as a port of its device.
fn port<'a>(topo: Topo<'a>, i: IfId) -> Port<'a>
    requires { i.0 < length (policy_of topo).ifaces }
    ensures { port_seen result ≡ port_of (policy_of topo.entry) i.0 }
{
    let iface = topo.iface(i);
    Port {
        iface: i,
        hardware: topo.text(iface.hardware),
        connected: topo.net(iface.net).own,
    }
}

/// The ports of a router, in order.
pub(crate) fn ports<'a>(
    alloc: Global,
    topo: Topo<'a>,
    r: RouterId,
) -> Result<Vec<Port<'a>>, NoMemory>
    requires { r.0 < length (policy_of topo).routers }
    ensures { IfOk result (λ ports. map port_seen ports.items ≡ map (port_of (policy_of topo.entry)) (ifaces_of (policy_of topo.entry) r.0)) }
{
    let mut found = Vec::new(alloc);
    let row = topo.ifs_of(r);
    for i in row {
        let port = port(topo, *i);
        let Ok(()) = found.push(port) else {
            return Err(NoMemory);
        };
    }
    Ok(found)
}

// The list of an interface.
fn list_at<'s>(lists: &[List<'s>], i: IfId) -> List<'s>
    requires { i.0 < length lists.now }
    ensures { lines_of result ≡ slice_index_or (map lines_of lists.now) i.0 [] }
{
    lists[i.0 as usize]
}

// Whether neighbouring lines of the list of an interface are joined.
fn is_grouped(topo: Topo<'_>, i: IfId) -> bool
    requires { i.0 < length (policy_of topo).ifaces }
    ensures { result ≡ is_grouped_at (policy_of topo.entry) i.0 }
{
    match topo.router(topo.iface(i).router).device {
        None => false,
        Some(device) => device.dialect.is_grouped(),
    }
}

// The list of an interface as it is written.
fn written<'s>(
    alloc: Global,
    scratch: &'s Bump,
    topo: Topo<'_>,
    list: &List<'s>,
    i: IfId,
) -> Result<List<'s>, NoMemory>
    requires { i.0 < length (policy_of topo).ifaces }
    ensures { IfOk result (λ new. lines_of new ≡ as_written (policy_of topo.entry) i.0 (lines_of list.now)) }
{
    let short = optimise(alloc, scratch, list)?;
    if is_grouped(topo, i) {
        return group(alloc, scratch, &short);
    }
    Ok(short)
}

/// The lists of a router's interfaces as they are written, in order.
pub(crate) fn lists_of<'s>(
    alloc: Global,
    scratch: &'s Bump,
    topo: Topo<'_>,
    lists: &[List<'s>],
    r: RouterId,
) -> Result<Vec<List<'s>>, NoMemory>
    requires there { r.0 < length (policy_of topo).routers }
    requires each { length lists.now ≡ length (policy_of topo).ifaces }
    ensures { IfOk result (λ found. map lines_of found.items ≡ map (λ i. as_written (policy_of topo.entry) i (slice_index_or (map lines_of lists.now) i [])) (ifaces_of (policy_of topo.entry) r.0)) }
{
    let mut found = Vec::new(alloc);
    let row = topo.ifs_of(r);
    for i in row {
        let list = written(alloc, scratch, topo, &list_at(lists, *i), *i)?;
        let Ok(()) = found.push(list) else {
            return Err(NoMemory);
        };
    }
    Ok(found)
}

/// How many lines some lists have. A count past 2^64 - 1 is answered as want of memory.
pub(crate) fn count(lists: &[List<'_>]) -> Result<u64, NoMemory>
    ensures { IfOk result (λ total. total ≡ sum_by length (map lines_of lists.now)) }
{
    let mut total: u64 = 0;
    for list in lists {
        total = sum(total, list)?;
    }
    Ok(total)
}

// The count with the lines of one list more.
fn sum(total: u64, list: &List<'_>) -> Result<u64, NoMemory>
    ensures { IfOk result (λ sum. sum ≡ total + length (lines_of list.now)) }
{
    match total.checked_add(list.lines.len() as u64) {
        Some(sum) => Ok(sum),
        None => Err(NoMemory),
    }
}

/// Whether a router is managed.
pub(crate) fn is_managed(topo: Topo<'_>, r: RouterId) -> bool
    requires { r.0 < length (policy_of topo).routers }
    ensures { result ≡ is_managed (policy_of topo.entry) r.0 }
{
    topo.router(r).device.is_some()
}

/// How many routers there are.
pub(crate) fn router_count(topo: Topo<'_>) -> u32
    ensures { result ≡ length (policy_of topo.entry).routers }
{
    topo.routers().len() as u32
}
