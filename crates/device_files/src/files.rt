ghost use Rattle.std.specs.Prelude.{◌≡◌, ◌<◌, ◌+◌, ◌++◌, [], ◌∷◌, length, map, sum_by, IfOk, OnOk};
ghost use Rattle.topology.specs.View.{policy_of};
ghost use Rattle.dev_config.specs.Seen.{lines_of};
ghost use Rattle.policy_outcome.specs.Files.{config_for, file_for, files_of, files_for, lines_in, line_total, managed_in};
ghost use Rattle.device_files.specs.Seen.{file_of};

use crate::router::{count, dialect, is_managed, lists_of, name, ports, router_count};
use acl_print::print;
use bumpalo::Bump;
use dev_config::{Config, List};
use spoc_base::{NoMemory, RouterId, Row, Text};
use std::alloc::Global;
use topology::Topo;

/// A configuration: the name of its router, and the text.
#[derive(Debug, Drop)]
pub struct DeviceFile {
    pub name: Text,
    pub bytes: Text,
}

/// The files of managed routers, in the order of the routers, and how many lines their lists have as
/// they are written.
#[derive(Debug, Drop)]
pub struct DeviceFiles {
    pub files: Row<DeviceFile>,
    pub lines: u64,
}

// The file of a router with these lists, and how many lines they have.
fn file<'s>(
    alloc: Global,
    scratch: &'s Bump,
    topo: Topo<'_>,
    lists: &[List<'s>],
    r: RouterId,
) -> Result<(DeviceFile, u64), NoMemory>
    requires there { r.0 < length (policy_of topo).routers }
    requires each { length lists.now ≡ length (policy_of topo).ifaces }
    ensures file { IfOk result (λ made. file_of made.0 ≡ file_for (policy_of topo.entry) r.0 (config_for (policy_of topo.entry) (map lines_of lists.now) r.0)) }
    ensures lines { IfOk result (λ made. made.1 ≡ lines_in (config_for (policy_of topo.entry) (map lines_of lists.now) r.0)) }
{
    let ports = ports(alloc, topo, r)?;
    let own = lists_of(alloc, scratch, topo, lists, r)?;
    let lines = count(&own)?;
    let config = Config {
        lists: &own,
        routes: &[],
    };
    let bytes = print(alloc, dialect(topo, r), name(topo, r), &ports, &config)?;
    let name = Text::of(alloc, name(topo, r))?;
    Ok((DeviceFile { name, bytes }, lines))
}

// Adds the file of a router, where it is managed.
fn add_file<'s>(
    alloc: Global,
    scratch: &'s Bump,
    topo: Topo<'_>,
    lists: &[List<'s>],
    r: RouterId,
    files: &mut Vec<DeviceFile>,
    total: &mut u64,
) -> Result<(), NoMemory>
    requires there { r.0 < length (policy_of topo).routers }
    requires each { length lists.now ≡ length (policy_of topo).ifaces }
    ensures files { OnOk result (map file_of files.new.items ≡ map file_of files.old.items ++ files_of (policy_of topo.entry) (map lines_of lists.now) (managed_in (policy_of topo.entry) (r.0 ∷ []))) }
    ensures lines { OnOk result (total.new ≡ total.old + sum_by (λ k. lines_in (config_for (policy_of topo.entry) (map lines_of lists.now) k)) (managed_in (policy_of topo.entry) (r.0 ∷ []))) }
{
    if !is_managed(topo, r) {
        return Ok(());
    }
    let (file, lines) = file(alloc, scratch, topo, lists, r)?;
    let Some(sum) = total.checked_add(lines) else {
        return Err(NoMemory);
    };
    files.push(file)?;
    *total = sum;
    Ok(())
}

/// The file of each managed router, in the order of the routers. `lists` has the access list of
/// each interface, by number; those of routers that aren't managed are not looked at. A list is
/// written without needless lines, and on an ASA with neighbouring lines joined and their ends
/// grouped. Shortened lists lie in `scratch`. Routes are not written yet.
pub fn device_files<'s>(
    alloc: Global,
    scratch: &'s Bump,
    topo: Topo<'_>,
    lists: &[List<'s>],
) -> Result<DeviceFiles, NoMemory>
    requires each { length lists.now ≡ length (policy_of topo).ifaces }
    ensures files { IfOk result (λ made. map file_of made.files ≡ files_for (policy_of topo.entry) (map lines_of lists.now)) }
    ensures lines { IfOk result (λ made. made.lines ≡ line_total (policy_of topo.entry) (map lines_of lists.now)) }
{
    let mut files = Vec::new(alloc);
    let mut lines = 0;
    for r in 0..router_count(topo) {
        add_file(
            alloc,
            scratch,
            topo,
            lists,
            RouterId(r),
            &mut files,
            &mut lines,
        )?;
    }
    Ok(DeviceFiles {
        files: Row::of(files),
        lines,
    })
}
