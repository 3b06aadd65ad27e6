ghost use Rattle.std.specs.Prelude.{◌≡◌, IfOk, map, length};
ghost use Rattle.dev_config.specs.Seen.{config_of};
ghost use Rattle.acl_print.specs.Seen.{port_seen};
ghost use Rattle.acl_print.specs.DeviceText.{device_text};

use crate::asa::put_asa;
use crate::ios::put_ios;
use dev_config::{Config, Port};
use spoc_base::{Dialect, NoMemory, Text};
use std::alloc::Global;

/// The text of a device's file: its name, its routes, a list for each of its ports, and the bindings of the lists to the ports. Ports and lists stand in
/// one order.
pub fn print(
    alloc: Global,
    dialect: Dialect,
    name: &[u8],
    ports: &[Port<'_>],
    config: &Config<'_>,
) -> Result<Text, NoMemory>
    requires lists { length config.now.lists.now ≡ length ports.now }
    ensures { IfOk result (λ text. text ≡ device_text dialect name.now (map port_seen ports.now) (config_of config.now)) }
{
    let mut out = Vec::new(alloc);
    match dialect {
        Dialect::Ios => put_ios(&mut out, alloc, name, ports, config)?,
        Dialect::Asa => put_asa(&mut out, alloc, name, ports, config)?,
    }
    Text::of(alloc, out.as_slice())
}
