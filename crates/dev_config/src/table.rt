ghost use Rattle.std.specs.Prelude.{◌≡◌, option_map};
ghost use Rattle.dev_config.specs.Seen.{hop_of, found_entry, entries_of, better, looked_up};

use crate::setup::{Config, Hop, Port};
use spoc_base::{Addr, Prefix};

// An entry that holds the address.
#[derive(Clone, Copy)]
struct Found {
    prefix: Prefix,
    hop: Hop,
}

// The longer one of the entry found so far and one that holds the address too; the earlier one of equally long ones.
fn longer(best: Option<Found>, found: Found) -> Found
    ensures { found_entry result ≡ better (option_map found_entry best) (found_entry found) }
{
    match best {
        None => found,
        Some(b) => {
            if b.prefix.len() < found.prefix.len() {
                found
            } else {
                b
            }
        }
    }
}

/// Where the ports and the routes send the address: by the longest prefix among them that holds it. A port goes before a route of equal prefix, an
/// earlier port before a later one, an earlier route before a later one. `None` exactly where none holds the address.
pub fn lookup(config: &Config<'_>, ports: &[Port<'_>], dest: Addr) -> Option<Hop>
    ensures { option_map hop_of result ≡ looked_up (entries_of ports.now config.now) dest.0 }
{
    let mut best: Option<Found> = None;
    for port in ports {
        if port.connected.holds(dest) {
            let hop = Hop {
                out: port.iface,
                gateway: None,
            };
            best = Some(longer(
                best,
                Found {
                    prefix: port.connected,
                    hop,
                },
            ));
        }
    }
    for route in config.routes {
        if route.net.holds(dest) {
            let hop = Hop {
                out: route.out,
                gateway: Some(route.gateway),
            };
            best = Some(longer(
                best,
                Found {
                    prefix: route.net,
                    hop,
                },
            ));
        }
    }
    match best {
        None => None,
        Some(found) => Some(found.hop),
    }
}
