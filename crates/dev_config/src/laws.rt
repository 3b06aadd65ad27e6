ghost use Rattle.std.specs.Prelude.{◌≡◌, ℕ, List, map};
ghost use Rattle.policy_model.specs.Policy.{Policy};
ghost use Rattle.policy_model.specs.Routes as routes;
ghost use Rattle.dev_config.specs.Seen.{route_of, port_entry, entries_of, looked_up};

use crate::setup::{Config, Port};

/// Where the ports are a router's interfaces in order, each at its network's own prefix, look-ups here are those of the policy's definitions.
pub fn look_ups_agree()
    ensures { (p : Policy) (r a : ℕ) (ports : List Port) (config : Config) → map port_entry ports ≡ routes.connected_entries p r →
        looked_up (entries_of ports config) a ≡ routes.lookup p r (map route_of config.routes.now) a }
{}
