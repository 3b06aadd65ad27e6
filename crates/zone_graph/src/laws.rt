//! Laws of the zones of a policy. The functions here do nothing: each has a law as its contract.

ghost use Rattle.std.specs.Prelude.{◌≡◌, length};
ghost use Rattle.policy_model.specs.Policy.{Policy};
ghost use Rattle.policy_model.specs.Zones.{zone_count};
ghost use Rattle.zone_graph.specs.Grouped.{Graph, IsGraphOf};

/// A policy has as many zones as its graph has rows.
pub fn zones_are_counted()
    ensures { (p : Policy) (g : Graph) → IsGraphOf p g → zone_count (record { policy = p; zones = g.zones }) ≡ length g.nets }
{}
