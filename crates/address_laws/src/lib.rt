//! That addresses of hosts and interfaces are unambiguous in a policy without faults: in each view they lie at their own network, so that what the main
//! theorem says of unambiguous packets holds for all packets between them.
//! The functions here do nothing: each has a law as its contract.
#![tactic(auto)]

ghost use Rattle.std.specs.Prelude.{◌≡◌, Ok, is_some, IsTrue};
ghost use Rattle.policy_model.specs.FirstFault.{ViewPlace, view_at, is_there};
ghost use Rattle.policy_model.specs.Headline.{Meaning, IsMeaning, is_to_pass};
ghost use Rattle.policy_model.specs.Packets.{is_unambiguous_point, is_packet, is_unambiguous};
ghost use Rattle.policy_model.specs.Places.{prefix_in};
ghost use Rattle.policy_model.specs.Permits.{Point, Packet};
ghost use Rattle.policy_model.specs.Policy.{Policy};
ghost use Rattle.policy_laws.specs.Shaped.{IsShaped};
ghost use Rattle.topology.specs.First.{HasNone};
ghost use Rattle.topology.specs.Sound.{IsSound};
ghost use Rattle.meaning_laws.specs.Tables.{meaning_of};
ghost use Rattle.policy_outcome.specs.Outcome.{Written, outcome_for};
ghost use Rattle.address_laws.specs.Held.{IsHeld, is_seen_on_walks};

/// Where no address of a host or an interface lies at another network, each lies at its own one in the view of each zone and each router that doesn't hide it.
pub fn held_addresses_lie_at_their_networks()
    ensures { (m : Meaning) → IsSound m.site.policy → IsShaped m.site.policy → HasNone m 6 6 →
        (at : ViewPlace) → IsTrue (is_there m.site at) → (e : Point) → IsHeld m.site.policy e → IsTrue (is_some (prefix_in m.site.policy (view_at m.views at) e.net)) →
        IsTrue (is_unambiguous_point m.site.policy (view_at m.views at) e) }
{}

/// In a policy that is accepted, two addresses of hosts or interfaces are the ends of a packet, and that is unambiguous on every allowed walk between
/// their zones, unless a view that a walk meets hides one of them.
pub fn packets_between_held_addresses_are_unambiguous()
    ensures { (p : Policy) (written : Written) → IsSound p → IsShaped p → outcome_for (meaning_of p) ≡ Ok written →
        (x : Packet) → IsHeld p x.src → IsHeld p x.dst →
        IsTrue (is_packet (meaning_of p).site (meaning_of p).views x) ×
        (IsTrue (is_seen_on_walks (meaning_of p).site (meaning_of p).views x) → IsTrue (is_unambiguous (meaning_of p).site (meaning_of p).views x)) }
{}

/// In a policy without faults of tags and views and without hidden ends, a packet between two addresses of hosts or interfaces that is to pass, as one that is
/// permitted or as a reply, is unambiguous on every allowed walk between its zones: no view that a walk meets hides an end of it.
pub fn packets_to_pass_are_unambiguous()
    ensures { (p : Policy) (m : Meaning) → IsMeaning p m → IsSound p → IsShaped p → HasNone m 1 3 → HasNone m 4 6 → HasNone m 10 10 →
        (x : Packet) → IsHeld p x.src → IsHeld p x.dst → IsTrue (is_to_pass m x) →
        IsTrue (is_packet m.site m.views x) × IsTrue (is_unambiguous m.site m.views x) }
{}

/// So in a policy that is accepted such packets are unambiguous.
pub fn accepted_packets_are_unambiguous()
    ensures { (p : Policy) (written : Written) → outcome_for (meaning_of p) ≡ Ok written → IsSound p → IsShaped p →
        (x : Packet) → IsHeld p x.src → IsHeld p x.dst → IsTrue (is_to_pass (meaning_of p) x) → IsTrue (is_unambiguous (meaning_of p).site (meaning_of p).views x) }
{}
