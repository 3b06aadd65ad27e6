//! The rows of faults of routes.

ghost use Rattle.std.specs.Prelude.{[], ◌∷◌};
ghost use Rattle.policy_model.specs.Headline.{Meaning};
ghost use Rattle.fault_laws.specs.Cases.{IsFirstCase, first_of, routes_case};
ghost use Rattle.route_laws.specs.Cases.{bare_case, ambiguous_case};

/// A hop to an interface without an address, by the router, the network and that interface.
pub fn first_hop_without_address()
    ensures { (m : Meaning) → IsFirstCase m 13 13 (bare_case m) }
{}

/// Two hops of one router to one network, by the router, the network and the two hops.
pub fn first_ambiguous_hop()
    ensures { (m : Meaning) → IsFirstCase m 14 14 (ambiguous_case m) }
{}

/// The first fault of routes: too many, or else a hop without an address, or else an ambiguous one.
pub fn first_fault_of_routes()
    ensures { (m : Meaning) → IsFirstCase m 12 14 (first_of (routes_case m ∷ bare_case m ∷ ambiguous_case m ∷ [])) }
{}
