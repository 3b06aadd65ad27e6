//! Which address of a host or an interface is the first that lies at another network, as a function of a policy's meaning: `specs/Shadows` finds what
//! `IsFirstWithin` tells of this row of faults, and nothing just where `HasNone` says that the row has none. With it the faults of views are one row after
//! another, and where tags and views have no fault, prefixes are distinct.
//! The functions here do nothing: each has a law as its contract.
#![tactic(auto)]

ghost use Rattle.std.specs.Prelude.{[], ◌∷◌};
ghost use Rattle.policy_model.specs.Policy.{Policy};
ghost use Rattle.policy_model.specs.Headline.{Meaning, IsMeaning};
ghost use Rattle.policy_laws.specs.Shaped.{HasDistinctPrefixes};
ghost use Rattle.topology.specs.First.{HasNone};
ghost use Rattle.topology.specs.Sound.{IsSound};
ghost use Rattle.fault_laws.specs.Cases.{IsFirstCase, first_of, views_case, same_case};
ghost use Rattle.shadow_laws.specs.Shadows.{shadow_case};

/// An address of a host or an interface that lies at another network, by the view, the host or interface, and the network.
pub fn first_shadowed()
    ensures { (m : Meaning) → IsFirstCase m 6 6 (shadow_case m) }
{}

/// The first fault of views: too many that differ, or else two networks with one prefix, or else an address at another network.
pub fn first_fault_of_views()
    ensures { (m : Meaning) → IsFirstCase m 4 6 (first_of (views_case m ∷ same_case m ∷ shadow_case m ∷ [])) }
{}

/// Without a fault of tags and views, no two networks have one prefix where an interface stands, and none is translated in its own zone.
pub fn views_without_fault_are_distinct()
    ensures { (p : Policy) (m : Meaning) → IsMeaning p m → IsSound p → HasNone m 1 3 → HasNone m 4 6 → HasDistinctPrefixes m.site m.views }
{}
