//! Each row of faults by itself.

ghost use Rattle.policy_model.specs.Headline.{Meaning};
ghost use Rattle.policy_model.specs.Zones.{IsSite};
ghost use Rattle.topology.specs.Sound.{IsSound};
ghost use Rattle.fault_laws.specs.Cases.{IsFirstCase, split_case, conflict_case, twice_case, inside_case, views_case, same_case, managed_case, permits_case, path_case, hidden_case, lines_case, routes_case};

/// A border whose zone isn't in its area, by the area and then by the interface.
pub fn first_split()
    ensures { (m : Meaning) → IsSound m.site.policy → IsFirstCase m 0 0 (split_case m) }
{}

/// A tag that is in force in a zone and must not be, by the zone and the tag.
pub fn first_conflict()
    ensures { (m : Meaning) → IsSound m.site.policy → IsFirstCase m 1 1 (conflict_case m) }
{}

/// A network that is translated twice in a zone, by the zone, the network and the two tags.
pub fn first_translated_twice()
    ensures { (m : Meaning) → IsSound m.site.policy → IsFirstCase m 2 2 (twice_case m) }
{}

/// A network that is translated in its own zone, by the network and the tag.
pub fn first_inside()
    ensures { (m : Meaning) → IsSound m.site.policy → IsFirstCase m 3 3 (inside_case m) }
{}

/// More views differ than may.
pub fn views_past_the_limit()
    ensures { (m : Meaning) → IsFirstCase m 4 4 (views_case m) }
{}

/// Two networks with one prefix in a view, by the view's place and the two networks.
pub fn first_same_prefix()
    ensures { (m : Meaning) → IsFirstCase m 5 5 (same_case m) }
{}

/// A managed router's interface as an end of a rule, by the service and the interface.
pub fn first_managed_end()
    ensures { (m : Meaning) → IsSound m.site.policy → IsFirstCase m 7 7 (managed_case m) }
{}

/// More permits than may be.
pub fn permits_past_the_limit()
    ensures { (m : Meaning) → IsFirstCase m 8 8 (permits_case m) }
{}

/// A permit that no allowed walk carries, by its two networks.
pub fn first_without_path()
    ensures { (m : Meaning) → IsSound m.site.policy → IsSite m.site → IsFirstCase m 9 9 (path_case m) }
{}

/// An end of a permit that is hidden in a zone of an allowed walk, by the permit and the zone, and the source first.
pub fn first_hidden_end()
    ensures { (m : Meaning) → IsFirstCase m 10 10 (hidden_case m) }
{}

/// More lines than may be.
pub fn lines_past_the_limit()
    ensures { (m : Meaning) → IsFirstCase m 11 11 (lines_case m) }
{}

/// More routes than may be.
pub fn routes_past_the_limit()
    ensures { (m : Meaning) → IsFirstCase m 12 12 (routes_case m) }
{}
