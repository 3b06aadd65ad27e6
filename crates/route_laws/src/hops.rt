//! Next hops by marks.

ghost use Rattle.std.specs.Prelude.{◌≡◌, ℕ, List};
ghost use Rattle.policy_model.specs.Zones.{Site};
ghost use Rattle.policy_model.specs.Permits.{Permit};
ghost use Rattle.policy_model.specs.Routes.{NextHop, hops_of};
ghost use Rattle.policy_model.specs.FirstFault.{has_hop};
ghost use Rattle.route_laws.specs.Marked.{marked_hops};

/// The next hops that the marks of walks give are those of the walks: the same ones, in whatever
/// order and however often.
pub fn marks_give_hops()
    ensures { (s : Site) (permits : List Permit) (r v : ℕ) (h : NextHop) → has_hop (hops_of s permits r v) h ≡ has_hop (marked_hops s permits r v) h }
{}
