ghost use Rattle.std.specs.Prelude.{◌≡◌, ◌&&◌, List, ℕ};
ghost use Rattle.std.specs.List.{list_any};
ghost use Rattle.policy_model.specs.Zones.{Site};
ghost use Rattle.policy_model.specs.Tags.{Views};
ghost use Rattle.policy_model.specs.Permits.{Permit};
ghost use Rattle.policy_model.specs.Blocks.{NetPair, view_here, pair_lines, reaches_into, encloses, is_closed, pairs_on_path};
ghost use Rattle.closed_pairs.specs.Reaching.{permits_here, lines_between, reaches_pair, encloses_in};

/// With the numbers of the permits that two pairs have at an interface, in the view there: the test
/// is whether a line of the outer pair reaches into the inner one; the pairs inside a pair are those
/// that it encloses; and a pair is closed exactly where some pair on path that encloses it has such
/// a line.
pub fn closed_as_defined()
    ensures reaching { (s : Site) (v : Views) (permits : List Permit) (i : ℕ) (outer inner : NetPair) → list_any (reaches_pair s.policy (view_here s v permits i) permits (permits_here s.policy permits i inner)) (lines_between s.policy (view_here s v permits i) permits (permits_here s.policy permits i outer)) ≡ list_any (reaches_into s v permits i inner) (pair_lines s v permits i outer) }
    ensures inside { (s : Site) (v : Views) (permits : List Permit) (i : ℕ) (outer inner : NetPair) → encloses_in s.policy (view_here s v permits i) outer inner ≡ encloses s v permits i outer inner }
    ensures closed { (s : Site) (v : Views) (permits : List Permit) (i : ℕ) (inner : NetPair) → is_closed s v permits i inner ≡ list_any (λ outer. encloses_in s.policy (view_here s v permits i) outer inner && list_any (reaches_pair s.policy (view_here s v permits i) permits (permits_here s.policy permits i inner)) (lines_between s.policy (view_here s v permits i) permits (permits_here s.policy permits i outer))) (pairs_on_path s i) }
{}
