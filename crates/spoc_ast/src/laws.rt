//! What contracts see of a tree, by the slices of its nodes.
ghost use Rattle.std.specs.Prelude.{◌≡◌, map};
ghost use Rattle.spoc_ast.specs.declared.set.SetTree.{SetTree, out-SetTree};
ghost use Rattle.spoc_ast.specs.declared.set.InterTree.{InterTree, out-InterTree};
ghost use Rattle.spoc_ast.specs.Seen.{set_seen, inter_seen, term_seen, joined, narrowed};

/// A set is seen as its parts joined, and a part as its first term narrowed by the further ones.
pub fn sets_are_seen_by_their_parts()
    ensures sets { (set : SetTree) → set_seen set ≡ joined (map inter_seen (out-SetTree set).inters.now) }
    ensures parts { (part : InterTree) → inter_seen part ≡ narrowed (term_seen (out-InterTree part).first) (out-InterTree part).rest.now }
{}
