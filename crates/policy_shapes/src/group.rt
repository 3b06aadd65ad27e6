ghost use Rattle.std.specs.Prelude.{◌≡◌, Some, map, option_map};
ghost use Rattle.spoc_ast.specs.Seen.{set_seen, decl_seen};
ghost use Rattle.policy_shapes.specs.Rows.{group_rows};

use crate::policy::Policy;
use crate::sets::{asks_unaligned, names_bare};
use spoc_ast::SetTree;

/// The least number of what must not stand in a group of these objects and does, 4 or 14.
#[tactic(auto, using(crate::proofs::SetTests::ask_all, crate::proofs::SetTests::name_all))]
pub(crate) fn group_shape(policy: &Policy<'_, '_>, objects: &Option<SetTree<'_>>) -> Option<u8>
    ensures { result ≡ group_rows (map decl_seen policy.now) (option_map set_seen objects.now) }
{
    match objects {
        Some(set) => set_shape(policy, set),
        None => None,
    }
}

#[tactic(auto, using(crate::proofs::SetTests::ask_all, crate::proofs::SetTests::name_all))]
fn set_shape(policy: &Policy<'_, '_>, set: &SetTree<'_>) -> Option<u8>
    ensures { result ≡ group_rows (map decl_seen policy.now) (Some (set_seen set.now)) }
{
    if asks_unaligned(set) {
        return Some(4);
    }
    if names_bare(policy, set) {
        return Some(14);
    }
    None
}
