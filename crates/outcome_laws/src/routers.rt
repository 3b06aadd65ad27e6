//! What a policy of one router, with none that isn't managed, is claimed of its tables: each walk leaves the router straight into the destination's network,
//! so that its table needs no routes.

ghost use Rattle.std.specs.Prelude.{◌≡◌, ◌≤◌, List, [], length};
ghost use Rattle.policy_model.specs.Passing.{Config};
ghost use Rattle.policy_model.specs.Headline.{Meaning, IsMeaning, TablesSend};
ghost use Rattle.policy_model.specs.Policy.{Policy, managed_routers, unmanaged_routers};
ghost use Rattle.policy_laws.specs.Routed.{IsWired};
ghost use Rattle.policy_outcome.specs.Exact.{TablesSendDirect};

/// Where tables send packets that leave a router straight into their network, the table of a single router sends all unambiguous packets to their next
/// hops, if there are no routers but managed ones.
pub fn tables_of_one_router_send()
    ensures { (p : Policy) (m : Meaning) (configs : List Config) → IsMeaning p m → IsWired p → length (managed_routers p) ≤ 1 → unmanaged_routers p ≡ [] →
        TablesSendDirect m configs → TablesSend m configs }
{}
