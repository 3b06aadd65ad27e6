//! What the main theorem of lists asks of a policy, for a policy that declarations without a fault say, and for configs that are made router by router.
//! The functions here do nothing: each has a law as its contract.
#![tactic(auto)]

ghost use Rattle.std.specs.Prelude.{◌≡◌, ℕ, ◌<◌, List, length, map, None, IsTrue};
ghost use Rattle.policy_model.specs.Policy.{Policy, router_at, is_managed, managed_routers};
ghost use Rattle.policy_model.specs.Tags.{ifaces_of};
ghost use Rattle.policy_model.specs.Filters.{Line};
ghost use Rattle.policy_model.specs.Laws.{PassAlike};
ghost use Rattle.policy_model.specs.Blocks.{list_at};
ghost use Rattle.policy_model.specs.Permits.{Packet};
ghost use Rattle.policy_model.specs.Packets.{is_packet, is_unambiguous};
ghost use Rattle.policy_model.specs.PlainRules.{HasPlainRules};
ghost use Rattle.policy_model.specs.Passing.{Config, list_in};
ghost use Rattle.policy_model.specs.Headline.{Meaning, IsMeaning, permits_in, DevicesPass, ListsPass, WalksPass};
ghost use Rattle.policy_laws.specs.Routed.{IsWired};
ghost use Rattle.policy_laws.specs.Shaped.{IsShaped, HasDistinctPrefixes};
ghost use Rattle.topology.specs.Sound.{IsSound};
ghost use Rattle.spoc_ast.specs.Written.{DeclText};
ghost use Rattle.policy_decls.specs.Said.{policy_said};
ghost use Rattle.policy_decls.specs.Faults.{fault_of};
ghost use Rattle.policy_decls.specs.Formed.{are_formed};
ghost use Rattle.shape_laws.specs.Unlike.{IsUntranslated, IsUnbound, IsApart};

/// Declarations that the grammar allows and that have no fault say a policy that is shaped and wired, where it is sound: prefixes have no host bit, ranges of
/// hosts are in order, and interfaces are named by their router and network.
pub fn policies_said_are_shaped()
    ensures { (decls : List DeclText) → IsTrue (are_formed decls) → fault_of decls ≡ None → IsSound (policy_said decls) →
        IsShaped (policy_said decls) × IsWired (policy_said decls) }
{}

/// The boxes of the rules that such declarations say are plain: their numbers are in their ranges, and none asks for established segments alone.
pub fn rules_said_are_plain()
    ensures { (decls : List DeclText) → fault_of decls ≡ None → HasPlainRules (policy_said decls) }
{}

/// Where no network is translated and none is part of another, no two have one prefix in any view.
pub fn unlike_prefixes_are_distinct()
    ensures { (m : Meaning) → IsUntranslated m.site.policy → IsApart m.site.policy → HasDistinctPrefixes m.site m.views }
{}

/// So it is where no interface binds a tag, whatever networks say of tags.
pub fn unbound_prefixes_are_distinct()
    ensures { (p : Policy) (m : Meaning) → IsMeaning p m → IsUnbound p → IsApart p → HasDistinctPrefixes m.site m.views }
{}

/// And each packet is unambiguous there, on every allowed walk.
pub fn packets_without_bound_tags_are_unambiguous()
    ensures { (p : Policy) (m : Meaning) → IsMeaning p m → IsUnbound p → (x : Packet) → IsTrue (is_packet m.site m.views x) → IsTrue (is_unambiguous m.site m.views x) }
{}

/// Configs whose lists at managed interfaces decide each header as the policy's own do pass an unambiguous packet of an allowed walk exactly if it is
/// permitted or a reply: all devices of the walk together, and each by itself. The list by which it enters a device passes a reply only where the router has
/// no state.
pub fn lists_like_the_own_ones_pass()
    ensures { (p : Policy) (m : Meaning) (configs : List Config) → IsMeaning p m → IsShaped p → HasDistinctPrefixes m.site m.views →
        ((i : ℕ) → i < length p.ifaces → IsTrue (is_managed p (router_at p i)) → PassAlike (list_at m.site m.views (permits_in m) i) (list_in p configs i)) →
        WalksPass m configs × DevicesPass m configs × ListsPass m configs }
{}

/// Where each managed router's config has a list for each of its interfaces, in order, the list at a managed interface is its own.
pub fn lists_by_router_are_in_order()
    ensures { (p : Policy) (config : ℕ → Config) (lists : ℕ → List Line) →
        ((r : ℕ) → IsTrue (is_managed p r) → (config r).lists ≡ map lists (ifaces_of p r)) →
        (i : ℕ) → i < length p.ifaces → IsTrue (is_managed p (router_at p i)) → list_in p (map config (managed_routers p)) i ≡ lists i }
{}

/// So such configs pass an unambiguous packet of an allowed walk exactly if it is permitted or a reply, where each list decides as the policy's own.
pub fn lists_by_router_pass()
    ensures { (p : Policy) (m : Meaning) (config : ℕ → Config) (lists : ℕ → List Line) → IsMeaning p m → IsShaped p → HasDistinctPrefixes m.site m.views →
        ((i : ℕ) → i < length p.ifaces → IsTrue (is_managed p (router_at p i)) → PassAlike (list_at m.site m.views (permits_in m) i) (lists i)) →
        ((r : ℕ) → IsTrue (is_managed p r) → (config r).lists ≡ map lists (ifaces_of p r)) →
        WalksPass m (map config (managed_routers p)) × DevicesPass m (map config (managed_routers p)) × ListsPass m (map config (managed_routers p)) }
{}
