ghost use Rattle.std.specs.Prelude.{◌≡◌, ◌<◌, ◌++◌, ◌∷◌, [], if◌then◌else◌, length, map, IfOk};
ghost use Rattle.policy_model.specs.Blocks.{places_replies_at as replies_at};
ghost use Rattle.policy_model.specs.Policy.{router_at, is_managed};
ghost use Rattle.topology.specs.View.{policy_of};
ghost use Rattle.rule_distribute.specs.Distributed.{managed_ifaces as managed};

use spoc_base::{IfId, NoMemory};
use std::alloc::Global;
use topology::Topo;

// Whether the interface's router is managed.
fn is_managed_at(topo: Topo<'_>, i: IfId) -> bool
    requires { i.0 < length (policy_of topo).ifaces }
    ensures { result ≡ is_managed (policy_of topo.entry) (router_at (policy_of topo.entry) i.0) }
{
    topo.router(topo.iface(i).router).device.is_some()
}

/// Whether the lists of the interface's router have lines for replies.
pub(crate) fn places_replies_at(topo: Topo<'_>, i: IfId) -> bool
    requires { i.0 < length (policy_of topo).ifaces }
    ensures { result ≡ replies_at (policy_of topo.entry) i.0 }
{
    match topo.router(topo.iface(i).router).device {
        Some(device) => device.dialect.places_replies(),
        None => false,
    }
}

// Puts an interface behind the others, if its router is managed.
fn push_managed(topo: Topo<'_>, ifaces: &mut Vec<IfId>, i: IfId) -> Result<(), NoMemory>
    requires { i.0 < length (policy_of topo).ifaces }
    ensures { IfOk result (λ done. map (λ x. x.0) ifaces.new.items ≡ map (λ x. x.0) ifaces.old.items ++ (if is_managed (policy_of topo.entry) (router_at (policy_of topo.entry) i.0) then i.0 ∷ [] else [])) }
{
    if !is_managed_at(topo, i) {
        return Ok(());
    }
    ifaces.push(i)?;
    Ok(())
}

/// The interfaces of managed routers, by number.
pub(crate) fn managed_ifaces(alloc: Global, topo: Topo<'_>) -> Result<Vec<IfId>, NoMemory>
    ensures { IfOk result (λ v. map (λ i. i.0) v.items ≡ managed (policy_of topo.entry)) }
{
    let mut ifaces = Vec::new(alloc);
    for i in 0..topo.ifaces().len() as u32 {
        push_managed(topo, &mut ifaces, IfId(i))?;
    }
    Ok(ifaces)
}
