ghost use Rattle.std.specs.Prelude.{◌≡◌, ◌++◌, [], ◌∷◌, length, map, take, drop, IfOk, OnOk};
ghost use Rattle.std.specs.List.{All};
ghost use Rattle.spoc_ast.specs.Seen.{port_seen, decl_seen};
ghost use Rattle.policy_decls.specs.Said.{number_of_port, adds_of, restrictions_declared, policy_said};
ghost use Rattle.spoc_base.specs.declared.place.Kind.TheVariants as kind;
ghost use Rattle.topology.specs.Texts.{IsCalled};
ghost use Rattle.topology.specs.Kept.{IsImpliedWritten};
ghost use Rattle.topology.specs.Seen.{iface_seen, restriction_seen};
ghost use Rattle.topology.specs.Sound.{declared_count};
ghost use Rattle.policy_build.specs.Views.{decls_of, sources_in};
ghost use Rattle.policy_build.specs.Good.{IsGood};
ghost use Rattle.policy_build.specs.Ifaces.{IsIfaceIn};
ghost use Rattle.policy_build.specs.Rows.{all_owned};

use crate::scope::Scope;
use crate::sharing::implied;
use bumpalo::Bump;
use bumpalo::collections::into_bump_slice;
use spoc_ast::{Decl, PortName};
use spoc_base::{IfId, Kind, NoMemory};
use topology::{Iface, Restriction};

/// The restrictions of paths, by number: those that are declared, and behind them those that shared
/// addresses imply. `order` has the interfaces by network.
pub(crate) fn restrictions<'a>(
    scope: Scope<'a, '_>,
    ifaces: &[Iface<'a>],
    order: &[IfId],
) -> Result<&'a [Restriction<'a>], NoMemory>
    requires good { All (IsGood (sources_in scope)) (decls_of scope) }
    requires said { map (iface_seen (sources_in scope)) ifaces.now ≡ (policy_said (decls_of scope)).ifaces }
    requires written { All (IsIfaceIn (sources_in scope) (decls_of scope)) ifaces.now }
    requires order { map (λ i. i.0) order.now ≡ all_owned (map (λ i. i.net.0) ifaces.now) (length (policy_said (decls_of scope)).nets) }
    ensures said { IfOk result (λ restrictions. map (restriction_seen (sources_in scope.entry)) restrictions.now ≡ (policy_said (decls_of scope.entry)).restrictions) }
    ensures declared { IfOk result (λ restrictions. All (λ x. IsCalled kind.Restriction (sources_in scope.entry) x.name) (take (declared_count (policy_said (decls_of scope.entry))) restrictions.now)) }
    ensures implied { IfOk result (λ restrictions. All (IsImpliedWritten (sources_in scope.entry) (policy_said (decls_of scope.entry))) (drop (declared_count (policy_said (decls_of scope.entry))) restrictions.now)) }
{
    let mut found = declared(scope)?;
    let implied = implied(scope, ifaces, order)?;
    found.extend_from_slice(&implied)?;
    Ok(into_bump_slice(found))
}

// The restrictions that are declared.
fn declared<'a>(scope: Scope<'a, '_>) -> Result<Vec<Restriction<'a>, &'a Bump>, NoMemory>
    requires { All (IsGood (sources_in scope)) (decls_of scope) }
    ensures said { IfOk result (λ found. map (restriction_seen (sources_in scope.entry)) found.items ≡ restrictions_declared (decls_of scope.entry)) }
    ensures written { IfOk result (λ found. All (λ x. IsCalled kind.Restriction (sources_in scope.entry) x.name) found.items) }
{
    let mut found = Vec::new(scope.arena);
    for decl in scope.decls {
        add_restriction(scope, decl, &mut found)?;
    }
    Ok(found)
}

fn add_restriction<'a>(
    scope: Scope<'a, '_>,
    decl: &Decl<'a>,
    found: &mut Vec<Restriction<'a>, &'a Bump>,
) -> Result<(), NoMemory>
    requires good { IsGood (sources_in scope) (decl_seen decl.now) }
    requires written { All (λ x. IsCalled kind.Restriction (sources_in scope) x.name) found.old.items }
    ensures said { OnOk result (map (restriction_seen (sources_in scope.entry)) found.new.items ≡ map (restriction_seen (sources_in scope.entry)) found.old.items ++ (adds_of (decls_of scope.entry) (decl_seen decl.now)).restrictions) }
    ensures written { OnOk result (All (λ x. IsCalled kind.Restriction (sources_in scope.entry) x.name) found.new.items) }
{
    let Decl::Restriction { name, ports, .. } = decl else {
        return Ok(());
    };
    let mut members = Vec::new(scope.arena);
    add_ports(scope, ports, &mut members)?;
    let restriction = Restriction {
        name: scope.named(Kind::Restriction, *name),
        members: into_bump_slice(members),
    };
    let Ok(()) = found.push(restriction) else {
        return Err(NoMemory);
    };
    Ok(())
}

/// Adds the numbers of interfaces.
pub(crate) fn add_ports<'a>(
    scope: Scope<'a, '_>,
    ports: &[PortName<'a>],
    found: &mut Vec<IfId, &'a Bump>,
) -> Result<(), NoMemory>
    ensures { OnOk result (map (λ i. i.0) found.new.items ≡ map (λ i. i.0) found.old.items ++ map (number_of_port (decls_of scope.entry)) (map port_seen ports.now)) }
{
    for port in ports {
        add_port(scope, *port, found)?;
    }
    Ok(())
}

fn add_port<'a>(
    scope: Scope<'a, '_>,
    port: PortName<'a>,
    found: &mut Vec<IfId, &'a Bump>,
) -> Result<(), NoMemory>
    ensures { OnOk result (map (λ i. i.0) found.new.items ≡ map (λ i. i.0) found.old.items ++ number_of_port (decls_of scope.entry) (port_seen port.entry) ∷ []) }
{
    found.push(IfId(scope.port(port)))?;
    Ok(())
}
