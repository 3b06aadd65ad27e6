ghost use Rattle.std.specs.Prelude.{◌≡◌, not, map};
ghost use Rattle.std.specs.List.{list_any};
ghost use Rattle.spoc_ast.specs.Seen.{port_seen, decl_seen};
ghost use Rattle.policy_decls.specs.Shapes as shapes;
ghost use Rattle.policy_shapes.specs.Rows.{restriction_rows};

use crate::policy::Policy;
use spoc_ast::PortName;

/// Whether the router of one of the interfaces isn't managed.
pub(crate) fn any_unmanaged(policy: &Policy<'_, '_>, ports: &[PortName<'_>]) -> bool
    ensures { result ≡ list_any (shapes.is_unmanaged_port (map decl_seen policy.now)) (map port_seen ports.now) }
{
    for port in ports {
        if policy.is_unmanaged(port) {
            return true;
        }
    }
    false
}

fn is_same(port: &PortName<'_>, other: &PortName<'_>) -> bool
    ensures { result ≡ shapes.same_port (port_seen port.now) (port_seen other.now) }
{
    port.router.text == other.router.text && port.net.text == other.net.text
}

fn any_other(port: &PortName<'_>, ports: &[PortName<'_>]) -> bool
    ensures { result ≡ list_any (λ q. not (shapes.same_port (port_seen port.now) q)) (map port_seen ports.now) }
{
    for other in ports {
        if !is_same(port, other) {
            return true;
        }
    }
    false
}

// Whether two of the interfaces differ.
fn differ(ports: &[PortName<'_>]) -> bool
    ensures { result ≡ shapes.differ (map port_seen ports.now) }
{
    match ports {
        [first, rest @ ..] => any_other(first, rest),
        [] => false,
    }
}

/// 12 where a restriction has one of these interfaces that is of an unmanaged router, or fewer
/// than two different ones.
pub(crate) fn restriction_shape(policy: &Policy<'_, '_>, ports: &[PortName<'_>]) -> Option<u8>
    ensures { result ≡ restriction_rows (map decl_seen policy.now) (map port_seen ports.now) }
{
    if any_unmanaged(policy, ports) || !differ(ports) {
        Some(12)
    } else {
        None
    }
}
