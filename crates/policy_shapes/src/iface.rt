ghost use Rattle.std.specs.Prelude.{◌≡◌, ◌&&◌, ◌++◌, not, length, map, flat_map, IfOk, OnOk};
ghost use Rattle.policy_model.specs.Lists.{is_nothing};
ghost use Rattle.spoc_ast.specs.Seen.{word_seen, rout_part_seen, decl_seen};
ghost use Rattle.policy_decls.specs.Lookup as plain;
ghost use Rattle.policy_decls.specs.Shapes as shapes;
ghost use Rattle.policy_shapes.specs.Seen.{iface_seen};

use spoc_ast::{Decl, IfPart, RoutPart, Word};
use spoc_base::NoMemory;
use std::alloc::Global;

/// An interface as it is declared: its router, whether that is managed, the name of its network,
/// and its parts.
#[derive(Clone, Copy)]
pub(crate) struct Iface<'a> {
    pub(crate) router: Word<'a>,
    pub(crate) managed: bool,
    pub(crate) net: Word<'a>,
    pub(crate) parts: &'a [IfPart<'a>],
}

/// Whether a router of these parts is managed.
pub(crate) fn is_managed(parts: &[RoutPart<'_>]) -> bool
    ensures { result ≡ plain.is_managed_router (map rout_part_seen parts.now) }
{
    for part in parts {
        if let RoutPart::Managed(_) = part {
            return true;
        }
    }
    false
}

/// Adds the interfaces of a router of these parts, in their order.
pub(crate) fn add_ifaces<'a>(
    router: Word<'a>,
    parts: &[RoutPart<'a>],
    found: &mut Vec<Iface<'a>>,
) -> Result<(), NoMemory>
    ensures { OnOk result (map iface_seen found.new.items ≡ map iface_seen found.old.items ++ flat_map (plain.ifaces_in_part (word_seen router.entry) (plain.is_managed_router (map rout_part_seen parts.now))) (map rout_part_seen parts.now)) }
{
    let managed = is_managed(parts);
    for part in parts {
        if let RoutPart::Iface { name, parts } = part {
            found.push(Iface {
                router,
                managed,
                net: *name,
                parts: *parts,
            })?;
        }
    }
    Ok(())
}

/// The interfaces of all declarations, in their order.
pub(crate) fn all_ifaces<'a>(alloc: Global, decls: &[Decl<'a>]) -> Result<Vec<Iface<'a>>, NoMemory>
    ensures { IfOk result (λ found. map iface_seen found.items ≡ plain.declared_ifaces (map decl_seen decls.now)) }
{
    let mut found = Vec::new(alloc);
    for decl in decls {
        add_decl_ifaces(decl, &mut found)?;
    }
    Ok(found)
}

fn add_decl_ifaces<'a>(decl: &Decl<'a>, found: &mut Vec<Iface<'a>>) -> Result<(), NoMemory>
    ensures { OnOk result (map iface_seen found.new.items ≡ map iface_seen found.old.items ++ plain.ifaces_in (decl_seen decl.now)) }
{
    match decl {
        Decl::Router { name, parts, .. } => add_ifaces(*name, parts, found),
        Decl::Network { .. }
        | Decl::Group { .. }
        | Decl::Area { .. }
        | Decl::Aggregate { .. }
        | Decl::Protocol { .. }
        | Decl::ProtocolGroup { .. }
        | Decl::Restriction { .. }
        | Decl::Service { .. } => Ok(()),
    }
}

impl<'a> Iface<'a> {
    /// How many addresses stand in it.
    pub(crate) fn address_count(&self) -> usize
        ensures { result ≡ length (plain.iface_addresses (iface_seen self.now)) }
    {
        let mut count = 0;
        for part in self.parts {
            if let IfPart::Ip(_) = part {
                count += 1;
            }
        }
        count
    }

    /// How many names of hardware stand in it.
    pub(crate) fn hardware_count(&self) -> usize
        ensures { result ≡ length (plain.iface_hardware (iface_seen self.now)) }
    {
        let mut count = 0;
        for part in self.parts {
            if let IfPart::Hardware(_) = part {
                count += 1;
            }
        }
        count
    }

    /// How many of its parts bind tags.
    pub(crate) fn bind_count(&self) -> usize
        ensures { result ≡ length (plain.iface_binds (iface_seen self.now)) }
    {
        let mut count = 0;
        for part in self.parts {
            if let IfPart::BindNat(_) = part {
                count += 1;
            }
        }
        count
    }

    /// How many addresses it shares with others.
    pub(crate) fn virtual_count(&self) -> usize
        ensures { result ≡ length (shapes.iface_virtuals (iface_seen self.now)) }
    {
        let mut count = 0;
        for part in self.parts {
            if let IfPart::Virtual(_) = part {
                count += 1;
            }
        }
        count
    }

    /// Whether `ip`, `hardware` or `bind_nat` stands in it twice, or its router is managed and it
    /// lacks an address or hardware.
    #[tactic(auto, using(crate::proofs::Lists::nothing_counted))]
    pub(crate) fn is_bad(&self) -> bool
        ensures { result ≡ shapes.is_bad_iface (iface_seen self.now) }
    {
        let addresses = self.address_count();
        let hardware = self.hardware_count();
        if addresses > 1 || hardware > 1 || self.bind_count() > 1 {
            return true;
        }
        self.managed && (addresses == 0 || hardware == 0)
    }

    /// Whether its router isn't managed and it has no address.
    #[tactic(auto, using(crate::proofs::Lists::nothing_counted))]
    pub(crate) fn is_bare(&self) -> bool
        ensures { result ≡ (not (iface_seen self.now).managed && is_nothing (plain.iface_addresses (iface_seen self.now))) }
    {
        !self.managed && self.address_count() == 0
    }
}
