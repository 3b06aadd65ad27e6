ghost use Rattle.std.specs.Prelude.{◌≡◌, ◌++◌, List, map, flat_map, IfOk, OnOk};
ghost use Rattle.spoc_base.specs.Address.{Cidr, same_prefix};
ghost use Rattle.spoc_base.specs.Shown.{cidr_of};
ghost use Rattle.policy_model.specs.Lists.{once_each};
ghost use Rattle.dev_config.specs.Seen.{line_of};
ghost use Rattle.object_groups.specs.Keys.{key_of};

use bumpalo::Bump;
use dev_config::Line;
use indexmap::IndexSet;
use spoc_base::{NoMemory, Prefix};
use std::alloc::Global;

// Puts each of the prefixes behind those kept, unless it is among them. What is seen are the addresses and lengths of those kept.
fn keep_new(
    seen: &mut IndexSet<(u32, u8)>,
    kept: &mut Vec<Prefix>,
    prefixes: &[Prefix],
) -> Result<(), NoMemory>
    requires { seen.old.keys ≡ map key_of kept.old.items }
    ensures seen { OnOk result (seen.new.keys ≡ map key_of kept.new.items) }
    ensures kept { OnOk result ((before : List Cidr) → map cidr_of kept.old.items ≡ once_each same_prefix before →
        map cidr_of kept.new.items ≡ once_each same_prefix (before ++ map cidr_of prefixes.now)) }
{
    for p in prefixes {
        if seen.insert((p.net().0, p.len()))? {
            kept.push(*p)?;
        }
    }
    Ok(())
}

/// The sources of the lines in order, without repeats.
pub(crate) fn all_sources<'s>(
    alloc: Global,
    scratch: &'s Bump,
    lines: &[Line<'_>],
) -> Result<&'s [Prefix], NoMemory>
    ensures { IfOk result (λ sources. map cidr_of sources.now ≡ once_each same_prefix (flat_map (λ l. l.src) (map line_of lines.now))) }
{
    let mut seen = IndexSet::new(alloc);
    let mut kept = Vec::new(alloc);
    for line in lines {
        keep_new(&mut seen, &mut kept, line.src)?;
    }
    let sources = scratch.try_alloc_slice_copy(&kept)?;
    Ok(sources)
}
