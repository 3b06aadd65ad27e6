ghost use Rattle.std.specs.Prelude.{◌≡◌, length, map, IfOk, IsTrue};
ghost use Rattle.topology.specs.Sound.{are_below};
ghost use Rattle.topology.specs.View.{policy_of};
ghost use Rattle.nat_domains.specs.Bound.{HasMarked, AreBoundMarked};

use crate::look::{iface_count, tag_count};
use crate::spread::no_marks;
use spoc_base::{IfId, NoMemory, TagId};
use std::alloc::Global;
use topology::Topo;

// Marks some tags.
fn mark_tags(marks: &mut [bool], tags: &[TagId])
    requires { IsTrue (are_below (length marks.old) (map (λ tag. tag.0) tags.now)) }
    ensures { HasMarked (map (λ tag. tag.0) tags.now) marks.old marks.new }
{
    for tag in tags {
        marks[tag.0 as usize] = true;
    }
}

/// Marks the tags that an interface binds.
pub(crate) fn bound_tags(alloc: Global, topo: Topo<'_>) -> Result<Vec<bool>, NoMemory>
    ensures each { IfOk result (λ marks. length marks.items ≡ length (policy_of topo.entry).tags) }
    ensures marked { IfOk result (λ marks. let p = policy_of topo.entry in AreBoundMarked p (length p.ifaces) marks.items) }
{
    let mut marks = no_marks(alloc, tag_count(topo))?;
    for i in 0..iface_count(topo) {
        mark_tags(&mut marks, topo.iface(IfId(i)).binds);
    }
    Ok(marks)
}
