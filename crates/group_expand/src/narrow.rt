ghost use Rattle.std.specs.Prelude.{◌≡◌, ◌∷◌, ◌++◌, [], not, map, if◌then◌else◌, IfOk, OnOk};
ghost use Rattle.policy_model.specs.Objects.{has_object};
ghost use Rattle.group_expand.specs.Sets.{narrowed_by, object_seen};

use crate::object::Object;
use crate::object_set::ObjectSet;
use spoc_base::NoMemory;
use std::alloc::Global;

// Whether an object stays: one of the set does, or, where `without` is true, any other.
fn stays(set: &ObjectSet, object: Object, without: bool) -> bool
    ensures { result ≡ (if without then not (has_object set.now (object_seen object)) else has_object set.now (object_seen object)) }
{
    set.has(object) != without
}

// Puts an object at the end, where it stays.
fn push_kept(
    set: &ObjectSet,
    object: Object,
    without: bool,
    found: &mut Vec<Object>,
) -> Result<(), NoMemory>
    ensures { OnOk result (map object_seen found.new.items ≡ map object_seen found.old.items ++ narrowed_by without (object_seen object ∷ []) set.now) }
{
    if !stays(set, object, without) {
        return Ok(());
    }
    found.push(object)?;
    Ok(())
}

// The objects that stay.
#[tactic(auto, using(crate::proofs::Gathering::narrowed_cons))]
fn keep(
    alloc: Global,
    objects: &[Object],
    set: &ObjectSet,
    without: bool,
) -> Result<Vec<Object>, NoMemory>
    ensures { IfOk result (λ found. map object_seen found.items ≡ narrowed_by without (map object_seen objects.now) set.now) }
{
    let mut found = Vec::new(alloc);
    for object in objects {
        push_kept(set, *object, without, &mut found)?;
    }
    Ok(found)
}

/// Of some objects those that are among others, or, where `without` is true, those that aren't.
#[tactic(auto, using(crate::proofs::Gathering::narrowed_same))]
pub(crate) fn narrow(
    alloc: Global,
    objects: &[Object],
    others: &[Object],
    without: bool,
) -> Result<Vec<Object>, NoMemory>
    ensures { IfOk result (λ found. map object_seen found.items ≡ narrowed_by without (map object_seen objects.now) (map object_seen others.now)) }
{
    let mut set = ObjectSet::new(alloc);
    set.add_all(others)?;
    keep(alloc, objects, &set, without)
}
