ghost use Rattle.std.specs.Prelude.{◌≡◌, [], IfOk, OnOk, map};
ghost use Rattle.policy_model.specs.Objects.{has_object};
ghost use Rattle.group_expand.specs.Sets.{object_seen, with_object, with_objects};

use crate::object::Object;
use indexmap::IndexSet;
use spoc_base::NoMemory;
use std::alloc::Global;
use std::marker::Model;

/// Objects without repeats, in the order in which they came.
#[derive(Drop)]
pub(crate) struct ObjectSet {
    set: IndexSet<Object>,
}

impl Model for ObjectSet {
    ghost use Rattle.std.specs.Prelude.{List, map};
    ghost use Rattle.policy_model.specs.Objects as plain;
    ghost use Rattle.group_expand.specs.Sets.{object_seen};

    ghost Value = { List plain.Object };

    ghost view = { λ s. map object_seen s.set.keys };
}

impl ObjectSet {
    /// A set of no objects.
    pub(crate) fn new(alloc: Global) -> ObjectSet
        ensures { result ≡ [] }
    {
        ObjectSet {
            set: IndexSet::new(alloc),
        }
    }

    /// Adds an object behind the others, unless it is there.
    pub(crate) fn add(&mut self, object: Object) -> Result<(), NoMemory>
        ensures { OnOk result (self.new ≡ with_object self.old (object_seen object)) }
    {
        self.set.insert(object)?;
        Ok(())
    }

    /// Whether the object is there.
    pub(crate) fn has(&self, object: Object) -> bool
        ensures { result ≡ has_object self.now (object_seen object) }
    {
        self.set.contains(&object)
    }

    /// The objects in order.
    pub(crate) fn list(&self, alloc: Global) -> Result<Vec<Object>, NoMemory>
        ensures { IfOk result (λ found. map object_seen found.items ≡ self.now) }
    {
        Ok(self.set.as_slice().to_vec(alloc)?)
    }
}

impl ObjectSet {
    /// Adds objects behind the others, those that aren't there.
    pub(crate) fn add_all(&mut self, objects: &[Object]) -> Result<(), NoMemory>
        ensures { OnOk result (self.new ≡ with_objects self.old (map object_seen objects.now)) }
    {
        for object in objects {
            self.add(*object)?;
        }
        Ok(())
    }
}
