ghost use Rattle.std.specs.Prelude.{◌≡◌, ◌++◌, ◌∷◌, [], ℕ, map, if◌then◌else◌, IfOk, OnOk};
ghost use Rattle.policy_model.specs.Permits.{box_of_permit};
ghost use Rattle.box_algebra.specs.Shown.{header_box_of};
ghost use Rattle.permit_set.specs.Shown.{permit_of};
ghost use Rattle.permit_pieces.specs.Left.{boxes_between};
ghost use Rattle.permit_pieces.specs.Rows.{is_key, table_of};

use box_algebra::Box4;
use indexmap::IndexMap;
use permit_set::Permit;
use spoc_base::{NetId, NoMemory};
use std::alloc::Global;

/// The ranges and the transports of a permit.
pub(crate) fn box_in(q: &Permit) -> Box4
    ensures { header_box_of result ≡ box_of_permit (permit_of q.now) }
{
    Box4 {
        src: q.src.range,
        dst: q.dst.range,
        t: q.t,
    }
}

/// The boxes of denials in rows: one for each source network and destination network, in order.
#[derive(Drop)]
pub(crate) struct Denials {
    alloc: Global,
    rows: IndexMap<(NetId, NetId), Vec<Box4>>,
}

impl Denials {
    // No denials.
    fn none(alloc: Global) -> Denials
        ensures { (src dst : ℕ) → table_of result src dst ≡ [] }
    {
        Denials {
            alloc,
            rows: IndexMap::new(alloc),
        }
    }

    // Takes a row out.
    fn take(&mut self, key: (NetId, NetId)) -> Vec<Box4>
        ensures row { map header_box_of result.items ≡ table_of self.old key.0.0 key.1.0 }
        ensures others { (src dst : ℕ) → table_of self.new src dst ≡ (if is_key key src dst then [] else table_of self.old src dst) }
    {
        match self.rows.swap_remove(&key) {
            Some(row) => row,
            None => Vec::new(self.alloc),
        }
    }

    // Adds a denial behind the others of its row.
    fn add(&mut self, d: &Permit) -> Result<(), NoMemory>
        ensures { OnOk result ((src dst : ℕ) → table_of self.new src dst ≡ table_of self.old src dst ++ boxes_between (permit_of d.now ∷ []) src dst) }
    {
        let key = (d.src.net, d.dst.net);
        let mut row = self.take(key);
        row.push(box_in(d))?;
        self.rows.insert(key, row)?;
        Ok(())
    }

    /// The denials of a list.
    pub(crate) fn of(alloc: Global, list: &[Permit]) -> Result<Denials, NoMemory>
        ensures { IfOk result (λ denials. (src dst : ℕ) → table_of denials src dst ≡ boxes_between (map permit_of list.now) src dst) }
    {
        let mut denials = Denials::none(alloc);
        for d in list {
            denials.add(d)?;
        }
        Ok(denials)
    }

    /// The boxes of the denials from one network to another.
    pub(crate) fn between(&self, src: NetId, dst: NetId) -> &[Box4]
        ensures { map header_box_of result.now ≡ table_of self.now src.0 dst.0 }
    {
        match self.rows.get(&(src, dst)) {
            Some(row) => row,
            None => &[],
        }
    }
}
