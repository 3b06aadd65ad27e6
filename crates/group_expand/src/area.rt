ghost use Rattle.std.specs.Prelude.{◌≡◌, ◌<◌, [], length, map, slice_index_or};
ghost use Rattle.group_expand.specs.Seen.{numbers_of, rows_of};

use spoc_base::{IfId, ZoneId};
use std::marker::Model;

/// Why an area has no zones: its least border whose zone isn't in it, or want of memory.
#[derive(Clone, Copy)]
pub enum AreaFail {
    Split(IfId),
    Memory,
}

/// The zones of each area, ascending.
#[derive(Drop)]
pub struct Areas {
    rows: Vec<Vec<ZoneId>>,
}

impl Model for Areas {
    ghost use Rattle.std.specs.Prelude.{ℕ, List};
    ghost use Rattle.group_expand.specs.Seen.{rows_of};

    ghost Value = { List (List ℕ) };

    ghost view = { λ a. rows_of a.rows.items };
}

impl Areas {
    // The table of these rows.
    pub(crate) fn of(rows: Vec<Vec<ZoneId>>) -> Areas
        ensures { result ≡ rows_of rows.items }
    {
        Areas { rows }
    }

    /// The zones of an area.
    pub fn zones(&self, k: u32) -> &[ZoneId]
        requires { k < length self.now }
        ensures { numbers_of result.now ≡ slice_index_or self.now k [] }
    {
        &self.rows[k as usize]
    }
}
