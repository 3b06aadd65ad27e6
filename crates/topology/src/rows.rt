ghost use Rattle.std.specs.Prelude.{◌≡◌, ◌<◌, length};
ghost use Rattle.topology.specs.Rows.{AreRows, row_at};

use crate::items::IfRows;
use spoc_base::IfId;

impl<'a> IfRows<'a> {
    /// The k-th row.
    pub fn row(self, k: usize) -> &'a [IfId]
        requires rows { AreRows self.ids.now self.ends.now }
        requires count { k < length self.ends.now }
        ensures { result.now ≡ row_at self.entry.ids.now self.entry.ends.now k }
    {
        let end = self.ends[k] as usize;
        if k == 0 {
            return &self.ids[..end];
        }
        &self.ids[self.ends[k - 1] as usize..end]
    }
}
