ghost use Rattle.std.specs.Prelude.{◌≡◌, ◌↔◌, IsTrue, ◌<◌, ◌+◌, ◌≤◌, length, map, IfOk, [], slice_index_or};
ghost use Rattle.policy_model.specs.Faults.{all_views, view_count};
ghost use Rattle.policy_model.specs.FirstFault.{most_views};

use crate::row_set::RowSet;
use spoc_base::{NoMemory, RouterId, TagId, ZoneId};
use std::alloc::Global;
use zone_graph::TagTable;

// How many views may differ.
const MOST_VIEWS: usize = 256;

// The tags of the k-th view, all zones coming before all routers.
fn row_at(tags: &TagTable, zones: u32, k: usize) -> &[TagId]
    requires zones { zones ≡ length tags.now.zones }
    requires there { k < length tags.now.zones + length tags.now.routers }
    requires few { length tags.now.routers ≤ 65535 }
    ensures { map (λ tag. tag.0) result.now ≡ slice_index_or (all_views tags.now) k [] }
{
    let zones = zones as usize;
    if k < zones {
        tags.zone(ZoneId(k as u32))
    } else {
        tags.inner(RouterId((k - zones) as u32))
    }
}

/// Whether more than 256 views differ. There are `count` views, those of the zones first.
pub(crate) fn has_too_many(
    alloc: Global,
    tags: &TagTable,
    zones: u32,
    count: usize,
) -> Result<bool, NoMemory>
    requires zones { zones ≡ length tags.now.zones }
    requires count { count ≡ length tags.now.zones + length tags.now.routers }
    requires few { length tags.now.routers ≤ 65535 }
    ensures { IfOk result (λ many. IsTrue many ↔ (most_views < view_count tags.now)) }
{
    let mut seen = RowSet::new(alloc);
    for k in 0..count {
        seen.add(row_at(tags, zones, k))?;
        if seen.count() > MOST_VIEWS {
            return Ok(true);
        }
    }
    Ok(false)
}
