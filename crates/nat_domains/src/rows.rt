ghost use Rattle.std.specs.Prelude.{◌≡◌, ◌<◌, ◌+◌, ◌++◌, ◌∷◌, [], length, IfOk, set, slice_index_or};
ghost use Rattle.zone_graph.specs.Grouped.{row_items};
ghost use Rattle.nat_domains.specs.Rows.{tag_rows, HasAdded, IsPutIf, AreBare};

use spoc_base::{NoMemory, TagId};
use std::alloc::Global;

/// So many rows without tags.
pub(crate) fn bare_rows(alloc: Global, count: u32) -> Result<Vec<Vec<TagId>>, NoMemory>
    ensures { IfOk result (λ rows. AreBare (tag_rows rows.items) count) }
{
    let mut rows = Vec::new(alloc);
    for _ in 0..count {
        let row: Vec<TagId> = Vec::new(alloc);
        rows.push(row)?;
    }
    Ok(rows)
}

// Puts a tag at the end of a row.
fn put_tag(rows: &mut [Vec<TagId>], k: usize, tag: TagId) -> Result<(), NoMemory>
    requires { k < length rows.old }
    ensures count { length rows.new ≡ length rows.old }
    ensures put { IfOk result (λ done. row_items rows.new ≡ set (row_items rows.old) k (slice_index_or (row_items rows.old) k [] ++ tag ∷ [])) }
{
    rows[k].push(tag)?;
    Ok(())
}

// Puts a tag at the end of a row, where the row is marked.
fn put_if(rows: &mut [Vec<TagId>], k: usize, tag: TagId, yes: bool) -> Result<(), NoMemory>
    requires { k < length rows.old }
    ensures count { length rows.new ≡ length rows.old }
    ensures put { IfOk result (λ done. IsPutIf tag.0 k yes (tag_rows rows.old) (tag_rows rows.new)) }
{
    if !yes {
        return Ok(());
    }
    put_tag(rows, k, tag)
}

/// Puts a tag at the end of each marked row.
pub(crate) fn put_marked(
    rows: &mut [Vec<TagId>],
    marks: &[bool],
    tag: TagId,
) -> Result<(), NoMemory>
    requires { length rows.old ≡ length marks.now }
    ensures count { length rows.new ≡ length rows.old }
    ensures put { IfOk result (λ done. HasAdded tag.0 marks.now (tag_rows rows.old) (tag_rows rows.new)) }
{
    for k in 0..marks.len() {
        put_if(rows, k, tag, marks[k])?;
    }
    Ok(())
}
