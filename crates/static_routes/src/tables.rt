ghost use Rattle.std.specs.Prelude.{◌≡◌, ◌<◌, length, map, IfOk, slice_index_or};
ghost use Rattle.std.specs.List.{Contains};
ghost use Rattle.policy_model.specs.Zones.{Site};
ghost use Rattle.zone_graph.specs.declared.marks.PairMarks.{PairMarks as Marked};
ghost use Rattle.static_routes.specs.Tables.{zones_named, AreMarked, AreMarksOf, AreFiled};

use spoc_base::NoMemory;
use std::alloc::Global;
use std::collections::BTreeMap;
use zone_graph::{MarkTable, PairMarks};

/// The places of tables by their pairs of zones.
pub(crate) type Places = BTreeMap<(u32, u32), usize>;

/// The place of the table of each pair of zones that has one.
pub(crate) fn places_of(alloc: Global, tables: &[PairMarks]) -> Result<Places, NoMemory>
    ensures { IfOk result (AreFiled (map zones_named tables.now) (length tables.now)) }
{
    let mut places = BTreeMap::new(alloc);
    for k in 0..tables.len() {
        places.insert((tables[k].from.0, tables[k].to.0), k)?;
    }
    Ok(places)
}

// The marks of a table, by its place.
fn marks_at<'t>(tables: &'t [PairMarks], k: usize) -> &'t MarkTable
    requires { k < length tables.now }
    ensures { (t : Marked) → result.now ≡ (slice_index_or tables.now k t).marks }
{
    &tables[k].marks
}

/// The marks of the walks between two zones that have a table.
pub(crate) fn marks_of<'t>(
    places: &Places,
    tables: &'t [PairMarks],
    zones: (u32, u32),
) -> &'t MarkTable
    requires places { AreFiled (map zones_named tables.now) (length tables.now) places.now }
    requires named { Contains (map zones_named tables.now) zones }
    ensures { (s : Site) → AreMarked s tables.now → AreMarksOf s zones result.now }
{
    match places.get(&zones) {
        Some(k) => marks_at(tables, *k),
        None => unreachable!(),
    }
}
