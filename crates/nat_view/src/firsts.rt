ghost use Rattle.std.specs.Prelude.{◌≡◌, ◌+◌, ◌<◌, length, IfOk, OnOk};
ghost use Rattle.std.specs.List.{All};
ghost use Rattle.nat_view.specs.Met.{AreFirstPlaces, AreFirstBelow};

use spoc_base::NoMemory;
use std::alloc::Global;

// Lists the k-th place, unless a listed one has its table.
fn meet(
    places: &[usize],
    k: usize,
    met: &mut Vec<bool>,
    listed: &mut Vec<usize>,
) -> Result<(), NoMemory>
    requires there { k < length places.now }
    requires tables { All (λ t. t < length met.old.items) places.now }
    requires so_far { AreFirstBelow places.now met.old.items listed.old.items k }
    ensures each { length met.new.items ≡ length met.old.items }
    ensures more { OnOk result (AreFirstBelow places.now met.new.items listed.new.items (k + 1)) }
{
    let table = places[k];
    if met[table] {
        return Ok(());
    }
    met[table] = true;
    listed.push(k)?;
    Ok(())
}

/// The places, ascending, that are the first ones of their tables, of which there are so many.
pub(crate) fn first_places(
    alloc: Global,
    tables: usize,
    places: &[usize],
) -> Result<Vec<usize>, NoMemory>
    requires { All (λ t. t < tables) places.now }
    ensures { IfOk result (λ v. AreFirstPlaces places.now v.items) }
{
    let mut met = vec![in alloc; false; tables]?;
    let mut listed = Vec::new(alloc);
    for k in 0..places.len() {
        meet(places, k, &mut met, &mut listed)?;
    }
    Ok(listed)
}
