//! Which races a text of known races names.
ghost use Rattle.std.specs.Prelude.{◌≡◌, IfOk, OnOk};
ghost use Rattle.calls.specs.triage.LeavingListed.{is_listed, AreListed, HasNumber, HasPlaces, HaveAllPlaces};
ghost use Rattle.race_triage.specs.Places.{AreKept};

use crate::triage::leaving::lines::cell_at;
use indexmap::IndexSet;
use race_parts::Cell;
use race_triage::{Known, Places, known_of};
use rapid_text::{OutOfMemory, TextKeyed};
use std::alloc::Global;

/// Locations by their numbers.
type Locations = IndexSet<Vec<u8>, TextKeyed>;

/// The numbered locations of the cells, and the pairs of locations that a text of known races names.
#[derive(Drop)]
pub(crate) struct Listed {
    places: Places,
    known: Known,
}

/// Gives the location a number, if it has none.
fn add(locations: &mut Locations, alloc: Global, location: &[u8]) -> Result<(), OutOfMemory>
    ensures spot { OnOk result (HasNumber locations.new.keys location.now) }
    ensures kept { OnOk result (AreKept locations.old.keys locations.new.keys) }
{
    if let Some(_at) = locations.get_index_of(location) {
        return Ok(());
    }
    let owned = Vec::from_slice(alloc, location)?;
    locations.insert_full(owned)?;
    Ok(())
}

/// Gives both locations of the cell a number, if they have none.
fn add_both(locations: &mut Locations, alloc: Global, cell: &Cell<'_>) -> Result<(), OutOfMemory>
    ensures has { OnOk result (HasPlaces locations.new.keys cell.now) }
    ensures kept { OnOk result (AreKept locations.old.keys locations.new.keys) }
{
    add(locations, alloc, cell.first)?;
    add(locations, alloc, cell.second)?;
    Ok(())
}

/// Gives the locations of all cells their numbers.
fn add_all(locations: &mut Locations, alloc: Global, cells: &[Cell<'_>]) -> Result<(), OutOfMemory>
    ensures { OnOk result (HaveAllPlaces locations.new.keys cells.now) }
{
    let mut at = 0;
    'cells: while at < cells.len() {
        add_both(locations, alloc, &cell_at(cells, at))?;
        at += 1;
    }
    Ok(())
}

/// Numbers the locations of the cells. The key of their hashes comes from the text.
fn places_of(alloc: Global, cells: &[Cell<'_>], text: &[u8]) -> Result<Places, OutOfMemory>
    ensures { IfOk result (λ places. HaveAllPlaces places.locations.keys cells.now) }
{
    let mut locations = IndexSet::with_hasher(alloc, TextKeyed::of(text));
    add_all(&mut locations, alloc, cells)?;
    Ok(Places {
        locations,
        numbers: Vec::new(alloc),
    })
}

/// The races that a text of known races names, among those of the cells.
pub(crate) fn listed_of(
    alloc: Global,
    cells: &[Cell<'_>],
    text: &[u8],
) -> Result<Listed, OutOfMemory>
    ensures { IfOk result (λ listed. AreListed text.now (is_listed listed) cells.now) }
{
    let places = places_of(alloc, cells, text)?;
    let known = known_of(alloc, &places, text)?;
    Ok(Listed { places, known })
}

/// Whether the text names the cell's two locations. If one of them has no number, the text does not name it.
pub(crate) fn is_listed(listed: &Listed, cell: &Cell<'_>) -> Result<bool, OutOfMemory>
    ensures { IfOk result (λ is. is ≡ is_listed listed.now cell.now) }
{
    let Some(one) = listed.places.number(cell.first)? else {
        return Ok(false);
    };
    let Some(other) = listed.places.number(cell.second)? else {
        return Ok(false);
    };
    Ok(listed.known.contains(&(one.min(other), one.max(other))))
}
