//! The names that locations have for files of the code.

use calls::triage::file_of;
use event_index::Indexed;
use explain_report::places::{MAX_CALLS, call_of, cut_at_arrow, is_line, location_of};
use race_parts::Cell;
use rapid_text::OutOfMemory;
use std::alloc::Global;

/// The most names of files that are looked for.
pub(crate) const MAX_FILES: usize = 4_096;

/// The names of files in the locations of a trace, rising, each once. If there are more than 4,096, some are missing.
pub(crate) fn names_in_trace(alloc: Global, indexed: &Indexed) -> Result<Vec<&[u8]>, OutOfMemory> {
    let mut locations = Vec::new(alloc);
    for event in 0..indexed.len() {
        locations.push(location_of(indexed, event))?;
    }
    names_in(alloc, locations)
}

/// The names of files in the locations of cells, rising, each once. If there are more than 4,096, some are
/// missing.
pub(crate) fn names_in_cells<'a>(
    alloc: Global,
    cells: &[Cell<'a>],
) -> Result<Vec<&'a [u8]>, OutOfMemory> {
    let mut locations = Vec::new(alloc);
    for cell in cells {
        locations.push(cell.first)?;
        locations.push(cell.second)?;
    }
    names_in(alloc, locations)
}

/// The names of files in these locations. Equal locations are read once.
fn names_in<'a>(alloc: Global, mut locations: Vec<&'a [u8]>) -> Result<Vec<&'a [u8]>, OutOfMemory> {
    let mut names = Vec::new(alloc);
    locations.sort_unstable();
    locations.dedup();
    for location in locations.as_slice() {
        add_location(&mut names, *location)?;
    }
    Ok(names)
}

/// Adds the names of files in a location: that of its place, and those of its calls.
fn add_location<'a>(names: &mut Vec<&'a [u8]>, location: &'a [u8]) -> Result<(), OutOfMemory> {
    let (place, mut rest) = cut_at_arrow(location);
    add_place(names, place)?;
    for _ in 0..MAX_CALLS {
        match rest {
            Some(text) => {
                let (call, more) = cut_at_arrow(text);
                add_place(names, call_of(call).place)?;
                rest = more;
            }
            None => return Ok(()),
        }
    }
    Ok(())
}

/// Adds the name of the file of a place, if the place is `FILE:LINE` and the name is new.
fn add_place<'a>(names: &mut Vec<&'a [u8]>, place: &'a [u8]) -> Result<(), OutOfMemory> {
    if !is_line(place) || names.len() >= MAX_FILES {
        return Ok(());
    }
    let name = file_of(place);
    match names.as_slice().binary_search(&name) {
        Ok(_) => Ok(()),
        Err(at) => Ok(names.insert(at, name)?),
    }
}
