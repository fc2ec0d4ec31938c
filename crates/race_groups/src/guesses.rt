//! Guesses the index of the row of a pair of places. Most counts belong to a row that exists.
use crate::class::Class;
use rapid_text::OutOfMemory;
use std::alloc::Global;

// The most guesses. Below 1,449 places, each two places have a guess for themselves, in either order.
const MOST: usize = 2_097_152;

/// The indices of rows that were found, the last one for each slot. A guess is compared with the row before it is
/// used. So a wrong guess costs only a look-up.
#[derive(Drop)]
pub(crate) struct Guesses {
    rows: Vec<u32>,
    // The number of places.
    width: usize,
}

impl Guesses {
    /// Guesses for the pairs of the classes' places. Fails if memory runs out.
    pub(crate) fn new(alloc: Global, infos: &[Class]) -> Result<Guesses, OutOfMemory> {
        let width = width_of(infos);
        let size = width.saturating_mul(width).min(MOST);
        Ok(Guesses {
            rows: vec![in alloc; 0u32; size]?,
            width,
        })
    }

    /// The likely index of the row for the places of an earlier and a later event.
    pub(crate) fn guess(&self, earlier: u32, later: u32) -> Option<usize> {
        let row = self.rows.as_slice().get(slot(earlier, later, self.width))?;
        Some(*row as usize)
    }

    /// Records the index of that row.
    pub(crate) fn note(&mut self, earlier: u32, later: u32, at: usize) {
        let slot = slot(earlier, later, self.width);
        if let Some(row) = self.rows.as_mut_slice().get_mut(slot) {
            *row = u32::try_from(at).unwrap_or(0);
        }
    }
}

/// The number of the classes' places: one more than the greatest number.
pub(crate) fn width_of(infos: &[Class]) -> usize {
    (last_place(infos) as usize).saturating_add(1)
}

// The greatest number of a place.
fn last_place(infos: &[Class]) -> u32 {
    infos.iter().map(|info| info.place).max().unwrap_or(0)
}

// The slot of the two places. All slots of one later place are side by side.
fn slot(earlier: u32, later: u32, width: usize) -> usize {
    let number = (later as usize)
        .wrapping_mul(width)
        .wrapping_add(earlier as usize);
    number % MOST
}
