//! The column of each thread.
use crate::event_lines::thread_of;
use crate::picture::layout::Placed;
use event_index::Indexed;
use rapid_text::OutOfMemory;
use std::alloc::Global;

/// The width of a column.
pub(crate) const COLUMN: u64 = 320;

/// The margin at the edges of a picture.
pub(crate) const MARGIN: u64 = 12;

/// The most columns: a picture with this many is 1,292 wide, and shown 1,550 wide.
const MOST_COLUMNS: usize = 4;

/// The number of the column that the other threads share if there are more: it comes after those of the pair.
pub(crate) const SHARED: usize = 2;

/// The threads that are drawn, and the column of each.
#[derive(Drop)]
pub(crate) struct Columns {
    threads: Vec<u32>,
    places: Vec<Option<u32>>,
}

/// A column for each of the two threads of the pair, and then for each thread of a run that is drawn.
pub(crate) fn columns_of(
    alloc: Global,
    indexed: &Indexed,
    placed: &[Placed],
    first: u32,
    second: u32,
) -> Result<Columns, OutOfMemory> {
    let mut columns = Columns {
        threads: Vec::new(alloc),
        places: vec![in alloc; None; indexed.threads() as usize]?,
    };
    columns.add_of(indexed, first)?;
    columns.add_of(indexed, second)?;
    for one in placed {
        columns.add(one.run.thread)?;
    }
    Ok(columns)
}

impl Columns {
    /// Gives the event's thread a column, unless it has one.
    fn add_of(&mut self, indexed: &Indexed, event: u32) -> Result<(), OutOfMemory> {
        match thread_of(indexed, event) {
            Some(thread) => self.add(thread),
            None => Ok(()),
        }
    }

    /// Gives the thread a column, unless it has one.
    fn add(&mut self, thread: u32) -> Result<(), OutOfMemory> {
        let next = u32::try_from(self.threads.len()).unwrap_or(u32::MAX);
        let Some(place) = self.places.get_mut(thread as usize) else {
            return Ok(());
        };
        if place.is_none() {
            *place = Some(next);
            self.threads.push(thread)?;
        }
        Ok(())
    }

    /// The threads that have a column for themselves, column by column.
    pub(crate) fn own(&self) -> &[u32] {
        let threads = self.threads.as_slice();
        if self.is_shared() {
            &threads[..SHARED.min(threads.len())]
        } else {
            threads
        }
    }

    /// Whether there are too many threads for a column each, so that all except the two of the pair share a column.
    pub(crate) fn is_shared(&self) -> bool {
        self.threads.len() > MOST_COLUMNS
    }

    /// The left edge of the thread's column.
    pub(crate) fn left(&self, thread: u32) -> u64 {
        let place = self.places.get(thread as usize).copied().flatten();
        let column = place.unwrap_or(0) as usize;
        if self.is_shared() {
            return left_of(column.min(SHARED));
        }
        left_of(column)
    }

    /// The width of all columns, with the margins.
    pub(crate) fn width(&self) -> u64 {
        if self.is_shared() {
            return left_of(SHARED.saturating_add(1));
        }
        left_of(self.threads.len())
    }
}

/// The left edge of the column with this number.
pub(crate) fn left_of(column: usize) -> u64 {
    (column as u64)
        .saturating_mul(COLUMN)
        .saturating_add(MARGIN)
}
