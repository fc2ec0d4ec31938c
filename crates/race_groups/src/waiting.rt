//! Candidates that wait to be added to their rows. Most candidates belong to places that have a row. They are only
//! counted here, and the counts for the places of one later event are side by side.
ghost use Rattle.std.specs.Prelude.{◌≡◌, ◌≢◌, ◌+◌, ◌<◌, ℕ, true, false, IfOk, slice_index};
ghost use Rattle.race_groups.specs.Rows.{Part, part};
ghost use Rattle.race_groups.specs.Waiting.{cell_at, waiting_at, waiting_of, AreCellsKept, AreOthersKept, IsCellOpened, IsCellRaised, IsNumberOpened};

use crate::class::Class;
use crate::guesses::width_of;
use crate::rows::Sums;
use rapid_text::OutOfMemory;
use std::alloc::Global;

// With up to this many places, there is a number for each two places, in either order.
const MOST: usize = 1_448;

/// The number of candidates that wait for each row.
#[derive(Drop)]
pub(crate) struct Waiting {
    // By the places of the later event and of the earlier one: 0 if the row is not known, and otherwise the waiting
    // candidates plus one.
    pub(crate) cells: Vec<Vec<u32>>,
}

impl Waiting {
    /// No row is known yet. If there are too many places, nothing ever waits. Fails if memory runs out.
    pub(crate) fn new(alloc: Global, infos: &[Class]) -> Result<Waiting, OutOfMemory>
        ensures { IfOk result (λ made. (p q : ℕ) → cell_at made.cells.items q p ≡ 0) }
    {
        let width = width_of(infos);
        let cells = zeros(alloc, if width <= MOST { width } else { 0 })?;
        Ok(Waiting { cells })
    }

    /// Lets the counts wait, and returns whether it did. Only candidates of a known row can wait.
    pub(crate) fn keep(&mut self, earlier: u32, later: u32, more: Sums) -> bool
        ensures known { result ≡ true → 0 < cell_at self.old.cells.items later earlier }
        ensures more { result ≡ true → IsCellRaised later earlier more.candidates self.old self.new }
        ensures others { AreOthersKept later earlier self.old self.new }
        ensures same { result ≡ false → AreCellsKept self.old self.new }
        ensures candidates { result ≡ true → (k : Part) → part k more ≡ waiting_of k more.candidates }
    {
        if !are_candidates(more) || later as usize >= self.cells.len() {
            return false;
        }
        raise(
            self.cells[later as usize].as_mut_slice(),
            earlier as usize,
            more.candidates,
        )
    }

    /// Records that the row of the places exists. For one place twice nothing waits.
    pub(crate) fn open(&mut self, earlier: u32, later: u32)
        ensures { IsCellOpened later earlier self.old self.new }
    {
        if earlier == later || later as usize >= self.cells.len() {
            return;
        }
        begin(self.cells[later as usize].as_mut_slice(), earlier as usize);
    }

    /// The number of candidates of two places that wait.
    pub(crate) fn of(&self, first: u32, second: u32) -> u64
        ensures { result ≡ waiting_at self.now.cells.items first second }
    {
        let cells = self.cells.as_slice();
        let one = cell(cells, second, first).saturating_sub(1);
        let other = cell(cells, first, second).saturating_sub(1);
        u64::from(one) + u64::from(other)
    }
}

// A table of zeros for each two of `width` places.
fn zeros(alloc: Global, width: usize) -> Result<Vec<Vec<u32>>, OutOfMemory>
    ensures { IfOk result (λ cells. (p q : ℕ) → cell_at cells.items q p ≡ 0) }
{
    let mut cells = Vec::new(alloc);
    for _place in 0..width {
        let row = vec![in alloc; 0u32; width]?;
        cells.push(row)?;
    }
    Ok(cells)
}

// Whether only candidates are counted.
fn are_candidates(more: Sums) -> bool
    ensures { result ≡ true → (k : Part) → part k more ≡ waiting_of k more.candidates }
{
    more.all == 0 && more.ordered == 0 && more.guarded == 0
}

// Raises the number at this index if it is not 0 and the sum fits. Returns whether it did.
fn raise(row: &mut [u32], at: usize, more: u64) -> bool
    ensures known { result ≡ true → 0 < slice_index row.old at }
    ensures more { result ≡ true → slice_index row.new at ≡ slice_index row.old at + more }
    ensures others { (p : ℕ) → p ≢ at → slice_index row.new p ≡ slice_index row.old p }
    ensures same { result ≡ false → row.new ≡ row.old }
{
    if at >= row.len() {
        return false;
    }
    let had = u64::from(row[at]);
    if had == 0 || more > u64::from(u32::MAX) - had {
        return false;
    }
    row[at] = (had + more) as u32;
    true
}

// Changes 0 at this index to 1.
fn begin(row: &mut [u32], at: usize)
    ensures { IsNumberOpened at row.old row.new }
{
    if at < row.len() && row[at] == 0 {
        row[at] = 1;
    }
}

// The number of two places.
fn cell(cells: &[Vec<u32>], later: u32, earlier: u32) -> u32
    ensures { result ≡ cell_at cells.now later earlier }
{
    match cells.get(later as usize) {
        Some(row) => number_at(row.as_slice(), earlier as usize),
        None => 0,
    }
}

// The number at this index, or 0 past the end.
fn number_at(row: &[u32], at: usize) -> u32
    ensures { result ≡ slice_index row.now at }
{
    match row.get(at) {
        Some(number) => *number,
        None => 0,
    }
}
