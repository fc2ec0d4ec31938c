//! Lists of counts in few bytes.
ghost use Rattle.std.specs.Prelude.{◌≡◌, ◌+◌, ◌^◌, ◌<◌, ◌≤◌, ℕ, length, IfOk, IsTrue, slice_index, max};
ghost use Rattle.shb_clocks.specs.Kept.{IsPlace, IsMore, count_in, IsRaisedBy, CountsRow, IsNearAt, IsNear, AreRises, IsSumOf, IsRaisedToSum};

use rapid_text::OutOfMemory;
use std::alloc::Global;
use std::marker::Model;

/// Lists of counts by thread, all of one length. Each list is kept whole, or as its increases over a whole list.
/// Increases take a byte for each thread, so none of them may exceed 255.
#[derive(Drop)]
pub struct Kept {
    width: usize,
    // The whole lists, one after the other, with a count for each thread.
    wholes: Vec<u32>,
    // The increases, likewise. The first list of them is all zeros.
    rises: Vec<u8>,
    // For each thread the index of the whole list that its next list is compared with.
    latest: Vec<usize>,
}

/// The index of a list's whole counts, and the index of its increases over them.
#[derive(Clone, Copy)]
pub struct Place {
    pub whole: usize,
    pub rise: usize,
}

impl Model for Kept {
    ghost use Rattle.shb_clocks.specs.Kept.{Lists};

    ghost Value = { Lists };

    ghost use Rattle.shb_clocks.specs.KeptLayout.{lists, IsKept};

    ghost view = { lists };

    ghost invariant = { IsKept };
}

impl Kept {
    /// No lists yet; each will have `width` counts. Fails if memory runs out.
    pub(crate) fn new(alloc: Global, width: u32) -> Result<Kept, OutOfMemory>
        ensures width { IfOk result (λ made. made.width ≡ width) }
    {
        let width = width as usize;
        Ok(Kept {
            width,
            wholes: vec![in alloc; 0u32; width]?,
            rises: vec![in alloc; 0u8; width]?,
            latest: vec![in alloc; 0usize; width]?,
        })
    }

    /// The count of the thread in the list at this place.
    pub(crate) fn count(&self, place: Place, thread: u32) -> u32
        requires place { IsPlace self.now place }
        requires thread { thread < self.now.width }
        ensures { result ≡ count_in self.now place thread }
    {
        let thread = thread as usize;
        self.wholes[place.whole + thread] + self.rises[place.rise + thread] as u32
    }

    /// Copies the list into the row.
    pub(crate) fn copy(&self, place: Place, row: &mut [u32])
        requires place { IsPlace self.now place }
        requires width { length row.old ≡ self.now.width }
        ensures len { length row.new ≡ length row.old }
        ensures counts { (t : ℕ) → t < self.now.width → slice_index row.new t ≡ count_in self.now place t }
    {
        let wholes = &self.wholes[place.whole..place.whole + self.width];
        let rises = &self.rises[place.rise..place.rise + self.width];
        copy_each(row, wholes, rises);
    }

    /// Raises each count of the row to the list's count, if that is larger.
    pub(crate) fn raise(&self, place: Place, row: &mut [u32])
        requires place { IsPlace self.now place }
        requires width { length row.old ≡ self.now.width }
        ensures len { length row.new ≡ length row.old }
        ensures counts { IsRaisedBy self.now place row.old row.new }
    {
        let wholes = &self.wholes[place.whole..place.whole + self.width];
        let rises = &self.rises[place.rise..place.rise + self.width];
        raise_each(row, wholes, rises);
    }

    /// Adds the row as a list, for an event of this thread. Fails if memory runs out.
    pub(crate) fn add(&mut self, thread: u32, row: &[u32]) -> Result<Place, OutOfMemory>
        requires width { length row.now ≡ self.old.width }
        ensures more { IsMore self.old self.new }
        ensures place { IfOk result (IsPlace self.new) }
        ensures counts { IfOk result (CountsRow self.old.width self.new row.now) }
    {
        let whole = self.latest.get(thread as usize).copied().unwrap_or(0);
        if are_near(row, &self.wholes[whole..whole + self.width]) {
            self.add_rises(whole, row)
        } else {
            self.add_whole(thread, row)
        }
    }

    // Adds the row as a whole list.
    fn add_whole(&mut self, thread: u32, row: &[u32]) -> Result<Place, OutOfMemory>
        requires width { length row.now ≡ self.old.width }
        ensures more { IsMore self.old self.new }
        ensures place { IfOk result (IsPlace self.new) }
        ensures counts { IfOk result (CountsRow self.old.width self.new row.now) }
    {
        let whole = self.wholes.len();
        self.wholes.extend_from_slice(row)?;
        if (thread as usize) < self.latest.len() {
            self.latest[thread as usize] = whole;
        }
        Ok(Place { whole, rise: 0 })
    }

    // Adds the row as its increases over the whole list at index `whole`.
    fn add_rises(&mut self, whole: usize, row: &[u32]) -> Result<Place, OutOfMemory>
        requires width { length row.now ≡ self.old.width }
        requires whole { whole + self.old.width ≤ length self.old.wholes }
        requires near { IsNearAt self.old whole row.now }
        ensures more { IsMore self.old self.new }
        ensures place { IfOk result (IsPlace self.new) }
        ensures counts { IfOk result (CountsRow self.old.width self.new row.now) }
    {
        let rise = self.rises.len();
        self.rises.resize(rise + self.width, 0)?;
        let wholes = &self.wholes[whole..whole + self.width];
        put_rises(&mut self.rises.as_mut_slice()[rise..], row, wholes);
        Ok(Place { whole, rise })
    }
}

// Whether each count of the row is at least that of the whole list, and at most 255 larger.
fn are_near(row: &[u32], wholes: &[u32]) -> bool
    requires { length row.now ≡ length wholes.now }
    ensures { IsTrue result → IsNear wholes.now row.now }
{
    let mut less = 0;
    let mut more = 0;
    for thread in 0..row.len() {
        less = wholes[thread].saturating_sub(row[thread]).max(less);
        more = row[thread].saturating_sub(wholes[thread]).max(more);
    }
    less == 0 && more < 256
}

// Sets each increase to the row's count minus the whole list's count.
fn put_rises(rises: &mut [u8], row: &[u32], wholes: &[u32])
    requires rises { length rises.old ≡ length row.now }
    requires wholes { length wholes.now ≡ length row.now }
    requires near { IsNear wholes.now row.now }
    ensures len { length rises.new ≡ length rises.old }
    ensures sums { AreRises wholes.now rises.new row.now }
{
    for thread in 0..row.len() {
        rises[thread] = (row[thread] - wholes[thread]) as u8;
    }
}

// Sets each count of the row to the sum of the two.
fn copy_each(row: &mut [u32], wholes: &[u32], rises: &[u8])
    requires wholes { length row.old ≡ length wholes.now }
    requires rises { length row.old ≡ length rises.now }
    requires fits { (t : ℕ) → t < length row.old → slice_index wholes.now t + slice_index rises.now t < 2 ^ 32 }
    ensures len { length row.new ≡ length row.old }
    ensures sums { IsSumOf wholes.now rises.now row.old row.new }
{
    for thread in 0..wholes.len() {
        row[thread] = wholes[thread] + rises[thread] as u32;
    }
}

// Raises each count of the row to the sum of the two, if that is larger. It works on slices, whose addresses do not
// change between counts, so the compiler may raise several counts at a time.
fn raise_each(row: &mut [u32], wholes: &[u32], rises: &[u8])
    requires wholes { length row.old ≡ length wholes.now }
    requires rises { length row.old ≡ length rises.now }
    requires fits { (t : ℕ) → t < length row.old → slice_index wholes.now t + slice_index rises.now t < 2 ^ 32 }
    ensures len { length row.new ≡ length row.old }
    ensures larger { IsRaisedToSum wholes.now rises.now row.old row.new }
{
    for thread in 0..wholes.len() {
        row[thread] = row[thread].max(wholes[thread] + rises[thread] as u32);
    }
}
