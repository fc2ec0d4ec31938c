//! Reports progress.

/// Receives progress reports, from whichever thread does the work. No clause says what it does with them, and no
/// result depends on it.
pub trait Watch {
    /// This many events were read.
    fn read(&self, events: u32);

    /// A text of known races was read. `has_block` says whether it has a `race` block.
    fn known(&self, has_block: bool);

    /// One more pair of locations has its verdict, of this many in all.
    fn judged(&self, of: usize);

    /// All verdicts are there, and the output is written next.
    fn end(&self);
}

/// A watch that ignores all reports.
#[derive(Clone, Copy)]
pub struct Silent;

impl Watch for Silent {
    fn read(&self, _events: u32) {}

    fn known(&self, _has_block: bool) {}

    fn judged(&self, _of: usize) {}

    fn end(&self) {}
}
