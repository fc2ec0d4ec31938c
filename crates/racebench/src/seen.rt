//! What `triage` has seen of its inputs besides the trace.

use calls::triage::{Hears, Watch};
use std::sync::atomic::{AtomicU64, Ordering};

/// The mark of an entry of a triage file that leaves races out but is about none.
pub(crate) const UNMET: u64 = 1;

/// The mark of an entry of a triage file that says `fixed` but is about a race.
pub(crate) const BACK: u64 = 2;

/// Records what was read, and passes it on to another watcher.
#[derive(Drop)]
pub(crate) struct Seen<'a, W: Watch> {
    watch: &'a W,
    blockless: AtomicU64,
    codeless: AtomicU64,
    marks: &'a [AtomicU64],
}

impl<'a, W: Watch> Seen<'a, W> {
    /// A watcher that has seen nothing. `marks` has a mark for each entry of a triage file.
    pub(crate) fn new(watch: &'a W, marks: &'a [AtomicU64]) -> Seen<'a, W> {
        Seen {
            watch,
            blockless: AtomicU64::new(0),
            codeless: AtomicU64::new(0),
            marks,
        }
    }

    /// Whether a text of known races was read that has no block `race`.
    pub(crate) fn lacks_blocks(&self) -> bool {
        self.blockless.load(Ordering::SeqCst) != 0
    }

    /// Records whether the folder of code has a file that the trace names.
    pub(crate) fn coded(&self, has_files: bool) {
        self.codeless.store(u64::from(!has_files), Ordering::SeqCst);
    }

    /// Whether the folder of code was read and has no file that the trace names.
    pub(crate) fn lacks_code(&self) -> bool {
        self.codeless.load(Ordering::SeqCst) != 0
    }
}

impl<W: Watch> Watch for Seen<'_, W> {
    fn read(&self, events: u32) {
        self.watch.read(events);
    }

    fn known(&self, has_block: bool) {
        self.blockless
            .store(u64::from(!has_block), Ordering::SeqCst);
        self.watch.known(has_block);
    }

    fn judged(&self, of: usize) {
        self.watch.judged(of);
    }

    fn end(&self) {
        self.watch.end();
    }
}

impl<W: Watch> Hears for Seen<'_, W> {
    fn met(&self, entry: usize, hides: bool, is_met: bool) {
        if entry < self.marks.len() {
            self.marks[entry].store(mark_of(hides, is_met), Ordering::SeqCst);
        }
    }
}

/// The mark of an entry; 0 if there is nothing to report.
fn mark_of(hides: bool, is_met: bool) -> u64 {
    if hides && !is_met {
        UNMET
    } else if !hides && is_met {
        BACK
    } else {
        0
    }
}
