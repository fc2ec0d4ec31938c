//! What standard error shows while `triage` works. On a terminal it is one line, written again a few times a second,
//! and wiped out before other output. Elsewhere it is many lines.

use crate::telling::say;
use calls::triage::Watch;
use rapid_text::OutOfMemory;
use report::{Piece, append_pieces};
use std::sync::atomic::{AtomicU64, Ordering};
use std::sync::{Mutex, Wait};
use std::time::Duration;

/// How many milliseconds pass before the first line, so that quick work shows none.
const FIRST: u64 = 1_000;

/// How many milliseconds pass between two lines.
const BETWEEN: u64 = 200;

/// As many blanks as the longest line has characters, that for 1,048,576 pairs of locations. A line is never shorter
/// than the one before it.
const WIPE: &[u8] = b"\r                                  \r";

/// How far the work is. The threads that work count here, and another thread shows it.
#[derive(Drop)]
pub(crate) struct Progress<'a, R: Wait> {
    rt: &'a HostRuntime,
    waits: &'a R,
    events: AtomicU64,
    pairs: AtomicU64,
    judged: AtomicU64,
    has_ended: AtomicU64,
    // Whether standard error is a terminal.
    is_terminal: bool,
    // Whether a line must be wiped out. Only the thread that holds this mutex writes.
    is_shown: Mutex<bool>,
}

impl<'a, R: Wait> Progress<'a, R> {
    /// The progress of work that begins now. `waits` is what threads wait with.
    pub(crate) fn new(rt: &'a HostRuntime, waits: &'a R, is_terminal: bool) -> Progress<'a, R> {
        Progress {
            rt,
            waits,
            events: AtomicU64::new(0),
            pairs: AtomicU64::new(0),
            judged: AtomicU64::new(0),
            has_ended: AtomicU64::new(0),
            is_terminal,
            is_shown: Mutex::new(false),
        }
    }

    /// Shows how far the work is, until the work has ended.
    pub(crate) fn show(&self) {
        let mut nap = FIRST;
        for _ in self.waits.forever() {
            self.has_ended
                .park_timeout(self.waits, 0, Duration::from_millis(nap));
            if self.has_ended.load(Ordering::SeqCst) != 0 {
                return;
            }
            self.show_once();
            nap = BETWEEN;
        }
        unreachable!()
    }

    // Writes the line, if there is one and the work has not ended.
    fn show_once(&self) {
        let mut line = Vec::new(self.rt.alloc());
        let is_made = self.append_line(&mut line).is_ok();
        let mut is_shown = self.is_shown.lock(self.waits);
        if is_made && !line.is_empty() && self.has_ended.load(Ordering::SeqCst) == 0 {
            say(self.rt, line.as_slice());
            *is_shown = self.is_terminal;
        }
    }

    // Appends the line. It is empty before the trace was read. On a terminal it begins with a carriage return, so that
    // it replaces the last one.
    fn append_line(&self, out: &mut Vec<u8>) -> Result<(), OutOfMemory> {
        let judged = self.judged.load(Ordering::SeqCst);
        let events = self.events.load(Ordering::SeqCst);
        if judged == 0 && events == 0 {
            return Ok(());
        }
        if self.is_terminal {
            out.extend_from_slice(b"\r")?;
        }
        if judged > 0 {
            append_judged(out, judged, self.pairs.load(Ordering::SeqCst))?;
        } else {
            append_pieces(out, &[Piece::Words(b"events "), Piece::Number(events)])?;
        }
        if !self.is_terminal {
            out.extend_from_slice(b"\n")?;
        }
        Ok(())
    }
}

// Appends how many pairs of locations have their verdict.
fn append_judged(out: &mut Vec<u8>, judged: u64, pairs: u64) -> Result<(), OutOfMemory> {
    append_pieces(
        out,
        &[
            Piece::Words(b"pairs of places "),
            Piece::Number(judged),
            Piece::Words(b" of "),
            Piece::Number(pairs),
        ],
    )
}

impl<R: Wait> Watch for Progress<'_, R> {
    fn read(&self, events: u32) {
        self.events.store(u64::from(events), Ordering::SeqCst);
    }

    fn known(&self, _has_block: bool) {}

    fn judged(&self, of: usize) {
        self.pairs.store(of as u64, Ordering::SeqCst);
        self.judged.fetch_add(1, Ordering::SeqCst);
    }

    fn end(&self) {
        self.has_ended.store(1, Ordering::SeqCst);
        self.has_ended.wake_all();
        let mut is_shown = self.is_shown.lock(self.waits);
        if *is_shown {
            say(self.rt, WIPE);
            *is_shown = false;
        }
    }
}
