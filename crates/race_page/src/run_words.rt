//! The schedule of a race in words: all its runs, or the last ones of a long schedule.
use crate::page::Page;
use crate::shown::Shown;
use crate::words::cut_line;
use event_index::Indexed;
use explain_report::{How, Verdict, explain_text, runs_of};
use itoa::Buffer;
use rapid_text::OutOfMemory;
use std::alloc::Global;

/// If a schedule has at most this many runs, all are written. `explain` also prints all of so few.
const FEW_RUNS: usize = 11;

/// If a schedule has more runs than this, only the last ones are written.
const MOST_RUNS: usize = 100;

/// If a schedule of more than eleven runs has more events than this, only the last runs are written. So few events are
/// listed in the description of its picture too.
const MOST_EVENTS: usize = 2_000;

/// The most bytes of a text with all runs, if there are more than eleven runs.
const MOST_BYTES: usize = 16_384;

/// The most bytes of the last runs, if not all are written.
const LAST_BYTES: usize = 4_096;

/// The text for a schedule: the verdict, the two accesses, and runs.
#[derive(Drop)]
pub(crate) struct Words {
    text: Vec<u8>,
    is_all: bool,
}

impl Words {
    /// No words yet.
    pub(crate) fn new(alloc: Global) -> Words {
        Words {
            text: Vec::new(alloc),
            is_all: false,
        }
    }

    /// The lines.
    pub(crate) fn text(&self) -> &[u8] {
        self.text.as_slice()
    }

    /// Whether all runs are written.
    pub(crate) fn is_all(&self) -> bool {
        self.is_all
    }

    /// Writes the text for the schedule of some events. All runs are written if they are few, or if the schedule is
    /// short and its text has at most 16,384 bytes.
    pub(crate) fn fill(
        &mut self,
        page: &Page<'_>,
        how: How,
        events: &[u32],
        shown: Shown,
    ) -> Result<(), OutOfMemory> {
        let runs = count_runs(*self.text.allocator(), page.indexed(), events)?;
        if is_short(runs, events.len()) {
            explain(&mut self.text, page, how, (events, true), shown)?;
            if runs <= FEW_RUNS || self.text.len() <= MOST_BYTES {
                self.is_all = true;
                return Ok(());
            }
            self.text.clear();
        }
        let mut text = Vec::new(*self.text.allocator());
        explain(&mut text, page, how, (events, false), shown)?;
        self.append_last(&text, runs)
    }

    /// Appends the lines before the runs, and the last runs that fit. If others come before these, a line says how
    /// many.
    fn append_last(&mut self, text: &[u8], runs: usize) -> Result<(), OutOfMemory> {
        let told = behind_head(text);
        let last = last_that_fit(told);
        let head = text.len().saturating_sub(told.len());
        self.text.extend_from_slice(&text[..head])?;
        if last.len() < told.len() {
            append_left(&mut self.text, runs.saturating_sub(run_lines(last)))?;
        }
        self.text.extend_from_slice(last)?;
        Ok(())
    }
}

/// The number of runs of the schedule.
fn count_runs(alloc: Global, indexed: &Indexed, events: &[u32]) -> Result<usize, OutOfMemory> {
    match runs_of(alloc, indexed, events) {
        Ok(runs) => Ok(runs.len()),
        Err(refused) => Err(refused),
    }
}

/// Whether a schedule with this number of runs and events may have all its runs in words.
fn is_short(runs: usize, events: usize) -> bool {
    runs <= FEW_RUNS || (runs <= MOST_RUNS && events <= MOST_EVENTS)
}

/// Appends what `explain` prints of a race; of its schedule the flag says whether all runs.
fn explain(
    out: &mut Vec<u8>,
    page: &Page<'_>,
    how: How,
    schedule: (&[u32], bool),
    shown: Shown,
) -> Result<(), OutOfMemory> {
    let verdict = Verdict::Race {
        how,
        events: schedule.0,
        all: schedule.1,
    };
    explain_text(page.analysis(), &verdict, (shown.first, shown.second), out)
}

/// The text from its first run on.
fn behind_head(text: &[u8]) -> &[u8] {
    let mut rest = text;
    for _line in 0..text.len() {
        if rest.is_empty() || rest.starts_with(b"run") {
            break;
        }
        let (_, behind) = cut_line(rest);
        rest = behind;
    }
    rest
}

/// The last runs that fit.
fn last_that_fit(runs: &[u8]) -> &[u8] {
    let mut rest = runs;
    for _line in 0..runs.len() {
        if rest.is_empty() || (rest.len() <= LAST_BYTES && rest.starts_with(b"run")) {
            break;
        }
        let (_, behind) = cut_line(rest);
        rest = behind;
    }
    rest
}

/// The number of runs in these lines.
fn run_lines(lines: &[u8]) -> usize {
    let mut count = 0usize;
    let mut rest = lines;
    for _line in 0..lines.len() {
        if rest.is_empty() {
            break;
        }
        if rest.starts_with(b"run ") {
            count = count.saturating_add(1);
        }
        let (_, behind) = cut_line(rest);
        rest = behind;
    }
    count
}

/// Appends the line for the runs that are left out.
fn append_left(out: &mut Vec<u8>, left: usize) -> Result<(), OutOfMemory> {
    let mut digits = Buffer::new();
    out.extend_from_slice(b"runs 1 to ")?;
    out.extend_from_slice(digits.format(left).as_bytes())?;
    out.extend_from_slice(b" are left out here; racebench witness prints all events\n")?;
    Ok(())
}
