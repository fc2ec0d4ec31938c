//! Reads a trace of any length in pieces of whole lines.
ghost use Rattle.std.specs.Prelude.{◌≤◌, length};

use crate::ends::Ends;
use crate::input::{Input, input_at};
use crate::marked::tell_mark;
use calls::triage::Wholeness;
use client_scripts::{LIMIT, ReadCause, ReplayFault, Source};
use memchr::memchr;
use rapid_text::{OutOfMemory, trim, trim_start};
use std::alloc::Global;

/// How many bytes are read at a time.
const CHUNK: usize = 65_536;

/// More than the number of bytes that are kept. So no loop over reads or lines takes that many turns.
const READS: usize = LIMIT + 2;

/// Lines that were read and not taken yet, and the input that gives more.
#[derive(Drop)]
pub(crate) struct Pieces {
    input: Input,
    bytes: Vec<u8>,
    is_ended: bool,
    ends: Ends,
}

/// Some lines: where they end, and how many events they have.
#[derive(Clone, Copy)]
pub(crate) struct Span {
    pub(crate) end: usize,
    pub(crate) events: usize,
}

/// No lines, at this index.
fn empty_at(start: usize) -> Span {
    Span {
        end: start,
        events: 0,
    }
}

/// Whether the line is an event, or is refused. These are all lines except empty ones and bounds of atomic blocks.
/// `line` has its line feed, which is removed first, since `trim` does not take it for a blank.
fn is_event(line: &[u8]) -> bool {
    let line = trim(before(line, line.len().saturating_sub(1)));
    match memchr(b'|', line) {
        Some(bar) => {
            let operation = trim_start(behind(line, bar));
            !operation.starts_with(b"begin") && !operation.starts_with(b"end")
        }
        None => !line.is_empty(),
    }
}

/// What comes after this index.
fn behind(bytes: &[u8], at: usize) -> &[u8] {
    from(bytes, at.saturating_add(1))
}

/// What comes from this index on.
pub(crate) fn from(bytes: &[u8], at: usize) -> &[u8] {
    &bytes[at.min(bytes.len())..]
}

/// What comes before this index.
pub(crate) fn before(bytes: &[u8], at: usize) -> &[u8] {
    &bytes[..at.min(bytes.len())]
}

/// Where the first line from `from_place` on ends. No line ends between there and `looked`, so the search begins there.
fn line_end(bytes: &[u8], from_place: usize, looked: usize) -> Option<usize> {
    let start = from_place.max(looked);
    let at = memchr(b'\n', from(bytes, start))?;
    Some(start.saturating_add(at).saturating_add(1))
}

/// Where the line with this number ends, counted from 1; the end of the last line if there are fewer. 0 for number 0.
pub(crate) fn end_of_line(bytes: &[u8], number: u64) -> usize {
    let mut end = 0;
    for _ in 0..number {
        match line_end(bytes, end, end) {
            Some(next) => end = next,
            None => return end,
        }
    }
    end
}

/// How many lines end before this index.
pub(crate) fn lines_before(bytes: &[u8], at: usize) -> u64 {
    let mut lines = 0u64;
    for byte in before(bytes, at).iter() {
        if *byte == b'\n' {
            lines = lines.saturating_add(1);
        }
    }
    lines
}

/// Where the line of the event with this number begins. Events are counted from 0.
pub(crate) fn start_of_event(bytes: &[u8], number: u64) -> usize {
    let mut start = 0;
    let mut met = 0u64;
    for _ in 0..bytes.len() {
        let Some(end) = line_end(bytes, start, start) else {
            return start;
        };
        if is_event(from(before(bytes, end), start)) {
            if met == number {
                return start;
            }
            met = met.saturating_add(1);
        }
        start = end;
    }
    start
}

impl Pieces {
    /// An input of which nothing was read yet.
    pub(crate) fn new(alloc: Global, input: Input) -> Pieces {
        Pieces {
            input,
            bytes: Vec::new(alloc),
            is_ended: false,
            ends: Ends::new(alloc),
        }
    }

    /// If the trace begins with a byte order mark, writes a note on it. `path` is that of the trace.
    pub(crate) fn tell_mark(&self, rt: &HostRuntime, path: &str) {
        tell_mark(rt, &self.input, path);
    }

    /// What was read and not taken yet.
    pub(crate) fn bytes(&self) -> &[u8] {
        self.bytes.as_slice()
    }

    /// Takes away what comes before this index.
    pub(crate) fn take(&mut self, alloc: Global, end: usize) -> Result<(), ReplayFault> {
        let left = Vec::from_slice(alloc, from(self.bytes.as_slice(), end))?;
        self.bytes = left;
        Ok(())
    }

    // Reads more, if there is room for a whole chunk. At the end of the input, the last line gets an end if it has
    // none.
    fn read_on(&mut self) -> Result<(), ReplayFault> {
        if self.bytes.len().saturating_add(CHUNK) > LIMIT {
            return Err(unread(ReadCause::TooLong));
        }
        let mut chunk = [0u8; CHUNK];
        let count = match self.input.read(&mut chunk) {
            Ok(count) => count,
            Err(_) => return Err(unread(ReadCause::Device)),
        };
        if count == 0 {
            return self.end();
        }
        self.note(before(&chunk, count))?;
        self.bytes.extend_from_slice(before(&chunk, count))?;
        Ok(())
    }

    // Notes the bytes that were read, for the marks of the recording.
    fn note(&mut self, bytes: &[u8]) -> Result<(), OutOfMemory> {
        self.ends.note(*self.bytes.allocator(), bytes)
    }

    /// What the recording says of itself, as far as it was read.
    pub(crate) fn wholeness(&self, alloc: Global) -> Result<Wholeness, OutOfMemory> {
        self.ends.wholeness(alloc)
    }

    /// Reads the rest of the input, and keeps none of it.
    pub(crate) fn read_rest(&mut self) -> Result<(), ReplayFault> {
        for _ in 0..u64::MAX {
            if self.is_ended || !self.read_past()? {
                return Ok(());
            }
        }
        Ok(())
    }

    // Reads some bytes, and keeps none. Returns whether there were any.
    fn read_past(&mut self) -> Result<bool, ReplayFault> {
        let mut chunk = [0u8; CHUNK];
        match self.input.read(&mut chunk) {
            Ok(count) => {
                self.note(before(&chunk, count))?;
                Ok(count > 0)
            }
            Err(_) => Err(unread(ReadCause::Device)),
        }
    }

    // Notes that the input has ended.
    fn end(&mut self) -> Result<(), ReplayFault> {
        self.is_ended = true;
        if !self.bytes.is_empty() && !self.bytes.ends_with(b"\n") {
            self.bytes.extend_from_slice(b"\n")?;
        }
        Ok(())
    }

    // Where the line from this index on ends; None at the end of the input.
    fn next_line(&mut self, start: usize) -> Result<Option<usize>, ReplayFault> {
        let mut looked = start;
        for _ in 0..READS {
            if let Some(end) = line_end(self.bytes.as_slice(), start, looked) {
                return Ok(Some(end));
            }
            if self.is_ended {
                return Ok(None);
            }
            looked = self.bytes.len();
            self.read_on()?;
        }
        Err(unread(ReadCause::TooLong))
    }

    /// The lines from this index on, up to the last of `events` events, or to the end of the input.
    pub(crate) fn span(&mut self, start: usize, events: usize) -> Result<Span, ReplayFault> {
        let mut span = empty_at(start);
        for _ in 0..READS {
            if span.events >= events {
                return Ok(span);
            }
            match self.next_line(span.end)? {
                Some(end) => span = self.with_line(span, end),
                None => return Ok(span),
            }
        }
        Ok(span)
    }

    /// The same; fewer lines, if no more can be kept at once.
    pub(crate) fn span_kept(&mut self, start: usize, events: usize) -> Result<Span, ReplayFault> {
        self.span_more(empty_at(start), events)
    }

    /// The same, if these first lines were found before.
    pub(crate) fn span_more(&mut self, found: Span, events: usize) -> Result<Span, ReplayFault> {
        let mut span = found;
        for _ in 0..READS {
            if span.events >= events {
                return Ok(span);
            }
            match self.next_line(span.end) {
                Ok(Some(end)) => span = self.with_line(span, end),
                Ok(None) => return Ok(span),
                Err(fault) => {
                    if is_full(fault) && (found.end > 0 || span.events > 0) {
                        return Ok(span);
                    }
                    return Err(fault);
                }
            }
        }
        Ok(span)
    }

    // The span with one line more, which ends at this index.
    fn with_line(&self, span: Span, end: usize) -> Span {
        let line = from(before(self.bytes.as_slice(), end), span.end);
        let more = if is_event(line) { 1 } else { 0 };
        Span {
            end,
            events: span.events.saturating_add(more),
        }
    }

    /// Whether no event comes after this index. False if no more lines can be kept.
    pub(crate) fn is_end(&mut self, start: usize) -> Result<bool, ReplayFault> {
        match self.span(start, 1) {
            Ok(more) => Ok(more.events == 0),
            Err(fault) => {
                if is_full(fault) && start > 0 {
                    return Ok(false);
                }
                Err(fault)
            }
        }
    }
}

/// The trace in a file, of which nothing was read yet.
pub(crate) fn pieces_at(rt: &HostRuntime, path: &str) -> Pieces {
    Pieces::new(rt.alloc(), input_at(rt, path))
}

/// Whether the fault is that no more can be kept.
fn is_full(fault: ReplayFault) -> bool {
    match fault {
        ReplayFault::Read { input: _, why } => why == ReadCause::TooLong,
        _ => false,
    }
}

/// 94: the trace was not read.
fn unread(why: ReadCause) -> ReplayFault {
    ReplayFault::Read { input: 1, why }
}
