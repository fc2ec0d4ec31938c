//! The windows of a trace of any length, one after another.

mod faults;
mod one;

use crate::front::{begun, events_of, read_on, room_of, threads_of, window_of};
use crate::pieces::{Pieces, Span, before};
use calls::BenchFault;
use calls::triage::Wholeness;
use client_scripts::ReplayFault;
use rapid_text::OutOfMemory;
use std::alloc::Global;
use window::{Front, FrontFault, Window};

/// The windows of a trace, as far as they were made. Each has `most` events at most.
#[derive(Drop)]
pub(crate) struct Windows {
    pieces: Pieces,
    front: Front,
    most: u32,
    // Why there are no more windows.
    fault: Option<BenchFault>,
    is_done: bool,
    short: u64,
    // The first lines of the next window, if they were found for the window before.
    found: Option<Span>,
    // How often the number of events was halved for the last window, because of too many threads.
    halvings: u32,
    // The most events to go past at once: twice as many as the last time.
    stride: u64,
}

/// Half of this number, rounded up.
fn half_of(count: usize) -> usize {
    (count / 2).saturating_add(count % 2)
}

/// More often than a number of events is halved and doubled for one window.
const HALVINGS: u32 = 128;

/// `most` events, halved this often; at least one.
fn halved(most: u32, halvings: u32) -> u32 {
    most.checked_shr(halvings).unwrap_or(0).max(1)
}

/// The result of trying to make a window of some lines.
#[derive(Drop)]
enum Tried {
    /// The window, if there is one.
    Made(Option<Window>),
    /// The lines fit into a window, and more lines may fit.
    Fits,
    /// With the threads that hold a lock, the lines have more threads than a trace may have.
    TooWide,
}

/// The lines of a window: `first`, which the next window does not have, and `all`.
#[derive(Clone, Copy)]
struct Spans {
    first: Span,
    all: Span,
}

impl Spans {
    /// The lines that the next window has too, after the first ones were taken away.
    fn rest(self) -> Span {
        Span {
            end: self.all.end.saturating_sub(self.first.end),
            events: self.all.events.saturating_sub(self.first.events),
        }
    }
}

impl Windows {
    /// Windows of which none was made yet.
    pub(crate) fn new(alloc: Global, pieces: Pieces, most: u32) -> Windows {
        Windows {
            pieces,
            front: begun(alloc),
            most,
            fault: None,
            is_done: false,
            short: 0,
            found: None,
            halvings: 0,
            stride: u64::MAX,
        }
    }

    /// If the trace begins with a byte order mark, writes a note on it. `path` is that of the trace.
    pub(crate) fn tell_mark(&self, rt: &HostRuntime, path: &str) {
        self.pieces.tell_mark(rt, path);
    }

    /// What the recording says of itself, as far as it was read.
    pub(crate) fn wholeness(&self, alloc: Global) -> Result<Wholeness, OutOfMemory> {
        self.pieces.wholeness(alloc)
    }

    /// What the whole recording says of itself. If it has marks, reads the rest of it.
    pub(crate) fn whole_wholeness(&mut self, alloc: Global) -> Result<Wholeness, ReplayFault> {
        if self.pieces.wholeness(alloc)?.is_marked() {
            self.pieces.read_rest()?;
        }
        Ok(self.pieces.wholeness(alloc)?)
    }

    /// How many windows have fewer events than requested although more follow.
    pub(crate) fn short(&self) -> u64 {
        self.short
    }

    /// How many events were read.
    pub(crate) fn events(&self) -> u64 {
        events_of(&self.front)
    }

    /// How many threads the events have that were read. Threads that are only forked or joined count.
    pub(crate) fn threads(&self, alloc: Global) -> Result<u64, OutOfMemory> {
        Ok(threads_of(alloc, &self.front)? as u64)
    }

    // How many events a window may have: the requested number, or fewer if the text before it takes room.
    fn room(&self) -> u32 {
        self.most.min(room_of(&self.front)).max(1)
    }

    /// The next window, or None after the last one. After a fault, returns that fault again.
    pub(crate) fn next(&mut self, alloc: Global) -> Result<Option<Window>, BenchFault> {
        match self.made_next(alloc) {
            Ok(next) => Ok(next),
            Err(fault) => {
                self.fault = Some(fault);
                Err(fault)
            }
        }
    }

    // The next window.
    fn made_next(&mut self, alloc: Global) -> Result<Option<Window>, BenchFault> {
        if let Some(fault) = self.fault {
            return Err(fault);
        }
        if self.is_done {
            return Ok(None);
        }
        let most = self.room();
        self.made(alloc, most)
    }

    // The lines of a window of `most` events, or of as many as can be kept.
    fn spans(&mut self, most: u32) -> Result<Spans, ReplayFault> {
        let half = half_of(most as usize);
        let first = self.first_span(half)?;
        if first.events < half {
            return self.spans_of(first);
        }
        let rest = self
            .pieces
            .span_kept(first.end, (most as usize).saturating_sub(half))?;
        let all = Span {
            end: rest.end,
            events: first.events.saturating_add(rest.events),
        };
        if all.events < most as usize {
            return self.spans_of(all);
        }
        Ok(Spans { first, all })
    }

    // The first lines, with `half` events, or with as many as can be kept.
    fn first_span(&mut self, half: usize) -> Result<Span, ReplayFault> {
        let found = self.found;
        self.found = None;
        match found {
            Some(span) => {
                if span.events > half {
                    return self.pieces.span_kept(0, half);
                }
                self.pieces.span_more(span, half)
            }
            None => self.pieces.span_kept(0, half),
        }
    }

    // All these lines, and the first ones, with half of their events.
    fn spans_of(&mut self, all: Span) -> Result<Spans, ReplayFault> {
        let first = self.pieces.span(0, half_of(all.events))?;
        Ok(Spans { first, all })
    }

    // The window of the events before this index.
    fn window_before(&self, alloc: Global, end: usize, most: u32) -> Result<Window, FrontFault> {
        window_of(alloc, &self.front, before(self.pieces.bytes(), end), most)
    }

    // The window of at most `most` events. If they have too many threads, the number is halved until they have few
    // enough. The search begins where it ended for the last window, so that each window costs no more than its events.
    fn made(&mut self, alloc: Global, most: u32) -> Result<Option<Window>, BenchFault> {
        let mut halvings = self.halvings.saturating_sub(1);
        let mut is_widest = halvings == 0;
        for _ in 0..HALVINGS {
            let spans = self.spans(halved(most, halvings))?;
            if spans.all.events == 0 {
                self.is_done = true;
                return Ok(None);
            }
            match self.tried(alloc, spans, most, is_widest)? {
                Tried::Made(window) => {
                    self.halvings = halvings;
                    return Ok(window);
                }
                Tried::Fits => {
                    halvings = halvings.saturating_sub(1);
                    is_widest = halvings == 0;
                }
                Tried::TooWide => {
                    self.check_width(spans.all)?;
                    halvings = halvings.saturating_add(1);
                    is_widest = true;
                }
            }
        }
        Err(BenchFault::NoSuchEvent)
    }

    // The window of all lines of `spans`, if they are the most that fit. If one of the lines is refused or breaks a
    // rule, it is the window of the lines before that one.
    fn tried(
        &mut self,
        alloc: Global,
        spans: Spans,
        most: u32,
        is_widest: bool,
    ) -> Result<Tried, BenchFault> {
        match self.window_before(alloc, spans.all.end, most) {
            Ok(window) => {
                if !is_widest {
                    return Ok(Tried::Fits);
                }
                Ok(Tried::Made(self.made_of(alloc, window, spans)?))
            }
            Err(FrontFault::TooManyThreads) => Ok(Tried::TooWide),
            Err(fault) => self.made_before(alloc, fault, most),
        }
    }

    // The window of the lines before the one that is refused or breaks a rule.
    fn made_before(
        &mut self,
        alloc: Global,
        fault: FrontFault,
        most: u32,
    ) -> Result<Tried, BenchFault> {
        let mut fault = fault;
        // There may be an event that breaks a rule before a line that is refused.
        for _ in 0..2 {
            let told = self.told_of(fault);
            self.fault = Some(told);
            let end = self.sound_end(fault);
            if end == 0 {
                return Err(told);
            }
            match self.window_before(alloc, end, most) {
                Ok(window) => return Ok(Tried::Made(self.ended(alloc, window, end)?)),
                Err(FrontFault::NoSuchEvent) => return Err(told),
                Err(FrontFault::TooManyThreads) => {
                    self.fault = None;
                    return Ok(Tried::TooWide);
                }
                Err(other) => fault = other,
            }
        }
        Err(self.told_of(fault))
    }

    // The last window, which has the lines before this index.
    fn ended(
        &mut self,
        alloc: Global,
        window: Window,
        end: usize,
    ) -> Result<Option<Window>, BenchFault> {
        self.go_on(alloc, end)?;
        Ok(Some(window))
    }

    // This window. Goes on, so that the next one can be made.
    fn made_of(
        &mut self,
        alloc: Global,
        window: Window,
        spans: Spans,
    ) -> Result<Option<Window>, BenchFault> {
        let covered = window.to.saturating_sub(window.from) as usize;
        self.go_past(alloc, covered, spans)?;
        Ok(Some(window))
    }

    // Goes past the lines that the next window does not have. `covered` is how many events the window has.
    fn go_past(&mut self, alloc: Global, covered: usize, spans: Spans) -> Result<(), BenchFault> {
        match self.pieces.is_end(spans.all.end) {
            Ok(is_last) => self.go_past_all(alloc, covered, spans, is_last),
            Err(fault) => {
                self.fault = Some(BenchFault::from(fault));
                Ok(())
            }
        }
    }

    // Goes past these lines. `is_last` says whether they are the last ones of the trace.
    fn go_past_all(
        &mut self,
        alloc: Global,
        covered: usize,
        spans: Spans,
        is_last: bool,
    ) -> Result<(), BenchFault> {
        let is_whole = covered >= spans.all.events;
        if !is_whole || (spans.all.events < self.most as usize && !is_last) {
            self.short = self.short.saturating_add(1);
        }
        if is_whole && is_last {
            self.is_done = true;
            self.go_on(alloc, spans.all.end)?;
        } else {
            let end = self.step(spans, covered)?;
            self.go_on(alloc, end)?;
            if end == spans.first.end {
                self.found = Some(spans.rest());
            }
            self.look_at_holds(covered);
        }
        Ok(())
    }

    // Ends the windows if a window of `covered` events is small beside what is held.
    fn look_at_holds(&mut self, covered: usize) {
        if let Err(fault) = self.check_holds(covered) {
            self.fault = Some(fault);
        }
    }

    // Where the lines end that the next window does not have.
    fn step(&mut self, spans: Spans, covered: usize) -> Result<usize, ReplayFault> {
        if covered >= spans.first.events {
            return Ok(spans.first.end);
        }
        Ok(self.pieces.span(0, half_of(covered).max(1))?.end)
    }

    // Goes past the lines before this index.
    fn go_on(&mut self, alloc: Global, end: usize) -> Result<(), BenchFault> {
        let gone = read_on(alloc, &mut self.front, before(self.pieces.bytes(), end));
        if let Err(fault) = gone {
            return Err(self.told_of(fault));
        }
        self.pieces.take(alloc, end)?;
        Ok(())
    }
}
