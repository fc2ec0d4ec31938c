//! One window of a trace of any length. It begins at an event with any number.

use super::{HALVINGS, Windows, halved};
use crate::front::{events_of, read_on, room_of};
use crate::pieces::{Span, before};
use calls::BenchFault;
use std::alloc::Global;
use window::{FrontFault, Window};

impl Windows {
    // Goes past these lines, or past the first ones if they have too many threads. Returns how many events it went past.
    fn go_on_by(&mut self, alloc: Global, span: Span) -> Result<usize, BenchFault> {
        let mut span = span;
        for _ in 0..HALVINGS {
            let more = before(self.pieces.bytes(), span.end);
            match read_on(alloc, &mut self.front, more) {
                Ok(()) => {
                    self.stride = (span.events as u64).saturating_mul(2).max(1);
                    self.pieces.take(alloc, span.end)?;
                    return Ok(span.events);
                }
                Err(FrontFault::TooManyThreads) => span = self.half_span(span)?,
                Err(fault) => return Err(self.told_of(fault)),
            }
        }
        Err(self.told_wide(span.end))
    }

    // The first half of the lines of the span, if they have more than one event.
    fn half_span(&mut self, span: Span) -> Result<Span, BenchFault> {
        if span.events <= 1 {
            return Err(self.told_wide(span.end));
        }
        Ok(self.pieces.span(0, span.events / 2)?)
    }

    /// The window that begins at the event with this number; None if there is no such event.
    pub(crate) fn at(&mut self, alloc: Global, number: u64) -> Result<Option<Window>, BenchFault> {
        for _ in 0..number.saturating_add(1) {
            let left = number.saturating_sub(events_of(&self.front));
            if left == 0 {
                return self.one(alloc);
            }
            let room = u64::from(room_of(&self.front).max(1)).min(self.stride);
            let span = self.pieces.span_kept(0, left.min(room) as usize)?;
            if span.events == 0 {
                return Ok(None);
            }
            let events = self.go_on_by(alloc, span)?;
            if events_of(&self.front) < number {
                self.check_holds(events)?;
            }
        }
        Ok(None)
    }

    // The window of the events after what was read.
    fn one(&mut self, alloc: Global) -> Result<Option<Window>, BenchFault> {
        let most = self.room();
        for halvings in 0..HALVINGS {
            let span = self.pieces.span_kept(0, halved(most, halvings) as usize)?;
            if span.events == 0 {
                return Ok(None);
            }
            match self.window_before(alloc, span.end, most) {
                Ok(window) => return Ok(Some(window)),
                Err(FrontFault::TooManyThreads) => self.check_width(span)?,
                Err(fault) => return Err(self.told_of(fault)),
            }
        }
        Err(BenchFault::NoSuchEvent)
    }
}
