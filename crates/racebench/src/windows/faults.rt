//! Why no window is made of the next lines of a trace.

use super::Windows;
use crate::front::{events_of, held_of, lines_of};
use crate::pieces::{Span, end_of_line, lines_before, start_of_event};
use calls::BenchFault;
use client_scripts::{ReadCause, ReplayFault};
use rapid_text::{TextCause, TextRefusal};
use trace_rules::RuleRefusal;
use window::FrontFault;

/// How many acquires may be held where a window begins that has few events.
const FREE_HOLDS: u64 = 4_096;

/// How many acquires may be held where a window begins, for each event that the window before it has.
const HOLDS_AN_EVENT: u64 = 4;

/// How many acquires may be held where a window begins, by the events of the window before it.
fn most_held(events: usize) -> u64 {
    FREE_HOLDS.max(HOLDS_AN_EVENT.saturating_mul(events as u64))
}

/// The fault of a refused line.
fn refused_line(line: u64, why: TextCause) -> BenchFault {
    BenchFault::Replay(ReplayFault::from(TextRefusal { line, why }))
}

impl Windows {
    // Where the lines end that come before the line that is refused or breaks a rule.
    pub(super) fn sound_end(&self, fault: FrontFault) -> usize {
        let bytes = self.pieces.bytes();
        match fault {
            FrontFault::Text { line, why: _ } => {
                let number = line.saturating_sub(lines_of(&self.front));
                end_of_line(bytes, number.saturating_sub(1))
            }
            FrontFault::Rule { event, why: _ } => {
                start_of_event(bytes, event.saturating_sub(events_of(&self.front)))
            }
            _ => 0,
        }
    }

    // The fault, as it is printed.
    pub(super) fn told_of(&self, fault: FrontFault) -> BenchFault {
        match fault {
            FrontFault::Text { line, why } => refused_line(line, why),
            FrontFault::Rule { event, why } => {
                let event = u32::try_from(event).unwrap_or(u32::MAX);
                BenchFault::Replay(ReplayFault::from(RuleRefusal { event, why }))
            }
            FrontFault::Unended => BenchFault::Replay(ReplayFault::Read {
                input: 1,
                why: ReadCause::Device,
            }),
            FrontFault::NoSuchEvent => BenchFault::NoSuchEvent,
            FrontFault::NoName => BenchFault::NoName,
            FrontFault::TooManyThreads => refused_line(
                lines_of(&self.front).saturating_add(1),
                TextCause::TooManyNames,
            ),
            FrontFault::TooLong => refused_line(
                lines_of(&self.front).saturating_add(1),
                TextCause::TooManyEvents,
            ),
            FrontFault::OutOfMemory => BenchFault::Replay(ReplayFault::OutOfMemory),
        }
    }

    // The fault of the event at the end of some lines. With the threads that hold a lock, they have more threads than
    // a trace may have.
    pub(super) fn told_wide(&self, end: usize) -> BenchFault {
        let lines = lines_before(self.pieces.bytes(), end);
        let line = lines_of(&self.front).saturating_add(lines);
        refused_line(line, TextCause::TooManyNames)
    }

    // The fault of lines that have too many threads, if they have only one event.
    pub(super) fn check_width(&self, all: Span) -> Result<(), BenchFault> {
        if all.events > 1 {
            return Ok(());
        }
        Err(self.told_wide(all.end))
    }

    // The fault of too many events, if more acquires are held than windows of `events` events may begin with.
    // Because each window begins with all held acquires, many small windows would cost far more than the trace is long.
    pub(super) fn check_holds(&self, events: usize) -> Result<(), BenchFault> {
        if held_of(&self.front) <= most_held(events) {
            return Ok(());
        }
        Err(self.told_of(FrontFault::TooLong))
    }
}
