//! A trace whose events are not yet checked against the rules.
ghost use Rattle.std.specs.Prelude.{◌≡◌, ◌<◌, ◌≤◌, length, slice_get, Some};
ghost use Rattle.rapid_text.specs.Recording.{IsWellFormed, IsNamed};

use crate::event::Event;
use crate::names::{Names, TextKeyed};
use std::marker::Model;

/// The most events of a trace.
pub const MAX_EVENTS: usize = 1_048_576;
/// The most threads of a trace.
pub const MAX_THREADS: usize = 256;
/// The most bytes of a line, not counting the blanks at its ends.
pub const MAX_LINE: usize = 4_096;
/// The most bytes of a name.
pub const MAX_NAME: usize = 255;

/// A trace as its text has it. Only `parse` makes one, so each number in it has a name. `parse` reads the same trace
/// from its canonical text.
#[derive(Drop)]
pub struct RawTrace {
    pub(crate) events: Vec<Event>,
    pub(crate) threads: Names,
    pub(crate) variables: Names,
    pub(crate) locks: Names,
    // The locations of all events in one buffer, and for each event the span of its location.
    pub(crate) locations: Vec<u8>,
    pub(crate) spans: Vec<Span>,
}

/// A part of a buffer, from `start` up to `end`.
#[derive(Clone, Copy)]
pub(crate) struct Span {
    pub(crate) start: usize,
    pub(crate) end: usize,
}

impl Model for RawTrace {
    ghost use Rattle.rapid_text.specs.Recording.{Recording};

    ghost Value = { Recording };

    ghost use Rattle.rapid_text.specs.Layout.{recording_in, IsSound};

    ghost view = { recording_in };

    ghost invariant = { IsSound };
}

impl RawTrace {
    /// The number of events, at most `MAX_EVENTS`.
    pub fn len(&self) -> u32
        ensures len { result ≡ length self.now.events }
        ensures well_formed { IsWellFormed self.now }
    {
        self.events.len() as u32
    }

    /// The number of threads, at most `MAX_THREADS`.
    pub fn threads(&self) -> u32
        ensures len { result ≡ length self.now.threads }
        ensures well_formed { IsWellFormed self.now }
    {
        self.threads.len() as u32
    }

    /// The number of variables, at most the number of events.
    pub fn variables(&self) -> u32
        ensures len { result ≡ length self.now.variables }
        ensures well_formed { IsWellFormed self.now }
    {
        self.variables.len() as u32
    }

    /// The number of locks, at most the number of events.
    pub fn locks(&self) -> u32
        ensures len { result ≡ length self.now.locks }
        ensures well_formed { IsWellFormed self.now }
    {
        self.locks.len() as u32
    }

    /// The event with this number, counted from 0.
    pub fn event(&self, event: u32) -> Event
        requires { event < length self.now.events }
        ensures found { slice_get self.now.events event ≡ Some result }
        ensures named { IsNamed self.now result }
    {
        self.events[event as usize]
    }

    /// The name of the thread with this number.
    pub fn thread_name(&self, thread: u32) -> &[u8]
        requires { thread < length self.now.threads }
        ensures { slice_get self.now.threads thread ≡ Some result.now }
    {
        self.threads[thread as usize].as_slice()
    }

    /// The name of the variable with this number.
    pub fn variable_name(&self, variable: u32) -> &[u8]
        requires { variable < length self.now.variables }
        ensures { slice_get self.now.variables variable ≡ Some result.now }
    {
        self.variables[variable as usize].as_slice()
    }

    /// The name of the lock with this number.
    pub fn lock_name(&self, lock: u32) -> &[u8]
        requires { lock < length self.now.locks }
        ensures { slice_get self.now.locks lock ≡ Some result.now }
    {
        self.locks[lock as usize].as_slice()
    }

    /// The location of the event with this number, without the blanks at its ends. It may be empty.
    pub fn location(&self, event: u32) -> &[u8]
        requires { event < length self.now.events }
        ensures { slice_get self.now.locations event ≡ Some result.now }
    {
        let span = self.spans[event as usize];
        &self.locations[span.start..span.end]
    }

    /// Hashers for tables of names or locations that are kept beside the trace. All its names and locations are part
    /// of their key. Contracts say nothing about the hashes.
    pub fn keyed(&self) -> TextKeyed {
        self.threads.hasher().with(&self.locations)
    }
}
