//! An accepted trace with its tables.
ghost use Rattle.std.specs.Prelude.{◌≡◌, ◌<◌, ◌≤◌, ◌↔◌, length, slice_get, All, IsTrue, IfOk, IfErr, IfSome, Some};
ghost use Rattle.rapid_text.specs.Recording.{IsNamed, IsWellFormed};
ghost use Rattle.trace_rules.specs.Rules.{IsDisciplined};
ghost use Rattle.event_index.specs.Events.{thread_at};
ghost use Rattle.event_index.specs.Lookups.{events_of, place_of, last_writer, fork_of, base_of, section_end};
ghost use Rattle.event_index.specs.Relations.{IsConflicting, IsIndependent, is_conflict, is_independent};

use crate::relations::{apart, clash};
use crate::tables::{Tables, tables_of};
use rapid_text::{Event, OutOfMemory};
use std::alloc::Global;
use std::marker::Model;
use trace_rules::Trace;

/// An accepted trace with its tables, so that each look-up has a constant cost.
#[derive(Drop)]
pub struct Indexed {
    trace: Trace,
    tables: Tables,
}

impl Model for Indexed {
    ghost use Rattle.rapid_text.specs.Recording.{Recording};

    ghost Value = { Recording };

    ghost use Rattle.event_index.specs.Layout.{IsSound};

    ghost view = { λ s. s.trace };

    ghost invariant = { IsSound };
}

impl Indexed {
    /// Makes the tables in passes over the events. If memory runs out, returns the trace.
    pub fn new(alloc: Global, trace: Trace) -> Result<Indexed, (Trace, OutOfMemory)>
        ensures ok { IfOk result (λ indexed. indexed ≡ trace) }
        ensures returned { IfErr result (λ refused. refused.0 ≡ trace) }
    {
        match tables_of(alloc, trace.raw()) {
            Ok(tables) => Ok(Indexed { trace, tables }),
            Err(error) => Err((trace, error)),
        }
    }

    /// The trace of this index.
    pub fn trace(&self) -> &Trace
        ensures same { result.now ≡ self.now }
        ensures well_formed { IsWellFormed self.now }
        ensures disciplined { IsDisciplined self.now.events }
    {
        &self.trace
    }

    /// The number of events, at most `MAX_EVENTS`.
    pub fn len(&self) -> u32
        ensures len { result ≡ length self.now.events }
        ensures well_formed { IsWellFormed self.now }
        ensures disciplined { IsDisciplined self.now.events }
    {
        self.trace.raw().len()
    }

    /// The number of threads, at most `MAX_THREADS`.
    pub fn threads(&self) -> u32
        ensures len { result ≡ length self.now.threads }
        ensures well_formed { IsWellFormed self.now }
        ensures disciplined { IsDisciplined self.now.events }
    {
        self.trace.raw().threads()
    }

    /// The number of variables, at most `MAX_EVENTS`.
    pub fn variables(&self) -> u32
        ensures len { result ≡ length self.now.variables }
        ensures well_formed { IsWellFormed self.now }
    {
        self.trace.raw().variables()
    }

    /// The number of locks, at most `MAX_EVENTS`.
    pub fn locks(&self) -> u32
        ensures len { result ≡ length self.now.locks }
        ensures well_formed { IsWellFormed self.now }
    {
        self.trace.raw().locks()
    }

    /// The event with this number, counted from 0.
    pub fn event(&self, event: u32) -> Event
        requires { event < length self.now.events }
        ensures found { slice_get self.now.events event ≡ Some result }
        ensures named { IsNamed self.now result }
        ensures well_formed { IsWellFormed self.now }
        ensures disciplined { IsDisciplined self.now.events }
    {
        self.trace.raw().event(event)
    }

    /// The event with this number, or None if the trace has no such event.
    pub fn get(&self, event: u32) -> Option<Event>
        ensures found { result ≡ slice_get self.now.events event }
        ensures named { IfSome result (IsNamed self.now) }
    {
        if event < self.len() {
            Some(self.event(event))
        } else {
            None
        }
    }

    /// The name of the thread.
    pub fn thread_name(&self, thread: u32) -> &[u8]
        requires { thread < length self.now.threads }
        ensures { slice_get self.now.threads thread ≡ Some result.now }
    {
        self.trace.raw().thread_name(thread)
    }

    /// The name of the variable.
    pub fn variable_name(&self, variable: u32) -> &[u8]
        requires { variable < length self.now.variables }
        ensures { slice_get self.now.variables variable ≡ Some result.now }
    {
        self.trace.raw().variable_name(variable)
    }

    /// The place of the event in its thread, counted from 0.
    pub fn place(&self, event: u32) -> u32
        requires { event < length self.now.events }
        ensures place { result ≡ place_of self.now.events event }
        ensures within { result < length self.now.events }
    {
        self.tables.places[event as usize]
    }

    /// The events of the thread, in the order of the trace.
    pub fn thread_events(&self, thread: u32) -> &[u32]
        requires { thread < length self.now.threads }
        ensures events { result.now ≡ events_of self.now.events thread }
        ensures within { All (λ e. e < length self.now.events) result.now }
        ensures thread { All (λ e. thread_at self.now.events e ≡ Some thread) result.now }
        ensures len { length result.now ≤ length self.now.events }
    {
        let start = self.tables.starts[thread as usize] as usize;
        let end = self.tables.starts[thread as usize + 1] as usize;
        &self.tables.grouped[start..end]
    }

    /// The write that the read sees. None if no write of the variable comes before the read, or if the event is not a
    /// read.
    pub fn last_writer(&self, event: u32) -> Option<u32>
        requires { event < length self.now.events }
        ensures writer { result ≡ last_writer self.now.events event }
        ensures earlier { IfSome result (λ w. w < event) }
    {
        self.tables.writers[event as usize]
    }

    /// The event that forks the thread, or None.
    pub fn fork_of(&self, thread: u32) -> Option<u32>
        requires { thread < length self.now.threads }
        ensures fork { result ≡ fork_of self.now.events thread }
        ensures within { IfSome result (λ f. f < length self.now.events) }
    {
        self.tables.forks[thread as usize]
    }

    /// The event before this one in its thread. For a thread's first event: the fork of the thread, or None.
    pub fn base(&self, event: u32) -> Option<u32>
        requires { event < length self.now.events }
        ensures base { result ≡ base_of self.now.events event }
        ensures earlier { IfSome result (λ b. b < event) }
    {
        self.tables.bases[event as usize]
    }

    /// The release that ends the critical section of an acquire: the first release after which the thread holds the
    /// lock as often as before the acquire. None if the section does not end, or if the event is not an acquire.
    pub fn section(&self, event: u32) -> Option<u32>
        requires { event < length self.now.events }
        ensures section { result ≡ section_end self.now.events event }
        ensures later { IfSome result (λ r. (event < r) × (r < length self.now.events)) }
    {
        self.tables.sections[event as usize]
    }

    /// Whether the two events are of different threads and access one variable, at least one of them with a write.
    pub fn conflict(&self, first: u32, second: u32) -> bool
        requires first { first < length self.now.events }
        requires second { second < length self.now.events }
        ensures conflict { IsTrue result ↔ IsConflicting self.now.events first second }
    {
        let raw = self.trace.raw();
        clash(raw.event(first), raw.event(second))
    }

    /// Whether the two events may swap wherever they are adjacent. They are of different threads, do not conflict,
    /// and are not on one lock. Neither forks or joins the other's thread, and they are not the fork and the join of
    /// one thread.
    pub fn independent(&self, first: u32, second: u32) -> bool
        requires first { first < length self.now.events }
        requires second { second < length self.now.events }
        ensures independent { IsTrue result ↔ IsIndependent self.now.events first second }
    {
        let raw = self.trace.raw();
        apart(raw.event(first), raw.event(second))
    }
}
