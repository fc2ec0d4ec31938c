//! Collects the events of a text while it is read.
ghost use Rattle.std.specs.Prelude.{◌≡◌, ◌+◌, ◌<◌, ◌^◌, [], ◌∷◌, ◌++◌, None, Ok, length, OnOk, IfOk, IfErr};
ghost use Rattle.rapid_text.specs.Canonical.{canonical_text};
ghost use Rattle.rapid_text.specs.Growth.{fault_beyond, with_event, with_operand, HasRoom};
ghost use Rattle.rapid_text.specs.LineLayout.{named_in};
ghost use Rattle.rapid_text.specs.Reading.{numbered_op, reading_of, recording_of};
ghost use Rattle.rapid_text.specs.Recorded.{recorded, AreParts, IsReady, StopsFor};

use crate::event::{Event, Kind, Op};
use crate::line::Fields;
use crate::memory::OutOfMemory;
use crate::names::{NameTable, TextKeyed};
use crate::raw_trace::{MAX_EVENTS, MAX_THREADS, RawTrace, Span};
use crate::refusal::TextCause;
use std::alloc::Global;

/// Why the reading stops.
#[derive(Clone, Copy)]
pub(crate) enum Stop {
    /// A line is refused.
    Fault(TextCause),
    /// Memory ran out.
    Memory,
}

impl From<OutOfMemory> for Stop {
    ghost use Rattle.std.specs.Prelude.{◌≡◌};
    ghost use Rattle.rapid_text.specs.declared.recorder.Stop.TheVariants.{Memory};

    ghost from_gives = { λ error stop. stop ≡ Memory };

    fn from(_error: OutOfMemory) -> Stop {
        Stop::Memory
    }
}

/// What has been read of a text so far.
#[derive(Drop)]
pub(crate) struct Recorder {
    pub(crate) events: Vec<Event>,
    pub(crate) threads: NameTable,
    pub(crate) variables: NameTable,
    pub(crate) locks: NameTable,
    pub(crate) locations: Vec<u8>,
    pub(crate) spans: Vec<Span>,
    alloc: Global,
}

impl Recorder {
    /// A recorder before the first line, whose tables of names use these hashers.
    pub(crate) fn new(alloc: Global, hashers: TextKeyed) -> Recorder
        ensures nothing { recorded result ≡ recording_of [] }
        ensures ready { IsReady result }
    {
        Recorder {
            events: Vec::new(alloc),
            threads: NameTable::new(alloc, hashers),
            variables: NameTable::new(alloc, hashers),
            locks: NameTable::new(alloc, hashers),
            locations: Vec::new(alloc),
            spans: Vec::new(alloc),
            alloc,
        }
    }

    /// The operation with a number instead of the name. If the name is new, the call appends it to its table.
    fn number_operation(&mut self, kind: Kind, name: &[u8]) -> Result<Op, OutOfMemory>
        requires { HasRoom (recorded self.old) }
        ensures names { OnOk result
            (recorded self.new ≡ with_operand (recorded self.old) kind name.now) }
        ensures number { IfOk result (λ op.
            op ≡ numbered_op
            (recorded self.new).threads
            (recorded self.new).variables
            (recorded self.new).locks
            kind
            name.now) }
        ensures parts { AreParts self.old → AreParts self.new }
    {
        let alloc = self.alloc;
        Ok(match kind {
            Kind::Reads => Op::Read(self.variables.number(alloc, name)?),
            Kind::Writes => Op::Write(self.variables.number(alloc, name)?),
            Kind::Acquires => Op::Acquire(self.locks.number(alloc, name)?),
            Kind::Releases => Op::Release(self.locks.number(alloc, name)?),
            Kind::Forks => Op::Fork(self.threads.number(alloc, name)?),
            Kind::Joins => Op::Join(self.threads.number(alloc, name)?),
        })
    }

    /// Appends the event with this location.
    fn put_last(&mut self, event: Event, location: &[u8]) -> Result<(), OutOfMemory>
        requires { AreParts self.old }
        ensures ok { OnOk result
            (recorded self.new
            ≡ record (recorded self.old) {
              events = (recorded self.old).events ++ event ∷ [];
              locations = (recorded self.old).locations ++ location.now ∷ [];
            }) }
        ensures parts { OnOk result (AreParts self.new) }
    {
        let start = self.locations.len();
        self.locations.extend_from_slice(location)?;
        let end = self.locations.len();
        self.spans.push(Span { start, end })?;
        self.events.push(event)?;
        Ok(())
    }

    /// Records one more event, if there is room for it.
    pub(crate) fn record(&mut self, fields: Fields<'_>) -> Result<(), Stop>
        requires { IsReady self.old }
        ensures allowed { OnOk result (fault_beyond (recorded self.old) (named_in fields.entry) ≡ None) }
        ensures ok { OnOk result
            (recorded self.new ≡ with_event (recorded self.old) (named_in fields.entry)) }
        ensures ready { OnOk result (IsReady self.new) }
        ensures refused { IfErr result (StopsFor (fault_beyond (recorded self.old) (named_in fields.entry))) }
    {
        if self.events.len() >= MAX_EVENTS {
            return Err(Stop::Fault(TextCause::TooManyEvents));
        }
        let thread = self.threads.number(self.alloc, fields.thread)?;
        let op = self.number_operation(fields.kind, fields.name)?;
        // counted after the names are in the tables, so that no name is looked up twice
        if self.threads.names.len() > MAX_THREADS {
            return Err(Stop::Fault(TextCause::TooManyNames));
        }
        self.put_last(Event { thread, op }, fields.location)?;
        Ok(())
    }

    /// The trace of all lines that were read.
    pub(crate) fn finish(self) -> RawTrace
        requires ready { IsReady self }
        requires reads_back { reading_of (canonical_text (recorded self)) ≡ Ok (recorded self) }
        ensures { result ≡ recorded self }
    {
        RawTrace {
            events: self.events,
            threads: self.threads.names,
            variables: self.variables.names,
            locks: self.locks.names,
            locations: self.locations,
            spans: self.spans,
        }
    }
}
