//! The events below the three cuts, for one later event of a thread after the other.
ghost use Rattle.std.specs.Prelude.{◌≡◌, ℕ, ◌+◌, ◌<◌, IfOk, length};
ghost use Rattle.event_index.specs.Lookups.{events_of};
ghost use Rattle.race_groups.specs.Basis.{AreFrontsBefore, IsBasis, AreMovedTo};

use crate::basis::Basis;
use crate::counting::{Classed, Front, Later};
use crate::cuts::{Forced, Known};
use crate::passing::Passed;
use crate::shares::Loose;
use rapid_text::OutOfMemory;
use std::alloc::Global;

/// The events that are earlier in the trace, and the fronts of the other two cuts.
#[derive(Drop)]
pub(crate) struct Fronts {
    pub(crate) earlier: Passed,
    pub(crate) known: Front,
    pub(crate) forced: Front,
}

impl Fronts {
    /// The fronts before any event is counted.
    pub(crate) fn new(alloc: Global, basis: Basis<'_>) -> Result<Fronts, OutOfMemory>
        ensures { IfOk result (λ fronts. (thread : ℕ) → AreFrontsBefore basis.entry thread 0 fronts) }
    {
        let threads = basis.indexed.threads() as usize;
        let size = basis.classes.infos.as_slice().len();
        Ok(Fronts {
            earlier: Passed::new(alloc, size)?,
            known: Front::new(alloc, threads, size)?,
            forced: Front::new(alloc, threads, size)?,
        })
    }

    /// Passes the event at this index of the thread, and the events before it. The other two fronts stay; a later
    /// event moves them.
    pub(crate) fn pass(&mut self, basis: Basis<'_>, thread: u32, at: usize)
        requires basis { IsBasis basis }
        requires thread { thread < length basis.indexed.now.threads }
        requires at { at < length (events_of basis.indexed.now.events thread) }
        requires fronts { AreFrontsBefore basis thread at self.old }
        ensures fronts { AreFrontsBefore basis.entry thread (at + 1) self.new }
    {
        let numbers = basis.classes.numbers.as_slice();
        self.earlier.pass(basis.indexed, numbers, thread, at);
    }

    /// Moves the fronts to the ends of the event at this index of the thread.
    pub(crate) fn advance(&mut self, basis: Basis<'_>, thread: u32, at: usize)
        requires basis { IsBasis basis }
        requires thread { thread < length basis.indexed.now.threads }
        requires at { at < length (events_of basis.indexed.now.events thread) }
        requires fronts { AreFrontsBefore basis thread at self.old }
        ensures fronts { AreFrontsBefore basis.entry thread (at + 1) self.new }
        ensures moved { AreMovedTo basis.entry thread at self.new }
    {
        let indexed = basis.indexed;
        let event = indexed.thread_events(thread)[at];
        let numbers = basis.classes.numbers.as_slice();
        let classed = Classed { indexed, numbers };
        let later = Later { event, thread };
        let known = Known {
            indexed,
            clocks: basis.clocks,
        };
        let forced = Forced {
            indexed,
            rows: basis.forced,
        };
        self.known.advance(classed, &known, later);
        self.forced.advance(classed, &forced, later);
        self.earlier.pass(indexed, numbers, thread, at);
    }

    /// The counts from which the loose pairs follow.
    pub(crate) fn loose(&self) -> Loose<'_>
        ensures earlier { result.earlier.now ≡ self.now.earlier.counts.items }
        ensures known { result.known.now ≡ self.now.known.counts.items }
        ensures forced { result.forced.now ≡ self.now.forced.counts.items }
    {
        Loose {
            earlier: self.earlier.counts.as_slice(),
            known: self.known.counts.as_slice(),
            forced: self.forced.counts.as_slice(),
        }
    }
}
