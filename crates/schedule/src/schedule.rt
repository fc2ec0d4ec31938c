//! A schedule: a correct reordering of its trace.
ghost use Rattle.std.specs.Prelude.{◌≡◌, ◌+◌, ◌<◌, ◌≤◌, ◌↔◌, length, take, [], ◌∷◌, ◌++◌, IsOk, IsTrue, IfOk, OnOk, OnErr, IfErr, Err, IfSome, None, Some};
ghost use Rattle.rapid_text.specs.Recording.{IsWellFormed};
ghost use Rattle.trace_rules.specs.Rules.{IsDisciplined};
ghost use Rattle.event_index.specs.Events.{thread_at};
ghost use Rattle.schedule.specs.Faults.{IsListRefusal};
ghost use Rattle.schedule.specs.Refusals.{next_of, refusal_of, IsRefusalOf, NamesHolder};
ghost use Rattle.schedule.specs.Reordering.{IsCorrectReordering, IsEnabled};
ghost use Rattle.schedule.specs.Shows.{Shows, does_show};
ghost use Rattle.schedule.specs.Tables.{AreTables};
ghost use Rattle.schedule.specs.Swaps.{exchanged, swap_refusal, MayExchange};
ghost use Rattle.schedule.specs.declared.refusal.PrefixRefusal.TheVariants.{TooShort};
ghost use Rattle.schedule.specs.declared.refusal.SwapRefusal.TheVariants.{NoSuchPair};
ghost use Rattle.schedule.specs.Scheduled.{recorded, thread_count};

use crate::counts::count_at;
use crate::refusal::{Disabled, ExtendRefusal, ListRefusal, PrefixRefusal, SwapRefusal};
use crate::refusing::refusal_of;
use crate::showing::is_ready;
use crate::swapping::swap_refusal;
use crate::tables::{Tables, copied, forget, note, tables_of, tables_with_room, trim};
use event_index::Indexed;
use rapid_text::OutOfMemory;
use std::alloc::{AllocError, Global};
use std::marker::Model;
use std::snapshot::Snapshot;

/// A correct reordering of a trace, or of a part of it.
#[derive(Drop)]
pub struct Schedule {
    trace: Snapshot<Indexed>,
    events: Vec<u32>,
    // In a box, since rows of schedules are moved about in memory.
    tables: Box<Tables>,
}

impl Model for Schedule {
    ghost use Rattle.schedule.specs.Scheduled.{Scheduled};

    ghost Value = { Scheduled };

    ghost use Rattle.rapid_text.specs.Recording.{IsWellFormed};
    ghost use Rattle.trace_rules.specs.Rules.{IsDisciplined};
    ghost use Rattle.schedule.specs.Reordering.{IsCorrectReordering};
    ghost use Rattle.schedule.specs.Tables.{AreTables};

    ghost view = { λ s. record {
      trace = s.trace.value;
      events = s.events.items;
    } };

    ghost invariant = { λ s.
        IsWellFormed s.trace.value × IsDisciplined s.trace.value.events × IsCorrectReordering s.trace.value.events s.events.items × AreTables s.trace.value.events s.events.items s.tables.value };
}

impl Schedule {
    /// The events, in the order of the schedule: a correct reordering of the trace.
    pub fn events(&self) -> &[u32]
        ensures same { result.now ≡ self.now.events }
        ensures reordering { IsCorrectReordering (recorded self.now) self.now.events }
        // No event is in it twice, so it is no longer than the trace.
        ensures within { length self.now.events ≤ length (recorded self.now) }
        // The trace keeps the rules.
        ensures well_formed { IsWellFormed self.now.trace }
        ensures disciplined { IsDisciplined (recorded self.now) }
    {
        self.events.as_slice()
    }

    /// The schedule without events. Fails if memory runs out.
    pub fn empty(alloc: Global, indexed: &Indexed) -> Result<Schedule, OutOfMemory>
        ensures trace { IfOk result (λ s. s.trace ≡ indexed.now) }
        ensures events { IfOk result (λ s. s.events ≡ []) }
    {
        Schedule::with_room(alloc, indexed, 0)
    }

    /// The schedule without events, whose list has room for `len` events. Fails if memory runs out.
    fn with_room(alloc: Global, indexed: &Indexed, len: usize) -> Result<Schedule, OutOfMemory>
        ensures trace { IfOk result (λ s. s.trace ≡ indexed.now) }
        ensures events { IfOk result (λ s. s.events ≡ []) }
    {
        let _len = indexed.len();
        let Ok(events) = Vec::with_capacity(alloc, len) else {
            return Err(OutOfMemory);
        };
        let Ok(tables) = tables_with_room(alloc, indexed, len) else {
            return Err(OutOfMemory);
        };
        let Ok(tables) = Box::new(alloc, tables) else {
            return Err(OutOfMemory);
        };
        Ok(Schedule {
            trace: Snapshot::of(indexed),
            events,
            tables,
        })
    }

    /// The schedule of these events if they are a correct reordering. Otherwise error 31: the first index whose event
    /// may not come next, and why. Error 27 means out of memory, which may hide such an index.
    pub fn from_list(
        alloc: Global,
        indexed: &Indexed,
        events: &[u32],
    ) -> Result<Schedule, ListRefusal>
        ensures trace { IfOk result (λ s. s.trace ≡ indexed.now) }
        ensures events { IfOk result (λ s. s.events ≡ events.now) }
        // A schedule is a correct reordering. Unless memory runs out, the refusal is the first fault of the list.
        ensures reordering { OnOk result (IsCorrectReordering indexed.now.events events.now) }
        ensures refused { IfErr result (IsListRefusal indexed.now.events events.now) }
    {
        // A correct reordering has at most as many events as the trace.
        let most = events.len().min(indexed.len() as usize);
        let Ok(mut schedule) = Schedule::with_room(alloc, indexed, most) else {
            return Err(ListRefusal::OutOfMemory);
        };
        for event in events {
            let position = schedule.events().len() as u32;
            match schedule.extend(indexed, *event) {
                Ok(()) => {},
                Err(ExtendRefusal::Disabled(cause)) => {
                    return Err(ListRefusal::NotReordering { position, cause });
                },
                Err(ExtendRefusal::OutOfMemory) => return Err(ListRefusal::OutOfMemory),
            }
        }
        trim(&mut schedule.tables);
        Ok(schedule)
    }

    /// Whether the event may come next; if not, the first cause, 21 to 26.
    pub fn enabled(&self, indexed: &Indexed, event: u32) -> Result<(), Disabled>
        requires { self.now.trace ≡ indexed.now }
        // It may exactly if the schedule followed by the event is a correct reordering.
        ensures exact { IsOk result ↔ IsEnabled (recorded self.now) self.now.events event }
        ensures none { OnOk result (refusal_of (recorded self.now) self.now.events event ≡ None) }
        ensures cause { IfErr result (λ c. refusal_of (recorded self.now) self.now.events event ≡ Some c) }
        // For a held lock, the cause names the one thread that holds it.
        ensures holder { IfErr result (NamesHolder (recorded self.now) self.now.events event) }
    {
        match refusal_of(indexed, &self.tables, &self.events, event) {
            Some(cause) => Err(cause),
            None => Ok(()),
        }
    }

    /// Appends the event if it may come next. Otherwise fails with the first cause, 21 to 26, or with 27 if memory
    /// runs out.
    pub fn extend(&mut self, indexed: &Indexed, event: u32) -> Result<(), ExtendRefusal>
        requires { self.old.trace ≡ indexed.now }
        ensures trace { self.new.trace ≡ self.old.trace }
        ensures ok { OnOk result (self.new.events ≡ self.old.events ++ event ∷ []) }
        ensures err { OnErr result (self.new ≡ self.old) }
        // `extend` appends the event only if it is enabled, and refuses it with the same cause as `enabled`.
        ensures enabled { OnOk result (IsEnabled (recorded self.old) self.old.events event) }
        ensures none { OnOk result (refusal_of (recorded self.old) self.old.events event ≡ None) }
        ensures refused { IfErr result (IsRefusalOf (recorded self.old) self.old.events event) }
    {
        if let Some(cause) = refusal_of(indexed, &self.tables, &self.events, event) {
            return Err(ExtendRefusal::Disabled(cause));
        }
        let Ok(()) = note(&mut self.tables, indexed, &self.events, event) else {
            return Err(ExtendRefusal::OutOfMemory);
        };
        let Ok(()) = self.events.push(event) else {
            forget(&mut self.tables, indexed, &self.events, event);
            return Err(ExtendRefusal::OutOfMemory);
        };
        Ok(())
    }

    /// Removes the last event and returns it, or returns None if the schedule has no events. It needs no memory.
    pub fn retract(&mut self, indexed: &Indexed) -> Option<u32>
        requires { self.old.trace ≡ indexed.now }
        ensures trace { self.new.trace ≡ self.old.trace }
        ensures taken { IfSome result (λ e. self.old.events ≡ self.new.events ++ e ∷ []) }
        ensures none { result ≡ None → self.new ≡ self.old }
        ensures empty { (result ≡ None) ↔ (self.old.events ≡ []) }
    {
        let Some(event) = self.events.pop() else {
            return None;
        };
        forget(&mut self.tables, indexed, &self.events, event);
        Some(event)
    }

    /// Whether the events at indices `at` and `at + 1` may swap; if not, why. `swap` returns the same result.
    pub fn exchangeable(&self, indexed: &Indexed, at: u32) -> Result<(), SwapRefusal>
        requires { self.now.trace ≡ indexed.now }
        // They may exactly if both exist and are independent.
        ensures exact { IsOk result ↔ MayExchange (recorded self.now) self.now.events at }
        ensures no_pair { (result ≡ Err NoSuchPair) ↔ (length self.now.events ≤ at + 1) }
        // The same as a function, for definitions that compute with it.
        ensures none { OnOk result (swap_refusal (recorded self.now) self.now.events at ≡ None) }
        ensures cause { IfErr result (λ c. swap_refusal (recorded self.now) self.now.events at ≡ Some c) }
    {
        match swap_refusal(indexed, &self.events, at) {
            Some(cause) => Err(cause),
            None => Ok(()),
        }
    }

    /// Swaps the events at indices `at` and `at + 1` if they are independent. Otherwise fails with 28 or 29. It needs
    /// no memory.
    pub fn swap(&mut self, indexed: &Indexed, at: u32) -> Result<(), SwapRefusal>
        requires { self.old.trace ≡ indexed.now }
        ensures trace { self.new.trace ≡ self.old.trace }
        ensures ok { OnOk result (self.new.events ≡ exchanged self.old.events at) }
        ensures err { OnErr result (self.new ≡ self.old) }
        // It fails with `NoSuchPair` exactly if there is no event at `at + 1`. Otherwise it fails exactly if the two
        // events are not independent.
        ensures exact { IsOk result ↔ MayExchange (recorded self.old) self.old.events at }
        ensures no_pair { (result ≡ Err NoSuchPair) ↔ (length self.old.events ≤ at + 1) }
        // The same as a function, for definitions that compute with it.
        ensures none { OnOk result (swap_refusal (recorded self.old) self.old.events at ≡ None) }
        ensures cause { IfErr result (λ c. swap_refusal (recorded self.old) self.old.events at ≡ Some c) }
    {
        if let Err(cause) = self.exchangeable(indexed, at) {
            return Err(cause);
        }
        let at = at as usize;
        self.events.swap(at, at + 1);
        self.tables.shadows.swap(at, at + 1);
        Ok(())
    }

    /// A schedule of the same trace with the first `len` events of this one. Fails with 30 if this one is shorter,
    /// and with 27 if memory runs out.
    pub fn prefix(
        &self,
        alloc: Global,
        indexed: &Indexed,
        len: u32,
    ) -> Result<Schedule, PrefixRefusal>
        requires { self.now.trace ≡ indexed.now }
        ensures trace { IfOk result (λ s. s.trace ≡ self.now.trace) }
        ensures ok { IfOk result (λ s. s.events ≡ take len self.now.events) }
        // It fails with `TooShort` exactly if this schedule has fewer events.
        ensures too_short { (result ≡ Err TooShort) ↔ (length self.now.events < len) }
    {
        let len = len as usize;
        if self.events.len() < len {
            return Err(PrefixRefusal::TooShort);
        }
        let front = &self.events[..len];
        let Ok(events) = Vec::from_slice(alloc, front) else {
            return Err(PrefixRefusal::OutOfMemory);
        };
        let Ok(tables) = self.front_tables(alloc, indexed, len) else {
            return Err(PrefixRefusal::OutOfMemory);
        };
        Ok(Schedule {
            trace: Snapshot::of(indexed),
            events,
            tables,
        })
    }

    // The tables of the first `len` events. For all events the tables are copied, which is faster than making them.
    fn front_tables(
        &self,
        alloc: Global,
        indexed: &Indexed,
        len: usize,
    ) -> Result<Box<Tables>, AllocError>
        requires trace { self.now.trace ≡ indexed.now }
        requires fits { len ≤ length self.now.events }
        ensures { IfOk result (λ tables. AreTables indexed.now.events (take len self.now.events) tables.value) }
    {
        if len == self.events().len() {
            return copied(alloc, &self.tables);
        }
        tables_of(alloc, indexed, &self.events()[..len])
    }

    /// The next event of the thread after the schedule, or None if the schedule has all its events.
    pub fn next_of(&self, indexed: &Indexed, thread: u32) -> Option<u32>
        requires trace { self.now.trace ≡ indexed.now }
        requires thread { thread < thread_count self.now }
        ensures next { result ≡ next_of (recorded self.now) self.now.events thread }
        ensures thread { IfSome result (λ e. thread_at (recorded self.now) e ≡ Some thread) }
        ensures within { IfSome result (λ e. e < length (recorded self.now)) }
    {
        let of_thread = indexed.thread_events(thread);
        of_thread
            .get(count_at(&self.tables.counts, thread) as usize)
            .copied()
    }

    /// Whether the two events conflict and both are ready: not in the schedule, but all earlier events of their
    /// threads are, and their threads' forks. False also if the trace lacks one of them.
    pub fn shows(&self, indexed: &Indexed, first: u32, second: u32) -> bool
        requires { self.now.trace ≡ indexed.now }
        ensures shows { IsTrue result ↔ Shows (recorded self.now) self.now.events first second }
        // The same as a test, for definitions that filter by it.
        ensures test { result ≡ does_show (recorded self.now) self.now.events first second }
    {
        if first >= indexed.len() {
            return false;
        }
        if second >= indexed.len() {
            return false;
        }
        if !indexed.conflict(first, second) {
            return false;
        }
        is_ready(indexed, &self.tables, &self.events, first)
            && is_ready(indexed, &self.tables, &self.events, second)
    }
}
