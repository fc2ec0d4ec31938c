//! Must-before of a trace's events.
ghost use Rattle.std.specs.Prelude.{◌≡◌, ◌≢◌, ◌<◌, ◌↔◌, ℕ, None, IfSome, length, IsTrue, IfOk};
ghost use Rattle.must_order.specs.Chains.{AreReasons};
ghost use Rattle.must_order.specs.Held.{IsHeldFrom, AreHeldAt, IsGuard, HasNoGuard};
ghost use Rattle.must_order.specs.Kinds.{IsKind};
ghost use Rattle.must_order.specs.MustBefore.{IsForced, IsHeldBefore, IsMustBefore, IsSharedBefore};
ghost use Rattle.must_order.specs.Sections.{AreSections};
ghost use Rattle.must_order.specs.Telling.{TellsMust, width_of};
ghost use Rattle.rapid_text.specs.Appended.{IfFound};
ghost use Rattle.shb_clocks.specs.SharedRows.{len_of, count_of};

use crate::chains::Chain;
use crate::joins::Joins;
use crate::kind::Kind;
use crate::reasons::chains_of;
use crate::rows::{rows_of, threads_of};
use crate::sections::Sections;
use event_index::Indexed;
use rapid_text::OutOfMemory;
use shb_clocks::{Clocks, SharedRows};
use std::alloc::Global;
use std::marker::Model;
use std::snapshot::Snapshot;

/// For each event of a trace, the number of events of each thread that are must-before it or are it.
#[derive(Drop)]
pub struct Must {
    trace: Snapshot<Indexed>,
    // The thread of each event.
    threads: Vec<u32>,
    // The counts of each event, in rows that events share.
    counts: SharedRows,
    // The joins by which the rows were made.
    joins: Joins,
    // The acquires that begin sections.
    sections: Sections,
}

impl Model for Must {
    ghost use Rattle.rapid_text.specs.Recording.{Recording};

    ghost Value = { Recording };

    ghost use Rattle.must_order.specs.Sound.{IsSound};

    ghost view = { λ s. s.trace.value };

    ghost invariant = { IsSound };
}

impl Must {
    /// Makes the rows in one pass over the events. They keep their trace for proofs alone, and do not borrow the
    /// index.
    pub fn new(alloc: Global, indexed: &Indexed) -> Result<Must, OutOfMemory>
        ensures ok { IfOk result (λ must. must ≡ indexed.now) }
    {
        let rows = rows_of(alloc, indexed)?;
        match threads_of(alloc, indexed) {
            Ok(threads) => Ok(Must {
                trace: Snapshot::of(indexed),
                threads,
                counts: rows.counts,
                joins: rows.joins,
                sections: rows.sections,
            }),
            Err(refused) => Err(refused),
        }
    }

    /// Whether the first event is the second or is must-before it: it then comes before it in every correct
    /// reordering.
    pub fn before(&self, first: u32, second: u32) -> bool
        requires first { first < length self.now.events }
        requires second { second < length self.now.events }
        ensures before { IsTrue result ↔ IsMustBefore self.now.events first second }
    {
        let thread = self.threads[first as usize];
        self.counts.count(first, thread) <= self.counts.count(second, thread)
    }

    /// The rows of counts. An event's count of a thread is the number of that thread's events that are must-before
    /// the event or are it. These are the thread's first events.
    pub fn rows(&self) -> &SharedRows
        ensures len { len_of result.now ≡ length self.now.events }
        ensures width { width_of result.now ≡ length self.now.threads }
        ensures tells { TellsMust self.now.events (length self.now.threads) (count_of result.now) }
    {
        &self.counts
    }

    /// Whether the first event is the second's base, or must-before that base.
    pub fn is_forced(&self, indexed: &Indexed, first: u32, second: u32) -> bool
        requires trace { self.now ≡ indexed.now }
        requires first { first < length self.now.events }
        requires second { second < length self.now.events }
        ensures forced { IsTrue result ↔ IsForced self.now.events first second }
    {
        match indexed.base(second) {
            None => false,
            Some(base) => self.before(first, base),
        }
    }

    /// The least lock that both threads hold before their events. None if they share no lock.
    pub fn guard(&self, indexed: &Indexed, first: u32, second: u32) -> Option<u32>
        requires trace { self.now ≡ indexed.now }
        requires first { first < length self.now.events }
        requires second { second < length self.now.events }
        ensures found { IfSome result (IsGuard self.now first second) }
        ensures least { IfSome result (λ l. (k : ℕ) → k < l → ¬ IsSharedBefore self.now.events first second k) }
        ensures none { result ≡ None → HasNoGuard self.now first second }
    {
        guard_of(&self.sections, indexed, first, second)
    }

    /// The acquire since which the event's thread holds the lock: the outermost of nested acquires. None if the
    /// thread does not hold the lock before the event. `Indexed::section` returns the end of the acquire's section.
    pub fn held_since(&self, indexed: &Indexed, event: u32, lock: u32) -> Option<u32>
        requires trace { self.now ≡ indexed.now }
        requires event { event < length self.now.events }
        requires lock { lock < length self.now.locks }
        ensures since { IfSome result (IsHeldFrom self.now.events event lock) }
        ensures none { result ≡ None → ¬ IsHeldBefore self.now.events event lock }
    {
        self.sections.holder(indexed, event, lock)
    }

    /// The locks that the event's thread holds before it, in rising order of their numbers.
    pub fn locks_held(
        &self,
        alloc: Global,
        indexed: &Indexed,
        event: u32,
    ) -> Result<Vec<u32>, OutOfMemory>
        requires trace { self.now ≡ indexed.now }
        requires event { event < length self.now.events }
        ensures held { IfOk result (λ locks. AreHeldAt self.now event locks.items) }
    {
        locks_of(alloc, &self.sections, indexed, event)
    }

    /// Why the first event is must-before the second, as chains. The first chain leads from the first event to the
    /// second. Each other chain justifies a step of an earlier chain. It leads from the beginning of a section to an
    /// event that has to come after the section's end. None if the first event is not must-before the second.
    pub fn reasons(
        &self,
        alloc: Global,
        indexed: &Indexed,
        first: u32,
        second: u32,
    ) -> Result<Option<Vec<Chain>>, OutOfMemory>
        requires trace { self.now ≡ indexed.now }
        requires first { first < length self.now.events }
        requires second { second < length self.now.events }
        ensures some { IfFound result (λ cs. AreReasons self.now.events first second cs.items) }
        ensures none { IfOk result (λ chains. chains ≡ None → ¬ IsMustBefore self.now.events first second) }
        ensures exact { IfOk result (λ chains. IsMustBefore self.now.events first second → chains ≢ None) }
    {
        if !self.before(first, second) {
            return Ok(None);
        }
        let chains = chains_of(alloc, self, &self.joins, indexed, first, second)?;
        Ok(Some(chains))
    }

    /// The kind of a conflicting pair, whose earlier event is `first`: the first kind that fits.
    pub fn kind(&self, indexed: &Indexed, clocks: &Clocks, first: u32, second: u32) -> Kind
        requires trace { self.now ≡ indexed.now }
        requires clocks { clocks.now ≡ indexed.now }
        requires first { first < length self.now.events }
        requires second { second < length self.now.events }
        ensures kind { IsKind self.now first second result }
    {
        if clocks.candidate(indexed, first, second) {
            return Kind::Candidate;
        }
        if self.is_forced(indexed, first, second) {
            return Kind::Forced;
        }
        match self.guard(indexed, first, second) {
            Some(_) => Kind::Guarded,
            None => Kind::Open,
        }
    }
}

fn locks_of(
    alloc: Global,
    sections: &Sections,
    indexed: &Indexed,
    event: u32,
) -> Result<Vec<u32>, OutOfMemory>
    requires known { AreSections indexed.now (length indexed.now.events) sections.now }
    requires event { event < length indexed.now.events }
    ensures { IfOk result (λ locks. AreHeldAt indexed.now event locks.items) }
{
    let mut locks = Vec::new(alloc);
    for lock in 0..indexed.locks() {
        sections.add_held(indexed, event, lock, &mut locks)?;
    }
    Ok(locks)
}

fn guard_of(sections: &Sections, indexed: &Indexed, first: u32, second: u32) -> Option<u32>
    requires known { AreSections indexed.now (length indexed.now.events) sections.now }
    requires first { first < length indexed.now.events }
    requires second { second < length indexed.now.events }
    ensures found { IfSome result (IsGuard indexed.now first second) }
    ensures least { IfSome result (λ l. (k : ℕ) → k < l → ¬ IsSharedBefore indexed.now.events first second k) }
    ensures none { result ≡ None → HasNoGuard indexed.now first second }
{
    for lock in 0..indexed.locks() {
        if sections.is_shared(indexed, first, second, lock) {
            return Some(lock);
        }
    }
    None
}
