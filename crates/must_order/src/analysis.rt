//! A trace with its orders.
ghost use Rattle.std.specs.Prelude.{◌≡◌, ◌≢◌, ◌<◌, ◌↔◌, ℕ, None, IfSome, length, IsTrue, IfOk};
ghost use Rattle.rapid_text.specs.Appended.{IfFound};
ghost use Rattle.shb_clocks.specs.Candidates.{IsCandidatePair};
ghost use Rattle.must_order.specs.Chains.{AreReasons};
ghost use Rattle.must_order.specs.Held.{IsHeldFrom, AreHeldAt, IsGuard, HasNoGuard};
ghost use Rattle.must_order.specs.MustBefore.{IsForced, IsHeldBefore, IsMustBefore, IsSharedBefore};

use crate::chains::Chain;
use crate::must::Must;
use event_index::Indexed;
use rapid_text::OutOfMemory;
use shb_clocks::Clocks;
use std::alloc::Global;
use std::marker::Model;
use std::thread;
use std::thread::Threads;

/// A trace with both its orders, SHB and must-before. A contract sees its recording.
#[derive(Drop)]
pub struct Analysis<'a> {
    indexed: &'a Indexed,
    clocks: Clocks,
    must: Must,
}

impl<'a> Model for Analysis<'a> {
    ghost use Rattle.std.specs.Prelude.{◌≡◌};
    ghost use Rattle.rapid_text.specs.Recording.{Recording};

    ghost Value = { Recording };

    ghost view = { λ a. a.indexed.now };

    ghost invariant = { λ a. (a.clocks ≡ a.indexed.now) × (a.must ≡ a.indexed.now) };
}

impl<'a> Analysis<'a> {
    /// Computes both orders of the trace. Fails if memory runs out.
    pub fn new(alloc: Global, indexed: &'a Indexed) -> Result<Analysis<'a>, OutOfMemory>
        ensures { IfOk result (λ analysis. analysis ≡ indexed.now) }
    {
        match Must::new(alloc, indexed) {
            Ok(must) => Analysis::with_clocks(alloc, indexed, must),
            Err(refused) => Err(refused),
        }
    }

    /// The same. Two threads compute the orders if a thread can be started.
    pub fn at_once<R: Threads>(
        rt: &R,
        alloc: Global,
        indexed: &'a Indexed,
    ) -> Result<Analysis<'a>, OutOfMemory>
        ensures { IfOk result (λ analysis. analysis ≡ indexed.now) }
    {
        let (clocks, must) = thread::join(
            rt,
            move || Clocks::new(alloc, indexed),
            move || Must::new(alloc, indexed),
        );
        Ok(Analysis {
            indexed,
            clocks: clocks?,
            must: must?,
        })
    }

    // The same if must-before is already computed.
    fn with_clocks(
        alloc: Global,
        indexed: &'a Indexed,
        must: Must,
    ) -> Result<Analysis<'a>, OutOfMemory>
        requires { must ≡ indexed.now }
        ensures { IfOk result (λ analysis. analysis ≡ indexed.now) }
    {
        match Clocks::new(alloc, indexed) {
            Ok(clocks) => Ok(Analysis {
                indexed,
                clocks,
                must,
            }),
            Err(refused) => Err(refused),
        }
    }

    /// The trace.
    pub fn indexed(&self) -> &'a Indexed
        ensures { result.now ≡ self.now }
    {
        self.indexed
    }

    /// The order SHB.
    pub fn clocks(&self) -> &Clocks
        ensures { result.now ≡ self.now }
    {
        &self.clocks
    }

    /// Must-before.
    pub fn must(&self) -> &Must
        ensures { result.now ≡ self.now }
    {
        &self.must
    }

    /// Whether two events are a candidate pair, in either order.
    pub fn is_candidate(&self, first: u32, second: u32) -> bool
        requires first { first < length self.now.events }
        requires second { second < length self.now.events }
        ensures candidate { IsTrue result ↔ IsCandidatePair self.now.events first second }
    {
        self.clocks.candidate(self.indexed, first, second)
    }

    /// Whether the first event is the base of the second, or must-before that base.
    pub fn is_forced(&self, first: u32, second: u32) -> bool
        requires first { first < length self.now.events }
        requires second { second < length self.now.events }
        ensures forced { IsTrue result ↔ IsForced self.now.events first second }
    {
        self.must.is_forced(self.indexed, first, second)
    }

    /// The least lock that both threads hold before their events. None if they share no lock.
    pub fn guard(&self, first: u32, second: u32) -> Option<u32>
        requires first { first < length self.now.events }
        requires second { second < length self.now.events }
        ensures found { IfSome result (IsGuard self.now first second) }
        ensures least { IfSome result (λ l. (k : ℕ) → k < l → ¬ IsSharedBefore self.now.events first second k) }
        ensures none { result ≡ None → HasNoGuard self.now first second }
    {
        self.must.guard(self.indexed, first, second)
    }

    /// The acquire since which the event's thread holds the lock. None if the thread does not hold it before the
    /// event.
    pub fn held_since(&self, event: u32, lock: u32) -> Option<u32>
        requires event { event < length self.now.events }
        requires lock { lock < length self.now.locks }
        ensures since { IfSome result (IsHeldFrom self.now.events event lock) }
        ensures none { result ≡ None → ¬ IsHeldBefore self.now.events event lock }
    {
        self.must.held_since(self.indexed, event, lock)
    }

    /// The locks that the event's thread holds before it, in rising order.
    pub fn locks_held(&self, alloc: Global, event: u32) -> Result<Vec<u32>, OutOfMemory>
        requires event { event < length self.now.events }
        ensures held { IfOk result (λ locks. AreHeldAt self.now event locks.items) }
    {
        self.must.locks_held(alloc, self.indexed, event)
    }

    /// Why the first event is must-before the second, as chains of steps. None if it is not must-before it.
    pub fn reasons(
        &self,
        alloc: Global,
        first: u32,
        second: u32,
    ) -> Result<Option<Vec<Chain>>, OutOfMemory>
        requires first { first < length self.now.events }
        requires second { second < length self.now.events }
        ensures some { IfFound result (λ cs. AreReasons self.now.events first second cs.items) }
        ensures none { IfOk result (λ chains. chains ≡ None → ¬ IsMustBefore self.now.events first second) }
        ensures exact { IfOk result (λ chains. IsMustBefore self.now.events first second → chains ≢ None) }
    {
        self.must.reasons(alloc, self.indexed, first, second)
    }
}
