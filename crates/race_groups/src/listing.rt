//! Numbers the lists of locks that threads hold. A thread's list is made again only after an event of the thread that
//! is not an access.
ghost use Rattle.std.specs.Prelude.{◌≡◌, ◌+◌, ◌<◌, IfOk, OnOk, Some, length};
ghost use Rattle.race_groups.specs.Building.{IsGrown, text_at};
ghost use Rattle.race_groups.specs.Holding.{AreHeld, AreKnown, AreLocksOfThread, AreUnknown, AreAccessLocks};
ghost use Rattle.race_groups.specs.Takers.{AreLentLocks, AreTakersOf};

use crate::class::LockLists;
use crate::classes::variable_of;
use crate::holding::number_of;
use crate::takers::keep_lent;
use event_index::Indexed;
use rapid_text::OutOfMemory;
use std::alloc::Global;

/// The most locks that all lists may have that are made, one after the other. A trace whose threads never hold more
/// than 1,024 locks at once stays below this.
const MOST_MADE: u64 = 1_073_741_824;

/// The most locks that the different lists may have in all: half a gigabyte.
const MOST_KEPT: u64 = 134_217_728;

/// The locks that the threads hold before an event. For each lock the thread that acquires it, if only one does.
#[derive(Clone, Copy)]
pub(crate) struct Holds<'a> {
    pub(crate) indexed: &'a Indexed,
    pub(crate) takers: &'a [u32],
    pub(crate) held: &'a [Vec<u32>],
}

/// The lists that were made last.
#[derive(Drop)]
pub(crate) struct Listing {
    /// For each thread the number of its list, if the thread has had only accesses since the list was made.
    pub(crate) known: Vec<Option<u32>>,
    // The locks of the list in progress.
    lent: Vec<u32>,
    // The number of locks in the lists that were made, and in those that are kept.
    made: u64,
    kept: u64,
}

impl Listing {
    /// The state before the first list.
    pub(crate) fn new(alloc: Global, indexed: &Indexed) -> Result<Listing, OutOfMemory>
        ensures known { IfOk result (λ made. AreUnknown made.known.items) }
        ensures threads { IfOk result (λ made. length made.known.items ≡ length indexed.now.threads) }
    {
        let threads = indexed.threads();
        let mut known = Vec::with_capacity(alloc, threads as usize)?;
        for _thread in 0..threads {
            known.push(None)?;
        }
        Ok(Listing {
            known,
            lent: Vec::new(alloc),
            made: 0,
            kept: 0,
        })
    }

    /// The number of the list of locks held at the event, if it is an access; otherwise 0. The lists of one trace
    /// take at most half a gigabyte; beyond that the call fails as if memory ran out.
    pub(crate) fn number(
        &mut self,
        lists: &mut LockLists,
        holds: Holds<'_>,
        event: u32,
    ) -> Result<u32, OutOfMemory>
        requires few { length lists.old.keys < 1048576 }
        requires event { event < length holds.indexed.now.events }
        requires takers { AreTakersOf holds.indexed.now holds.takers.now }
        requires held { AreHeld holds.indexed.now.events event holds.held.now }
        requires len { length holds.held.now ≡ length holds.indexed.now.threads }
        requires known { AreKnown holds.indexed.now.events event lists.old.keys self.old.known.items }
        requires threads { length self.old.known.items ≡ length holds.indexed.now.threads }
        ensures at { IfOk result (AreAccessLocks holds.entry.indexed.now.events lists.new.keys event) }
        ensures grown { OnOk result (IsGrown lists.old.keys lists.new.keys) }
        ensures known { OnOk result (AreKnown holds.entry.indexed.now.events (event + 1) lists.new.keys self.new.known.items) }
        ensures threads { OnOk result (length self.new.known.items ≡ length self.old.known.items) }
    {
        let found = holds.indexed.event(event);
        let _len = holds.indexed.len();
        let Some(_variable) = variable_of(found.op) else {
            self.known[found.thread as usize] = None;
            return Ok(0);
        };
        let number = self.list_of(lists, holds, event, found.thread)?;
        Ok(number)
    }

    // The number of the thread's list before the event.
    fn list_of(
        &mut self,
        lists: &mut LockLists,
        holds: Holds<'_>,
        _event: u32,
        thread: u32,
    ) -> Result<u32, OutOfMemory>
        requires few { length lists.old.keys < 1048576 }
        requires thread { thread < length holds.indexed.now.threads }
        requires takers { AreTakersOf holds.indexed.now holds.takers.now }
        requires held { AreHeld holds.indexed.now.events _event holds.held.now }
        requires len { length holds.held.now ≡ length holds.indexed.now.threads }
        requires known { AreKnown holds.indexed.now.events _event lists.old.keys self.old.known.items }
        requires threads { length self.old.known.items ≡ length holds.indexed.now.threads }
        ensures at { IfOk result (AreLocksOfThread holds.entry.indexed.now.events lists.new.keys _event thread) }
        ensures grown { OnOk result (IsGrown lists.old.keys lists.new.keys) }
        ensures known { OnOk result (AreKnown holds.entry.indexed.now.events _event lists.new.keys self.new.known.items) }
        ensures threads { OnOk result (length self.new.known.items ≡ length self.old.known.items) }
    {
        if let Some(number) = self.known[thread as usize] {
            return Ok(number);
        }
        self.gather(holds, thread)?;
        let number = self.numbered(lists)?;
        self.known[thread as usize] = Some(number);
        Ok(number)
    }

    // Makes the thread's list: the locks that it holds and that more than one thread acquires, in rising order.
    fn gather(&mut self, holds: Holds<'_>, thread: u32) -> Result<(), OutOfMemory>
        requires thread { thread < length holds.held.now }
        ensures lent { OnOk result (AreLentLocks holds.entry thread self.new.lent.items) }
        ensures known { self.new.known ≡ self.old.known }
    {
        let locks = holds.held[thread as usize].as_slice();
        self.made = self.made.saturating_add(locks.len() as u64);
        if self.made > MOST_MADE {
            return Err(OutOfMemory);
        }
        keep_lent(&mut self.lent, locks, holds.takers, holds.indexed.threads())?;
        self.lent.sort_unstable();
        Ok(())
    }

    // The number of the list that was made.
    fn numbered(&mut self, lists: &mut LockLists) -> Result<u32, OutOfMemory>
        requires few { length lists.old.keys < 1048576 }
        ensures at { IfOk result (λ n. text_at lists.new.keys n ≡ Some self.old.lent.items) }
        ensures grown { OnOk result (IsGrown lists.old.keys lists.new.keys) }
        ensures known { self.new.known ≡ self.old.known }
    {
        let before = lists.len();
        let alloc = *self.lent.allocator();
        let number = number_of(lists, alloc, self.lent.as_slice())?;
        if lists.len() > before {
            self.kept = self.kept.saturating_add(self.lent.len() as u64);
            if self.kept > MOST_KEPT {
                return Err(OutOfMemory);
            }
        }
        Ok(number)
    }
}
