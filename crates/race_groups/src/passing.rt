//! Counts the events of other threads that are earlier in the trace, by class, for one later event of a thread after
//! the other. Events are counted in the order of the trace. Between two events of the thread all events are of
//! others, so no event's thread is looked up.
ghost use Rattle.std.specs.Prelude.{◌≡◌, ◌==◌, ℕ, ◌+◌, ◌^◌, ◌<◌, length, All, IfOk, count_by, replicate, slice_index};
ghost use Rattle.event_index.specs.Lookups.{events_of};
ghost use Rattle.race_groups.specs.Counting.{IsPassed, AreRaised};

use event_index::Indexed;
use rapid_text::OutOfMemory;
use std::alloc::Global;

/// The number of events passed, and how many events of each class, without the thread's own.
#[derive(Drop)]
pub(crate) struct Passed {
    pub(crate) upto: u32,
    pub(crate) counts: Vec<u64>,
}

impl Passed {
    /// The state before any event is passed.
    pub(crate) fn new(alloc: Global, classes: usize) -> Result<Passed, OutOfMemory>
        ensures upto { IfOk result (λ passed. passed.upto ≡ 0) }
        ensures counts { IfOk result (λ passed. passed.counts.items ≡ replicate classes 0) }
    {
        Ok(Passed {
            upto: 0,
            counts: vec![in alloc; 0u64; classes]?,
        })
    }

    /// Passes the event at this index of the thread, and all events before it.
    pub(crate) fn pass(&mut self, indexed: &Indexed, numbers: &[u32], thread: u32, at: usize)
        requires len { length numbers.now ≡ length indexed.now.events }
        requires classes { All (λ c. c < length self.old.counts.items) numbers.now }
        requires thread { thread < length indexed.now.threads }
        requires at { at < length (events_of indexed.now.events thread) }
        requires passed { IsPassed indexed.now.events numbers.now thread at self.old }
        ensures passed { IsPassed indexed.now.events numbers.now thread (at + 1) self.new }
        ensures upto { self.new.upto ≡ slice_index (events_of indexed.now.events thread) at + 1 }
        ensures len { length self.new.counts.items ≡ length self.old.counts.items }
    {
        let _len = indexed.len();
        let event = indexed.thread_events(thread)[at];
        self.count(&numbers[self.upto as usize..event as usize]);
        self.upto = event + 1;
    }

    // Counts one event for each class of the list.
    fn count(&mut self, classes: &[u32])
        requires classes { All (λ c. c < length self.old.counts.items) classes.now }
        requires room { (c : ℕ) → c < length self.old.counts.items → slice_index self.old.counts.items c + length classes.now < 2 ^ 32 }
        ensures upto { self.new.upto ≡ self.old.upto }
        ensures len { length self.new.counts.items ≡ length self.old.counts.items }
        ensures counted { AreRaised (λ c. count_by (λ k. k == c) classes.now)
            self.old.counts.items self.new.counts.items }
    {
        count_each(self.counts.as_mut_slice(), classes);
    }
}

// The same for the counts alone.
fn count_each(counts: &mut [u64], classes: &[u32])
    requires classes { All (λ c. c < length counts.old) classes.now }
    requires room { (c : ℕ) → c < length counts.old → slice_index counts.old c + length classes.now < 2 ^ 32 }
    ensures counted { AreRaised (λ c. count_by (λ k. k == c) classes.now) counts.old counts.new }
{
    for class in classes {
        counts[*class as usize] += 1;
    }
}
