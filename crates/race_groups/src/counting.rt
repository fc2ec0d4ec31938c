//! Counts the events that come before a cut, by class, for one later event of a thread after the other. Each front
//! only moves forward, so no event is counted twice.
ghost use Rattle.std.specs.Prelude.{◌≡◌, ◌≢◌, ℕ, ◌+◌, ◌^◌, ◌<◌, ◌≤◌, length, All, Some, IfOk, replicate, slice_index, slice_set};
ghost use Rattle.rapid_text.specs.Recording.{IsWellFormed};
ghost use Rattle.event_index.specs.Events.{thread_at};
ghost use Rattle.event_index.specs.Lookups.{events_of};
ghost use Rattle.race_groups.specs.Cuts.{IsCut};
ghost use Rattle.race_groups.specs.Counting.{class_count, AreClassCounts, AreFrontsOf, AreRaised};

use event_index::Indexed;
use rapid_text::OutOfMemory;
use std::alloc::Global;

/// For each later event and each other thread, the number of that thread's events that come before it.
pub(crate) trait Cut {
    /// The arguments for which `end` is defined.
    ghost can_end: { Self → ℕ → ℕ → Type 0 };

    ghost end_of: { Self → ℕ → ℕ → ℕ };

    /// The number of the thread's events that come before the later one. It is known to be at least `from`.
    fn end(&self, later: u32, thread: u32, from: u32) -> u32
        requires can { can_end self.now later thread }
        requires from { from ≤ end_of self.now later thread }
        ensures end { result ≡ end_of self.now later thread };
}

/// A trace, and the number of each event's class.
#[derive(Clone, Copy)]
pub(crate) struct Classed<'a> {
    pub(crate) indexed: &'a Indexed,
    pub(crate) numbers: &'a [u32],
}

/// A later event, and its thread.
#[derive(Clone, Copy)]
pub(crate) struct Later {
    pub(crate) event: u32,
    pub(crate) thread: u32,
}

/// The number of each thread's events before a cut, and how many events of each class are before it.
#[derive(Drop)]
pub(crate) struct Front {
    pub(crate) fronts: Vec<u32>,
    pub(crate) counts: Vec<u64>,
}

impl Front {
    /// A front before which no event comes.
    pub(crate) fn new(alloc: Global, threads: usize, classes: usize) -> Result<Front, OutOfMemory>
        ensures fronts { IfOk result (λ front. front.fronts.items ≡ replicate threads 0) }
        ensures counts { IfOk result (λ front. front.counts.items ≡ replicate classes 0) }
    {
        Ok(Front {
            fronts: vec![in alloc; 0u32; threads]?,
            counts: vec![in alloc; 0u64; classes]?,
        })
    }

    /// Moves the front to the ends of a later event.
    pub(crate) fn advance<C: Cut>(&mut self, classed: Classed<'_>, cut: &C, later: Later)
        requires len { length classed.numbers.now ≡ length classed.indexed.now.events }
        requires classes { All (λ c. c < length self.old.counts.items) classed.numbers.now }
        requires counts { AreClassCounts classed self.old.fronts.items self.old.counts.items }
        requires can { (t : ℕ) → t < length classed.indexed.now.threads → C.can_end cut.now later.event t }
        requires own { slice_index self.old.fronts.items later.thread ≡ 0 }
        requires behind { (t : ℕ) → t < length classed.indexed.now.threads → t ≢ later.thread → slice_index self.old.fronts.items t ≤ C.end_of cut.now later.event t }
        requires within { (t : ℕ) → t < length classed.indexed.now.threads → C.end_of cut.now later.event t ≤ length (events_of classed.indexed.now.events t) }
        ensures counts { AreClassCounts classed.entry self.new.fronts.items self.new.counts.items }
        ensures fronts { AreFrontsOf classed.entry later (C.end_of cut.now) self.new.fronts.items }
        ensures len { length self.new.counts.items ≡ length self.old.counts.items }
    {
        let counts = self.counts.as_mut_slice();
        let fronts = self.fronts.as_mut_slice();
        advance(counts, fronts, classed, cut, later);
    }
}

/// Counts these events by class.
pub(crate) fn count(counts: &mut [u64], classes: &[u32], events: &[u32])
    requires events { All (λ e. e < length classes.now) events.now }
    requires classes { All (λ c. c < length counts.old) classes.now }
    requires room { (c : ℕ) → c < length counts.old → slice_index counts.old c + length events.now < 2 ^ 32 }
    ensures counted { AreRaised (λ c. class_count classes.now c events.now) counts.old counts.new }
{
    for event in events {
        counts[classes[*event as usize] as usize] += 1;
    }
}

// Moves the front of one thread.
fn move_on(counts: &mut [u64], fronts: &mut [u32], classed: Classed<'_>, thread: u32, to: u32)
    requires formed { IsWellFormed classed.indexed.now }
    requires thread { thread < length classed.indexed.now.threads }
    requires len { length classed.numbers.now ≡ length classed.indexed.now.events }
    requires classes { All (λ c. c < length counts.old) classed.numbers.now }
    requires counts { AreClassCounts classed fronts.old counts.old }
    requires from { slice_index fronts.old thread ≤ to }
    requires to { to ≤ length (events_of classed.indexed.now.events thread) }
    ensures counts { AreClassCounts classed.entry fronts.new counts.new }
    ensures fronts { fronts.new ≡ slice_set fronts.old thread to }
{
    let from = fronts[thread as usize] as usize;
    let passed = &classed.indexed.thread_events(thread)[from..to as usize];
    count(counts, classed.numbers, passed);
    fronts[thread as usize] = to;
}

// Moves the fronts of all other threads to the ends of a later event. Most fronts are there already.
fn advance<C: Cut>(
    counts: &mut [u64],
    fronts: &mut [u32],
    classed: Classed<'_>,
    cut: &C,
    later: Later,
)
    requires len { length classed.numbers.now ≡ length classed.indexed.now.events }
    requires classes { All (λ c. c < length counts.old) classed.numbers.now }
    requires counts { AreClassCounts classed fronts.old counts.old }
    requires can { (t : ℕ) → t < length classed.indexed.now.threads → C.can_end cut.now later.event t }
    requires own { slice_index fronts.old later.thread ≡ 0 }
    requires behind { (t : ℕ) → t < length classed.indexed.now.threads → t ≢ later.thread → slice_index fronts.old t ≤ C.end_of cut.now later.event t }
    requires within { (t : ℕ) → t < length classed.indexed.now.threads → C.end_of cut.now later.event t ≤ length (events_of classed.indexed.now.events t) }
    ensures counts { AreClassCounts classed.entry fronts.new counts.new }
    ensures fronts { AreFrontsOf classed.entry later (C.end_of cut.now) fronts.new }
{
    for thread in 0..classed.indexed.threads() {
        if thread != later.thread {
            let from = fronts[thread as usize];
            let to = cut.end(later.event, thread, from);
            if from < to {
                move_on(counts, fronts, classed, thread, to);
            }
        }
    }
}
