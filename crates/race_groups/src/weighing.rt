//! Weighs the events before cuts. If a thread has many later events of one class, an event is not counted for each
//! later one. Its weight is the number of later events still to come when it first comes before their cut.
ghost use Rattle.std.specs.Prelude.{◌≡◌, ◌≢◌, ℕ, ◌+◌, ◌^◌, ◌<◌, ◌≤◌, length, All, sum_by, slice_index, slice_set};
ghost use Rattle.rapid_text.specs.Recording.{IsWellFormed};
ghost use Rattle.event_index.specs.Lookups.{events_of};
ghost use Rattle.race_groups.specs.Counting.{weigh as weighed, AreFrontsOf, AreInside, AreRaised, AreWeighedBy};

use crate::counting::{Classed, Cut, Later};

// Adds the weight to the sum of each event's class.
fn weigh(sums: &mut [u64], classes: &[u32], events: &[u32], left: u64)
    requires events { All (λ e. e < length classes.now) events.now }
    requires classes { All (λ c. c < length sums.old) classes.now }
    requires room { (c : ℕ) → c < length sums.old → slice_index sums.old c + sum_by (weighed classes.now left c) events.now < 2 ^ 64 }
    ensures counted { AreRaised (λ c. sum_by (weighed classes.now left c) events.now) sums.old sums.new }
{
    for event in events {
        sums[classes[*event as usize] as usize] += left;
    }
}

// Moves the front of one thread.
fn weigh_on(
    sums: &mut [u64],
    fronts: &mut [u32],
    classed: Classed<'_>,
    thread: u32,
    to: u32,
    left: u64,
)
    requires formed { IsWellFormed classed.indexed.now }
    requires thread { thread < length classed.indexed.now.threads }
    requires len { length classed.numbers.now ≡ length classed.indexed.now.events }
    requires classes { All (λ c. c < length sums.old) classed.numbers.now }
    requires fronts_len { length fronts.old ≡ length classed.indexed.now.threads }
    requires from { slice_index fronts.old thread ≤ to }
    requires to { to ≤ length (events_of classed.indexed.now.events thread) }
    requires left { left ≤ 1048576 }
    requires room { (c : ℕ) → c < length sums.old → slice_index sums.old c ≤ 2 ^ 42 }
    ensures fronts { fronts.new ≡ slice_set fronts.old thread to }
    ensures moved { AreWeighedBy classed.entry left fronts.old sums.old fronts.new sums.new }
{
    let from = fronts[thread as usize] as usize;
    let passed = &classed.indexed.thread_events(thread)[from..to as usize];
    weigh(sums, classed.numbers, passed, left);
    fronts[thread as usize] = to;
}

/// Moves the fronts of all other threads to the ends of a later event.
pub(crate) fn weigh_all<C: Cut>(
    sums: &mut [u64],
    fronts: &mut [u32],
    classed: Classed<'_>,
    cut: &C,
    later: Later,
    left: u64,
)
    requires len { length classed.numbers.now ≡ length classed.indexed.now.events }
    requires classes { All (λ c. c < length sums.old) classed.numbers.now }
    requires fronts_len { length fronts.old ≡ length classed.indexed.now.threads }
    requires inside { AreInside classed fronts.old }
    requires can { (t : ℕ) → t < length classed.indexed.now.threads → C.can_end cut.now later.event t }
    requires own { slice_index fronts.old later.thread ≡ 0 }
    requires behind { (t : ℕ) → t < length classed.indexed.now.threads → t ≢ later.thread → slice_index fronts.old t ≤ C.end_of cut.now later.event t }
    requires within { (t : ℕ) → t < length classed.indexed.now.threads → C.end_of cut.now later.event t ≤ length (events_of classed.indexed.now.events t) }
    requires left { left ≤ 1048576 }
    requires room { (c : ℕ) → c < length sums.old → slice_index sums.old c ≤ 2 ^ 41 }
    ensures fronts { AreFrontsOf classed.entry later (C.end_of cut.now) fronts.new }
    ensures inside { AreInside classed.entry fronts.new }
    ensures moved { AreWeighedBy classed.entry left fronts.old sums.old fronts.new sums.new }
{
    for thread in 0..classed.indexed.threads() {
        if thread != later.thread {
            let from = fronts[thread as usize];
            let to = cut.end(later.event, thread, from);
            weigh_on(sums, fronts, classed, thread, to, left);
        }
    }
}
