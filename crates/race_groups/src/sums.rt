//! For the events of one class of a thread together: the number of events of each class below their cuts.
ghost use Rattle.std.specs.Prelude.{◌≡◌, ℕ, ◌<◌, ◌≤◌, length, replicate, All};
ghost use Rattle.rapid_text.specs.Recording.{IsWellFormed};
ghost use Rattle.event_index.specs.Lookups.{events_of};
ghost use Rattle.race_groups.specs.Counting.{IsBlank, class_count, AreSumsBelow};
ghost use Rattle.race_groups.specs.Cuts.{IsCut};

use crate::counting::{Classed, Cut, Front, Later};
use crate::weighing::weigh_all;

/// Computes the sums for class number `class`, in a front before which no event comes.
pub(crate) fn sum_below<C: Cut>(
    front: &mut Front,
    classed: Classed<'_>,
    cut: &C,
    own: u32,
    class: u32,
)
    requires len { length classed.numbers.now ≡ length classed.indexed.now.events }
    requires blank { IsBlank (length classed.indexed.now.threads) (length front.old.counts.items) front.old }
    requires classes { All (λ c. c < length front.old.counts.items) classed.numbers.now }
    requires own { own < length classed.indexed.now.threads }
    requires can { (b t : ℕ) → b < length classed.indexed.now.events → t < length classed.indexed.now.threads → C.can_end cut.now b t }
    requires cut { IsCut classed.indexed.now.events (C.end_of cut.now) }
    ensures len { length front.new.counts.items ≡ length front.old.counts.items }
    ensures counted { AreSumsBelow classed.entry own (C.end_of cut.now) class front.new.counts.items }
{
    let _len = classed.indexed.len();
    let sums = front.counts.as_mut_slice();
    let fronts = front.fronts.as_mut_slice();
    sum_up(sums, fronts, classed, cut, own, class);
}

// How many of the events are of the class.
fn count_class(classes: &[u32], events: &[u32], class: u32) -> u64
    requires events { All (λ e. e < length classes.now) events.now }
    requires few { length events.now ≤ 1048576 }
    ensures { result ≡ class_count classes.now class events.now }
{
    let mut count = 0u64;
    for event in events {
        if classes[*event as usize] == class {
            count += 1;
        }
    }
    count
}

// Visits the thread's events of the class.
fn sum_up<C: Cut>(
    sums: &mut [u64],
    fronts: &mut [u32],
    classed: Classed<'_>,
    cut: &C,
    own: u32,
    class: u32,
)
    requires formed { IsWellFormed classed.indexed.now }
    requires len { length classed.numbers.now ≡ length classed.indexed.now.events }
    requires classes { All (λ c. c < length sums.old) classed.numbers.now }
    requires own { own < length classed.indexed.now.threads }
    requires can { (b t : ℕ) → b < length classed.indexed.now.events → t < length classed.indexed.now.threads → C.can_end cut.now b t }
    requires cut { IsCut classed.indexed.now.events (C.end_of cut.now) }
    requires fronts { fronts.old ≡ replicate (length classed.indexed.now.threads) 0 }
    requires sums { sums.old ≡ replicate (length sums.old) 0 }
    ensures counted { AreSumsBelow classed.entry own (C.end_of cut.now) class sums.new }
{
    let indexed = classed.indexed;
    let lane = indexed.thread_events(own);
    let mut left = count_class(classed.numbers, lane, class);
    for at in 0..lane.len() {
        let event = lane[at];
        if classed.numbers[event as usize] == class {
            let later = Later { event, thread: own };
            weigh_all(sums, fronts, classed, cut, later, left);
            left -= 1;
        }
    }
}
