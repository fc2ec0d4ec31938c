//! What the events of a class add to the rows, together with one later event or with all later ones of one class.
ghost use Rattle.std.specs.Prelude.{◌≡◌, ◌-◌, ◌*◌, ◌<◌, ◌≤◌, ◌^◌, ℕ, All, Bool, true, false, length, slice_index, if◌then◌else◌};
ghost use Rattle.race_groups.specs.Counts.{is_counted};
ghost use Rattle.race_groups.specs.Rows.{Part, part, amount, by_part};
ghost use Rattle.race_groups.specs.Totals.{entries_at, weighed_sum, pairs_of_class};

use crate::rows::Sums;

/// The number of pairs that the events of a class add.
#[derive(Clone, Copy)]
pub(crate) struct Share {
    /// To all pairs, which are counted twice.
    pub(crate) all: u64,
    /// To the candidates.
    pub(crate) candidates: u64,
    /// To those that SHB orders and must-before does not.
    pub(crate) ordered: u64,
}

impl Share {
    /// Whether all three are 0.
    pub(crate) fn is_nothing(self) -> bool
        ensures none { result ≡ true → (k : Part) → amount k self ≡ 0 }
        ensures some { result ≡ false → (k : Part) × (0 < amount k self) × ((b : Bool) → is_counted k b ≡ true) }
    {
        self.candidates == 0 && self.ordered == 0 && self.all == 0
    }

    /// The sums of the pairs, whose threads both hold one lock or do not.
    pub(crate) fn sums(self, is_shared: bool) -> Sums
        ensures { (k : Part) → part k result ≡ (if is_counted k is_shared then amount k self else 0) }
    {
        Sums {
            all: self.all,
            candidates: self.candidates,
            ordered: self.ordered,
            guarded: where_shared(self.ordered, is_shared),
        }
    }
}

fn where_shared(count: u64, is_shared: bool) -> u64
    ensures { result ≡ (if is_shared then count else 0) }
{
    if is_shared { count } else { 0 }
}

/// The share of each class.
pub(crate) trait Shares {
    /// The classes for which `share` is defined.
    ghost can_tell: { Self → ℕ → Type 0 };

    ghost amount_of: { Self → Part → ℕ → ℕ };

    /// The share of the class with this number.
    fn share(&self, class: u32) -> Share
        requires can { can_tell self.now class }
        ensures amounts { (k : Part) → amount k result ≡ amount_of self.now k class };
}

/// The loose pairs by class: those below one cut and not below the next.
#[derive(Clone, Copy)]
pub(crate) struct Loose<'a> {
    /// The number of events that are earlier in the trace.
    pub(crate) earlier: &'a [u64],
    /// How many of the earlier events SHB keeps before.
    pub(crate) known: &'a [u64],
    /// How many of the events that `known` counts are must-before.
    pub(crate) forced: &'a [u64],
}

impl Shares for Loose<'_> {
    ghost use Rattle.std.specs.Prelude.{◌-◌, ◌<◌, ◌≤◌, length, slice_index};
    ghost use Rattle.race_groups.specs.Rows.{by_part};

    ghost can_tell = { λ s c. (c < length s.earlier.now) × (c < length s.known.now) × (c < length s.forced.now)
        × (slice_index s.known.now c ≤ slice_index s.earlier.now c) × (slice_index s.forced.now c ≤ slice_index s.known.now c) };

    ghost amount_of = { λ s k c. by_part 0 (slice_index s.earlier.now c - slice_index s.known.now c)
        (slice_index s.known.now c - slice_index s.forced.now c) k };

    fn share(&self, class: u32) -> Share {
        let earlier = self.earlier[class as usize];
        let forced = self.forced[class as usize];
        if earlier == forced {
            return Share {
                all: 0,
                candidates: 0,
                ordered: 0,
            };
        }
        let known = self.known[class as usize];
        Share {
            all: 0,
            candidates: earlier - known,
            ordered: known - forced,
        }
    }
}

/// All pairs of a class's events: with the events of each lesser class, counted twice, and with each other.
#[derive(Clone, Copy)]
pub(crate) struct Total<'a> {
    /// The number of events of each class.
    pub(crate) totals: &'a [u64],
    /// The threads of the events of each class.
    pub(crate) spread: &'a [Vec<(u32, u32)>],
    /// The number of events of the class in each thread.
    pub(crate) weights: &'a [u64],
    /// The number of events of the class in all threads.
    pub(crate) times: u64,
    /// The number of the class.
    pub(crate) class: u32,
}

impl Total<'_> {
    // The number of pairs of different threads with the events of class `class`.
    fn pairs(&self, class: u32) -> u64
        requires class { class < length self.now.totals.now }
        requires spread { class < length self.now.spread.now }
        requires within { All (λ e. e.0 < length self.now.weights.now) (entries_at self.now.spread.now class) }
        requires less { weighed_sum (slice_index self.now.weights.now) (entries_at self.now.spread.now class) ≤ self.now.times * slice_index self.now.totals.now class }
        requires fits { self.now.times * slice_index self.now.totals.now class < 2 ^ 63 }
        ensures { result ≡ pairs_of_class self.now class }
    {
        let all = self.times * self.totals[class as usize];
        all - weighed(self.weights, self.spread[class as usize].as_slice())
    }
}

// The sum of the entries' numbers, each times the weight of its thread.
fn weighed(weights: &[u64], entries: &[(u32, u32)]) -> u64
    requires within { All (λ e. e.0 < length weights.now) entries.now }
    requires fits { weighed_sum (slice_index weights.now) entries.now < 2 ^ 64 }
    ensures { result ≡ weighed_sum (slice_index weights.now) entries.now }
{
    let mut sum = 0u64;
    for entry in entries {
        sum += u64::from(entry.1) * weights[entry.0 as usize];
    }
    sum
}

impl Shares for Total<'_> {
    ghost use Rattle.std.specs.Prelude.{◌-◌, ◌*◌, ◌<◌, ◌≤◌, ◌^◌, All, length, slice_index};
    ghost use Rattle.race_groups.specs.Rows.{by_part};
    ghost use Rattle.race_groups.specs.Totals.{at_greater, entries_at, weighed_sum};

    ghost can_tell = { λ s c. (c < length s.totals.now) × (c < length s.spread.now)
        × All (λ e. e.0 < length s.weights.now) (entries_at s.spread.now c)
        × (weighed_sum (slice_index s.weights.now) (entries_at s.spread.now c) ≤ s.times * slice_index s.totals.now c)
        × (s.times * slice_index s.totals.now c < 2 ^ 63) };

    ghost amount_of = { λ s k c. by_part (at_greater s.class c
        (s.times * slice_index s.totals.now c - weighed_sum (slice_index s.weights.now) (entries_at s.spread.now c))) 0 0 k };

    fn share(&self, class: u32) -> Share {
        let all = if class > self.class {
            0
        } else if class == self.class {
            self.pairs(class)
        } else {
            2 * self.pairs(class)
        };
        Share {
            all,
            candidates: 0,
            ordered: 0,
        }
    }
}
