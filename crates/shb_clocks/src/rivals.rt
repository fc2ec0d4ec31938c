//! The rivals of a variable: a few of its later accesses that decide whether an earlier one has a partner.
ghost use Rattle.std.specs.Prelude.{◌≡◌, ◌<◌, ℕ, length, IfSome, false, List};
ghost use Rattle.rapid_text.specs.declared.event.Event.{Event};
ghost use Rattle.shb_clocks.specs.declared.rivals.Rivals.TheVariants.{Two};
ghost use Rattle.shb_clocks.specs.Rivals.{IsClear, AreEvents, StandsFor, Adds, Narrows};

use crate::clocks::Clocks;
use event_index::Indexed;

/// At most two later accesses of a variable that an earlier access may be apart from. Each rival represents all
/// accesses that follow it in its thread. `Many` means that there are more, and keeps none.
#[derive(Clone, Copy)]
pub(crate) enum Rivals {
    Nowhere,
    One(u32),
    Two(u32, u32),
    Many,
}

impl Rivals {
    /// Whether there is any rival. If not, SHB keeps every event before the bases of the rivals.
    pub(crate) fn are_any(self) -> bool
        ensures { result ≡ false → (T : List Event) → (a : ℕ) → IsClear T self a }
    {
        match self {
            Rivals::Nowhere => false,
            Rivals::One(_) | Rivals::Two(_, _) | Rivals::Many => true,
        }
    }

    /// These rivals and the event.
    pub(crate) fn with_event(self, indexed: &Indexed, event: u32) -> Rivals
        requires event { event < length indexed.now.events }
        requires rivals { AreEvents indexed.now.events self }
        ensures { Adds indexed.now.events self event result }
    {
        match self {
            Rivals::Nowhere => Rivals::One(event),
            Rivals::One(first) => match one_for_both(indexed, first, event) {
                Some(one) => Rivals::One(one),
                None => Rivals::Two(first, event),
            },
            Rivals::Two(first, second) => with_third(indexed, first, second, event),
            Rivals::Many => Rivals::Many,
        }
    }

    /// The rivals that the event is apart from. An event that is ordered no later is apart from no other of these
    /// rivals.
    pub(crate) fn narrowed(self, clocks: &Clocks, indexed: &Indexed, event: u32) -> Rivals
        requires trace { clocks.now ≡ indexed.now }
        requires event { event < length indexed.now.events }
        requires rivals { AreEvents indexed.now.events self }
        ensures { Narrows indexed.now.events event self result }
    {
        match self {
            Rivals::Nowhere => Rivals::Nowhere,
            Rivals::One(first) => {
                if clocks.is_apart(indexed, event, first) {
                    Rivals::One(first)
                } else {
                    Rivals::Nowhere
                }
            }
            Rivals::Two(first, second) => narrowed_two(clocks, indexed, event, first, second),
            Rivals::Many => Rivals::Many,
        }
    }
}

// Two rivals and a third event. If two of the three are of one thread, two remain; otherwise there are many.
fn with_third(indexed: &Indexed, first: u32, second: u32, event: u32) -> Rivals
    requires first { first < length indexed.now.events }
    requires second { second < length indexed.now.events }
    requires event { event < length indexed.now.events }
    ensures { Adds indexed.now.events (Two first second) event result }
{
    if let Some(one) = one_for_both(indexed, first, event) {
        return Rivals::Two(one, second);
    }
    match one_for_both(indexed, second, event) {
        Some(one) => Rivals::Two(first, one),
        None => Rivals::Many,
    }
}

// The rivals, of two, that the event is apart from.
fn narrowed_two(clocks: &Clocks, indexed: &Indexed, event: u32, first: u32, second: u32) -> Rivals
    requires trace { clocks.now ≡ indexed.now }
    requires event { event < length indexed.now.events }
    requires first { first < length indexed.now.events }
    requires second { second < length indexed.now.events }
    ensures { Narrows indexed.now.events event (Two first second) result }
{
    let from_first = clocks.is_apart(indexed, event, first);
    let from_second = clocks.is_apart(indexed, event, second);
    if from_first && from_second {
        Rivals::Two(first, second)
    } else if from_first {
        Rivals::One(first)
    } else if from_second {
        Rivals::One(second)
    } else {
        Rivals::Nowhere
    }
}

// The earlier of two events of one thread. An event that is apart from one of the two is apart from it. None if they
// are of different threads.
fn one_for_both(indexed: &Indexed, first: u32, second: u32) -> Option<u32>
    requires first { first < length indexed.now.events }
    requires second { second < length indexed.now.events }
    ensures { IfSome result (StandsFor indexed.now.events first second) }
{
    if indexed.event(first).thread != indexed.event(second).thread {
        return None;
    }
    if first <= second {
        Some(first)
    } else {
        Some(second)
    }
}
