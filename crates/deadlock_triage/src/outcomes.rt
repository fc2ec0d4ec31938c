//! Outcomes and verdicts.

use crate::patterns::Pattern;

/// The order of a schedule that shows a deadlock.
#[derive(Clone, Copy, PartialEq, Eq, Debug)]
pub enum How {
    /// The order of the trace.
    Ordered,
    /// Another order.
    Turned,
}

/// The outcome for a pattern.
#[derive(Clone, Copy, PartialEq, Eq, Debug)]
pub enum Outcome {
    /// A schedule shows the two requests.
    Deadlock {
        /// The order of the schedule.
        how: How,
        /// How many events the schedule has.
        events: u32,
        /// How many threads have events in the schedule.
        threads: u32,
    },
    /// No schedule was found for any pair of requests that was tried.
    Undecided {
        /// How many pairs were tried.
        tried: u32,
    },
    /// No correct reordering shows two requests of this pattern.
    Apart,
}

/// The verdict on a pattern, with two requests of this pattern that wait for each other.
#[derive(Clone, Copy, PartialEq, Eq, Debug)]
pub struct Verdict {
    /// The number of the earlier request.
    pub first: u32,
    /// The number of the later request.
    pub second: u32,
    /// The locations of the requests and of their holds.
    pub pattern: Pattern,
    /// How many pairs of requests were judged.
    pub judged: u32,
    /// The outcome.
    pub outcome: Outcome,
}
