//! The findings on a pair.
use crate::How;
use closed_order::Step;
use event_index::EventList;
use must_order::Chain;

/// The finding on a conflicting pair, with the reason.
#[derive(Drop)]
pub enum Finding {
    /// A race: the schedule `events` shows the pair.
    Race {
        /// How the schedule was found.
        how: How,
        /// The events of the schedule, in order.
        events: EventList,
    },
    /// The earlier event comes before the later one in every correct reordering that has the later one.
    Forced {
        /// Why: the first chain leads from the earlier event to the later one.
        chains: Vec<Chain>,
    },
    /// Both threads hold one lock before their events.
    Guarded {
        /// The least such lock.
        lock: u32,
    },
    /// Reads and critical sections contradict each schedule: these steps derive it.
    Contradicted {
        /// The steps.
        steps: Vec<Step>,
    },
    /// No schedule was found, and no contradiction either.
    Undecided {
        /// Events from the earlier one to the later one, by which SHB orders them.
        events: Vec<u32>,
    },
}
