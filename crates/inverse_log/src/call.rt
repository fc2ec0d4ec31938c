//! The calls of a client.

use event_index::EventList;
use moves::{Command, Commands, Name};

/// A call of one client.
#[derive(Drop)]
pub enum Call {
    /// A command on the named schedules.
    Do(Command),
    /// Commands as one entry: 1 to 64, applied one after another, all or none.
    Batch(Commands),
    /// Takes back the client's latest live command or batch.
    Undo,
    /// Takes back the client's command or batch of this entry, if it is live.
    UndoAt {
        /// The entry's number.
        entry: u64,
    },
    /// Posts a list of events that shows the pair `first`, `second`.
    Propose {
        /// One event of the pair.
        first: u32,
        /// The other event.
        second: u32,
        /// The events, in the order of the proposed reordering.
        events: EventList,
    },
    /// The events of the named schedule.
    Show(Name),
    /// The names of all schedules.
    List,
    /// The pairs that the named schedule shows.
    Races(Name),
}
