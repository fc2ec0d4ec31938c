//! The replies to accepted calls.

use event_index::{EventList, Pairs};
use moves::Names;

/// The reply to an accepted call. Entries of the log and proposals are numbered from 0.
#[derive(Drop)]
pub enum Reply {
    /// The command, or all commands of the batch, were applied. The number is that of the entry.
    Done(u64),
    /// A command or a batch was taken back.
    Undone {
        /// The number of the new entry.
        number: u64,
        /// The number of the entry that was undone.
        entry: u64,
    },
    /// A proposal was put on the board.
    Proposed {
        /// The number of the new entry.
        number: u64,
        /// The number of the proposal.
        proposal: u64,
    },
    /// The events of a schedule.
    Shown(EventList),
    /// The names of all schedules, in the order of their births.
    Listing(Names),
    /// The pairs that a schedule shows, the earlier event first, in rising order.
    Shows(Pairs),
}
