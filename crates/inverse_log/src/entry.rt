//! The entries of the log.

use crate::compact::CompactCommand;
use event_index::EventList;
use moves::Commands;

/// One entry of the log: an accepted call that changed the workspace or the board.
#[derive(Drop)]
pub enum Entry {
    /// A command was applied.
    Did {
        /// The client who applied it, 1 to 32.
        client: u32,
        /// The command.
        command: CompactCommand,
    },
    /// Commands were applied, one after another.
    Batch {
        /// The client who applied them, 1 to 32.
        client: u32,
        /// The commands, 1 to 64 of them.
        commands: Commands,
    },
    /// A command or a batch was taken back.
    Undid {
        /// The client who took it back, 1 to 32.
        client: u32,
        /// The number of the entry that was undone.
        entry: u64,
    },
    /// A proposal was put on the board.
    Proposed {
        /// The client who proposed it, 1 to 32.
        client: u32,
        /// One event of the pair that it shows.
        first: u32,
        /// The other event.
        second: u32,
        /// The proposed list.
        events: EventList,
    },
}
