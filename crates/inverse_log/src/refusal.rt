//! Why a call was refused, of a bench or of a seat.

use moves::{MoveRefusal, Name};

/// Why a call was refused. The number of each cause is printed with it. A refused call changes nothing.
#[derive(Clone, Copy, PartialEq, Eq)]
pub enum Refusal {
    /// 42 to 48: why a command, or a look at a schedule, is refused.
    Move(MoveRefusal),
    /// 51: the client has no live command and no live batch.
    NothingToUndo,
    /// 52: a later live entry touches a name that the entry to take back wrote.
    RestsOn {
        /// The number of the first such entry.
        entry: u64,
        /// The first name that was written and that this entry touches.
        name: Name,
    },
    /// 53: the proposed list is no correct reordering.
    NotReordering {
        /// The index of the first event that is not enabled after those before it.
        position: u32,
    },
    /// 54: the proposed list does not show its pair.
    NotShown,
    /// 55: the log holds 1,000,000 entries.
    LogFull,
    /// 56: out of memory.
    OutOfMemory,
    /// 57: the log has no entry with this number.
    NoSuchEntry,
    /// 58: the entry is no command and no batch of this client.
    NotOwn,
    /// 59: the entry was taken back already.
    NotLive,
    /// 60: a batch has 1 to 64 commands.
    BadBatch,
    /// 70: a command of a batch is refused.
    InBatch {
        /// Its index among the commands, from 0.
        place: u32,
        /// Why it is refused: 42 to 48.
        cause: MoveRefusal,
    },
}

/// Why a call through a seat of a bench was refused. `workspace_lock` has the seats. The refusal is here, so that code
/// that prints refusals needs no lock.
#[derive(Clone, Copy, PartialEq, Eq)]
pub enum SeatRefusal {
    /// 42 to 70: why the bench refused the call. The seat has had its turn, and has seen the log.
    Bench(Refusal),
    /// 73: the seat has made 4,294,967,295 calls. It stays as it was.
    SeatSpent,
}
