//! Why a command is refused.

use schedule::{Disabled, SwapRefusal};

/// Why a command is refused. The number of each cause is printed with it.
#[derive(Clone, Copy, PartialEq, Eq, Debug)]
pub enum MoveRefusal {
    /// 42: no schedule has the name that the command changes, drops or copies.
    NoSuchSchedule,
    /// 43: a schedule has the name of the new schedule already.
    NameTaken,
    /// 44: the board has no proposal with this number.
    NoSuchProposal,
    /// 45: the schedule has no event to take off.
    NothingToRetract,
    /// 46: the event is not enabled.
    Disabled(Disabled),
    /// 47: the two neighbours cannot be exchanged.
    Swap(SwapRefusal),
    /// 48: the schedule has fewer events than the branch copies.
    TooShort,
    /// 49: out of memory.
    OutOfMemory,
}
