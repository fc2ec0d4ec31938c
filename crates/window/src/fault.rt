//! Why a trace or a piece of a trace is not cut.

use rapid_text::{OutOfMemory, TextCause};
use std::alloc::{AllocError, AllocFailed};
use trace_rules::RuleCause;

/// Why there is no window of a trace.
#[derive(Clone, Copy, PartialEq, Eq, Debug)]
pub enum CutFault {
    /// The trace has no event with the number of the window's first event.
    NoSuchEvent,
    /// The trace uses every name that the prologue's variable could have.
    NoName,
    /// Out of memory.
    OutOfMemory,
}

impl From<AllocError> for CutFault {
    ghost use Rattle.std.specs.Prelude.{◌≡◌};
    ghost use Rattle.window.specs.declared.fault.CutFault.TheVariants.{OutOfMemory as NoMemory};

    ghost from_gives = { λ _ fault. fault ≡ NoMemory };

    fn from(_error: AllocError) -> CutFault {
        CutFault::OutOfMemory
    }
}

impl From<OutOfMemory> for CutFault {
    ghost use Rattle.std.specs.Prelude.{◌≡◌};
    ghost use Rattle.window.specs.declared.fault.CutFault.TheVariants.{OutOfMemory as NoMemory};

    ghost from_gives = { λ _ fault. fault ≡ NoMemory };

    fn from(_error: OutOfMemory) -> CutFault {
        CutFault::OutOfMemory
    }
}

impl<T: Drop> From<AllocFailed<T>> for CutFault {
    ghost use Rattle.std.specs.Prelude.{◌≡◌};
    ghost use Rattle.window.specs.declared.fault.CutFault.TheVariants.{OutOfMemory as NoMemory};

    ghost from_gives = { λ _ fault. fault ≡ NoMemory };

    fn from(_error: AllocFailed<T>) -> CutFault {
        CutFault::OutOfMemory
    }
}

/// Why a piece of a long trace is refused. Lines and events are counted over all that was read.
#[derive(Clone, Copy, PartialEq, Eq, Debug)]
pub enum FrontFault {
    /// A line is refused. Lines are counted from 1.
    Text { line: u64, why: TextCause },
    /// An event breaks a rule. Events are counted from 0.
    Rule { event: u64, why: RuleCause },
    /// The piece does not end with a line.
    Unended,
    /// The piece has no event.
    NoSuchEvent,
    /// The piece uses every name that the prologue's variable could have.
    NoName,
    /// The piece has too many threads. The limit counts its own, those that hold a lock before it, and at most two
    /// others.
    TooManyThreads,
    /// The piece has more events than fit. Or the number of events or lines read, or of locks held, would be too
    /// large.
    TooLong,
    /// Out of memory.
    OutOfMemory,
}

impl From<OutOfMemory> for FrontFault {
    ghost use Rattle.std.specs.Prelude.{◌≡◌};
    ghost use Rattle.window.specs.declared.fault.FrontFault.TheVariants.{OutOfMemory as NoMemory};

    ghost from_gives = { λ _ fault. fault ≡ NoMemory };

    fn from(_error: OutOfMemory) -> FrontFault {
        FrontFault::OutOfMemory
    }
}
