//! Why there are no verdicts.

use rapid_text::OutOfMemory;
use std::alloc::{AllocError, AllocFailed};

/// The reason why there are no verdicts.
#[derive(Clone, Copy, PartialEq, Eq, Debug)]
pub enum Refusal {
    /// There are more than `MAX_PATTERNS` patterns.
    TooMany,
    /// Out of memory.
    OutOfMemory,
}

impl From<OutOfMemory> for Refusal {
    ghost use Rattle.std.specs.Prelude.{◌≡◌};
    ghost use Rattle.deadlock_triage.specs.declared.refusal.Refusal.TheVariants.{OutOfMemory};

    ghost from_gives = { λ refused refusal. refusal ≡ OutOfMemory };

    fn from(_refused: OutOfMemory) -> Refusal {
        Refusal::OutOfMemory
    }
}

impl From<AllocError> for Refusal {
    ghost use Rattle.std.specs.Prelude.{◌≡◌};
    ghost use Rattle.deadlock_triage.specs.declared.refusal.Refusal.TheVariants.{OutOfMemory};

    ghost from_gives = { λ refused refusal. refusal ≡ OutOfMemory };

    fn from(_refused: AllocError) -> Refusal {
        Refusal::OutOfMemory
    }
}

impl<T: Drop> From<AllocFailed<T>> for Refusal {
    ghost use Rattle.std.specs.Prelude.{◌≡◌};
    ghost use Rattle.deadlock_triage.specs.declared.refusal.Refusal.TheVariants.{OutOfMemory};

    ghost from_gives = { λ refused refusal. refusal ≡ OutOfMemory };

    fn from(_refused: AllocFailed<T>) -> Refusal {
        Refusal::OutOfMemory
    }
}
