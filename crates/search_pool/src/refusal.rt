//! Why a call on a pool fails.
use rapid_text::OutOfMemory;
use std::alloc::AllocError;

/// Why `start` starts no pool.
#[derive(Clone, Copy, PartialEq, Eq, Debug)]
pub enum StartRefusal {
    /// 64: out of memory.
    OutOfMemory,
    /// 65: there are not 1 to 32 gates.
    BadCount,
    /// 66: a thread could not be started.
    NoThread,
}

impl From<AllocError> for StartRefusal {
    ghost use Rattle.std.specs.Prelude.{◌≡◌};
    ghost use Rattle.search_pool.specs.declared.refusal.StartRefusal.TheVariants.{OutOfMemory};

    ghost from_gives = { λ error refusal. refusal ≡ OutOfMemory };

    fn from(_error: AllocError) -> StartRefusal {
        StartRefusal::OutOfMemory
    }
}

impl From<OutOfMemory> for StartRefusal {
    ghost use Rattle.std.specs.Prelude.{◌≡◌};
    ghost use Rattle.search_pool.specs.declared.refusal.StartRefusal.TheVariants.{OutOfMemory};

    ghost from_gives = { λ error refusal. refusal ≡ OutOfMemory };

    fn from(_error: OutOfMemory) -> StartRefusal {
        StartRefusal::OutOfMemory
    }
}

/// Why `submit` does not take a request.
#[derive(Clone, Copy, PartialEq, Eq, Debug)]
pub enum SubmitRefusal {
    /// 64: out of memory.
    OutOfMemory,
    /// 68: 64 requests are pending, or 4,294,967,295 were submitted.
    Busy,
    /// 69: the workers have stopped.
    Stopped,
}

/// Why `collect` returns no answer.
#[derive(Clone, Copy, PartialEq, Eq, Debug)]
pub enum CollectRefusal {
    /// 67: no request is pending.
    NothingPending,
    /// 69: the workers have stopped.
    Stopped,
}
