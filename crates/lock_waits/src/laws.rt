//! What a deadlock says about every correct reordering. Each function here does nothing: its contract is a law of the
//! definitions, which `specs/Laws.antt` states.
ghost use Rattle.lock_waits.specs.Laws.{DeadlockStays, ForcedIsNeverShown, GuardedIsNeverShown, RefutedIsNeverShown, RequiredIsThere, ShownIsHeld};

/// A deadlock never ends: no correct reordering that goes on from it has one of its requests.
pub fn deadlock_stays()
    ensures { DeadlockStays }
{}

/// After a schedule that shows a deadlock, the next request's thread alone holds the lock that a request acquires. So
/// `Schedule::enabled` refuses each request with 25 and names that thread.
pub fn shown_is_held()
    ensures { ShownIsHeld }
{}

/// No correct reordering shows a deadlock in which two threads hold one lock.
pub fn guarded_is_never_shown()
    ensures { GuardedIsNeverShown }
{}

/// No correct reordering shows a deadlock with a request that is forced before another one.
pub fn forced_is_never_shown()
    ensures { ForcedIsNeverShown }
{}

/// Each correct reordering after which the requests are next has what they require.
pub fn required_is_there()
    ensures { RequiredIsThere }
{}

/// No correct reordering shows a deadlock whose requests require one of themselves, or the end of a section that never
/// ends.
pub fn refuted_is_never_shown()
    ensures { RefutedIsNeverShown }
{}
