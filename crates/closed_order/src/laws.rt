//! What the closed order says about every correct reordering. Each function here does nothing: its contract is a law of
//! the definitions, which `specs/Laws.antt` states.
ghost use Rattle.closed_order.specs.Laws.{ContradictedIsNeverReady, ContradictedIsNeverShown, ContradictedIsNoDeadlock, PrecedesIsKept};

/// Each correct reordering after which the requests are next keeps their order.
pub fn precedes_is_kept()
    ensures { PrecedesIsKept }
{}

/// Contradicted requests are next after no correct reordering.
pub fn contradicted_is_never_ready()
    ensures { ContradictedIsNeverReady }
{}

/// No correct reordering shows a pair of contradicted accesses.
pub fn contradicted_is_never_shown()
    ensures { ContradictedIsNeverShown }
{}

/// No correct reordering shows a deadlock with contradicted requests.
pub fn contradicted_is_no_deadlock()
    ensures { ContradictedIsNoDeadlock }
{}
