//! Whether a schedule shows a deadlock.
ghost use Rattle.std.specs.Prelude.{◌≡◌, ◌↔◌, All, IsTrue, Some, ℕ};
ghost use Rattle.schedule.specs.Refusals.{refusal_of};
ghost use Rattle.schedule.specs.Scheduled.{recorded};
ghost use Rattle.schedule.specs.declared.refusal.Disabled.TheVariants.{LockHeld};
ghost use Rattle.lock_waits.specs.Held.{IsHeldBack, IsHold};
ghost use Rattle.lock_waits.specs.Waits.{ShowsDeadlock};

use crate::cycles::is_cycle;
use event_index::Indexed;
use must_order::Analysis;
use schedule::{Disabled, Schedule};

/// Whether the schedule shows the deadlock: the requests are a cycle, and each is the next event of its thread. Then
/// each is refused because the next one's thread holds its lock.
pub fn shows(analysis: &Analysis, schedule: &Schedule, requests: &[u32]) -> bool
    requires { schedule.now.trace ≡ analysis.now }
    ensures shows { IsTrue result ↔ ShowsDeadlock (recorded schedule.now) schedule.now.events requests.now }
{
    let _events = schedule.events();
    if !is_cycle(analysis, requests) {
        return false;
    }
    are_held_back(analysis.indexed(), schedule, requests)
}

// Whether each request may not come next because another thread holds its lock.
fn are_held_back(indexed: &Indexed, schedule: &Schedule, requests: &[u32]) -> bool
    requires { schedule.now.trace ≡ indexed.now }
    ensures { IsTrue result ↔ All (IsHeldBack (recorded schedule.now) schedule.now.events) requests.now }
{
    for at in 0..requests.len() {
        if !is_held_back(indexed, schedule, requests[at]) {
            return false;
        }
    }
    true
}

// Whether the request may not come next because another thread holds its lock.
fn is_held_back(indexed: &Indexed, schedule: &Schedule, request: u32) -> bool
    requires { schedule.now.trace ≡ indexed.now }
    ensures { IsTrue result ↔ IsHeldBack (recorded schedule.now) schedule.now.events request }
{
    match schedule.enabled(indexed, request) {
        Ok(()) => false,
        Err(cause) => is_hold(cause),
    }
}

// Whether the cause is that another thread holds the lock.
fn is_hold(cause: Disabled) -> bool
    ensures { IsTrue result ↔ IsHold cause }
{
    match cause {
        Disabled::LockHeld { thread: _ } => true,
        Disabled::NoSuchEvent => false,
        Disabled::NotNext => false,
        Disabled::NotForked => false,
        Disabled::WrongWriter { needs: _, has: _ } => false,
        Disabled::JoinEarly => false,
    }
}
