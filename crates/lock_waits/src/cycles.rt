//! Whether requests wait for one another in a circle.
ghost use Rattle.std.specs.Prelude.{◌≡◌, ◌≢◌, ◌<◌, ◌≤◌, ◌↔◌, ◌+◌, ◌-◌, ℕ, All, AllPairs, Any, IsTrue, length, slice_index};
ghost use Rattle.event_index.specs.Events.{thread_at};
ghost use Rattle.lock_waits.specs.Waits.{AreOfTwoThreads, IsCycle, WaitsFor};

use crate::waiting::waits_for;
use event_index::Indexed;
use must_order::Analysis;

/// Whether the requests are a cycle: two or more events of different threads, each of which acquires a lock that the
/// next one's thread holds, and the last one a lock that the first one's thread holds. It compares each two requests.
pub fn is_cycle(analysis: &Analysis, requests: &[u32]) -> bool
    ensures cycle { IsTrue result ↔ IsCycle analysis.now.events requests.now }
{
    if requests.len() < 2 {
        return false;
    }
    if !each_waits(analysis, requests) {
        return false;
    }
    if !waits_for(analysis, requests[requests.len() - 1], requests[0]) {
        return false;
    }
    are_of_different_threads(analysis.indexed(), requests)
}

// Whether each request except for the last waits for the next one.
fn each_waits(analysis: &Analysis, requests: &[u32]) -> bool
    requires { 2 ≤ length requests.now }
    ensures { IsTrue result ↔ ((i : ℕ) → i + 1 < length requests.now → WaitsFor analysis.now.events (slice_index requests.now i) (slice_index requests.now (i + 1))) }
{
    for at in 0..requests.len() - 1 {
        if !waits_for(analysis, requests[at], requests[at + 1]) {
            return false;
        }
    }
    true
}

// Whether no two of the events are of one thread.
fn are_of_different_threads(indexed: &Indexed, events: &[u32]) -> bool
    requires { All (λ e. e < length indexed.now.events) events.now }
    ensures { IsTrue result ↔ AllPairs (AreOfTwoThreads indexed.now.events) events.now }
{
    for at in 0..events.len() {
        if has_event_of_thread(indexed, &events[..at], events[at]) {
            return false;
        }
    }
    true
}

// Whether one event in the list is of the other event's thread.
fn has_event_of_thread(indexed: &Indexed, events: &[u32], other: u32) -> bool
    requires events { All (λ e. e < length indexed.now.events) events.now }
    requires other { other < length indexed.now.events }
    ensures { IsTrue result ↔ Any (λ e. thread_at indexed.now.events e ≡ thread_at indexed.now.events other) events.now }
{
    for at in 0..events.len() {
        if are_of_one_thread(indexed, events[at], other) {
            return true;
        }
    }
    false
}

/// Whether the two events are of one thread.
pub(crate) fn are_of_one_thread(indexed: &Indexed, first: u32, second: u32) -> bool
    requires first { first < length indexed.now.events }
    requires second { second < length indexed.now.events }
    ensures { IsTrue result ↔ (thread_at indexed.now.events first ≡ thread_at indexed.now.events second) }
{
    indexed.event(first).thread == indexed.event(second).thread
}
