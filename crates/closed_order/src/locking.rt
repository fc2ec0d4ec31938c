//! Whether a step follows by the rules of critical sections.
ghost use Rattle.std.specs.Prelude.{◌≡◌, ◌≢◌, ◌<◌, ◌↔◌, ℕ, All, IsTrue, IfSome, Option, None, Some, length};
ghost use Rattle.rapid_text.specs.declared.event.Op.TheVariants.{Acquire};
ghost use Rattle.event_index.specs.Events.{op_at, thread_at};
ghost use Rattle.event_index.specs.Lookups.{section_end};
ghost use Rattle.must_order.specs.Held.{IsHeldFrom};
ghost use Rattle.must_order.specs.MustBefore.{EndsFirst, IsInSection};
ghost use Rattle.closed_order.specs.Closed.{AcquireTheSame, NeverEnds};
ghost use Rattle.closed_order.specs.Known.{IsBefore, IsKnown, IsTrueAfter, events_in};

use crate::known::{Known, is_before, is_must_before, is_said};
use crate::steps::Step;
use rapid_text::Op;

// The lock that the event acquires, or None.
fn lock_of(known: &Known<'_>, event: u32) -> Option<u32>
    ensures acquires { IfSome result (λ l. op_at (events_in known.now) event ≡ Some (Acquire l)) }
    ensures named { IfSome result (λ l. l < length known.now.analysis.now.locks) }
{
    match known.analysis.indexed().get(event)?.op {
        Op::Acquire(lock) => Some(lock),
        _ => None,
    }
}

// Whether both are events, of two threads.
fn are_of_two_threads(known: &Known<'_>, first: u32, second: u32) -> bool
    ensures { IsTrue result → thread_at (events_in known.now) first ≢ thread_at (events_in known.now) second }
{
    let indexed = known.analysis.indexed();
    match (indexed.get(first), indexed.get(second)) {
        (Some(one), Some(other)) => one.thread != other.thread,
        _ => false,
    }
}

// Since when the event's thread holds the lock.
fn held_since(known: &Known<'_>, event: u32, lock: u32) -> Option<u32>
    requires lock { lock < length known.now.analysis.now.locks }
    ensures { IfSome result (IsHeldFrom (events_in known.now) event lock) }
{
    if event >= known.analysis.indexed().len() {
        return None;
    }
    known.analysis.held_since(event, lock)
}

// Whether the first event acquires a lock, before the event, whose thread holds it since the second one.
pub(crate) fn enters_later(known: &Known<'_>, step: Step, event: u32, before: u32, due: u32) -> bool
    requires { IsKnown known.now }
    ensures { IsTrue result → IsTrueAfter known.now step }
{
    let Some(lock) = lock_of(known, step.first) else {
        return false;
    };
    let Some(start) = held_since(known, event, lock) else {
        return false;
    };
    if !is_before(step, start) {
        return false;
    }
    if !are_of_two_threads(known, step.first, start) {
        return false;
    }
    if !is_said(known, before, step.first, Some(event)) {
        return false;
    }
    is_said(known, due, event, None)
}

// Whether the first event ends the section that begins at `start`, which comes before the second event; and that one is
// in a section of the same lock, or begins one, in another thread.
pub(crate) fn ends_first(known: &Known<'_>, step: Step, start: u32, before: u32) -> bool
    requires { IsKnown known.now }
    ensures { IsTrue result → IsTrueAfter known.now step }
{
    let Some(inside) = step.second else {
        return false;
    };
    let Some(lock) = lock_of(known, start) else {
        return false;
    };
    let Some(thread) = thread_of(known, inside) else {
        return false;
    };
    if !ends_section(known, start, step.first) {
        return false;
    }
    if !is_in_section(known, inside, thread, lock) {
        return false;
    }
    if !are_of_two_threads(known, start, inside) {
        return false;
    }
    is_said(known, before, start, Some(inside))
}

// Whether the second event ends the section that the first one begins.
fn ends_section(known: &Known<'_>, start: u32, end: u32) -> bool
    ensures { IsTrue result → section_end (events_in known.now) start ≡ Some end }
{
    let indexed = known.analysis.indexed();
    if start >= indexed.len() {
        return false;
    }
    indexed.section(start) == Some(end)
}

// The thread of the event, or None if the trace has no such event.
fn thread_of(known: &Known<'_>, event: u32) -> Option<u32>
    ensures { IfSome result (λ t. thread_at (events_in known.now) event ≡ Some t) }
{
    Some(known.analysis.indexed().get(event)?.thread)
}

// Whether the event acquires the lock, or its thread holds it.
fn is_in_section(known: &Known<'_>, event: u32, _thread: u32, lock: u32) -> bool
    requires lock { lock < length known.now.analysis.now.locks }
    requires thread { thread_at (events_in known.now) event ≡ Some _thread }
    ensures { IsTrue result → IsInSection (events_in known.now) event _thread lock }
{
    if lock_of(known, event) == Some(lock) {
        return true;
    }
    match held_since(known, event, lock) {
        None => false,
        Some(_) => true,
    }
}

// Whether both events acquire one lock, in two threads, and the second one's section never ends.
pub(crate) fn lasts_longer(known: &Known<'_>, step: Step, request: u32, due: u32) -> bool
    requires { IsKnown known.now }
    ensures { IsTrue result → IsTrueAfter known.now step }
{
    let Some(last) = step.second else {
        return false;
    };
    if !acquire_the_same(known, last, step.first) {
        return false;
    }
    if !never_ends(known, last, request) {
        return false;
    }
    is_said(known, due, step.first, None)
}

// Whether both events acquire one lock, in two threads.
fn acquire_the_same(known: &Known<'_>, first: u32, second: u32) -> bool
    ensures { IsTrue result → AcquireTheSame (events_in known.now) first second }
{
    match (lock_of(known, first), lock_of(known, second)) {
        (Some(lock), Some(other)) => lock == other && are_of_two_threads(known, first, second),
        _ => false,
    }
}

// Whether the section that the event begins has no end, or this request is must-before its end.
fn never_ends(known: &Known<'_>, start: u32, request: u32) -> bool
    requires { IsKnown known.now }
    ensures { IsTrue result → NeverEnds (events_in known.now) known.now.requests.now start }
{
    let indexed = known.analysis.indexed();
    if start >= indexed.len() {
        return false;
    }
    let Some(end) = indexed.section(start) else {
        return true;
    };
    match known.requests.get(request as usize) {
        None => false,
        Some(event) => is_must_before(known, *event, end),
    }
}
