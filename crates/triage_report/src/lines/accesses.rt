//! What a line says of an access: its place, thread, verb and variable.
ghost use Rattle.std.specs.Prelude.{◌≡◌};
ghost use Rattle.rapid_text.specs.Recording.{IsNamedOp};
ghost use Rattle.triage_report.specs.lines.Accesses.{op_name, spot, spot_at, thread_at, variable_at, verb, verb_at};

use event_index::Indexed;
use explain_report::places::{cut_at_arrow, location_of};
use rapid_text::{Op, RawTrace};

/// The place of a location: what comes before the first ` < `, or `?` if that is empty.
pub fn spot(location: &[u8]) -> &[u8]
    ensures { result.now ≡ spot location.now }
{
    let (place, _) = cut_at_arrow(location);
    if place.is_empty() { b"?" } else { place }
}

/// The place of the event's location.
pub fn spot_of(indexed: &Indexed, event: u32) -> &[u8]
    ensures { result.now ≡ spot_at indexed.now event }
{
    spot(location_of(indexed, event))
}

/// The name of the event's thread; empty if the trace has no such event.
pub fn thread_of(indexed: &Indexed, event: u32) -> &[u8]
    ensures { result.now ≡ thread_at indexed.now event }
{
    if event < indexed.len() {
        indexed.thread_name(indexed.event(event).thread)
    } else {
        b""
    }
}

/// The verb for the event, such as `reads`; empty if the trace has no such event.
pub fn verb_of(indexed: &Indexed, event: u32) -> &'static [u8]
    ensures { result.now ≡ verb_at indexed.now event }
{
    if event < indexed.len() {
        verb(indexed.event(event).op)
    } else {
        b""
    }
}

/// The name of the variable that the event accesses. If it is no access, the name of its lock or thread. Empty if the
/// trace has no such event.
pub fn variable_of(indexed: &Indexed, event: u32) -> &[u8]
    ensures { result.now ≡ variable_at indexed.now event }
{
    if event < indexed.len() {
        name_of(indexed.trace().raw(), indexed.event(event).op)
    } else {
        b""
    }
}

/// The verb for the operation.
fn verb(op: Op) -> &'static [u8]
    ensures { result.now ≡ verb op }
{
    match op {
        Op::Read(_) => b"reads",
        Op::Write(_) => b"writes",
        Op::Acquire(_) => b"acquires",
        Op::Release(_) => b"releases",
        Op::Fork(_) => b"forks",
        Op::Join(_) => b"joins",
    }
}

/// The name of the variable, lock or thread of an operation.
fn name_of(trace: &RawTrace, op: Op) -> &[u8]
    requires { IsNamedOp trace.now op }
    ensures { result.now ≡ op_name trace.now op }
{
    match op {
        Op::Read(variable) => trace.variable_name(variable),
        Op::Write(variable) => trace.variable_name(variable),
        Op::Acquire(lock) => trace.lock_name(lock),
        Op::Release(lock) => trace.lock_name(lock),
        Op::Fork(thread) => trace.thread_name(thread),
        Op::Join(thread) => trace.thread_name(thread),
    }
}
