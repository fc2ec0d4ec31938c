//! The note on two names that mean no pair, or no variable of a race: which of the reasons it is.

ghost use Rattle.std.specs.Prelude.{◌≡◌, false};

use crate::doing::name_of;
use crate::file_notes::is_plain;
use crate::input::{Input, input_at, is_standard};
use crate::place_notes::append_place_reason;
use crate::quoted::{append_number, append_shown};
use calls::pair::Name;
use client_scripts::read_trace;
use event_index::Indexed;
use program_words::PairTask;
use rapid_text::{Op, OutOfMemory};

/// Appends the note on why the names mean no pair of the trace in a file. The file is read again, so there is no note
/// if it is not plain, or if the trace came on standard input. If `by_location` is true, an event means its location.
pub(crate) fn append_pair_note(
    rt: &HostRuntime,
    out: &mut Vec<u8>,
    pair: &PairTask<'_>,
    by_location: bool,
) -> Result<(), OutOfMemory> {
    if is_standard(pair.trace) {
        return Ok(());
    }
    if !is_plain(rt, pair.trace) {
        return Ok(());
    }
    let mut input = input_at(rt, pair.trace);
    append_note_of(rt, out, &mut input, pair, by_location)
}

/// Appends the note, for the trace that this input gives.
fn append_note_of(
    rt: &HostRuntime,
    out: &mut Vec<u8>,
    input: &mut Input,
    pair: &PairTask<'_>,
    by_location: bool,
) -> Result<(), OutOfMemory>
    requires { input.old.failed ≡ false }
{
    match read_trace(rt.alloc(), input) {
        Ok(indexed) => append_reason_of(rt, out, &indexed, pair, by_location),
        Err(_) => Ok(()),
    }
}

/// Appends the note, for this trace.
fn append_reason_of(
    rt: &HostRuntime,
    out: &mut Vec<u8>,
    indexed: &Indexed,
    pair: &PairTask<'_>,
    by_location: bool,
) -> Result<(), OutOfMemory> {
    match name_of(pair.one) {
        Name::Event(one) => {
            append_event_reason(rt, out, indexed, one, name_of(pair.other), by_location)
        }
        one => append_place_reason(rt.alloc(), out, indexed, one, name_of(pair.other)),
    }
}

/// Appends the note on an event and another name.
fn append_event_reason(
    rt: &HostRuntime,
    out: &mut Vec<u8>,
    indexed: &Indexed,
    one: u32,
    other: Name<'_>,
    by_location: bool,
) -> Result<(), OutOfMemory> {
    match other {
        Name::Event(other) => append_reason(out, indexed, one, other, by_location),
        other => append_place_reason(rt.alloc(), out, indexed, Name::Event(one), other),
    }
}

/// The note on two locations without a race.
const NO_VARIABLE: &[u8] =
    b"note: no access at the location of one event conflicts with an access at that of the other\n";

/// Appends the note on two events.
fn append_reason(
    out: &mut Vec<u8>,
    indexed: &Indexed,
    one: u32,
    other: u32,
    by_location: bool,
) -> Result<(), OutOfMemory> {
    let len = indexed.len();
    if one >= len {
        return append_no_event(out, one, u64::from(len));
    }
    if other >= len {
        return append_no_event(out, other, u64::from(len));
    }
    if by_location {
        return Ok(out.extend_from_slice(NO_VARIABLE)?);
    }
    if one == other {
        return append_same_event(out, one);
    }
    let first = indexed.event(one);
    if first.thread == indexed.event(other).thread {
        out.extend_from_slice(b"note: both events are of thread ")?;
        append_shown(out, indexed.thread_name(first.thread))?;
        out.extend_from_slice(b"\n")?;
        return Ok(());
    }
    out.extend_from_slice(no_pair_note(first.op, indexed.event(other).op))?;
    Ok(())
}

/// The note on two events of two threads that mean no pair.
fn no_pair_note(one: Op, other: Op) -> &'static [u8] {
    if is_acquire(one) && is_acquire(other) {
        return b"note: the two acquires do not wait for each other: each thread has to hold what the other one acquires\n";
    }
    b"note: the two events do not conflict: a pair accesses one variable, and one of them writes\n"
}

fn is_acquire(op: Op) -> bool {
    match op {
        Op::Acquire(_) => true,
        _ => false,
    }
}

/// Appends the note on one event that is named twice.
fn append_same_event(out: &mut Vec<u8>, event: u32) -> Result<(), OutOfMemory> {
    out.extend_from_slice(b"note: both numbers are event ")?;
    append_number(out, u64::from(event))?;
    out.extend_from_slice(b": a pair has two events\n")?;
    Ok(())
}

/// Appends the note on a number that is not an event. `len` is how many events the trace has. A number past those of
/// events comes as the largest, so the note does not show that one.
pub(crate) fn append_no_event(out: &mut Vec<u8>, event: u32, len: u64) -> Result<(), OutOfMemory> {
    out.extend_from_slice(b"note: ")?;
    if event == u32::MAX {
        out.extend_from_slice(b"so large a number")?;
    } else {
        append_number(out, u64::from(event))?;
    }
    if len == 0 {
        out.extend_from_slice(b" is not an event: the trace has none\n")?;
        return Ok(());
    }
    out.extend_from_slice(b" is not an event: those of the trace are 0 to ")?;
    append_number(out, len - 1)?;
    out.extend_from_slice(b"\n")?;
    Ok(())
}
