//! Reads a trace, and what its recording says of itself.
ghost use Rattle.std.specs.Prelude.{◌≡◌, false, IfOk};
ghost use Rattle.calls.specs.triage.Recordings.{IsRecordingOf};

use client_scripts::{ReplayFault, Source, load_owned, read_input};
use event_index::Indexed;
use std::alloc::Global;
use wholeness::{Wholeness, wholeness_of};

/// Reads input 1 and the trace in it, as `client_scripts::read_trace` does, and what the text says of itself.
pub fn read_recording<S: Source>(
    alloc: Global,
    reader: &mut S,
) -> Result<(Indexed, Wholeness), ReplayFault>
    requires { S.has_failed reader.old ≡ false }
    // Both come from the same bytes. If the reader's type shows its bytes, they are the reader's.
    ensures read { IfOk result (IsRecordingOf (S.rest reader.old)) }
{
    let text = match read_input(alloc, reader, 1) {
        Ok(text) => text,
        Err(fault) => return Err(fault),
    };
    let wholeness = match wholeness_of(alloc, text.as_slice()) {
        Ok(wholeness) => wholeness,
        Err(_) => return Err(ReplayFault::OutOfMemory),
    };
    match load_owned(alloc, text) {
        Ok(indexed) => Ok((indexed, wholeness)),
        Err(fault) => Err(fault),
    }
}
