//! The exit status with `--fail`.
ghost use Rattle.std.specs.Prelude.{◌≡◌};
ghost use Rattle.std.specs.Process.{exit_status};
ghost use Rattle.wholeness.specs.Status.{status_of as status_for};

use crate::notes::are_wanted;
use crate::telling::say;
use calls::triage::{Judged, status_of as status_by};
use rapid_text::OutOfMemory;
use std::process::ExitCode;

/// What standard error says if the trace has no events.
pub(crate) const NO_TRACE_EVENTS: &[u8] = b"the trace has no events: nothing was judged\n";

/// What standard error says if no part has events.
pub(crate) const NO_PART_EVENTS: &[u8] = b"no part has events: nothing was judged\n";

/// Why no race in the report does not mean that the program has no race.
#[derive(Clone, Copy)]
pub(crate) struct Unjudged<'a> {
    /// What standard error says if there was no event.
    pub(crate) no_events: &'a [u8],
    /// What is missing in the recordings; empty if nothing is known to be missing.
    pub(crate) missing: &'a [u8],
}

/// Prints on standard error why the status is 4. A line is missing if memory runs out for it.
fn tell_unjudged(rt: &HostRuntime, judged: Judged, why: Unjudged<'_>) {
    if !judged.has_events {
        say(rt, b"racebench: ");
        say(rt, why.no_events);
    }
    if judged.is_whole {
        return;
    }
    let mut line = Vec::new(rt.alloc());
    if append_missing(&mut line, why.missing).is_ok() {
        say(rt, line.as_slice());
    }
}

/// Appends the line that says what is missing.
fn append_missing(out: &mut Vec<u8>, missing: &[u8]) -> Result<(), OutOfMemory> {
    out.extend_from_slice(b"racebench: not whole: ")?;
    out.extend_from_slice(missing)?;
    out.push(b'\n')?;
    Ok(())
}

/// The exit status after the report was printed. If it is 4, prints on standard error why. Without `--fail`, a note says
/// that there was no event.
pub(crate) fn status_of(rt: &HostRuntime, fail: bool, judged: Judged, why: Unjudged<'_>) -> ExitCode
    ensures { exit_status result ≡ status_for fail judged }
{
    if fail && judged.races == 0 {
        tell_unjudged(rt, judged, why);
    } else if !judged.has_events && are_wanted(rt) {
        say(rt, b"note: ");
        say(rt, why.no_events);
    }
    ExitCode::from(status_by(fail, judged))
}
