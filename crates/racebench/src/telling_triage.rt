//! Reports faults of `triage` and `merge`, and what is wrong with files that leave races out.
ghost use Rattle.std.specs.Prelude.{◌<◌};
ghost use Rattle.std.specs.Process.{exit_status};

use crate::file_notes::{CONFIRMED, append_form_notes, append_triaged_note};
use crate::quoted::append_name;
use crate::seen::{BACK, UNMET};
use crate::telling::{Fault, append_noted, end, say, tell, tell_files};
use calls::BenchFault;
use calls::triage::{ConfirmedFault, TriageFault, TriagedFault};
use program_words::TriageTask;
use rapid_text::OutOfMemory;
use report::{Piece, append_pieces};
use std::process::ExitCode;
use std::sync::atomic::{AtomicU64, Ordering};

/// Reports a fault of `triage` on the trace and the known races at these paths.
pub(crate) fn tell_triage(rt: &HostRuntime, fault: TriageFault, paths: &[&str]) -> ExitCode
    ensures { 0 < exit_status result }
{
    match fault {
        TriageFault::Replay(fault) => tell_files(rt, BenchFault::from(fault), paths),
        fault => tell(rt, Fault::Triage(fault)),
    }
}

/// Appends the line that reports a refused line of the followed races at this path, and its notes.
fn append_in_confirmed(
    rt: &HostRuntime,
    out: &mut Vec<u8>,
    line: u64,
    path: &str,
) -> Result<(), OutOfMemory> {
    if append_noted(rt, out, &Fault::Confirmed(ConfirmedFault::Line(line)))? {
        append_form_notes(rt, out, path, line, CONFIRMED)?;
    }
    Ok(())
}

/// Reports a fault of the file of followed races, which is input 3.
pub(crate) fn tell_confirmed(
    rt: &HostRuntime,
    fault: ConfirmedFault,
    task: &TriageTask<'_>,
) -> ExitCode
    ensures { 0 < exit_status result }
{
    let path = task.confirmed.unwrap_or("");
    match fault {
        ConfirmedFault::Replay(fault) => tell_files(
            rt,
            BenchFault::from(fault),
            &[task.trace, task.known.unwrap_or(""), path],
        ),
        ConfirmedFault::Line(line) => {
            let mut lines = Vec::new(rt.alloc());
            let made = append_in_confirmed(rt, &mut lines, line, path);
            end(rt, &lines, made, ExitCode::FAILURE)
        }
    }
}

/// Reports a fault of the triage file at this path, which is input 4.
pub(crate) fn tell_triaged(rt: &HostRuntime, fault: TriagedFault, path: &str) -> ExitCode
    ensures { 0 < exit_status result }
{
    match fault {
        TriagedFault::Replay(fault) => {
            tell_files(rt, BenchFault::from(fault), &["", "", "", path])
        }
        fault => {
            let mut lines = Vec::new(rt.alloc());
            let made = append_in_triaged(rt, &mut lines, fault, path);
            end(rt, &lines, made, ExitCode::FAILURE)
        }
    }
}

/// Appends the line that reports a fault of the triage file at this path, and the note that names it.
fn append_in_triaged(
    rt: &HostRuntime,
    out: &mut Vec<u8>,
    fault: TriagedFault,
    path: &str,
) -> Result<(), OutOfMemory> {
    if append_noted(rt, out, &Fault::Triaged(fault))? {
        append_triaged_note(out, path)?;
    }
    Ok(())
}

/// The report that the clock has no date.
const DATELESS: &[u8] = b"racebench: the clock has no date: pass one with `--today`\n";

/// Reports that the clock has no date.
pub(crate) fn tell_dateless(rt: &HostRuntime) -> ExitCode
    ensures { 0 < exit_status result }
{
    say(rt, DATELESS);
    ExitCode::FAILURE
}

/// Prints which entries of the triage file at this path are about no race, and which `fixed` ones are about a race.
pub(crate) fn tell_marks(
    rt: &HostRuntime,
    path: &str,
    marks: &[AtomicU64],
) -> Result<(), OutOfMemory> {
    let mut lines = Vec::new(rt.alloc());
    for at in 0..marks.len() {
        let mark = marks[at].load(Ordering::SeqCst);
        if mark == UNMET {
            append_mark(&mut lines, path, at as u64, b" is about no race\n")?;
        } else if mark == BACK {
            append_mark(
                &mut lines,
                path,
                at as u64,
                b" says fixed, and there is a race\n",
            )?;
        }
    }
    say(rt, &lines);
    Ok(())
}

/// Appends the line on an entry; `at` is its number, counted from 0.
fn append_mark(out: &mut Vec<u8>, path: &str, at: u64, words: &[u8]) -> Result<(), OutOfMemory> {
    out.extend_from_slice(b"racebench: ")?;
    append_name(out, path)?;
    append_pieces(
        out,
        &[
            Piece::Words(b": entry "),
            Piece::Number(at.saturating_add(1)),
            Piece::Words(words),
        ],
    )
}

/// Prints that the text of known races at this path has no block `race`.
pub(crate) fn tell_blockless(rt: &HostRuntime, path: &str) -> Result<(), OutOfMemory> {
    tell_nothing_known(rt, path, b" has no block `race`: no race is known\n")
}

/// Prints that the text of known deadlocks at this path has no block `deadlock`.
pub(crate) fn tell_deadlockless(rt: &HostRuntime, path: &str) -> Result<(), OutOfMemory> {
    tell_nothing_known(
        rt,
        path,
        b" has no block `deadlock`: no deadlock is known\n",
    )
}

/// Prints that the file at this path has nothing that is known, in these words.
fn tell_nothing_known(rt: &HostRuntime, path: &str, words: &[u8]) -> Result<(), OutOfMemory> {
    let mut line = Vec::new(rt.alloc());
    line.extend_from_slice(b"racebench: ")?;
    append_name(&mut line, path)?;
    line.extend_from_slice(words)?;
    say(rt, &line);
    Ok(())
}
