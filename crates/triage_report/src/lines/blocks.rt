//! The lines of one verdict.
ghost use Rattle.std.specs.Prelude.{◌≡◌, ◌<◌, length, IfOk};
ghost use Rattle.rapid_text.specs.Appended.{Appended};
ghost use Rattle.rapid_text.specs.Canonical.{name_at};
ghost use Rattle.triage_report.specs.lines.Lines.{about_line, access_lines, earlier_words, head_line, held_lines, how_words, later_words, lines_at, lock_line, lock_lines, outcome_words, reason_line, reason_words, rule_words, shown_at, verdict_lines};

use crate::folder::{Folder, place_in};
use crate::lines::accesses::{spot_of, thread_of, variable_of, verb_of};
use crate::lines::calls::append_calls;
use crate::lines::reasons::{append_apart, append_race, append_undecided};
use event_index::Indexed;
use explain_report::places::location_of;
use must_order::Analysis;
use race_triage::{Outcome, Verdict};
use rapid_text::OutOfMemory;
use report::{Piece, append_pieces};

/// Appends the lines of a verdict, those of its later access first.
pub(crate) fn append_verdict(
    out: &mut Vec<u8>,
    analysis: &Analysis<'_>,
    folder: &Folder,
    verdict: &Verdict,
) -> Result<(), OutOfMemory>
    ensures { Appended result out.old out.new (verdict_lines analysis.now folder.now verdict.now) }
{
    let first = place_at(out, analysis.indexed(), folder, verdict.first)?;
    let second = place_at(out, analysis.indexed(), folder, verdict.second)?;
    append_at(
        out,
        analysis,
        folder,
        first.as_slice(),
        second.as_slice(),
        verdict,
    )
}

/// The place of an event, with the path of its file in the folder.
pub fn place_at(
    out: &Vec<u8>,
    indexed: &Indexed,
    folder: &Folder,
    event: u32,
) -> Result<Vec<u8>, OutOfMemory>
    ensures { IfOk result (λ place. place.items ≡ shown_at indexed.now folder.now event) }
{
    place_in(*out.allocator(), folder, spot_of(indexed, event))
}

/// Appends the lines of a verdict whose two accesses are at these places.
fn append_at(
    out: &mut Vec<u8>,
    analysis: &Analysis<'_>,
    folder: &Folder,
    first: &[u8],
    second: &[u8],
    verdict: &Verdict,
) -> Result<(), OutOfMemory>
    ensures { Appended result out.old out.new (lines_at analysis.now folder.now first.now second.now verdict.now) }
{
    let indexed = analysis.indexed();
    append_head(out, indexed, first, second, verdict)?;
    append_access(out, analysis, folder, second, verdict.second)?;
    append_access(out, analysis, folder, first, verdict.first)?;
    append_reason(out, second, verdict)?;
    Ok(())
}

/// The kind of the first line, and what was found.
fn outcome_words(outcome: Outcome) -> &'static [u8]
    ensures { result.now ≡ outcome_words outcome }
{
    match outcome {
        Outcome::Race {
            how: _,
            events: _,
            threads: _,
        } => b"warning: data race",
        Outcome::Undecided { tried: _ } => b"warning: undecided pair",
        Outcome::Apart => b"note: apart",
    }
}

/// The name of the rule, at the end of the first line. Without it the line would end in a place, which Emacs would read
/// as the line's own place.
fn rule_words(outcome: Outcome) -> &'static [u8]
    ensures { result.now ≡ rule_words outcome }
{
    match outcome {
        Outcome::Race {
            how: _,
            events: _,
            threads: _,
        } => b"data-race",
        Outcome::Undecided { tried: _ } => b"undecided-pair",
        Outcome::Apart => b"apart",
    }
}

/// Appends the first line of a verdict whose two accesses are at these places.
fn append_head(
    out: &mut Vec<u8>,
    indexed: &Indexed,
    first: &[u8],
    second: &[u8],
    verdict: &Verdict,
) -> Result<(), OutOfMemory>
    ensures { Appended result out.old out.new (head_line indexed.now first.now second.now verdict.now) }
{
    append_later(out, indexed, second, verdict)?;
    append_earlier(out, indexed, first, verdict)?;
    Ok(())
}

/// Appends the part of the first line on the later access, which is at this place.
fn append_later<'a>(
    out: &mut Vec<u8>,
    indexed: &'a Indexed,
    place: &'a [u8],
    verdict: &Verdict,
) -> Result<(), OutOfMemory>
    ensures { Appended result out.old out.new (later_words indexed.now place.now verdict.now) }
{
    let second = verdict.second;
    append_pieces(
        out,
        &[
            Piece::Words(place),
            Piece::Words(b": "),
            Piece::Words(outcome_words(verdict.outcome)),
            Piece::Words(b" on "),
            Piece::Words(variable_of(indexed, second)),
            Piece::Words(b": "),
            Piece::Words(thread_of(indexed, second)),
            Piece::Words(b" "),
            Piece::Words(verb_of(indexed, second)),
        ],
    )
}

/// Appends the part of the first line on the earlier access, which is at this place, and ends the line.
fn append_earlier<'a>(
    out: &mut Vec<u8>,
    indexed: &'a Indexed,
    place: &'a [u8],
    verdict: &Verdict,
) -> Result<(), OutOfMemory>
    ensures { Appended result out.old out.new (earlier_words indexed.now place.now verdict.now) }
{
    let first = verdict.first;
    append_pieces(
        out,
        &[
            Piece::Words(b", "),
            Piece::Words(thread_of(indexed, first)),
            Piece::Words(b" "),
            Piece::Words(verb_of(indexed, first)),
            Piece::Words(b" at "),
            Piece::Words(place),
            Piece::Words(b" ["),
            Piece::Words(rule_words(verdict.outcome)),
            Piece::Words(b"]\n"),
        ],
    )
}

/// Appends the lines of an access at this place, if the trace has it.
fn append_access(
    out: &mut Vec<u8>,
    analysis: &Analysis<'_>,
    folder: &Folder,
    place: &[u8],
    event: u32,
) -> Result<(), OutOfMemory>
    ensures { Appended result out.old out.new (access_lines analysis.now folder.now place.now event) }
{
    let indexed = analysis.indexed();
    if event >= indexed.len() {
        return Ok(());
    }
    append_about(out, indexed, place, event)?;
    append_held(out, analysis, place, event)?;
    append_calls(out, folder, place, location_of(indexed, event))?;
    Ok(())
}

/// Appends the line `event` of an access at this place. If memory runs out, part of the line may be there.
pub fn append_about<'a>(
    out: &mut Vec<u8>,
    indexed: &'a Indexed,
    place: &'a [u8],
    event: u32,
) -> Result<(), OutOfMemory>
    ensures { Appended result out.old out.new (about_line indexed.now place.now event) }
{
    append_pieces(
        out,
        &[
            Piece::Words(place),
            Piece::Words(b": note: event "),
            Piece::Number(u64::from(event)),
            Piece::Words(b": "),
            Piece::Words(thread_of(indexed, event)),
            Piece::Words(b" "),
            Piece::Words(verb_of(indexed, event)),
            Piece::Words(b" "),
            Piece::Words(variable_of(indexed, event)),
            Piece::Words(b"\n"),
        ],
    )
}

/// Appends a line for each lock that the thread holds before the event.
fn append_held(
    out: &mut Vec<u8>,
    analysis: &Analysis<'_>,
    place: &[u8],
    event: u32,
) -> Result<(), OutOfMemory>
    requires event { event < length analysis.now.events }
    ensures { Appended result out.old out.new (held_lines analysis.now place.now event) }
{
    let locks = analysis.locks_held(*out.allocator(), event)?;
    append_locks(out, analysis.indexed(), place, locks.as_slice())?;
    Ok(())
}

/// Appends a line for each of the locks, at this place. If memory runs out, part of the lines may be there.
pub fn append_locks(
    out: &mut Vec<u8>,
    indexed: &Indexed,
    place: &[u8],
    locks: &[u32],
) -> Result<(), OutOfMemory>
    ensures { Appended result out.old out.new (lock_lines indexed.now place.now locks.now) }
{
    for lock in locks {
        append_lock(out, indexed, place, *lock)?;
    }
    Ok(())
}

/// Appends the line of a lock.
fn append_lock<'a>(
    out: &mut Vec<u8>,
    indexed: &'a Indexed,
    place: &'a [u8],
    lock: u32,
) -> Result<(), OutOfMemory>
    ensures { Appended result out.old out.new (lock_line indexed.now place.now lock) }
{
    append_pieces(
        out,
        &[
            Piece::Words(place),
            Piece::Words(b": note: holds "),
            Piece::Words(lock_name(indexed, lock)),
            Piece::Words(b"\n"),
        ],
    )
}

/// The name of a lock; empty if the trace has no such lock.
fn lock_name(indexed: &Indexed, lock: u32) -> &[u8]
    ensures { result.now ≡ name_at indexed.now.locks lock }
{
    let raw = indexed.trace().raw();
    if lock < raw.locks() {
        raw.lock_name(lock)
    } else {
        b""
    }
}

/// Appends the last line of a verdict, with the reason. The later access is at this place.
fn append_reason(out: &mut Vec<u8>, place: &[u8], verdict: &Verdict) -> Result<(), OutOfMemory>
    ensures { Appended result out.old out.new (reason_line place.now verdict.now) }
{
    append_pieces(out, &[Piece::Words(place), Piece::Words(b": note: ")])?;
    append_why(out, verdict.outcome)?;
    append_how(out, verdict)?;
    Ok(())
}

/// Appends the command that explains the pair, and ends the line.
fn append_how(out: &mut Vec<u8>, verdict: &Verdict) -> Result<(), OutOfMemory>
    ensures { Appended result out.old out.new (how_words verdict.now) }
{
    append_pieces(
        out,
        &[
            Piece::Words(b": racebench explain TRACE "),
            Piece::Number(u64::from(verdict.first)),
            Piece::Words(b" "),
            Piece::Number(u64::from(verdict.second)),
            Piece::Words(b"\n"),
        ],
    )
}

/// Appends the reason for the outcome.
fn append_why(out: &mut Vec<u8>, outcome: Outcome) -> Result<(), OutOfMemory>
    ensures { Appended result out.old out.new (reason_words outcome) }
{
    match outcome {
        Outcome::Race {
            how: _,
            events,
            threads,
        } => append_race(out, u64::from(events), u64::from(threads)),
        Outcome::Undecided { tried } => append_undecided(out, u64::from(tried)),
        Outcome::Apart => append_apart(out),
    }
}
