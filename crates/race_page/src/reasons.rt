//! Why a pair of locations is no race, in one line.
ghost use Rattle.std.specs.Prelude.{◌≡◌, ◌<◌, ◌++◌, [], IfOk, OnOk, length, slice_index_or};
ghost use Rattle.race_page.specs.Items.{Written, WrittenOne};
ghost use Rattle.race_page.specs.Raced.{IsRacedIn};
ghost use Rattle.race_page.specs.Reasons.{IsApartLine, IsApartReason, IsRacedText, IsReason, IsWhyApart, forced_line, guarded_words, raced_text, step_text, undecided_line, undecided_reason};

use crate::own::Tag;
use crate::piece::{Item, Piece};
use event_index::Indexed;
use explain_report::first_raced;
use must_order::{Analysis, Step};
use race_triage::{Outcome, Verdict};
use rapid_text::OutOfMemory;
use std::alloc::Global;

/// The line for a pair of locations if no open pair was tried, so that none could be shown.
const UNTRIED: &[u8] =
    b"undecided: no pair was tried, and neither order nor lock forbids a schedule";

/// The line for a pair of locations if pairs were tried.
const UNDECIDED: &[u8] =
    b"undecided: no schedule was found, and neither order nor lock forbids one";

/// The line for a pair that is apart, and that neither order nor lock keeps so.
const CONTRADICTED: &[u8] =
    b"apart: no order of the critical sections and reads shows the two side by side";

/// Writes the first line of what `explain` prints of a row that is no race. If no pair was tried, writes that.
///
/// If the two are apart because of a read that itself races with the write that it reads, writes that too. Of a race,
/// writes nothing.
pub(crate) fn write_reason(
    piece: &mut Piece,
    analysis: &Analysis<'_>,
    verdict: Verdict,
) -> Result<(), OutOfMemory>
    ensures { WrittenOne result piece.old piece.new (IsReason analysis.now verdict) }
{
    match verdict.outcome {
        Outcome::Race {
            how: _,
            events: _,
            threads: _,
        } => Ok(()),
        Outcome::Undecided { tried } => {
            write_undecided(piece, tried)?;
            Ok(())
        }
        Outcome::Apart => write_apart(piece, analysis, verdict.first, verdict.second),
    }
}

/// Writes that neither order nor lock forbids a schedule.
fn write_undecided(piece: &mut Piece, tried: u32) -> Result<(), OutOfMemory>
    ensures { Written result piece.old piece.new (undecided_reason tried) }
{
    piece.write(&[
        Item::Begin(Tag::Facts),
        Item::Element(Tag::Isolated, words_of(tried)),
        Item::End(Tag::Facts),
    ])
}

/// The line of an undecided pair of locations after `tried` tries.
fn words_of(tried: u32) -> &'static [u8]
    ensures { result.now ≡ undecided_line tried }
{
    if tried == 0 { UNTRIED } else { UNDECIDED }
}

/// Writes why no schedule shows the two events. Writes nothing if the trace has no such events.
fn write_apart(
    piece: &mut Piece,
    analysis: &Analysis<'_>,
    first: u32,
    second: u32,
) -> Result<(), OutOfMemory>
    ensures { WrittenOne result piece.old piece.new (IsApartReason analysis.now first second) }
{
    let events = analysis.indexed().len();
    if first >= events {
        Ok(())
    } else if second >= events {
        Ok(())
    } else {
        write_why(piece, analysis, first, second)
    }
}

/// Writes the line, and what races on the way.
fn write_why(
    piece: &mut Piece,
    analysis: &Analysis<'_>,
    first: u32,
    second: u32,
) -> Result<(), OutOfMemory>
    requires first { first < length analysis.now.events }
    requires second { second < length analysis.now.events }
    ensures { WrittenOne result piece.old piece.new (IsWhyApart analysis.now first second) }
{
    piece.write(&[Item::Begin(Tag::Facts), Item::Begin(Tag::Isolated)])?;
    write_line(piece, analysis, first, second)?;
    piece.write(&[Item::End(Tag::Isolated)])?;
    write_raced_in(piece, analysis, first, second)?;
    piece.write(&[Item::End(Tag::Facts)])?;
    Ok(())
}

/// Writes that the order keeps the two apart, or else the lock that both threads hold, or else that critical sections and
/// reads do.
fn write_line(
    piece: &mut Piece,
    analysis: &Analysis<'_>,
    first: u32,
    second: u32,
) -> Result<(), OutOfMemory>
    requires first { first < length analysis.now.events }
    requires second { second < length analysis.now.events }
    ensures { WrittenOne result piece.old piece.new (IsApartLine analysis.now first second) }
{
    if analysis.is_forced(first, second) {
        write_forced(piece, first, second)?;
        return Ok(());
    }
    match analysis.guard(first, second) {
        Some(lock) => {
            write_guarded(piece, name_of(analysis.indexed(), lock))?;
            Ok(())
        }
        None => {
            piece.write(&[Item::Text(CONTRADICTED)])?;
            Ok(())
        }
    }
}

/// Writes that the first event comes before the second.
fn write_forced(piece: &mut Piece, first: u32, second: u32) -> Result<(), OutOfMemory>
    ensures { Written result piece.old piece.new (forced_line first second) }
{
    piece.write(&[
        Item::Text(b"apart: "),
        Item::Number(u64::from(first)),
        Item::Text(b" comes before "),
        Item::Number(u64::from(second)),
        Item::Text(b" in every correct reordering"),
    ])
}

/// Writes that both threads hold the lock with this name.
fn write_guarded(piece: &mut Piece, name: &[u8]) -> Result<(), OutOfMemory>
    ensures { Written result piece.old piece.new (guarded_words name.now) }
{
    piece.write(&[Item::Text(b"apart: both threads hold "), Item::Text(name)])
}

/// The name of the lock; empty if the trace has no such lock.
fn name_of(indexed: &Indexed, lock: u32) -> &[u8]
    ensures { result.now ≡ slice_index_or indexed.now.locks lock [] }
{
    let raw = indexed.trace().raw();
    if lock < raw.locks() {
        raw.lock_name(lock)
    } else {
        b""
    }
}

/// Writes the first step that races, in the chains that keep the first event before the second.
fn write_raced_in(
    piece: &mut Piece,
    analysis: &Analysis<'_>,
    first: u32,
    second: u32,
) -> Result<(), OutOfMemory>
    requires first { first < length analysis.now.events }
    requires second { second < length analysis.now.events }
    ensures { WrittenOne result piece.old piece.new (IsRacedText analysis.now first second) }
{
    let raced = raced_in(piece.allocator(), analysis, first, second)?;
    write_raced(piece, raced)?;
    Ok(())
}

/// In the chains that keep the first event before the second: the first step from a write to a read of it whose two
/// events race themselves.
fn raced_in(
    alloc: Global,
    analysis: &Analysis<'_>,
    first: u32,
    second: u32,
) -> Result<Option<Step>, OutOfMemory>
    requires first { first < length analysis.now.events }
    requires second { second < length analysis.now.events }
    ensures { IfOk result (IsRacedIn analysis.now first second) }
{
    match analysis.reasons(alloc, first, second)? {
        Some(chains) => Ok(first_raced(analysis, chains.as_slice())),
        None => Ok(None),
    }
}

/// Writes that the write and the read of a step race, if there is a step.
fn write_raced(piece: &mut Piece, raced: Option<Step>) -> Result<(), OutOfMemory>
    ensures { Written result piece.old piece.new (raced_text raced) }
{
    match raced {
        Some(step) => write_step(piece, u64::from(step.from), u64::from(step.to)),
        None => Ok(()),
    }
}

/// Writes that the write and the read of it race.
fn write_step(piece: &mut Piece, write: u64, read: u64) -> Result<(), OutOfMemory>
    ensures { Written result piece.old piece.new (step_text write read) }
{
    piece.write(&[
        Item::Text(b", since "),
        Item::Number(read),
        Item::Text(b" reads "),
        Item::Number(write),
        Item::Text(b" (these two race: explain "),
        Item::Number(write),
        Item::Text(b" "),
        Item::Number(read),
        Item::Text(b")"),
    ])
}
