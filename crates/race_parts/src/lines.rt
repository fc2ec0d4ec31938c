//! Reads the lines of a text, each a JSON value.
ghost use Rattle.std.specs.Prelude.{◌≡◌, ◌≢◌, ◌<◌, ◌++◌, ◌∷◌, [], List, map, None, Some, IfErr, IfOk, IfSome, OnErr, OnOk, true};
ghost use Rattle.rapid_text.specs.Appended.{Appended};
ghost use Rattle.serde_json.specs.View.{view};
ghost use Rattle.serde_json.specs.declared.value.Value.{Value as OneValue};
ghost use Rattle.race_parts.specs.Marks.{HasMarks};
ghost use Rattle.race_parts.specs.Rows.{HasMark};
ghost use Rattle.race_parts.specs.Kept.{AreKept, IsRowOn};
ghost use Rattle.race_parts.specs.declared.kept.KeptRow.{KeptRow};
ghost use Rattle.race_parts.specs.Lines.{line_count_limit, AreLines, HasNoFeed, IsLineCut, IsReadOn, IsStopped, IsUnread};

use crate::facts::{Seen, seen_of, value_of};
use crate::kept::KeptRow;
use crate::rows::Mark;
use memchr::memchr;
use rapid_text::OutOfMemory;
use serde_json::Value;
use std::alloc::Global;

/// The most lines that a text may have.
pub const MAX_LINES: usize = 4_194_304;

/// Why a text is refused.
#[derive(Clone, Copy, PartialEq, Eq, Debug)]
pub enum PartRefusal {
    /// The line with this 0-based index does not fit there.
    Line(usize),
    /// The file has another version of the format.
    Version,
    /// A part of the file has the name of another part, which came from the file with this number.
    Clash(u32),
    /// Out of memory.
    OutOfMemory,
}

impl From<OutOfMemory> for PartRefusal {
    ghost use Rattle.std.specs.Prelude.{◌≡◌};
    ghost use Rattle.race_parts.specs.declared.lines.PartRefusal.TheVariants.{OutOfMemory as NoMemory};

    ghost from_gives = { λ _ refusal. refusal ≡ NoMemory };

    fn from(_refused: OutOfMemory) -> PartRefusal {
        PartRefusal::OutOfMemory
    }
}

/// A text whose first line was read.
#[derive(Drop)]
pub(crate) struct Begun<'a> {
    /// The JSON value of the first line.
    pub(crate) head: Value,
    /// The text after the first line.
    pub(crate) rest: &'a [u8],
}

/// Reads the first line of a text. The text is not empty.
pub(crate) fn begin(alloc: Global, text: &[u8]) -> Result<Begun<'_>, PartRefusal>
    requires { text.now ≢ [] }
    ensures ok { IfOk result (λ begun. IsReadOn text.now begun.rest.now (view begun.head)) }
    ensures err { IfErr result (IsUnread text.now) }
{
    match value_on(alloc, text, 0) {
        Ok((head, rest)) => Ok(Begun { head, rest }),
        Err(refusal) => Err(refusal),
    }
}

/// Returns the JSON values of all lines, in order.
#[tactic(auto, using(crate::proofs::LineLemmas::values_stop, crate::proofs::LineLemmas::values_end))]
pub(crate) fn lines_in(
    alloc: Global,
    text: &[u8],
    begun: Begun<'_>,
) -> Result<Vec<Value>, PartRefusal>
    requires { IsReadOn text.now begun.rest.now (view begun.head) }
    ensures ok { IfOk result (λ found. AreLines text.now (map view found.items)) }
    ensures head { IfOk result (λ all. (behind : List OneValue) × (all.items ≡ begun.entry.head ∷ behind)) }
    ensures err { IfErr result (IsUnread text.now) }
{
    let mut found = Vec::new(alloc);
    keep(&mut found, begun.head)?;
    let mut rest = begun.rest;
    'lines: while !rest.is_empty() {
        let (value, behind) = value_on(alloc, rest, found.len())?;
        keep(&mut found, value)?;
        rest = behind;
    }
    Ok(found)
}

/// What was read of the lines after the first.
#[derive(Drop)]
pub(crate) struct ReadRows {
    /// Their marks.
    pub(crate) marks: Vec<Mark>,
    /// What to keep of the lines; None unless each line is a row in the form that `triage` prints.
    pub(crate) rows: Option<Vec<KeptRow>>,
}

/// Reads the lines after the first.
#[tactic(auto, using(crate::proofs::LineLemmas::marked_stop, crate::proofs::LineLemmas::marked_end, crate::proofs::KeptLemmas::kept_all))]
pub(crate) fn rows_in(
    alloc: Global,
    text: &[u8],
    begun: &Begun<'_>,
) -> Result<ReadRows, PartRefusal>
    requires { IsReadOn text.now begun.now.rest.now (view begun.now.head) }
    ensures ok { IfOk result (λ found. HasMarks text.now (view begun.now.head) found.marks.items) }
    ensures rows { IfOk result (λ found. AreKept text.now found.rows) }
    ensures err { IfErr result (IsUnread text.now) }
{
    let mut marks = Vec::new(alloc);
    let mut rows = Vec::new(alloc);
    let mut all = true;
    let mut rest = begun.rest;
    'lines: while !rest.is_empty() {
        let (seen, behind) = seen_on(alloc, text, rest, marks.len() + 1)?;
        keep_mark(&mut marks, seen.mark)?;
        keep_row(&mut rows, seen.row)?;
        all = is_kept(all, seen.row);
        rest = behind;
    }
    let rows = kept_if(all, rows);
    Ok(ReadRows { marks, rows })
}

/// Adds the value.
fn keep(found: &mut Vec<Value>, value: Value) -> Result<(), OutOfMemory>
    ensures ok { Appended result found.old found.new (value ∷ []) }
    ensures err { OnErr result (found.new.items ≡ found.old.items) }
{
    found.push(value)?;
    Ok(())
}

/// Adds the mark.
fn keep_mark(marks: &mut Vec<Mark>, mark: Mark) -> Result<(), OutOfMemory>
    ensures ok { Appended result marks.old marks.new (mark ∷ []) }
{
    marks.push(mark)?;
    Ok(())
}

/// Adds what to keep of a row, if there is anything.
fn keep_row(rows: &mut Vec<KeptRow>, row: Option<KeptRow>) -> Result<(), OutOfMemory>
    ensures { OnOk result (IfSome row (λ r. rows.new.items ≡ rows.old.items ++ r ∷ [])) }
{
    if let Some(row) = row {
        rows.push(row)?;
    }
    Ok(())
}

/// Whether this row can be kept, and all rows before it too.
fn is_kept(all: bool, row: Option<KeptRow>) -> bool
    ensures all { result ≡ true → all ≡ true }
    ensures row { result ≡ true → (r : KeptRow) × (row ≡ Some r) }
{
    match row {
        Some(_) => all,
        None => false,
    }
}

/// The rows, if all rows can be kept.
fn kept_if(all: bool, rows: Vec<KeptRow>) -> Option<Vec<KeptRow>>
    ensures { IfSome result (λ kept. (all ≡ true) × (kept ≡ rows)) }
{
    if all { Some(rows) } else { None }
}

/// The first line of a text and the text after it. `place` is the number of lines before it; it may be at most
/// 4,194,303.
fn line_on(text: &[u8], place: usize) -> Result<(&[u8], &[u8]), PartRefusal>
    ensures ok { IfOk result (λ cut. IsLineCut text.now cut.0.now cut.1.now) }
    ensures few { IfOk result (λ cut. place < line_count_limit) }
    ensures err { IfErr result (IsStopped place text.now) }
{
    if place >= MAX_LINES {
        return Err(PartRefusal::Line(place));
    }
    match cut_line(text) {
        Some(cut) => Ok(cut),
        None => Err(PartRefusal::Line(place)),
    }
}

/// The JSON value of the first line of a text, and the text after it. `place` is the number of lines before it.
fn value_on(alloc: Global, text: &[u8], place: usize) -> Result<(Value, &[u8]), PartRefusal>
    ensures ok { IfOk result (λ read. IsReadOn text.now read.1.now (view read.0)) }
    ensures err { IfErr result (IsStopped place text.now) }
{
    let (line, behind) = line_on(text, place)?;
    match value_of(alloc, line)? {
        Some(value) => Ok((value, behind)),
        None => Err(PartRefusal::Line(place)),
    }
}

/// Reads the first line of `rest`, the part of the text not yet read. Also returns the text after that line. `place`
/// is the number of lines before it.
fn seen_on<'a>(
    alloc: Global,
    text: &[u8],
    rest: &'a [u8],
    place: usize,
) -> Result<(Seen, &'a [u8]), PartRefusal>
    ensures ok { IfOk result (λ read. HasMark (IsReadOn rest.now read.1.now) read.0.mark) }
    ensures row { IfOk result (λ read. IfSome read.0.row (IsRowOn text.now rest.now read.1.now)) }
    ensures err { IfErr result (IsStopped place rest.now) }
{
    let (line, behind) = line_on(rest, place)?;
    let from = text.len().saturating_sub(rest.len());
    match seen_of(alloc, text, from, line)? {
        Some(seen) => Ok((seen, behind)),
        None => Err(PartRefusal::Line(place)),
    }
}

/// The text before the first line feed and the text after it; None if there is no line feed.
pub(crate) fn cut_line(text: &[u8]) -> Option<(&[u8], &[u8])>
    ensures some { IfSome result (λ cut. IsLineCut text.now cut.0.now cut.1.now) }
    ensures none { result ≡ None → HasNoFeed text.now }
{
    let at = memchr(b'\n', text)?;
    Some((&text[..at], &text[at + 1..]))
}
