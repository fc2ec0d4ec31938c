//! What the rows of cells say: the lines that filters look at, and the variable of a race.
ghost use Rattle.std.specs.Prelude.{◌≡◌, ◌<◌, ◌≤◌, ◌+◌, ◌∷◌, IfOk, None, drop, length};
ghost use Rattle.rapid_text.specs.Appended.{Appended};
ghost use Rattle.serde_json.specs.View.{view};
ghost use Rattle.race_parts.specs.Cells.{is_same};
ghost use Rattle.race_parts.specs.Objects.{news_count};
ghost use Rattle.race_parts.specs.Texts.{is_new};
ghost use Rattle.calls.specs.triage.LeavingLines.{line_by, line_in, variable_in};

use race_parts::{Cell, access_in, text_of};
use rapid_text::OutOfMemory;
use serde_json::Value;
use std::alloc::Global;

/// Whether the two cells have the same pair of locations.
pub(crate) fn is_same(one: &Cell<'_>, other: &Cell<'_>) -> bool
    ensures { result ≡ is_same one.now other.now }
{
    one.first == other.first && one.second == other.second
}

/// Whether there is no cell before this one, or the one before has other locations.
pub(crate) fn is_new(before: Option<Cell<'_>>, cell: Cell<'_>) -> bool
    ensures { result ≡ is_new before.entry cell.entry }
{
    match before {
        Some(before) => !is_same(&before, &cell),
        None => true,
    }
}

/// The variable of the first access of a row; empty if the row has none.
pub(crate) fn variable_in(row: &Value) -> &[u8]
    ensures { result.now ≡ variable_in (view row.now) }
{
    match access_in(row, 0) {
        Some(access) => text_of(access, "variable"),
        None => b"",
    }
}

/// Appends these bytes.
fn append_words(out: &mut Vec<u8>, words: &[u8]) -> Result<(), OutOfMemory>
    ensures { Appended result out.old out.new words.now }
{
    out.extend_from_slice(words)?;
    Ok(())
}

/// Appends the line of an access as a trace has it.
fn append_line(out: &mut Vec<u8>, access: &Value) -> Result<(), OutOfMemory>
    ensures { Appended result out.old out.new (line_by (view access.now)) }
{
    append_words(out, text_of(access, "thread"))?;
    append_words(out, b"|")?;
    append_words(out, text_of(access, "operation"))?;
    append_words(out, b"(")?;
    append_words(out, text_of(access, "variable"))?;
    append_words(out, b")|")?;
    append_words(out, text_of(access, "location"))?;
    Ok(())
}

/// The line of one access of a row, 0 or 1, as a trace has it; empty if the row lacks the access.
pub(crate) fn line_in(alloc: Global, row: &Value, place: usize) -> Result<Vec<u8>, OutOfMemory>
    ensures { IfOk result (λ line. line.items ≡ line_in place (view row.now)) }
{
    let mut line = Vec::new(alloc);
    if let Some(access) = access_in(row, place) {
        append_line(&mut line, access)?;
    }
    Ok(line)
}

/// The first cell, and the others.
pub(crate) fn first_of<'b, 'a>(cells: &'b [Cell<'a>]) -> (Cell<'a>, &'b [Cell<'a>])
    requires { 0 < length cells.now }
    ensures { cells.now ≡ result.0 ∷ result.1.now }
{
    (cells[0], &cells[1..])
}

/// The cells from this place on.
pub(crate) fn rest_at<'b, 'a>(cells: &'b [Cell<'a>], at: usize) -> &'b [Cell<'a>]
    requires { at ≤ length cells.now }
    ensures { result.now ≡ drop at cells.now }
{
    &cells[at..]
}

/// The cell at this place.
pub(crate) fn cell_at<'a>(cells: &[Cell<'a>], at: usize) -> Cell<'a>
    requires { at < length cells.now }
    ensures { drop at cells.now ≡ result ∷ drop (at + 1) cells.now }
{
    cells[at]
}

/// How many pairs of locations the cells have. Cells of one pair must be next to each other.
pub(crate) fn pairs_in(cells: &[Cell<'_>]) -> usize
    ensures { result ≡ news_count None cells.now }
{
    let mut count = 0;
    let mut before = None;
    let mut at = 0;
    'cells: while at < cells.len() {
        let cell = cell_at(cells, at);
        if is_new(before, cell) {
            count += 1;
        }
        before = Some(cell);
        at += 1;
    }
    count
}
