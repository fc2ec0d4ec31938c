//! Collects the rows of all parts, and sorts them into the order of the report.
ghost use Rattle.std.specs.Prelude.{◌≡◌, ◌<◌, ◌+◌, ◌∷◌, IfOk, List, ℕ, drop, length, map};
ghost use Rattle.serde_json.specs.View.{view};
ghost use Rattle.race_parts.specs.Accesses.{event_in, location_in, rank_of, size_of};
ghost use Rattle.race_parts.specs.Cells.{cell_key, greater_of, is_same, key_of, keys_from, lesser_of, row_said, rows_in, rows_of_part, AppendedRows, AreSorted};
ghost use Rattle.race_parts.specs.Kept.{kept_said};
ghost use Rattle.race_parts.specs.Lines.{lines_of};
ghost use Rattle.race_parts.specs.Said.{known_said, said_by, said_in};

use crate::facts::{Fact, fact_in};
use crate::kept::{KeptRow, known_kept, piece_at};
use crate::lines::cut_line;
use crate::members::{access_in, is_kind, number_of, text_of};
use crate::parts::{Part, Parts};
use crate::presorting::presorted;
use crate::scan::Known;
use crate::sharing::{Shares, no_shares, places_in, share_both};
use rapid_text::{OutOfMemory, TextKeyed};
use serde_json::Value;
use std::alloc::Global;
use std::cmp::Ordering;
use std::hash::{DefaultHasher, Hasher};

/// A row of a part.
#[derive(Drop)]
pub struct Row<'a> {
    /// The name of the part.
    pub part: &'a [u8],
    /// The line of the part's text that is this row, without its line feed.
    pub line: &'a [u8],
    /// What `fact_in` read from the line.
    pub fact: Fact<'a>,
}

/// The sort key of a row: first its pair of locations, then its rank, the size of its schedule, and its part and
/// events.
#[derive(Clone, Copy, PartialEq, Eq, PartialOrd, Ord)]
pub struct Cell<'a> {
    /// The lesser of the two locations, compared byte by byte.
    pub first: &'a [u8],
    /// The greater location.
    pub second: &'a [u8],
    /// 0 for a race, 1 for an undecided row, 2 for an apart row.
    pub rank: u8,
    /// How many events the schedule of a race has; 0 for other rows.
    pub size: u64,
    /// The name of the part.
    pub part: &'a [u8],
    /// The event number of the later access.
    pub later: u64,
    /// The event number of the earlier access.
    pub earlier: u64,
    /// The 0-based number of the row among the rows of all parts.
    pub number: usize,
}

/// Returns the rows of all parts, in the order of the parts' names. Each line of a part but the first is a row.
pub fn rows_of(alloc: Global, parts: &Parts) -> Result<Vec<Row<'_>>, OutOfMemory>
    ensures { IfOk result (λ rows. map row_said rows.items ≡ rows_in parts.now.entries) }
{
    let mut rows = Vec::new(alloc);
    for (name, part) in parts {
        push_part(&mut rows, name.as_slice(), part)?;
    }
    Ok(rows)
}

/// Adds the rows of a part.
fn push_part<'a>(rows: &mut Vec<Row<'a>>, name: &'a [u8], part: &'a Part) -> Result<(), OutOfMemory>
    ensures { AppendedRows result rows.old rows.new (rows_of_part name.now part.now) }
{
    match &part.rows {
        Some(kept) => push_kept(rows, name, &part.text, kept),
        None => push_rows(rows, name, after_first(part.text.as_slice())),
    }
}

/// Adds the rows that a part keeps.
fn push_kept<'a>(
    rows: &mut Vec<Row<'a>>,
    name: &'a [u8],
    text: &'a Vec<u8>,
    kept: &Vec<KeptRow>,
) -> Result<(), OutOfMemory>
    ensures { AppendedRows result rows.old rows.new (map (kept_said name.now text.now.items) kept.now.items) }
{
    for row in kept {
        rows.push(row_kept(name, text.as_slice(), *row))?;
    }
    Ok(())
}

/// The row that a `KeptRow` of this text describes.
fn row_kept<'a>(name: &'a [u8], text: &'a [u8], row: KeptRow) -> Row<'a>
    ensures { row_said result ≡ kept_said name.now text.now row }
{
    let line = piece_at(text, row.line);
    let known = known_kept(text, row);
    Row {
        part: name,
        line,
        fact: Fact::Known(known),
    }
}

/// The text after the first line feed; empty if the text has no line feed.
fn after_first(text: &[u8]) -> &[u8]
    ensures { lines_of result.now ≡ drop 1 (lines_of text.now) }
{
    match cut_line(text) {
        Some((_, behind)) => behind,
        None => &[],
    }
}

/// Adds a row for each line that ends with a line feed.
fn push_rows<'a>(rows: &mut Vec<Row<'a>>, name: &'a [u8], text: &'a [u8]) -> Result<(), OutOfMemory>
    ensures { AppendedRows result rows.old rows.new (map (said_in name.now) (lines_of text.now)) }
{
    let mut rest = text;
    'lines: while let Some((line, behind)) = cut_line(rest) {
        let row = row_in(*rows.allocator(), name, line)?;
        rows.push(row)?;
        rest = behind;
    }
    Ok(())
}

/// Reads a line as a row.
fn row_in<'a>(alloc: Global, part: &'a [u8], line: &'a [u8]) -> Result<Row<'a>, OutOfMemory>
    ensures { IfOk result (λ row. row_said row ≡ said_in part.now line.now) }
{
    match fact_in(alloc, line) {
        Ok(fact) => Ok(Row { part, line, fact }),
        Err(refused) => Err(refused),
    }
}

/// The location of the access with this index, 0 or 1; empty if the row lacks the access.
fn location_in(value: &Value, place: usize) -> &[u8]
    ensures { result.now ≡ location_in place (view value.now) }
{
    match access_in(value, place) {
        Some(access) => text_of(access, "location"),
        None => b"",
    }
}

/// The event number of the access with this index, 0 or 1; 0 if the row lacks the access.
pub fn event_in(value: &Value, place: usize) -> u64
    ensures { result ≡ event_in place (view value.now) }
{
    match access_in(value, place) {
        Some(access) => number_of(access, "event"),
        None => 0,
    }
}

/// 0 for a race, 1 for an undecided row, 2 for any other row.
fn rank_of(value: &Value) -> u8
    ensures { result ≡ rank_of (view value.now) }
{
    if is_kind(value, "race") {
        0
    } else if is_kind(value, "undecided") {
        1
    } else {
        2
    }
}

/// How many events the schedule of a race has; 0 if the row is not a race.
fn size_of(value: &Value) -> u64
    ensures { result ≡ size_of (view value.now) }
{
    if is_kind(value, "race") {
        number_of(value, "events")
    } else {
        0
    }
}

/// The two locations, the lesser first.
fn ordered<'a>(one: &'a [u8], other: &'a [u8]) -> (&'a [u8], &'a [u8])
    ensures first { result.0.now ≡ lesser_of one.now other.now }
    ensures second { result.1.now ≡ greater_of one.now other.now }
{
    match one.cmp(other) {
        Ordering::Greater => (other, one),
        _ => (one, other),
    }
}

/// The facts about a row that its sort key needs, read from its JSON value.
fn known_of(value: &Value) -> Known<'_>
    ensures { (name line : List ℕ) → known_said name line result ≡ said_by name line (view value.now) }
{
    Known {
        one: location_in(value, 0),
        other: location_in(value, 1),
        rank: rank_of(value),
        size: size_of(value),
        later: event_in(value, 1),
        earlier: event_in(value, 0),
    }
}

/// The facts about a row that its sort key needs.
fn known_in_row<'b>(row: &'b Row<'_>) -> Known<'b>
    ensures { known_said row.now.part.now row.now.line.now result ≡ row_said row.now }
{
    match &row.fact {
        Fact::Known(known) => *known,
        Fact::Other(value) => known_of(value),
    }
}

/// The cell of the row with this number. Rows with equal locations share one copy of the locations.
fn cell_of<'b>(
    shares: &mut Shares<'b>,
    row: &'b Row<'_>,
    number: usize,
) -> Result<Cell<'b>, OutOfMemory>
    ensures { IfOk result (λ cell. cell_key cell ≡ key_of number (row_said row.now)) }
{
    let known = known_in_row(row);
    let (one, other) = share_both(shares, known.one, known.other)?;
    let (first, second) = ordered(one, other);
    Ok(Cell {
        first,
        second,
        rank: known.rank,
        size: known.size,
        part: row.part,
        later: known.later,
        earlier: known.earlier,
        number,
    })
}

/// The cell with this index.
pub(crate) fn cell_at<'a>(cells: &[Cell<'a>], at: usize) -> Cell<'a>
    requires { at < length cells.now }
    ensures { drop at cells.now ≡ result ∷ drop (at + 1) cells.now }
{
    cells[at]
}

/// The cells of the rows, in the order of the rows.
fn unsorted<'b>(
    alloc: Global,
    shares: &mut Shares<'b>,
    rows: &'b [Row<'_>],
) -> Result<Vec<Cell<'b>>, OutOfMemory>
    ensures { IfOk result (λ cells. map cell_key cells.items ≡ keys_from 0 (map row_said rows.now)) }
{
    let mut cells = Vec::with_capacity(alloc, rows.len())?;
    let mut at = 0;
    'rows: while at < rows.len() {
        let cell = cell_of(shares, &rows[at], at)?;
        cells.push(cell)?;
        at += 1;
    }
    Ok(cells)
}

/// The hashers that are keyed by the locations of all rows.
fn keyed_by(rows: &[Row<'_>]) -> TextKeyed {
    let mut whole = DefaultHasher::new();
    for row in rows {
        let known = known_in_row(row);
        whole.write(known.one);
        whole.write(known.other);
    }
    TextKeyed::of(&whole.finish().to_le_bytes())
}

/// Returns the cells of the rows, sorted by location pair, rank, schedule size, part and events.
pub fn cells_of<'b>(alloc: Global, rows: &'b [Row<'_>]) -> Result<Vec<Cell<'b>>, OutOfMemory>
    ensures { IfOk result (λ cells. AreSorted (map row_said rows.now) cells.items) }
{
    let mut shares = no_shares(alloc, rows.len(), keyed_by(rows))?;
    let made = unsorted(alloc, &mut shares, rows)?;
    let places = places_in(alloc, shares)?;
    let mut cells = presorted(alloc, made, &places)?;
    cells.sort()?;
    Ok(cells)
}

/// Whether two cells have the same pair of locations.
pub(crate) fn is_same(one: &Cell<'_>, other: &Cell<'_>) -> bool
    ensures { result ≡ is_same one.now other.now }
{
    one.first == other.first && one.second == other.second
}
