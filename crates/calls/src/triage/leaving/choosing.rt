//! Chooses which pairs of locations of a merged report are printed, and counts the others.
ghost use Rattle.std.specs.Prelude.{◌≡◌, ◌||◌, Some, None, Option, IfOk, option_map};
ghost use Rattle.calls.specs.triage.Leaving.{count_if, entries_by, IsLeft, IsLeftBy};
ghost use Rattle.calls.specs.triage.LeavingListed.{is_listed_by};

use crate::triage::leaving::listed::{Listed, listed_of};
use crate::triage::leaving::splitting::{Test, split};
use race_parts::{Cell, Row};
use race_triage::Filters;
use rapid_text::OutOfMemory;
use std::alloc::Global;
use triage_file::Value;

/// What leaves pairs of locations out of a merged report.
#[derive(Clone, Copy)]
pub struct Choice<'a> {
    /// A text of known races, if there is one. Its form is that of `--known` (docs/FORMATS.md, "The races of a trace").
    pub known: Option<&'a [u8]>,
    /// The entries of a triage file, if there is one (docs/FORMATS.md, "Triage files").
    pub entries: Option<&'a [Value]>,
    /// Which blocks are printed, by the texts in their two canonical lines.
    pub filters: Filters<'a>,
}

/// The pairs of locations that are printed, and how many are left out.
#[derive(Drop)]
pub struct Left<'a> {
    /// The cells that stay, in their order.
    pub cells: Vec<Cell<'a>>,
    /// How many pairs of locations are left out as known races. None if there is neither a text of known races nor a
    /// triage file.
    pub known: Option<u64>,
    /// How many pairs of locations the filters leave out. None if there is no filter.
    pub hidden: Option<u64>,
}

/// The number, if it is printed.
fn count_if(is_printed: bool, number: usize) -> Option<u64>
    ensures { result ≡ count_if is_printed number }
{
    if is_printed {
        Some(number as u64)
    } else {
        None
    }
}

/// The entries; an empty slice if there is no triage file.
fn entries_by(entries: Option<&[Value]>) -> &[Value]
    ensures { result.now ≡ entries_by (option_map (λ t. t.now) entries.entry) }
{
    match entries {
        Some(entries) => entries,
        None => &[],
    }
}

/// What is printed if `listed` has the races that the text of known races names.
fn left_by<'a>(
    alloc: Global,
    rows: &[Row<'_>],
    cells: &[Cell<'a>],
    listed: Option<&Listed>,
    choice: Choice<'_>,
) -> Result<Left<'a>, OutOfMemory>
    ensures { IfOk result (IsLeftBy (is_listed_by listed.entry) rows.now cells.now choice.entry) }
{
    let races = Test::Race(listed, entries_by(choice.entries));
    let known = split(alloc, rows, cells, races)?;
    let blocks = Test::Block(choice.filters);
    let hidden = split(alloc, rows, known.stay.as_slice(), blocks)?;
    let may_be_known = choice.known.is_some() || choice.entries.is_some();
    Ok(Left {
        known: count_if(may_be_known, known.gone.len()),
        hidden: count_if(choice.filters.is_any(), hidden.gone.len()),
        cells: hidden.stay,
    })
}

/// Chooses among the pairs of locations of a merged report. First it leaves out known races, and then what the filters
/// drop. `rows` are the rows of all parts, and `cells` are these rows in the order of the report.
pub fn left_of<'a>(
    alloc: Global,
    rows: &[Row<'_>],
    cells: &[Cell<'a>],
    choice: Choice<'_>,
) -> Result<Left<'a>, OutOfMemory>
    // Exactly the cells that stay are there, in their order, and what is left out is counted.
    ensures { IfOk result (IsLeft rows.now cells.now choice.entry) }
{
    match choice.known {
        Some(text) => {
            let listed = listed_of(alloc, cells, text)?;
            left_by(alloc, rows, cells, Some(&listed), choice)
        }
        None => left_by(alloc, rows, cells, None, choice),
    }
}
