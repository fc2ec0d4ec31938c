//! Which entries of a triage file are about a race of a merged report.
ghost use Rattle.std.specs.Prelude.{◌≡◌, ◌<◌, ◌∷◌, IfOk, None, length, slice_get};
ghost use Rattle.serde_json.specs.View.{view as row_view};
ghost use Rattle.toml.specs.View.{view};
ghost use Rattle.calls.specs.triage.LeavingEntries.{are_named, is_about, is_decided, is_first_about, is_met, is_one_named, is_row_named, leaves_out, names_all};

use crate::triage::leaving::lines::{cell_at, is_new, is_same, rest_at, variable_in};
use race_parts::{Cell, Row, data_of, number_of};
use rapid_text::OutOfMemory;
use serde_json::Value as Data;
use std::alloc::Global;
use triage_file::{Value, are_sides, has_variables, hides, is_named};

/// Whether a race with this row is on exactly one variable, and the entry names that variable.
fn names_all(entry: &Value, row: &Data) -> bool
    ensures { result ≡ names_all (view entry.now) (row_view row.now) }
{
    number_of(row, "variables") == 1 && is_named(entry, variable_in(row))
}

/// The same for the row with this number; false if there is no such row.
fn is_row_named(
    alloc: Global,
    rows: &[Row<'_>],
    entry: &Value,
    number: usize,
) -> Result<bool, OutOfMemory>
    ensures { IfOk result (λ named. named ≡ is_row_named (view entry.now) (slice_get rows.now number)) }
{
    match rows.get(number) {
        Some(row) => Ok(names_all(entry, &data_of(alloc, row.line)?)),
        None => Ok(false),
    }
}

/// Whether the cell is no race, or is a race on exactly one variable, which the entry names.
fn is_one_named(
    alloc: Global,
    rows: &[Row<'_>],
    entry: &Value,
    cell: &Cell<'_>,
) -> Result<bool, OutOfMemory>
    ensures { IfOk result (λ named. named ≡ is_one_named rows.now (view entry.now) cell.now) }
{
    if cell.rank == 0 {
        is_row_named(alloc, rows, entry, cell.number)
    } else {
        Ok(true)
    }
}

/// Whether that holds for each cell from the first up to the first with other locations.
#[tactic(auto, using(crate::proofs::triage::LeavingMetLemmas::named_stop, crate::proofs::triage::LeavingMetLemmas::named_no, crate::proofs::triage::LeavingMetLemmas::named_more))]
fn are_named(
    alloc: Global,
    rows: &[Row<'_>],
    entry: &Value,
    cell: &Cell<'_>,
    cells: &[Cell<'_>],
) -> Result<bool, OutOfMemory>
    ensures { IfOk result (λ named. named ≡ are_named rows.now (view entry.now) cell.now cells.now) }
{
    let mut at = 0;
    'cells: while at < cells.len() {
        let next = cell_at(cells, at);
        if !is_same(cell, &next) {
            return Ok(true);
        }
        if !is_one_named(alloc, rows, entry, &next)? {
            return Ok(false);
        }
        at += 1;
    }
    Ok(true)
}

/// Whether the entry is about the races of the cell's locations. `cells` begin with this cell, the first of its
/// locations.
fn is_about(
    alloc: Global,
    rows: &[Row<'_>],
    entry: &Value,
    cell: &Cell<'_>,
    cells: &[Cell<'_>],
) -> Result<bool, OutOfMemory>
    ensures { IfOk result (λ about. about ≡ is_about rows.now (view entry.now) cell.now cells.now) }
{
    if !are_sides(entry, cell.first, cell.second) {
        return Ok(false);
    }
    if !has_variables(entry) {
        return Ok(true);
    }
    are_named(alloc, rows, entry, cell, cells)
}

/// Whether the entry leaves out the races of the cell's locations.
fn leaves_out(
    alloc: Global,
    rows: &[Row<'_>],
    entry: &Value,
    cell: &Cell<'_>,
    cells: &[Cell<'_>],
) -> Result<bool, OutOfMemory>
    ensures { IfOk result (λ out. out ≡ leaves_out rows.now cell.now cells.now (view entry.now)) }
{
    if hides(entry) {
        is_about(alloc, rows, entry, cell, cells)
    } else {
        Ok(false)
    }
}

/// The first entry, and the others.
fn first_entry(entries: &[Value]) -> (&Value, &[Value])
    requires { 0 < length entries.now }
    ensures { entries.now ≡ result.0.now ∷ result.1.now }
{
    (&entries[0], &entries[1..])
}

/// Whether one of the entries leaves out the races of the cell's locations.
#[tactic(auto, using(crate::proofs::triage::LeavingMetLemmas::decided_yes, crate::proofs::triage::LeavingMetLemmas::decided_no))]
pub(crate) fn is_decided(
    alloc: Global,
    rows: &[Row<'_>],
    entries: &[Value],
    cell: &Cell<'_>,
    cells: &[Cell<'_>],
) -> Result<bool, OutOfMemory>
    ensures { IfOk result (λ decided. decided ≡ is_decided rows.now entries.now cell.now cells.now) }
{
    let mut left = entries;
    'entries: while !left.is_empty() {
        let (entry, behind) = first_entry(left);
        if leaves_out(alloc, rows, entry, cell, cells)? {
            return Ok(true);
        }
        left = behind;
    }
    Ok(false)
}

/// Whether the cell is a race, is the first of its locations, and the entry is about it.
fn is_first_about(
    alloc: Global,
    rows: &[Row<'_>],
    entry: &Value,
    before: Option<Cell<'_>>,
    cell: &Cell<'_>,
    cells: &[Cell<'_>],
) -> Result<bool, OutOfMemory>
    ensures { IfOk result (λ about. about ≡ is_first_about rows.now (view entry.now) before.entry cell.now cells.now) }
{
    if is_new(before, *cell) && cell.rank == 0 {
        is_about(alloc, rows, entry, cell, cells)
    } else {
        Ok(false)
    }
}

/// Whether the entry is about a race among the cells. `rows` are the rows of all parts, and `cells` are these rows in
/// the order of the report.
#[tactic(auto, using(crate::proofs::triage::LeavingMetLemmas::met_yes, crate::proofs::triage::LeavingMetLemmas::met_no))]
pub fn is_met(
    alloc: Global,
    rows: &[Row<'_>],
    cells: &[Cell<'_>],
    entry: &Value,
) -> Result<bool, OutOfMemory>
    ensures { IfOk result (λ met. met ≡ is_met rows.now (view entry.now) None cells.now) }
{
    let mut before = None;
    let mut at = 0;
    'cells: while at < cells.len() {
        let cell = cell_at(cells, at);
        if is_first_about(alloc, rows, entry, before, &cell, rest_at(cells, at))? {
            return Ok(true);
        }
        before = Some(cell);
        at += 1;
    }
    Ok(false)
}
