//! Whether filters drop the block of a row.
ghost use Rattle.std.specs.Prelude.{◌≡◌, IfOk, slice_get};
ghost use Rattle.serde_json.specs.View.{view};
ghost use Rattle.calls.specs.triage.LeavingFilters.{drops, is_hidden, is_hidden_by};

use crate::triage::leaving::lines::line_in;
use race_parts::{Cell, Row, data_of};
use race_triage::Filters;
use rapid_text::OutOfMemory;
use serde_json::Value;
use std::alloc::Global;

/// Whether the filters drop the block of the cell's row.
pub(crate) fn is_hidden(
    alloc: Global,
    rows: &[Row<'_>],
    filters: Filters<'_>,
    cell: &Cell<'_>,
) -> Result<bool, OutOfMemory>
    ensures { IfOk result (λ hidden. hidden ≡ is_hidden filters.entry rows.now cell.now) }
{
    if filters.is_any() {
        is_dropped(alloc, rows, filters, cell.number)
    } else {
        Ok(false)
    }
}

/// Whether the filters drop the block of the row with this number; false if there is no such row.
fn is_dropped(
    alloc: Global,
    rows: &[Row<'_>],
    filters: Filters<'_>,
    number: usize,
) -> Result<bool, OutOfMemory>
    ensures { IfOk result (λ dropped. dropped ≡ is_hidden_by filters.entry (slice_get rows.now number)) }
{
    match rows.get(number) {
        Some(row) => drops(alloc, filters, &data_of(alloc, row.line)?),
        None => Ok(false),
    }
}

/// Whether the filters drop the block of a row with this value.
fn drops(alloc: Global, filters: Filters<'_>, row: &Value) -> Result<bool, OutOfMemory>
    ensures { IfOk result (λ dropped. dropped ≡ drops filters.entry (view row.now)) }
{
    let first = line_in(alloc, row, 0)?;
    let second = line_in(alloc, row, 1)?;
    Ok(!filters.keeps(first.as_slice(), second.as_slice()))
}
