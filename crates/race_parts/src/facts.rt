//! Reads a line of a part: its kind, and the facts that its sort key needs.
ghost use Rattle.std.specs.Prelude.{◌≡◌, IfOk, IfSome, IsUtf8, None};
ghost use Rattle.rapid_text.specs.Appended.{IfFound};
ghost use Rattle.serde_json.specs.Data.{Data};
ghost use Rattle.serde_json.specs.Read.{read};
ghost use Rattle.serde_json.specs.View.{view};
ghost use Rattle.race_parts.specs.Facts.{IsKnown, Says, data_in};
ghost use Rattle.race_parts.specs.Kept.{IsKeptOf};
ghost use Rattle.race_parts.specs.Lines.{Tells};
ghost use Rattle.race_parts.specs.Rows.{HasMark, mark_of};
ghost use Rattle.race_parts.specs.Said.{IsFactOf};

use crate::kept::{KeptRow, kept_of};
use crate::members::is_kind;
use crate::rows::{Mark, is_row};
use crate::scan::{Known, told_in};
use rapid_text::OutOfMemory;
use serde_json::Value;
use std::alloc::Global;

/// What was read from a line.
#[derive(Drop)]
pub enum Fact<'a> {
    /// The line is a row in the form that `triage` prints.
    Known(Known<'a>),
    /// The JSON value of any other line.
    Other(Value),
}

/// Parses a text as JSON. Returns None if it is not JSON.
pub(crate) fn value_of(alloc: Global, text: &[u8]) -> Result<Option<Value>, OutOfMemory>
    ensures some { IfFound result (λ value. Tells text.now (view value)) }
    ensures none { IfOk result (λ found. found ≡ None → IsUtf8 text.now → read text.now ≡ None) }
{
    match Value::from_slice(alloc, text) {
        Ok(value) => Ok(Some(value)),
        Err(error) => {
            if error.is_memory() {
                Err(OutOfMemory)
            } else {
                Ok(None)
            }
        }
    }
}

/// Reads a line. Returns None if it is not JSON.
fn fact_of(alloc: Global, line: &[u8]) -> Result<Option<Fact<'_>>, OutOfMemory>
    ensures some { IfFound result (λ fact. (d : Data) × Tells line.now d × Says fact d) }
    ensures none { IfOk result (λ found. found ≡ None → IsUtf8 line.now → read line.now ≡ None) }
{
    if let Some(told) = told_in(line) {
        return Ok(Some(Fact::Known(told.known)));
    }
    match value_of(alloc, line) {
        Ok(Some(value)) => Ok(Some(Fact::Other(value))),
        Ok(None) => Ok(None),
        Err(refused) => Err(refused),
    }
}

/// Reads a line. Returns null if it is not JSON.
#[tactic(auto, using(crate::proofs::FactLemmas::fact_told, crate::proofs::FactLemmas::fact_none))]
pub(crate) fn fact_in(alloc: Global, line: &[u8]) -> Result<Fact<'_>, OutOfMemory>
    ensures { IfOk result (IsFactOf line.now) }
{
    match fact_of(alloc, line)? {
        Some(fact) => Ok(fact),
        None => Ok(Fact::Other(Value::Null)),
    }
}

/// Returns the JSON value of a line; null if it is not JSON.
#[tactic(auto, using(crate::proofs::FactLemmas::data_told, crate::proofs::FactLemmas::data_none))]
pub fn data_of(alloc: Global, line: &[u8]) -> Result<Value, OutOfMemory>
    ensures { IfOk result (λ value. view value ≡ data_in line.now) }
{
    match value_of(alloc, line)? {
        Some(value) => Ok(value),
        None => Ok(Value::Null),
    }
}

/// What is read from a line of a part: its kind, and what to keep of it. Only a row in the form that `triage` prints
/// can be kept.
#[derive(Clone, Copy)]
pub(crate) struct Seen {
    pub(crate) mark: Mark,
    pub(crate) row: Option<KeptRow>,
}

/// Reads a line that begins at byte `from` of the text. Returns None if it is not JSON.
#[tactic(auto, using(crate::proofs::FactLemmas::kept_told))]
pub(crate) fn seen_of(
    alloc: Global,
    text: &[u8],
    from: usize,
    line: &[u8],
) -> Result<Option<Seen>, OutOfMemory>
    ensures some { IfFound result (λ seen. HasMark (Tells line.now) seen.mark) }
    ensures row { IfFound result (λ seen. IfSome seen.row (IsKeptOf text.now line.now)) }
    ensures none { IfOk result (λ found. found ≡ None → IsUtf8 line.now → read line.now ≡ None) }
{
    if let Some(told) = told_in(line) {
        return Ok(Some(Seen {
            mark: known_mark(told.known),
            row: kept_of(text, from, line, told),
        }));
    }
    match value_of(alloc, line) {
        Ok(Some(value)) => Ok(Some(Seen {
            mark: value_mark(&value),
            row: None,
        })),
        Ok(None) => Ok(None),
        Err(refused) => Err(refused),
    }
}

/// The mark of a row with this rank.
fn known_mark(known: Known<'_>) -> Mark
    ensures { (d : Data) → IsKnown known.entry d → result ≡ mark_of d }
{
    Mark {
        is_row: true,
        is_race: known.rank == 0,
        is_undecided: known.rank == 1,
        is_apart: known.rank == 2,
    }
}

/// The mark of a JSON value.
fn value_mark(value: &Value) -> Mark
    ensures { result ≡ mark_of (view value.now) }
{
    Mark {
        is_row: is_row(value),
        is_race: is_kind(value, "race"),
        is_undecided: is_kind(value, "undecided"),
        is_apart: is_kind(value, "apart"),
    }
}
