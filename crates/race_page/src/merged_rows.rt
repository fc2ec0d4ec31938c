//! The rows of a merged page.
ghost use Rattle.std.specs.Prelude.{◌≡◌};
ghost use Rattle.rapid_text.specs.Appended.{Appended};
ghost use Rattle.serde_json.specs.View.{view};
ghost use Rattle.explain_report.specs.places.Places.{before_arrow};
ghost use Rattle.markup.specs.Escaped.{escaped};
ghost use Rattle.race_parts.specs.Facts.{data_in};
ghost use Rattle.race_page.specs.MergedRows.{both_text, events_text, first_text, opening_text, outcome_text, pair_row, race_text, rows_text, shown_row, size_text, sizes_text, summary_text, undecided_text, use_of, use_text, uses_text, variable_text, verb_text};

use crate::marks::{Mark, append_marks};
use crate::merged_table::append_table;
use crate::merged_tally::append_tally;
use explain_report::places::cut_at_arrow;
use race_parts::{Pair, access_in, data_of, event_in, number_of, text_of};
use rapid_text::OutOfMemory;
use serde_json::Value;

/// Appends a row for each of the pairs.
pub(crate) fn append_rows(
    out: &mut Vec<u8>,
    parts: usize,
    pairs: &[Pair<'_>],
) -> Result<(), OutOfMemory>
    ensures { Appended result out.old out.new (rows_text parts pairs.now) }
{
    for pair in pairs {
        append_row(out, parts, *pair)?;
    }
    Ok(())
}

/// Appends the row of a pair.
#[tactic(auto, unfolding(crate::specs::MergedRows::pair_row))]
fn append_row(out: &mut Vec<u8>, parts: usize, pair: Pair<'_>) -> Result<(), OutOfMemory>
    ensures { Appended result out.old out.new (pair_row parts pair.entry) }
{
    append_said(out, parts, pair, pair.line)
}

/// Appends the row of a pair. `line` is its line of a part, an object of JSON.
fn append_said(
    out: &mut Vec<u8>,
    parts: usize,
    pair: Pair<'_>,
    line: &[u8],
) -> Result<(), OutOfMemory>
    ensures { Appended result out.old out.new (shown_row parts pair.entry (data_in line.now)) }
{
    append_shown(out, parts, pair, &data_of(*out.allocator(), line)?)
}

/// Appends the row of a pair. `row` is the object of its line.
fn append_shown(
    out: &mut Vec<u8>,
    parts: usize,
    pair: Pair<'_>,
    row: &Value,
) -> Result<(), OutOfMemory>
    ensures { Appended result out.old out.new (shown_row parts pair.entry (view row.now)) }
{
    append_summary(out, pair.rank, row)?;
    append_table(out, row)?;
    append_tally(out, parts, pair)
}

/// Appends what a reader sees of a closed row.
fn append_summary(out: &mut Vec<u8>, rank: u8, row: &Value) -> Result<(), OutOfMemory>
    ensures { Appended result out.old out.new (summary_text rank (view row.now)) }
{
    append_opening(out, row)?;
    append_outcome(out, rank, row)?;
    append_marks(out, &[Mark::Own(b"</span></summary>\n")])
}

/// Appends what comes before the outcome.
fn append_opening(out: &mut Vec<u8>, row: &Value) -> Result<(), OutOfMemory>
    ensures { Appended result out.old out.new (opening_text (view row.now)) }
{
    append_marks(out, &[Mark::Own(b"<details>\n<summary><h3>")])?;
    append_uses(out, row)?;
    append_both(out, row)
}

/// Appends the two events of a row.
fn append_both(out: &mut Vec<u8>, row: &Value) -> Result<(), OutOfMemory>
    ensures { Appended result out.old out.new (both_text (view row.now)) }
{
    append_events(out, event_in(row, 0), event_in(row, 1))
}

/// Appends the numbers of the two events.
fn append_events(out: &mut Vec<u8>, first: u64, second: u64) -> Result<(), OutOfMemory>
    ensures { Appended result out.old out.new (events_text first second) }
{
    append_marks(
        out,
        &[
            Mark::Own(b"</h3> <span class=\"facts\">Events "),
            Mark::Number(first),
            Mark::Own(b" and "),
            Mark::Number(second),
            Mark::Own(b": "),
        ],
    )
}

/// Appends the variable, and what each access does.
fn append_uses(out: &mut Vec<u8>, row: &Value) -> Result<(), OutOfMemory>
    ensures { Appended result out.old out.new (uses_text (view row.now)) }
{
    append_variable(out, row)?;
    append_use(out, row, 0)?;
    append_marks(out, &[Mark::Own(b", ")])?;
    append_use(out, row, 1)
}

/// Appends the variable of the first access, if the row has this access.
fn append_variable(out: &mut Vec<u8>, row: &Value) -> Result<(), OutOfMemory>
    ensures { Appended result out.old out.new (first_text (view row.now)) }
{
    match access_in(row, 0) {
        Some(access) => append_name(out, access),
        None => Ok(()),
    }
}

/// Appends the name of the variable of an access.
fn append_name(out: &mut Vec<u8>, access: &Value) -> Result<(), OutOfMemory>
    ensures { Appended result out.old out.new (variable_text (view access.now)) }
{
    append_marks(
        out,
        &[
            Mark::Own(b"<bdi>"),
            Mark::Text(text_of(access, "variable")),
            Mark::Own(b"</bdi>: "),
        ],
    )
}

/// Appends what an access does and at which place, if the row has this access.
fn append_use(out: &mut Vec<u8>, row: &Value, place: usize) -> Result<(), OutOfMemory>
    ensures { Appended result out.old out.new (use_text place (view row.now)) }
{
    match access_in(row, place) {
        Some(access) => append_use_of(out, access),
        None => Ok(()),
    }
}

/// Appends what this access does and at which place.
fn append_use_of(out: &mut Vec<u8>, access: &Value) -> Result<(), OutOfMemory>
    ensures { Appended result out.old out.new (use_of (view access.now)) }
{
    append_marks(
        out,
        &[
            Mark::Own(verb_of(text_of(access, "operation"))),
            Mark::Own(b" at <bdi>"),
            Mark::Text(place_in(text_of(access, "location"))),
            Mark::Own(b"</bdi>"),
        ],
    )
}

/// The verb for an operation: `read` for `r`, else `write`.
fn verb_of(word: &[u8]) -> &'static [u8]
    ensures { result.now ≡ verb_text word.now }
{
    if word == b"r".as_slice() {
        b"read"
    } else {
        b"write"
    }
}

/// The place of a location, without the calls that led there.
fn place_in(location: &[u8]) -> &[u8]
    ensures { result.now ≡ before_arrow location.now }
{
    let (place, _) = cut_at_arrow(location);
    place
}

/// Appends the outcome of a row with this rank.
fn append_outcome(out: &mut Vec<u8>, rank: u8, row: &Value) -> Result<(), OutOfMemory>
    ensures { Appended result out.old out.new (outcome_text rank (view row.now)) }
{
    match rank {
        0 => append_race(out, row),
        1 => append_undecided(out, row),
        _ => append_marks(out, &[Mark::Own(b"apart")]),
    }
}

/// Appends how a race is shown, and the size of its schedule.
fn append_race(out: &mut Vec<u8>, row: &Value) -> Result<(), OutOfMemory>
    ensures { Appended result out.old out.new (race_text (view row.now)) }
{
    append_how(out, text_of(row, "how"))?;
    append_sizes(out, row)
}

/// Appends how a race is shown, as the row says it.
fn append_how(out: &mut Vec<u8>, how: &[u8]) -> Result<(), OutOfMemory>
    ensures { Appended result out.old out.new (escaped how.now) }
{
    append_marks(out, &[Mark::Text(how)])
}

/// Appends the size of the row's schedule.
fn append_sizes(out: &mut Vec<u8>, row: &Value) -> Result<(), OutOfMemory>
    ensures { Appended result out.old out.new (sizes_text (view row.now)) }
{
    append_size(out, number_of(row, "events"), number_of(row, "threads"))
}

/// Appends the size of a schedule: its events and threads.
fn append_size(out: &mut Vec<u8>, events: u64, threads: u64) -> Result<(), OutOfMemory>
    ensures { Appended result out.old out.new (size_text events threads) }
{
    append_marks(
        out,
        &[
            Mark::Own(b", a schedule with events: "),
            Mark::Number(events),
            Mark::Own(b", threads: "),
            Mark::Number(threads),
        ],
    )
}

/// Appends how many pairs of events were tried.
fn append_undecided(out: &mut Vec<u8>, row: &Value) -> Result<(), OutOfMemory>
    ensures { Appended result out.old out.new (undecided_text (view row.now)) }
{
    append_marks(
        out,
        &[
            Mark::Own(b"undecided, tried: "),
            Mark::Number(number_of(row, "tried")),
        ],
    )
}
