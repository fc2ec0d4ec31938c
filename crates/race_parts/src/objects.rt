//! Prints a merged report as JSON, one object per line. It contains the text of each part, so it can be merged again.
ghost use Rattle.std.specs.Prelude.{◌≡◌, ◌-◌, ◌≤◌, [], IfOk, None, drop, false, length};
ghost use Rattle.rapid_text.specs.Appended.{Appended};
ghost use Rattle.serde_json.specs.Data.{put as with_member, string};
ghost use Rattle.serde_json.specs.View.{view};
ghost use Rattle.serde_json.specs.Written.{has_float};
ghost use Rattle.race_parts.specs.Made.{Changed, FilledAs, MadeAs};
ghost use Rattle.race_parts.specs.Objects.{json_line, merged_lines, merged_object, news_count, pair_line, pair_lines, pair_object_at, part_lines, part_object, tally_object, text, verdict_word, whole};
ghost use Rattle.race_parts.specs.Texts.{is_new, run_count};

use crate::cells::{Cell, cell_at, is_same};
use crate::counting::{run_counts, unmet_of};
use crate::parts::Parts;
use rapid_text::OutOfMemory;
use serde_json::{Map, Value, put};
use std::alloc::{AllocError, Global};

/// Adds a member that is a number.
fn put_number(
    members: &mut Map<String, Value>,
    alloc: Global,
    name: &str,
    number: u64,
) -> Result<(), AllocError>
    ensures { Changed result members.old members.new (with_member name.now (whole number)) }
{
    put(members, alloc, name, Value::from(number))
}

/// Adds a member that is a word.
fn put_word(
    members: &mut Map<String, Value>,
    alloc: Global,
    name: &str,
    word: &str,
) -> Result<(), AllocError>
    ensures { Changed result members.old members.new (with_member name.now (string word.now)) }
{
    put(members, alloc, name, Value::try_from_str(alloc, word)?)
}

/// Adds a member with these bytes as a text. Bytes that are not UTF-8 become U+FFFD.
fn put_text(
    members: &mut Map<String, Value>,
    alloc: Global,
    name: &str,
    bytes: &[u8],
) -> Result<(), AllocError>
    ensures { Changed result members.old members.new (with_member name.now (text bytes.now)) }
{
    put(members, alloc, name, text_of(alloc, bytes)?)
}

/// The bytes as a JSON text. Bytes that are not UTF-8 become U+FFFD.
fn text_of(alloc: Global, bytes: &[u8]) -> Result<Value, AllocError>
    ensures { MadeAs result (text bytes.now) }
{
    Ok(Value::String(String::from_utf8_lossy(alloc, bytes)?))
}

/// Adds the members of the report's first line.
fn put_merged(
    members: &mut Map<String, Value>,
    alloc: Global,
    parts: usize,
    pairs: usize,
) -> Result<(), AllocError>
    requires { members.old.entries ≡ [] }
    ensures { FilledAs result members.new (merged_object parts pairs) }
{
    put_word(members, alloc, "kind", "merged")?;
    put_number(members, alloc, "parts", parts as u64)?;
    put_number(members, alloc, "pairs", pairs as u64)?;
    put_number(members, alloc, "version", 1)
}

/// The JSON object of the report's first line.
fn merged_of(alloc: Global, parts: usize, pairs: usize) -> Result<Value, AllocError>
    ensures { MadeAs result (merged_object parts pairs) }
{
    let mut members = Map::new(alloc);
    put_merged(&mut members, alloc, parts, pairs)?;
    Ok(Value::Object(members))
}

/// Adds the members of a part's object: its name and its text.
fn put_part(
    members: &mut Map<String, Value>,
    alloc: Global,
    name: &[u8],
    bytes: &[u8],
) -> Result<(), AllocError>
    requires { members.old.entries ≡ [] }
    ensures { FilledAs result members.new (part_object name.now bytes.now) }
{
    put_word(members, alloc, "kind", "part")?;
    put_text(members, alloc, "name", name)?;
    put_text(members, alloc, "text", bytes)
}

/// The JSON object of a part.
fn part_of(alloc: Global, name: &[u8], bytes: &[u8]) -> Result<Value, AllocError>
    ensures { MadeAs result (part_object name.now bytes.now) }
{
    let mut members = Map::new(alloc);
    put_part(&mut members, alloc, name, bytes)?;
    Ok(Value::Object(members))
}

/// In how many parts a pair of locations is a race, undecided or apart, and how many parts do not meet it.
#[derive(Clone, Copy)]
struct Tally {
    races: usize,
    undecided: usize,
    apart: usize,
    unmet: usize,
}

/// The word for this rank.
fn word_of(rank: u8) -> &'static str
    ensures { result.now ≡ verdict_word rank }
{
    match rank {
        0 => "race",
        1 => "undecided",
        _ => "apart",
    }
}

/// Adds the members of the object of a pair of locations.
fn put_pair(
    members: &mut Map<String, Value>,
    alloc: Global,
    cell: Cell<'_>,
    tally: Tally,
) -> Result<(), AllocError>
    requires { members.old.entries ≡ [] }
    ensures { FilledAs result members.new (tally_object cell.entry tally) }
{
    put_word(members, alloc, "kind", "pair")?;
    put_word(members, alloc, "verdict", word_of(cell.rank))?;
    put_text(members, alloc, "part", cell.part)?;
    put_number(members, alloc, "earlier", cell.earlier)?;
    put_number(members, alloc, "later", cell.later)?;
    put_number(members, alloc, "events", cell.size)?;
    put_text(members, alloc, "first", cell.first)?;
    put_text(members, alloc, "second", cell.second)?;
    put_number(members, alloc, "race", tally.races as u64)?;
    put_number(members, alloc, "undecided", tally.undecided as u64)?;
    put_number(members, alloc, "apart", tally.apart as u64)?;
    put_number(members, alloc, "unmet", tally.unmet as u64)
}

/// The JSON object of a pair of locations.
fn pair_of(alloc: Global, cell: Cell<'_>, tally: Tally) -> Result<Value, AllocError>
    ensures { MadeAs result (tally_object cell.entry tally) }
{
    let mut members = Map::new(alloc);
    put_pair(&mut members, alloc, cell, tally)?;
    Ok(Value::Object(members))
}

/// Appends a JSON object and a line feed. The object has no fractions.
fn append_line(out: &mut Vec<u8>, object: &Value) -> Result<(), OutOfMemory>
    requires { has_float (view object.now) ≡ false }
    ensures { Appended result out.old out.new (json_line (view object.now)) }
{
    let text = object.to_vec(*out.allocator())?;
    out.extend_from_slice(text.as_slice())?;
    out.push(b'\n')?;
    Ok(())
}

/// Appends the report's first line.
fn append_merged(out: &mut Vec<u8>, parts: usize, pairs: usize) -> Result<(), OutOfMemory>
    ensures { Appended result out.old out.new (json_line (merged_object parts pairs)) }
{
    let object = merged_of(*out.allocator(), parts, pairs)?;
    append_line(out, &object)
}

/// Appends the line of a part.
fn append_part(out: &mut Vec<u8>, name: &[u8], bytes: &[u8]) -> Result<(), OutOfMemory>
    ensures { Appended result out.old out.new (json_line (part_object name.now bytes.now)) }
{
    let object = part_of(*out.allocator(), name, bytes)?;
    append_line(out, &object)
}

/// Appends a line for each part.
fn append_parts(out: &mut Vec<u8>, parts: &Parts) -> Result<(), OutOfMemory>
    ensures { Appended result out.old out.new (part_lines parts.now.entries) }
{
    for (name, part) in parts {
        append_part(out, name.as_slice(), part.text.as_slice())?;
    }
    Ok(())
}

/// Whether the cell before it is of another pair of locations, or no cell is before it.
fn is_new(before: Option<Cell<'_>>, cell: Cell<'_>) -> bool
    ensures { result ≡ is_new before.entry cell.entry }
{
    match before {
        Some(before) => !is_same(&before, &cell),
        None => true,
    }
}

/// How many pairs of locations there are.
fn news_count(cells: &[Cell<'_>]) -> usize
    ensures { result ≡ news_count None cells.now }
{
    let mut count = 0;
    let mut before = None;
    let mut at = 0;
    'cells: while at < cells.len() {
        let cell = cell_at(cells, at);
        if is_new(before, cell) {
            count += 1;
        }
        before = Some(cell);
        at += 1;
    }
    count
}

/// Counts the parts with each verdict for the cell at index `at`. The cell is the first one for its pair of
/// locations.
fn tally_of(parts: usize, cell: Cell<'_>, cells: &[Cell<'_>], at: usize) -> Tally
    requires { at ≤ length cells.now }
    ensures races { result.races ≡ run_count cell.entry 0 (drop at cells.now) }
    ensures undecided { result.undecided ≡ run_count cell.entry 1 (drop at cells.now) }
    ensures apart { result.apart ≡ run_count cell.entry 2 (drop at cells.now) }
    ensures unmet { result.unmet ≡ parts - result.races - result.undecided - result.apart }
{
    let counts = run_counts(cell, cells, at);
    Tally {
        races: counts.races,
        undecided: counts.undecided,
        apart: counts.apart,
        unmet: unmet_of(parts, counts.races, counts.undecided, counts.apart),
    }
}

/// The JSON object for the cell at index `at`. The cell is the first one for its pair of locations.
fn pair_at(
    alloc: Global,
    parts: usize,
    cell: Cell<'_>,
    cells: &[Cell<'_>],
    at: usize,
) -> Result<Value, AllocError>
    requires { at ≤ length cells.now }
    ensures { MadeAs result (pair_object_at parts cell.entry (drop at cells.now)) }
{
    pair_of(alloc, cell, tally_of(parts, cell, cells, at))
}

/// Appends the line for the cell at index `at`. The cell is the first one for its pair of locations.
fn append_pair(
    out: &mut Vec<u8>,
    parts: usize,
    cell: Cell<'_>,
    cells: &[Cell<'_>],
    at: usize,
) -> Result<(), OutOfMemory>
    requires { at ≤ length cells.now }
    ensures { Appended result out.old out.new (pair_line parts cell.entry (drop at cells.now)) }
{
    let object = pair_at(*out.allocator(), parts, cell, cells, at)?;
    append_line(out, &object)
}

/// Appends a line for each pair of locations.
fn append_pairs(out: &mut Vec<u8>, parts: usize, cells: &[Cell<'_>]) -> Result<(), OutOfMemory>
    ensures { Appended result out.old out.new (pair_lines parts None cells.now) }
{
    let mut before = None;
    let mut at = 0;
    'cells: while at < cells.len() {
        let cell = cell_at(cells, at);
        if is_new(before, cell) {
            append_pair(out, parts, cell, cells, at)?;
        }
        before = Some(cell);
        at += 1;
    }
    Ok(())
}

/// Returns the merged report as JSON lines: the counts, the parts, and the pairs of locations. It can be merged
/// again.
pub fn merged_json(alloc: Global, parts: &Parts, cells: &[Cell<'_>]) -> Result<Vec<u8>, OutOfMemory>
    ensures { IfOk result (λ text. text.items ≡ merged_lines parts.now.entries cells.now) }
{
    let mut text = Vec::new(alloc);
    append_merged(&mut text, parts.len(), news_count(cells))?;
    append_parts(&mut text, parts)?;
    append_pairs(&mut text, parts.len(), cells)?;
    Ok(text)
}
