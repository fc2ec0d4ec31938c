//! A merged report as a log: a result for each pair of locations. Its parts have no schedules, so no result has a code
//! flow.
ghost use Rattle.std.specs.Prelude.{◌≡◌, [], OnErr, Some};
ghost use Rattle.rapid_text.specs.Appended.{Appended};
ghost use Rattle.serde_json.specs.Data.{object};
ghost use Rattle.serde_json.specs.View.{view};
ghost use Rattle.race_parts.specs.Made.{FilledAs, MadeAs};
ghost use Rattle.race_parts.specs.Pairs.{pair_shown};
ghost use Rattle.triage_report.specs.sarif.Accesses.{access_told};
ghost use Rattle.triage_report.specs.sarif.Logs.{item_text, joined};
ghost use Rattle.triage_report.specs.sarif.Merged.{from_words, is_window, merged_log, merged_object, merged_objects, merged_words, origin_words, pair_words, row_object, row_words, tally_words, told_by, told_in, verb_of, window_words};

use crate::lines::{append_apart, append_race, append_undecided, plural_end};
use crate::sarif::accesses::Access;
use crate::sarif::logs::{HEAD, append_item, append_rest};
use crate::sarif::results::{Found, put_found};
use crate::sarif::sources::Sources;
use crate::sarif::words::{append_both, append_title};
use explain_report::places::cut_at_last;
use race_parts::{Pair, access_in, data_of, event_in, number_of, text_of};
use rapid_text::OutOfMemory;
use report::{Piece, append_pieces};
use serde_json::{Map, Value};
use std::alloc::Global;

/// Appends a merged report of `parts` parts as a log of SARIF 2.1.0: a result for each of the pairs of locations, in
/// order. If there are numbers, the properties of the run say how many known races were left out, and how many pairs
/// filters left out. If memory runs out, `out` stays as it was.
pub fn merged_sarif(
    parts: usize,
    pairs: &[Pair<'_>],
    sources: Sources<'_>,
    known: Option<u64>,
    hidden: Option<u64>,
    out: &mut Vec<u8>,
) -> Result<(), OutOfMemory>
    ensures ok { Appended result out.old out.new (merged_log parts sources.entry pairs.now known hidden) }
    ensures err { OnErr result (out.new.items ≡ out.old.items) }
{
    let mut text = Vec::new(*out.allocator());
    append_log(&mut text, parts, pairs, sources, known, hidden)?;
    out.extend_from_slice(text.as_slice())?;
    Ok(())
}

/// Appends the whole log.
fn append_log(
    out: &mut Vec<u8>,
    parts: usize,
    pairs: &[Pair<'_>],
    sources: Sources<'_>,
    known: Option<u64>,
    hidden: Option<u64>,
) -> Result<(), OutOfMemory>
    ensures { Appended result out.old out.new (merged_log parts sources.entry pairs.now known hidden) }
{
    out.extend_from_slice(HEAD)?;
    append_objects(out, parts, pairs, sources)?;
    append_rest(out, sources.root, known, hidden)?;
    Ok(())
}

/// Appends the results.
fn append_objects(
    out: &mut Vec<u8>,
    parts: usize,
    pairs: &[Pair<'_>],
    sources: Sources<'_>,
) -> Result<(), OutOfMemory>
    ensures { Appended result out.old out.new (joined (merged_objects parts sources.entry pairs.now)) }
{
    for at in 0..pairs.len() {
        append_object(out, parts, pairs[at], sources, at > 0)?;
    }
    Ok(())
}

/// Appends the result of a pair of locations, after a comma if another comes before it.
fn append_object(
    out: &mut Vec<u8>,
    parts: usize,
    pair: Pair<'_>,
    sources: Sources<'_>,
    is_later: bool,
) -> Result<(), OutOfMemory>
    ensures { Appended result out.old out.new (item_text is_later (merged_object parts sources.entry (pair_shown pair.entry))) }
{
    let object = object_of(*out.allocator(), parts, pair, sources)?;
    append_item(out, is_later, &object)
}

/// The result of a pair of locations.
fn object_of(
    alloc: Global,
    parts: usize,
    pair: Pair<'_>,
    sources: Sources<'_>,
) -> Result<Value, OutOfMemory>
    ensures { MadeAs result (merged_object parts sources.entry (pair_shown pair.entry)) }
{
    let row = data_of(alloc, pair.line)?;
    object_in(alloc, parts, pair, &row, sources)
}

/// The result of a pair of locations whose row is this.
fn object_in(
    alloc: Global,
    parts: usize,
    pair: Pair<'_>,
    row: &Value,
    sources: Sources<'_>,
) -> Result<Value, OutOfMemory>
    ensures { MadeAs result (row_object parts sources.entry (pair_shown pair.entry) (view row.now)) }
{
    let mut members = Map::new(alloc);
    put_row(&mut members, alloc, parts, pair, row, sources)?;
    Ok(Value::Object(members))
}

/// Puts the members of a result.
fn put_row(
    members: &mut Map<String, Value>,
    alloc: Global,
    parts: usize,
    pair: Pair<'_>,
    row: &Value,
    sources: Sources<'_>,
) -> Result<(), OutOfMemory>
    requires { members.old.entries ≡ [] }
    ensures { FilledAs result members.new (row_object parts sources.entry (pair_shown pair.entry) (view row.now)) }
{
    let mut words = Vec::new(alloc);
    append_words(&mut words, parts, pair, row)?;
    let found = Found {
        rank: pair.rank,
        words: words.as_slice(),
        first: access_of(row, 0),
        second: access_of(row, 1),
    };
    put_found(members, alloc, sources, found)
}

/// The first or second access of a row; its texts are empty if the row lacks it.
fn access_of(row: &Value, place: usize) -> Access<'_>
    ensures { access_told result ≡ told_in place (view row.now) }
{
    match access_in(row, place) {
        Some(access) => told_by(access),
        None => Access {
            thread: b"",
            verb: b"",
            variable: b"",
            location: b"",
        },
    }
}

/// What a result says of this access of a row.
fn told_by(access: &Value) -> Access<'_>
    ensures { access_told result ≡ told_by (Some (view access.now)) }
{
    Access {
        thread: text_of(access, "thread"),
        verb: verb_of(text_of(access, "operation")),
        variable: text_of(access, "variable"),
        location: text_of(access, "location"),
    }
}

/// The verb for an operation: `reads` for `r`, `writes` for `w`, and any other word unchanged.
fn verb_of(word: &[u8]) -> &[u8]
    ensures { result.now ≡ verb_of word.now }
{
    if word == b"r".as_slice() {
        b"reads"
    } else if word == b"w".as_slice() {
        b"writes"
    } else {
        word
    }
}

/// Appends the message of a pair of locations.
fn append_words(
    out: &mut Vec<u8>,
    parts: usize,
    pair: Pair<'_>,
    row: &Value,
) -> Result<(), OutOfMemory>
    ensures { Appended result out.old out.new (merged_words parts (pair_shown pair.entry) (view row.now)) }
{
    append_pair(out, pair.rank, row)?;
    append_reason(out, pair.rank, row)?;
    append_tally(out, parts, pair)?;
    append_origin(out, pair, row)?;
    append_window(out, pair.part)?;
    Ok(())
}

/// Appends what was found, and both accesses.
fn append_pair(out: &mut Vec<u8>, rank: u8, row: &Value) -> Result<(), OutOfMemory>
    ensures { Appended result out.old out.new (pair_words rank (view row.now)) }
{
    let first = access_of(row, 0);
    let second = access_of(row, 1);
    append_title(out, rank, second)?;
    append_both(out, first, second)?;
    Ok(())
}

/// Appends the reason for the rank of this row.
fn append_reason(out: &mut Vec<u8>, rank: u8, row: &Value) -> Result<(), OutOfMemory>
    ensures { Appended result out.old out.new (row_words rank (view row.now)) }
{
    match rank {
        0 => append_race(out, number_of(row, "events"), number_of(row, "threads")),
        1 => append_undecided(out, number_of(row, "tried")),
        _ => append_apart(out),
    }
}

/// Appends in how many of the parts the pair is a race, undecided, and apart.
fn append_tally(out: &mut Vec<u8>, parts: usize, pair: Pair<'_>) -> Result<(), OutOfMemory>
    ensures { Appended result out.old out.new (tally_words parts (pair_shown pair.entry)) }
{
    append_pieces(
        out,
        &[
            Piece::Words(b". Of "),
            Piece::Number(parts as u64),
            Piece::Words(b" part"),
            Piece::Words(plural_end(parts as u64)),
            Piece::Words(b", race in "),
            Piece::Number(pair.races as u64),
            Piece::Words(b", undecided in "),
            Piece::Number(pair.undecided as u64),
            Piece::Words(b", apart in "),
            Piece::Number(pair.apart as u64),
        ],
    )
}

/// What comes before the events and the part of a row of this rank.
fn from_words(rank: u8) -> &'static [u8]
    ensures { result.now ≡ from_words rank }
{
    match rank {
        0 => b". Shortest schedule: events ",
        _ => b". Shown: events ",
    }
}

/// Appends the two events of the row, and the part that they are from.
fn append_origin(out: &mut Vec<u8>, pair: Pair<'_>, row: &Value) -> Result<(), OutOfMemory>
    ensures { Appended result out.old out.new (origin_words (pair_shown pair.entry) (view row.now)) }
{
    append_pieces(
        out,
        &[
            Piece::Words(from_words(pair.rank)),
            Piece::Number(event_in(row, 0)),
            Piece::Words(b" and "),
            Piece::Number(event_in(row, 1)),
            Piece::Words(b" of part "),
            Piece::Words(pair.part),
        ],
    )
}

/// Whether the name of a part is that of a window.
fn is_window(name: &[u8]) -> bool
    ensures { result ≡ is_window name.now }
{
    let (front, _) = cut_at_last(b' ', name);
    let (_, word) = cut_at_last(b' ', front);
    word == b"--window".as_slice()
}

/// Appends the command that prints the part, if it is a window.
fn append_window(out: &mut Vec<u8>, name: &[u8]) -> Result<(), OutOfMemory>
    ensures { Appended result out.old out.new (window_words name.now) }
{
    if !is_window(name) {
        return Ok(());
    }
    append_pieces(
        out,
        &[
            Piece::Words(b". Window: racebench cut "),
            Piece::Words(name),
        ],
    )
}
