//! Reads a triage file.
ghost use Rattle.std.specs.Prelude.{◌≡◌, ◌<◌, ◌≤◌, ℕ, length, map, option_map, position, None, IfErr, IfOk, IfSome, IsUtf8, OnOk};
ghost use Rattle.std.specs.List.{list_all};
ghost use Rattle.toml.specs.Data.{get_member};
ghost use Rattle.toml.specs.Errors.{IsMemory, IsWithin};
ghost use Rattle.toml.specs.Parse.{parse_document};
ghost use Rattle.toml.specs.View.{table_view, view};
ghost use Rattle.triage_file.specs.Entries.{is_expired, keys_in};
ghost use Rattle.triage_file.specs.Files.{first_expired, is_race_key, is_top, mistaken_from, other_key, races_in, IsDocument, IsKeyReport, IsOver, IsRefusal, IsTaken};
ghost use Rattle.triage_file.specs.Spots.{IsHeader, IsNameSpot, IsSpot};

use crate::dates::is_expired;
use crate::fields::items_of;
use crate::mistakes::{Mistake, key_of, mistake_of};
use crate::spots::{Spot, header_of, key_in, name_spot, spot_at};
use std::alloc::Global;
use toml::de::Error;
use toml::{Table, Value, table_from_slice};

/// The reason why a text is refused.
#[derive(Clone, Copy, PartialEq, Eq, Debug)]
pub enum Refusal {
    /// 110: the text is not TOML. The parser reports this spot.
    Toml(Spot),
    /// 113: the text has something other than an array `race`, at this spot.
    Top(Spot),
    /// 111: the entry with this number, counted from 1, has a mistake.
    Entry(Spot, u64, Mistake),
    /// 112: the last day of the entry with this number, counted from 1, is over.
    Expired(Spot, u64),
    /// Out of memory.
    OutOfMemory,
}

/// Reads a triage file. Refuses an entry whose last day is before `today`, a number such as 20271231.
pub fn read_triage(alloc: Global, text: &[u8], today: u32) -> Result<Table, Refusal>
    ensures ok { IfOk result (λ table. IsTaken text.now today (table_view table)) }
    ensures err { IfErr result (IsRefusal text.now today) }
{
    match parsed(alloc, text) {
        Ok(table) => checked(text, table, today),
        Err(refusal) => Err(refusal),
    }
}

/// The document, if it is a triage file none of whose entries has expired.
fn checked(text: &[u8], table: Table, today: u32) -> Result<Table, Refusal>
    requires { IsDocument text.now (table_view table) }
    ensures ok { IfOk result (λ table. IsTaken text.now today (table_view table)) }
    ensures err { IfErr result (IsRefusal text.now today) }
{
    match check(text, &table, today) {
        Ok(()) => Ok(table),
        Err(refusal) => Err(refusal),
    }
}

/// Parses a text as TOML.
fn parsed(alloc: Global, text: &[u8]) -> Result<Table, Refusal>
    ensures ok { IfOk result (λ table. IsDocument text.now (table_view table)) }
    ensures err { IfErr result (λ refusal. (today : ℕ) → IsRefusal text.now today refusal) }
{
    match table_from_slice(alloc, text) {
        Ok(table) => Ok(table),
        Err(error) => Err(unparsed(text, &error)),
    }
}

/// The refusal of a text that is not TOML.
fn unparsed(text: &[u8], error: &Error) -> Refusal
    requires within { IsWithin text.now error.now }
    requires refused { ¬ IsMemory error.now → IsUtf8 text.now → parse_document text.now ≡ None }
    ensures { (today : ℕ) → IsRefusal text.now today result }
{
    match error.span() {
        Some(span) => Refusal::Toml(spot_at(text, span.start)),
        None => Refusal::OutOfMemory,
    }
}

/// Checks that a document is a triage file none of whose entries has expired.
fn check(text: &[u8], table: &Table, today: u32) -> Result<(), Refusal>
    requires { IsDocument text.now (table_view table.now) }
    ensures ok { OnOk result (IsTaken text.now today (table_view table.now)) }
    ensures err { IfErr result (IsRefusal text.now today) }
{
    if !is_top(table) {
        return Err(Refusal::Top(top_spot(text, table)));
    }
    let entries = entries_of(table);
    match first_mistaken(entries) {
        Some((at, mistake)) => Err(Refusal::Entry(
            key_spot(text, at, key_of(mistake)),
            at as u64 + 1,
            mistake,
        )),
        None => check_days(text, entries, today),
    }
}

/// The spot of the first key that is not `race`. If there is no such key, the spot of `race`.
fn top_spot(text: &[u8], table: &Table) -> Spot
    ensures { IsNameSpot (other_key (keys_in (table_view table.now))) text.now result }
{
    name_spot(other_key(table), text)
}

/// The first key that is not `race`; `race` if every key is `race`.
fn other_key(table: &Table) -> &[u8]
    ensures { result.now ≡ other_key (keys_in (table_view table.now)) }
{
    for (key, _) in table.iter() {
        if key.as_bytes() != b"race".as_slice() {
            return key.as_bytes();
        }
    }
    b"race"
}

/// Refuses the entries if the last day of one is over.
fn check_days(text: &[u8], entries: &[Value], today: u32) -> Result<(), Refusal>
    ensures ok { OnOk result (first_expired today (map view entries.now) ≡ None) }
    ensures err { IfErr result (IsOver text.now today (map view entries.now)) }
{
    match first_expired(entries, today) {
        Some(at) => Err(Refusal::Expired(key_spot(text, at, b"expires"), at as u64 + 1)),
        None => Ok(()),
    }
}

/// The first entry with a mistake. Entries are counted from 0.
fn first_mistaken(entries: &[Value]) -> Option<(usize, Mistake)>
    ensures first { result ≡ mistaken_from 0 (map view entries.now) }
    ensures within { IfSome result (λ found. found.0 < length entries.now) }
{
    for at in 0..entries.len() {
        match mistake_of(&entries[at]) {
            Some(mistake) => return Some((at, mistake)),
            None => {}
        }
    }
    None
}

/// The first entry whose last day is before today. Entries are counted from 0.
fn first_expired(entries: &[Value], today: u32) -> Option<usize>
    ensures first { result ≡ first_expired today (map view entries.now) }
    ensures within { IfSome result (λ at. at < length entries.now) }
{
    expired_at(entries, today)
}

/// The same, with the entries as values.
fn expired_at(entries: &[Value], today: u32) -> Option<usize>
    ensures first { result ≡ position (λ entry. is_expired today (view entry)) entries.now }
    ensures within { IfSome result (λ at. at < length entries.now) }
{
    entries.iter().position(|entry| is_expired(entry, today))
}

/// The spot of a mistake about a key of the entry with this number, counted from 0.
fn key_spot(text: &[u8], number: usize, key: &[u8]) -> Spot
    ensures { IsKeyReport text.now number key.now result }
{
    match header_of(text, number) {
        Some(start) => spot_in(text, start, key),
        None => spot_at(text, 0),
    }
}

/// The same if the entry's header begins at `start`.
fn spot_in(text: &[u8], start: usize, key: &[u8]) -> Spot
    requires { start < length text.now }
    ensures { (number : ℕ) → IsHeader text.now number start → IsKeyReport text.now number key.now result }
{
    match key_in(key, text, start) {
        Some(at) => spot_at(text, at),
        None => spot_at(text, start),
    }
}

/// Whether a document has at most one key, an array `race`.
fn is_top(table: &Table) -> bool
    ensures { result ≡ is_top (table_view table.now) }
{
    are_races(table)
        && match member_of(table, "race") {
            Some(found) => found.is_array(),
            None => true,
        }
}

/// Whether each key is `race`.
fn are_races(table: &Table) -> bool
    ensures { result ≡ list_all is_race_key (keys_in (table_view table.now)) }
{
    for (key, _) in table.iter() {
        if key.as_bytes() != b"race".as_slice() {
            return false;
        }
    }
    true
}

/// The value at a key.
fn member_of<'a>(table: &'a Table, key: &str) -> Option<&'a Value>
    ensures { option_map (λ found. view found.now) result ≡ get_member key.now (table_view table.now) }
{
    table.get(key)
}

/// Returns the entries of a file.
pub fn entries_of(table: &Table) -> &[Value]
    ensures { map view result.now ≡ races_in (table_view table.now) }
{
    match member_of(table, "race") {
        Some(found) => items_of(found),
        None => &[],
    }
}
