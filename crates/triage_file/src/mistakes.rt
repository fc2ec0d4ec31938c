//! What is wrong with an entry.
ghost use Rattle.std.specs.Prelude.{◌≡◌};
ghost use Rattle.std.specs.List.{list_all};
ghost use Rattle.toml.specs.View.{table_view, view};
ghost use Rattle.triage_file.specs.Entries.{decision_mistake, is_key, key_of, keys_in, mistake_of, place_mistake};

use crate::dates::is_day;
use crate::fields::{are_texts, are_two_numbers, are_two_texts, has, has_verdict, is_key, is_said};
use toml::{Table, Value};

/// What is wrong with an entry.
#[derive(Clone, Copy, PartialEq, Eq, Debug)]
pub enum Mistake {
    /// It is not a table.
    NoTable,
    /// It has a key that no entry has.
    Unknown,
    /// `paths` is missing, or is not an array of two texts.
    Paths,
    /// `functions` is not an array of two texts.
    Functions,
    /// `variables` is not an array of texts, or is empty.
    Variables,
    /// `lines` is not an array of two numbers.
    Lines,
    /// `verdict` is missing, or is not one of the four words.
    Verdict,
    /// `reason` is not a text.
    Reason,
    /// `author` is not a text.
    Author,
    /// `expires` is not a date without a time.
    Expires,
}

/// The first mistake of an entry; None if it is right.
pub(crate) fn mistake_of(entry: &Value) -> Option<Mistake>
    ensures { result ≡ mistake_of (view entry.now) }
{
    let Some(table) = entry.as_table() else {
        return Some(Mistake::NoTable);
    };
    if !are_known(table) {
        return Some(Mistake::Unknown);
    }
    place_mistake(entry)
}

/// The first mistake in the members that name the race, or in those of the decision.
fn place_mistake(entry: &Value) -> Option<Mistake>
    ensures { result ≡ place_mistake (view entry.now) }
{
    if !are_two_texts(entry, "paths") {
        return Some(Mistake::Paths);
    }
    if has(entry, "functions") && !are_two_texts(entry, "functions") {
        return Some(Mistake::Functions);
    }
    if has(entry, "variables") && !are_texts(entry, "variables") {
        return Some(Mistake::Variables);
    }
    if has(entry, "lines") && !are_two_numbers(entry, "lines") {
        return Some(Mistake::Lines);
    }
    decision_mistake(entry)
}

/// The first mistake in the members of the decision.
fn decision_mistake(entry: &Value) -> Option<Mistake>
    ensures { result ≡ decision_mistake (view entry.now) }
{
    if !has_verdict(entry) {
        return Some(Mistake::Verdict);
    }
    if has(entry, "reason") && !is_said(entry, "reason") {
        return Some(Mistake::Reason);
    }
    if has(entry, "author") && !is_said(entry, "author") {
        return Some(Mistake::Author);
    }
    if has(entry, "expires") && !is_day(entry, "expires") {
        return Some(Mistake::Expires);
    }
    None
}

/// Whether an entry may have all keys of the table.
fn are_known(table: &Table) -> bool
    ensures { result ≡ list_all is_key (keys_in (table_view table.now)) }
{
    for (key, _) in table.iter() {
        if !is_key(key.as_bytes()) {
            return false;
        }
    }
    true
}

/// The key that the mistake is about. If no known key is, the brackets of the entry's header.
pub(crate) fn key_of(mistake: Mistake) -> &'static [u8]
    ensures { result.now ≡ key_of mistake }
{
    match mistake {
        Mistake::NoTable | Mistake::Unknown => b"[[",
        Mistake::Paths => b"paths",
        Mistake::Functions => b"functions",
        Mistake::Variables => b"variables",
        Mistake::Lines => b"lines",
        Mistake::Verdict => b"verdict",
        Mistake::Reason => b"reason",
        Mistake::Author => b"author",
        Mistake::Expires => b"expires",
    }
}
