//! Checks which lines a part may have.
ghost use Rattle.std.specs.Prelude.{◌≡◌, ◌∷◌, List, count_by, map, not, position};
ghost use Rattle.serde_json.specs.View.{view};
ghost use Rattle.serde_json.specs.Data.{Data};
ghost use Rattle.race_parts.specs.Rows.{are_whole, has_access, has_accesses, has_list, is_apart, is_counts, is_how, is_other_version, is_race, is_row, is_undecided, is_whole, mark_of, wrong_behind, wrong_line};

use crate::members::{access_in, find_number, has_number, has_text, is_kind, number_of, text_of};
use serde_json::Value;

/// The version of the format that this crate reads.
const VERSION: u64 = 1;

/// The kind of a line in a part.
#[derive(Clone, Copy)]
pub struct Mark {
    /// The line is a complete row of any kind.
    pub is_row: bool,
    /// Its kind is `race`.
    pub is_race: bool,
    /// Its kind is `undecided`.
    pub is_undecided: bool,
    /// Its kind is `apart`.
    pub is_apart: bool,
}

/// Whether the value is the object of the counts.
fn is_counts(value: &Value) -> bool
    ensures { result ≡ is_counts (view value.now) }
{
    is_kind(value, "counts")
        && has_number(value, "events")
        && has_number(value, "races")
        && has_number(value, "undecided")
        && has_number(value, "apart")
}

/// Whether the value has a member `version` that is not 1.
pub(crate) fn is_other_version(value: &Value) -> bool
    ensures { result ≡ is_other_version (view value.now) }
{
    value.get("version").is_some() && find_number(value, "version") != Some(VERSION)
}

/// Whether the value has the access with this index, and the access has all its members.
fn has_access(value: &Value, place: usize) -> bool
    ensures { result ≡ has_access place (view value.now) }
{
    match access_in(value, place) {
        Some(access) => {
            has_number(access, "event")
                && has_text(access, "thread")
                && has_text(access, "operation")
                && has_text(access, "variable")
                && has_text(access, "location")
                && has_list(access)
        }
        None => false,
    }
}

/// Whether the access has a list of the locks that its thread holds.
fn has_list(access: &Value) -> bool
    ensures { result ≡ has_list (view access.now) }
{
    match access.get("holds") {
        Some(holds) => holds.as_array().is_some(),
        None => false,
    }
}

/// Whether the value has both accesses and a number of pairs.
fn has_accesses(value: &Value) -> bool
    ensures { result ≡ has_accesses (view value.now) }
{
    has_access(value, 0) && has_access(value, 1) && has_number(value, "pairs")
}

/// Whether the word is one of `candidate`, `beyond` and `turned`.
pub(crate) fn is_how(word: &[u8]) -> bool
    ensures { result ≡ is_how word.now }
{
    word == b"candidate".as_slice() || word == b"beyond".as_slice() || word == b"turned".as_slice()
}

/// Whether the value is a complete row of kind `race`.
fn is_race(value: &Value) -> bool
    ensures { result ≡ is_race (view value.now) }
{
    is_kind(value, "race")
        && has_accesses(value)
        && is_how(text_of(value, "how"))
        && has_number(value, "variables")
        && has_number(value, "events")
        && has_number(value, "threads")
}

/// Whether the value is a complete row of kind `undecided`.
fn is_undecided(value: &Value) -> bool
    ensures { result ≡ is_undecided (view value.now) }
{
    is_kind(value, "undecided")
        && has_accesses(value)
        && has_number(value, "variables")
        && has_number(value, "tried")
}

/// Whether the value is a complete row of kind `apart`.
fn is_apart(value: &Value) -> bool
    ensures { result ≡ is_apart (view value.now) }
{
    is_kind(value, "apart") && has_accesses(value)
}

/// Whether the value is a complete row: a race, an undecided row or an apart row.
pub(crate) fn is_row(value: &Value) -> bool
    ensures { result ≡ is_row (view value.now) }
{
    is_race(value) || is_undecided(value) || is_apart(value)
}

/// Whether the counts agree with these numbers of rows. If there are no apart rows, any count of apart rows is right: a
/// report may leave them out.
fn is_whole(head: &Value, races: u64, undecided: u64, apart: u64) -> bool
    ensures { result ≡ is_whole (view head.now) races undecided apart }
{
    number_of(head, "races") == races
        && number_of(head, "undecided") == undecided
        && (apart == 0 || number_of(head, "apart") == apart)
}

/// How many rows are of kind `race`.
fn count_races(marks: &[Mark]) -> u64
    ensures { result ≡ count_by (λ m. m.is_race) marks.now }
{
    marks.iter().filter(|mark| mark.is_race).count() as u64
}

/// How many rows are of kind `undecided`.
fn count_undecided(marks: &[Mark]) -> u64
    ensures { result ≡ count_by (λ m. m.is_undecided) marks.now }
{
    marks.iter().filter(|mark| mark.is_undecided).count() as u64
}

/// How many rows are of kind `apart`.
fn count_apart(marks: &[Mark]) -> u64
    ensures { result ≡ count_by (λ m. m.is_apart) marks.now }
{
    marks.iter().filter(|mark| mark.is_apart).count() as u64
}

/// Whether the number of rows of each kind agrees with the counts. All apart rows may be missing.
fn are_whole(head: &Value, marks: &[Mark]) -> bool
    ensures { result ≡ are_whole (view head.now) marks.now }
{
    let races = count_races(marks);
    let undecided = count_undecided(marks);
    let apart = count_apart(marks);
    is_whole(head, races, undecided, apart)
}

/// The index of the first line that is not a row.
fn wrong_row(marks: &[Mark]) -> Option<usize>
    ensures { result ≡ position (λ m. not m.is_row) marks.now }
{
    marks.iter().position(|mark| !mark.is_row)
}

/// The index of the first line that does not fit after the counts. The line of the counts has index 0.
fn wrong_behind(head: &Value, marks: &[Mark]) -> Option<usize>
    ensures { result ≡ wrong_behind (view head.now) marks.now (position (λ m. not m.is_row) marks.now) }
{
    match wrong_row(marks) {
        Some(at) => Some(at + 1),
        None => {
            if are_whole(head, marks) {
                None
            } else {
                Some(marks.len() + 1)
            }
        }
    }
}

/// The index of the first line that does not fit into a part; None if the lines are a part. `head` is the first line,
/// and `marks` are the marks of the others.
pub(crate) fn wrong_line(head: &Value, marks: &[Mark]) -> Option<usize>
    ensures { (ds : List Data) → marks.now ≡ map mark_of ds → result ≡ wrong_line (view head.now ∷ ds) }
{
    if !is_counts(head) {
        return Some(0);
    }
    wrong_behind(head, marks)
}
