//! Reads members of a line's JSON object.
ghost use Rattle.std.specs.Prelude.{◌≡◌, option_map};
ghost use Rattle.serde_json.specs.View.{view};
ghost use Rattle.followed_races.specs.Entries.{find_number, find_text_at, find_text, is_ended, is_entry, item_in, said_flag, said_number, said_text_at, said_text};

use serde_json::Value;

/// Whether the value has what a line must have: two events, two locations, and how following ended.
pub(crate) fn is_entry(value: &Value) -> bool
    ensures { result ≡ is_entry (view value.now) }
{
    find_number(value, "events", 0).is_some()
        && find_number(value, "events", 1).is_some()
        && find_text_at(value, "locations", 0).is_some()
        && find_text_at(value, "locations", 1).is_some()
        && is_ended(text_of(value, "ended"))
}

/// Whether the word is one of the two ways in which following ends.
fn is_ended(word: &[u8]) -> bool
    ensures { result ≡ is_ended word.now }
{
    word == b"stands".as_slice() || word == b"departed".as_slice()
}

/// The number at this index of the member's list; 0 if there is none.
pub(crate) fn number_at(value: &Value, name: &str, at: usize) -> u64
    ensures { result ≡ said_number name.now at (view value.now) }
{
    find_number(value, name, at).unwrap_or(0)
}

/// The text at this index of the member's list; empty if there is none.
pub(crate) fn text_at<'a>(value: &'a Value, name: &str, at: usize) -> &'a [u8]
    ensures { result.now ≡ said_text_at name.now at (view value.now) }
{
    match find_text_at(value, name, at) {
        Some(text) => text.as_bytes(),
        None => b"",
    }
}

/// The member's text; empty if there is none.
pub(crate) fn text_of<'a>(value: &'a Value, name: &str) -> &'a [u8]
    ensures { result.now ≡ said_text name.now (view value.now) }
{
    match find_text(value, name) {
        Some(text) => text.as_bytes(),
        None => b"",
    }
}

/// The member's truth value. Returns None if it is neither true nor false.
pub(crate) fn flag_of(value: &Value, name: &str) -> Option<bool>
    ensures { result ≡ said_flag name.now (view value.now) }
{
    match value.get(name) {
        Some(found) => found.as_bool(),
        None => None,
    }
}

/// The number at this index of the member's list.
fn find_number(value: &Value, name: &str, at: usize) -> Option<u64>
    ensures { result ≡ find_number name.now at (view value.now) }
{
    match item_of(value, name, at) {
        Some(found) => found.as_u64(),
        None => None,
    }
}

/// The text at this index of the member's list.
fn find_text_at<'a>(value: &'a Value, name: &str, at: usize) -> Option<&'a str>
    ensures { option_map (λ text. text.now) result ≡ find_text_at name.now at (view value.now) }
{
    match item_of(value, name, at) {
        Some(found) => found.as_str(),
        None => None,
    }
}

/// The member's text.
fn find_text<'a>(value: &'a Value, name: &str) -> Option<&'a str>
    ensures { option_map (λ text. text.now) result ≡ find_text name.now (view value.now) }
{
    match value.get(name) {
        Some(found) => found.as_str(),
        None => None,
    }
}

/// The item at this index of the member's list.
fn item_of<'a>(value: &'a Value, name: &str, at: usize) -> Option<&'a Value>
    ensures { option_map (λ found. view found.now) result ≡ item_in name.now at (view value.now) }
{
    match value.get(name) {
        Some(list) => list.get(at),
        None => None,
    }
}
