//! Reads members of a JSON object.
ghost use Rattle.std.specs.Prelude.{◌≡◌, option_map};
ghost use Rattle.serde_json.specs.View.{view};
ghost use Rattle.race_parts.specs.Members.{access_in, has_number, has_text, is_kind, said_number, said_text, find_number, find_text};

use serde_json::Value;

/// The member as a number. Returns None if there is no such member, or if it is not a whole number of 64 bits.
pub(crate) fn find_number(value: &Value, name: &str) -> Option<u64>
    ensures { result ≡ find_number name.now (view value.now) }
{
    match value.get(name) {
        Some(found) => found.as_u64(),
        None => None,
    }
}

/// The member as a text. Returns None if there is no such member, or if it is not a text.
pub(crate) fn find_text<'a>(value: &'a Value, name: &str) -> Option<&'a str>
    ensures { option_map (λ text. text.now) result ≡ find_text name.now (view value.now) }
{
    match value.get(name) {
        Some(found) => found.as_str(),
        None => None,
    }
}

/// Whether the object has this member, and it is a number.
pub(crate) fn has_number(value: &Value, name: &str) -> bool
    ensures { result ≡ has_number name.now (view value.now) }
{
    find_number(value, name).is_some()
}

/// Whether the object has this member, and it is a text.
pub(crate) fn has_text(value: &Value, name: &str) -> bool
    ensures { result ≡ has_text name.now (view value.now) }
{
    find_text(value, name).is_some()
}

/// Returns the member as a number; 0 if there is no such number.
pub fn number_of(value: &Value, name: &str) -> u64
    ensures { result ≡ said_number name.now (view value.now) }
{
    find_number(value, name).unwrap_or(0)
}

/// Returns the member as a text; empty if there is no such text.
pub fn text_of<'a>(value: &'a Value, name: &str) -> &'a [u8]
    ensures { result.now ≡ said_text name.now (view value.now) }
{
    match find_text(value, name) {
        Some(text) => text.as_bytes(),
        None => b"",
    }
}

/// Whether the member `kind` is equal to this word.
pub(crate) fn is_kind(value: &Value, word: &str) -> bool
    ensures { result ≡ is_kind word.now (view value.now) }
{
    text_of(value, "kind") == word.as_bytes()
}

/// Returns the access with this index, 0 or 1, in the member `accesses`. Returns None if there is no such access.
pub fn access_in(value: &Value, place: usize) -> Option<&Value>
    ensures { option_map (λ found. view found.now) result ≡ access_in place (view value.now) }
{
    match value.get("accesses") {
        Some(list) => list.get(place),
        None => None,
    }
}
