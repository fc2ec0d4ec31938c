//! The members of an entry.
ghost use Rattle.std.specs.Prelude.{◌≡◌, codes, map, option_and_then, option_map};
ghost use Rattle.std.specs.List.{list_all};
ghost use Rattle.toml.specs.Data.{as_array, as_str, get};
ghost use Rattle.toml.specs.View.{view};
ghost use Rattle.triage_file.specs.Entries.{are_texts, are_two_numbers, are_two_texts, has, hides, is_key, is_said, is_text, is_verdict, item_of, items_by, list_of, number_at, said_at, said_text, text_at};

use toml::Value;

/// The item at this index of a member's array.
fn item_of<'a>(entry: &'a Value, name: &str, place: usize) -> Option<&'a Value>
    ensures { option_map (λ found. view found.now) result ≡ item_of name.now place (view entry.now) }
{
    match entry.get(name) {
        Some(array) => array.get(place),
        None => None,
    }
}

/// The text at this index of a member's array.
fn text_at<'a>(entry: &'a Value, name: &str, place: usize) -> Option<&'a str>
    ensures { option_map (λ text. text.now) result ≡ text_at name.now place (view entry.now) }
{
    match item_of(entry, name, place) {
        Some(found) => found.as_str(),
        None => None,
    }
}

/// The number at this index of a member's array.
pub(crate) fn number_at(entry: &Value, name: &str, place: usize) -> Option<i64>
    ensures { result ≡ number_at name.now place (view entry.now) }
{
    match item_of(entry, name, place) {
        Some(found) => found.as_integer(),
        None => None,
    }
}

/// The text at this index of a member's array; empty if the item is missing or is no text.
pub(crate) fn said_at<'a>(entry: &'a Value, name: &str, place: usize) -> &'a [u8]
    ensures { result.now ≡ said_at name.now place (view entry.now) }
{
    match text_at(entry, name, place) {
        Some(text) => text.as_bytes(),
        None => b"",
    }
}

/// The text of a member.
fn text_of<'a>(entry: &'a Value, name: &str) -> Option<&'a str>
    ensures { option_map (λ text. text.now) result ≡ option_and_then as_str (get name.now (view entry.now)) }
{
    match entry.get(name) {
        Some(found) => found.as_str(),
        None => None,
    }
}

/// The text of a member; empty if the member is missing or is no text.
fn said_text<'a>(entry: &'a Value, name: &str) -> &'a [u8]
    ensures { result.now ≡ said_text name.now (view entry.now) }
{
    match text_of(entry, name) {
        Some(text) => text.as_bytes(),
        None => b"",
    }
}

/// Whether the entry has this member.
pub(crate) fn has(entry: &Value, name: &str) -> bool
    ensures { result ≡ has name.now (view entry.now) }
{
    entry.get(name).is_some()
}

/// Whether the member is a text.
pub(crate) fn is_said(entry: &Value, name: &str) -> bool
    ensures { result ≡ is_said name.now (view entry.now) }
{
    text_of(entry, name).is_some()
}

/// Whether the member is an array of two texts.
pub(crate) fn are_two_texts(entry: &Value, name: &str) -> bool
    ensures { result ≡ are_two_texts name.now (view entry.now) }
{
    text_at(entry, name, 0).is_some()
        && text_at(entry, name, 1).is_some()
        && item_of(entry, name, 2).is_none()
}

/// Whether the member is an array of two numbers.
pub(crate) fn are_two_numbers(entry: &Value, name: &str) -> bool
    ensures { result ≡ are_two_numbers name.now (view entry.now) }
{
    number_at(entry, name, 0).is_some()
        && number_at(entry, name, 1).is_some()
        && item_of(entry, name, 2).is_none()
}

/// The items of a member that is an array; empty if it is not an array.
pub(crate) fn list_of<'a>(entry: &'a Value, name: &str) -> &'a [Value]
    ensures { map view result.now ≡ list_of name.now (view entry.now) }
{
    match entry.get(name) {
        Some(found) => items_of(found),
        None => &[],
    }
}

/// The items of a value that is an array; empty if it is not an array.
pub(crate) fn items_of(value: &Value) -> &[Value]
    ensures { map view result.now ≡ items_by (as_array (view value.now)) }
{
    match value.as_array() {
        Some(array) => array.as_slice(),
        None => &[],
    }
}

/// Whether the member is an array of at least one item, and all items are texts.
pub(crate) fn are_texts(entry: &Value, name: &str) -> bool
    ensures { result ≡ are_texts name.now (view entry.now) }
{
    item_of(entry, name, 0).is_some() && are_all_texts(list_of(entry, name))
}

/// Whether each item is a text.
fn are_all_texts(items: &[Value]) -> bool
    ensures { result ≡ list_all is_text (map view items.now) }
{
    are_each_texts(items)
}

/// The same for the value of each item.
fn are_each_texts(items: &[Value]) -> bool
    ensures { result ≡ list_all (λ item. is_text (view item)) items.now }
{
    items.iter().all(|item| item.is_str())
}

/// Whether the entry's verdict is one of the four words.
pub(crate) fn has_verdict(entry: &Value) -> bool
    ensures { result ≡ is_verdict (said_text (codes "verdict") (view entry.now)) }
{
    let word = said_text(entry, "verdict");
    word == b"known".as_slice()
        || word == b"benign".as_slice()
        || word == b"false".as_slice()
        || word == b"fixed".as_slice()
}

/// Whether the entry leaves its race out. An entry whose race was fixed does not.
pub fn hides(entry: &Value) -> bool
    ensures { result ≡ hides (view entry.now) }
{
    said_text(entry, "verdict") != b"fixed".as_slice()
}

/// Whether an entry may have a member with this key.
pub(crate) fn is_key(key: &[u8]) -> bool
    ensures { result ≡ is_key key.now }
{
    key == b"paths".as_slice()
        || key == b"functions".as_slice()
        || key == b"variables".as_slice()
        || key == b"lines".as_slice()
        || key == b"verdict".as_slice()
        || key == b"reason".as_slice()
        || key == b"author".as_slice()
        || key == b"expires".as_slice()
}
