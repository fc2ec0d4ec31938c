//! Puts members into an object, one by one.
ghost use Rattle.serde_json.specs.Data.{object, put as with_member, string};
ghost use Rattle.serde_json.specs.View.{members_view, view};
ghost use Rattle.race_parts.specs.Made.{Changed, MadeAs};
ghost use Rattle.triage_report.specs.json.Objects.{text, whole};

use serde_json::{Map, Value, put};
use std::alloc::{AllocError, Global};

/// Puts a member with this name and a number.
pub fn put_number(
    members: &mut Map<String, Value>,
    alloc: Global,
    name: &str,
    number: u64,
) -> Result<(), AllocError>
    ensures { Changed result members.old members.new (with_member name.now (whole number)) }
{
    put(members, alloc, name, Value::from(number))
}

/// Puts a member with this name and a word.
pub fn put_word(
    members: &mut Map<String, Value>,
    alloc: Global,
    name: &str,
    word: &str,
) -> Result<(), AllocError>
    ensures { Changed result members.old members.new (with_member name.now (string word.now)) }
{
    put(members, alloc, name, Value::try_from_str(alloc, word)?)
}

/// Puts a member with this name and a text from outside. Bytes that are not UTF-8 become U+FFFD.
pub fn put_text(
    members: &mut Map<String, Value>,
    alloc: Global,
    name: &str,
    bytes: &[u8],
) -> Result<(), AllocError>
    ensures { Changed result members.old members.new (with_member name.now (text bytes.now)) }
{
    put(members, alloc, name, text_of(alloc, bytes)?)
}

/// The object with these members and one more.
pub fn object_with(
    alloc: Global,
    mut members: Map<String, Value>,
    name: &str,
    value: Value,
) -> Result<Value, AllocError>
    ensures { MadeAs result (object (with_member name.now (view value) (members_view members.entries))) }
{
    put(&mut members, alloc, name, value)?;
    Ok(Value::Object(members))
}

/// A text from outside as a value. Bytes that are not UTF-8 become U+FFFD.
pub(crate) fn text_of(alloc: Global, bytes: &[u8]) -> Result<Value, AllocError>
    ensures { MadeAs result (text bytes.now) }
{
    Ok(Value::String(String::from_utf8_lossy(alloc, bytes)?))
}
