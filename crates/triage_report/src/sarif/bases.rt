//! The folder of the code, and how many verdicts were left out, as objects.
ghost use Rattle.std.specs.Prelude.{◌≡◌, []};
ghost use Rattle.race_parts.specs.Made.{Changed, FilledAs, MadeAs};
ghost use Rattle.triage_report.specs.sarif.Logs.{about_object, base_object, count_members, left_object, root_object, uri_object};

use crate::folder::Folder;
use crate::json::{put_number, put_text};
use crate::sarif::locations::message_of;
use crate::sarif::places::{append_uri, is_absolute};
use rapid_text::OutOfMemory;
use serde_json::{Map, Value, put};
use std::alloc::Global;

/// The object that gives the folder of the code a name; without members if no folder is named.
pub(crate) fn base_of(alloc: Global, root: &Folder) -> Result<Value, OutOfMemory>
    ensures { MadeAs result (base_object root.now) }
{
    let mut members = Map::new(alloc);
    put_base(&mut members, alloc, root)?;
    Ok(Value::Object(members))
}

/// Puts the folder of the code, if one is named.
fn put_base(
    members: &mut Map<String, Value>,
    alloc: Global,
    root: &Folder,
) -> Result<(), OutOfMemory>
    requires { members.old.entries ≡ [] }
    ensures { FilledAs result members.new (base_object root.now) }
{
    let path = root.path.as_slice();
    if path.is_empty() {
        return Ok(());
    }
    let value = root_of(alloc, path)?;
    put(members, alloc, "SRCROOT", value)?;
    Ok(())
}

/// The folder of the code: its URI if the path is absolute, else a description.
fn root_of(alloc: Global, root: &[u8]) -> Result<Value, OutOfMemory>
    ensures { MadeAs result (root_object root.now) }
{
    let mut members = Map::new(alloc);
    put_root(&mut members, alloc, root)?;
    Ok(Value::Object(members))
}

/// Puts the URI of the folder, or its description.
fn put_root(members: &mut Map<String, Value>, alloc: Global, root: &[u8]) -> Result<(), OutOfMemory>
    requires { members.old.entries ≡ [] }
    ensures { FilledAs result members.new (root_object root.now) }
{
    if is_absolute(root) {
        return put_uri(members, alloc, root);
    }
    put_about(members, alloc)
}

/// Puts the URI of a path.
fn put_uri(members: &mut Map<String, Value>, alloc: Global, path: &[u8]) -> Result<(), OutOfMemory>
    requires { members.old.entries ≡ [] }
    ensures { FilledAs result members.new (uri_object path.now) }
{
    let mut uri = Vec::new(alloc);
    append_uri(&mut uri, path)?;
    put_text(members, alloc, "uri", uri.as_slice())?;
    Ok(())
}

/// Puts the description of the folder.
fn put_about(members: &mut Map<String, Value>, alloc: Global) -> Result<(), OutOfMemory>
    requires { members.old.entries ≡ [] }
    ensures { FilledAs result members.new about_object }
{
    let value = message_of(alloc, b"The folder that --source named")?;
    put(members, alloc, "description", value)?;
    Ok(())
}

/// The object that says how many verdicts were left out, as known races or by a filter.
pub(crate) fn left_of(
    alloc: Global,
    known: Option<u64>,
    hidden: Option<u64>,
) -> Result<Value, OutOfMemory>
    ensures { MadeAs result (left_object known hidden) }
{
    let mut members = Map::new(alloc);
    put_left(&mut members, alloc, known, hidden)?;
    Ok(Value::Object(members))
}

/// Puts these two numbers.
fn put_left(
    members: &mut Map<String, Value>,
    alloc: Global,
    known: Option<u64>,
    hidden: Option<u64>,
) -> Result<(), OutOfMemory>
    requires { members.old.entries ≡ [] }
    ensures { FilledAs result members.new (left_object known hidden) }
{
    put_count(members, alloc, "known", known)?;
    put_count(members, alloc, "hidden", hidden)
}

/// Puts a number, if there is one.
fn put_count(
    members: &mut Map<String, Value>,
    alloc: Global,
    name: &str,
    count: Option<u64>,
) -> Result<(), OutOfMemory>
    ensures { Changed result members.old members.new (count_members name.now count) }
{
    match count {
        Some(count) => {
            put_number(members, alloc, name, count)?;
            Ok(())
        }
        None => Ok(()),
    }
}
