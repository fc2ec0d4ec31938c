//! Removes the names that a refused report has added.
ghost use Rattle.std.specs.Prelude.{◌≡◌, OnErr, OnOk};
ghost use Rattle.race_parts.specs.Parts.{IsNoted, names_in, without_all};

use crate::parts::Parts;
use rapid_text::OutOfMemory;
use std::alloc::Global;

/// Adds the name to these names, if it has no part yet.
pub(crate) fn note_new(
    alloc: Global,
    parts: &Parts,
    name: &[u8],
    added: &mut Vec<Vec<u8>>,
) -> Result<(), OutOfMemory>
    ensures ok { OnOk result (IsNoted parts.now name.now added.old added.new) }
    ensures err { OnErr result (names_in added.new ≡ names_in added.old) }
{
    let name = Vec::from_slice(alloc, name)?;
    if parts.contains_key(&name) {
        return Ok(());
    }
    added.push(name)?;
    Ok(())
}

/// Removes these names, the last one first.
pub(crate) fn take_out(parts: &mut Parts, mut added: Vec<Vec<u8>>)
    ensures { parts.new.entries ≡ without_all (names_in added) parts.old.entries }
{
    'names: while let Some(name) = added.pop() {
        parts.remove(&name);
    }
}
