//! Adds a part to the others.
ghost use Rattle.std.specs.Prelude.{IfErr, OnErr, OnOk};
ghost use Rattle.std.specs.BTreeMap.{IsUnchanged};
ghost use Rattle.race_parts.specs.Parts.{AddsOnly, AreMerged, AreMergedFrom, HasOther, HasPart, IsPutFault, OnClash, held_at, single};

use crate::lines::PartRefusal;
use crate::parts::{Part, Parts};

/// Adds a part under its name. Changes nothing if the name already has this text. Fails with `Clash` if the name has
/// another text.
pub(crate) fn put(parts: &mut Parts, name: Vec<u8>, part: Part) -> Result<(), PartRefusal>
    ensures ok { OnOk result (AreMerged parts.old parts.new (single name.items part.text.items)) }
    ensures held { OnOk result (AreMergedFrom part.file parts.old parts.new (single name.items part.text.items)) }
    ensures there { OnOk result (HasPart parts.new (name.items, part.text.items)) }
    ensures added { OnOk result (AddsOnly parts.old parts.new name.items) }
    ensures unchanged { OnErr result (IsUnchanged parts.old parts.new) }
    ensures why { IfErr result IsPutFault }
    ensures clash { OnClash result (HasOther (held_at parts.old) name.items part.text.items) }
{
    match parts.get(&name) {
        Some(known) => {
            if known.text.as_slice() == part.text.as_slice() {
                Ok(())
            } else {
                Err(PartRefusal::Clash(known.file))
            }
        }
        None => match parts.insert(name, part) {
            Ok(_) => Ok(()),
            Err(_) => Err(PartRefusal::OutOfMemory),
        },
    }
}
