//! Adds the loose pairs: those below one cut and not below the next.
ghost use Rattle.std.specs.Prelude.{◌≡◌, ◌<◌, OnOk, true, length};
ghost use Rattle.event_index.specs.Relations.{is_access};
ghost use Rattle.race_groups.specs.Adding.{AreLooseAdded};
ghost use Rattle.race_groups.specs.Basis.{AreLoose, HasRoom, IsBasis};
ghost use Rattle.race_groups.specs.Rows.{AreRows};

use crate::basis::Basis;
use crate::class::Class;
use crate::rows::GrowingRows;
use crate::shares::Loose;
use crate::walk::add_members;
use crate::writers::conflicting;
use rapid_text::OutOfMemory;

/// Adds the pairs of one or several events of the class `later` with the events of other threads.
pub(crate) fn add_loose(
    rows: &mut GrowingRows,
    loose: Loose<'_>,
    basis: Basis<'_>,
    variable: u32,
    later: Class,
    thread: u32,
) -> Result<(), OutOfMemory>
    requires basis { IsBasis basis }
    requires loose { AreLoose basis thread loose.earlier.now loose.known.now loose.forced.now }
    requires member { variable < length basis.classes.now.members.items }
    requires access { is_access variable later.op ≡ true }
    requires rows { AreRows rows.old }
    requires room { HasRoom 0 rows.old }
    ensures ok { OnOk result (AreLooseAdded basis.entry.classes.now later loose.entry rows.old rows.new) }
    ensures rows { OnOk result (AreRows rows.new) }
{
    let walk = conflicting(basis.classes, basis.conflicts, variable, later.op);
    add_members(rows, &loose, basis.classes, walk, later, thread)?;
    Ok(())
}
