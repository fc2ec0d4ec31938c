//! What comes after a place of the file: lines that count, and a closed gate.
ghost use Rattle.std.specs.Prelude.{◌≡◌, ◌≢◌, ◌≤◌, ◌<◌, ◌+◌, ◌++◌, [], ◌∷◌, All, length, take, drop, IfOk, OnOk, IfErr, ◌^◌, true};
ghost use Rattle.kept_log.specs.Device.{Only, HasCause};
ghost use Rattle.kept_log.specs.declared.device.DeviceError.{DeviceError};
ghost use Rattle.kept_log.specs.declared.device.DeviceError.TheVariants.{Shorter};
ghost use Rattle.kept_log.specs.Lines.{IsLine, IsEnd, lines_text};
ghost use Rattle.kept_log.specs.Log.{EndsBehind, at_rest, lines_behind, rest_at, StandsAt};
ghost use Rattle.kept_log.specs.Moments.{LeavesOnly};

use crate::lines::lines_end;
use crate::steps::{cut_through, write_through};
use crate::{Device, DeviceError};

/// Cuts the file at a place after which no line counts, and closes the gate there.
fn repair<D: Device>(device: &mut D, at: usize) -> Result<(), DeviceError>
    requires within { at ≤ length (D.seen device.old) }
    requires held { D.is_held device.old ≡ true }
    requires durable { Only (D.seen device.old) (D.may_leave device.old) }
    requires end { IsEnd (drop at (D.seen device.old)) }

    ensures closed { OnOk result (D.seen device.new ≡ take at (D.seen device.old) ++ 33 ∷ []) }
    ensures durable { OnOk result (Only (D.seen device.new) (D.may_leave device.new)) }
    ensures view { EndsBehind (take at (D.seen device.old)) (D.seen device.new) }
    ensures any_moment { LeavesOnly D.Device device.old device.new (EndsBehind (take at (D.seen device.old))) }
    ensures held { D.is_held device.new ≡ true }
    ensures found { D.found device.new ≡ D.found device.old }
    ensures cause { HasCause (D.faults device.old) (D.faults device.new) result }
    ensures not_shorter { IfErr result (λ why. why ≢ Shorter) }
{
    // The cut must be on the disk first: after a gate that is torn open, what was there would count.
    cut_through(device, at)?;
    write_through(device, at, b"!")
}

/// The length of the text of the lines that count after a place. A closed gate follows them, if need be by a repair.
/// `text` is the whole file from the place on.
pub(crate) fn settle<D: Device>(
    device: &mut D,
    at: usize,
    text: &[u8],
) -> Result<usize, DeviceError>
    requires within { at ≤ length (D.seen device.old) }
    requires text { drop at (D.seen device.old) ≡ text.now }
    requires fits { length (D.seen device.old) < 2 ^ 63 }
    requires held { D.is_held device.old ≡ true }
    requires durable { Only (D.seen device.old) (D.may_leave device.old) }

    ensures lines { IfOk result (λ len. take len text.now ≡ lines_text (lines_behind at (D.seen device.old))) }
    ensures len { IfOk result (λ len. len ≡ length (lines_text (lines_behind at (D.seen device.old)))) }
    ensures within { IfOk result (λ len. at + len ≤ length (D.seen device.old)) }
    ensures are_lines { OnOk result (All IsLine (lines_behind at (D.seen device.old))) }
    ensures at_rest { OnOk result (D.seen device.new ≡ rest_at at (D.seen device.old)) }
    ensures durable { OnOk result (Only (D.seen device.new) (D.may_leave device.new)) }

    // A crash at any moment, and a failed call, leave the same lines.
    ensures view { StandsAt at (D.seen device.old) (D.seen device.new) }
    ensures any_moment { LeavesOnly D.Device device.old device.new (StandsAt at (D.seen device.old)) }
    ensures held { D.is_held device.new ≡ true }
    ensures found { D.found device.new ≡ D.found device.old }
    ensures cause { HasCause (D.faults device.old) (D.faults device.new) result }
    ensures not_shorter { IfErr result (λ why. why ≢ Shorter) }
{
    let end = lines_end(text);
    if text[end..] == [b'!'] {
        return Ok(end);
    }
    repair(device, at + end)?;
    Ok(end)
}
