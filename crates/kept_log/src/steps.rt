//! Calls of a device, each with its sync.
ghost use Rattle.std.specs.Prelude.{◌≡◌, ◌≢◌, ◌≤◌, ◌⊎◌, true, length, take, IfErr, IsErrOf, OnOk};
ghost use Rattle.kept_log.specs.Device.{Only, Torn, Cut, Holds, HasCause};
ghost use Rattle.kept_log.specs.declared.device.DeviceError.TheVariants.{Memory, Shorter};
ghost use Rattle.kept_log.specs.Moments.{LeavesOnly};

use crate::{Device, DeviceError};

/// Writes, and puts it on the disk.
pub(crate) fn write_through<D: Device>(
    device: &mut D,
    at: usize,
    bytes: &[u8],
) -> Result<(), DeviceError>
    requires within { at ≤ length (D.seen device.old) }
    requires held { D.is_held device.old ≡ true }
    requires durable { Only (D.seen device.old) (D.may_leave device.old) }

    ensures written { OnOk result (Holds (D.seen device.old) at bytes.now (D.seen device.new)) }
    ensures durable { OnOk result (Only (D.seen device.new) (D.may_leave device.new)) }
    ensures torn { Torn at (length bytes.now) (D.seen device.old) (D.seen device.new) }

    // A crash at any moment leaves what a torn write does.
    ensures any_moment { LeavesOnly D.Device device.old device.new (Torn at (length bytes.now) (D.seen device.old)) }
    ensures held { D.is_held device.new ≡ true }
    ensures found { D.found device.new ≡ D.found device.old }
    ensures cause { HasCause (D.faults device.old) (D.faults device.new) result }
    ensures not_shorter { IfErr result (λ why. why ≢ Shorter) }

    // If memory ran out, nothing was written.
    ensures memory { IsErrOf result Memory → D.seen device.new ≡ D.seen device.old }
{
    device.write_at(at, bytes)?;
    device.sync()
}

/// Cuts the file, and puts it on the disk.
pub(crate) fn cut_through<D: Device>(device: &mut D, len: usize) -> Result<(), DeviceError>
    requires within { len ≤ length (D.seen device.old) }
    requires held { D.is_held device.old ≡ true }
    requires durable { Only (D.seen device.old) (D.may_leave device.old) }

    ensures cut { OnOk result (D.seen device.new ≡ take len (D.seen device.old)) }
    ensures durable { OnOk result (Only (D.seen device.new) (D.may_leave device.new)) }
    ensures short { Cut len (D.seen device.old) (D.seen device.new) }

    // A crash at any moment leaves some length between.
    ensures any_moment { LeavesOnly D.Device device.old device.new (Cut len (D.seen device.old)) }
    ensures held { D.is_held device.new ≡ true }
    ensures found { D.found device.new ≡ D.found device.old }
    ensures cause { HasCause (D.faults device.old) (D.faults device.new) result }
    ensures not_shorter { IfErr result (λ why. why ≢ Shorter) }
{
    device.cut(len)?;
    device.sync()
}
