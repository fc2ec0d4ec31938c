//! Turns with a log that several processes share: each takes the lock, sees what others added, adds its own, and lets the lock go.
ghost use Rattle.std.specs.Prelude.{◌≡◌, ◌≢◌, ◌+◌, ◌<◌, ◌++◌, [], ◌∷◌, None, true, IfOk, IfErr, OnOk, IsErrOf};
ghost use Rattle.kept_log.specs.Moments.{LeavesOnly};
ghost use Rattle.kept_log.specs.Lines.{kept_lines};
ghost use Rattle.kept_log.specs.Log.{IsAtRest, IsLeft, HasTurn, IsAsFound, head_of, lines_of, BeginsWithLog, MayHaveBlock, HasGained, HasSameLines, IsTooMuch, IsDiskFailure};
ghost use Rattle.kept_log.specs.declared.device.DeviceError.TheVariants.{Memory, Failed, Shorter};
ghost use Rattle.kept_log.specs.declared.turns.EnterError.TheVariants.{Unread, Unwritten};

use crate::{AppendError, Block, Device, DeviceError, KeptLog};
use std::alloc::Global;

/// Why no turn was begun. The log may be opened anew.
#[derive(Clone, Copy, Debug, PartialEq, Eq)]
pub enum EnterError {
    /// The lock was not taken, or the file was not read.
    Unread(DeviceError),
    /// What others wrote was not put on the disk, or what a torn write left was not taken away.
    Unwritten(DeviceError),
}

impl<D: Device> KeptLog<D> {
    /// Begins a turn: waits for the file's lock, and takes in what others added, which is on the disk then. Returns the
    /// text after the lines that were known; the lines of it that count are the further ones.
    pub fn enter(&mut self, alloc: Global) -> Result<Vec<u8>, EnterError>
        requires left { IsLeft D.Device self.old }

        ensures held { OnOk result (D.is_held self.new.device ≡ true) }
        ensures at_rest { OnOk result (IsAtRest D.Device self.new) }
        ensures head { OnOk result (head_of D.Device self.new ≡ head_of D.Device self.old) }
        ensures lines { IfOk result (λ text. HasGained D.Device self.old self.new (kept_lines text.items)) }

        // What others wrote is not lost: the lines are those that stood in the file when the lock was taken, also at an error.
        ensures turn { OnOk result (HasTurn D.Device self.old self.new []) }
        ensures as_found { IsAsFound D.Device self.old self.new }

        // A turn is begun only if no call of the file failed: a sync that failed is not tried again.
        ensures sound { OnOk result (D.faults self.new.device ≡ D.faults self.old.device) }

        // `Shorter` is answered only if the file ended before the gate that is known.
        ensures shorter { IsErrOf result (Unread Shorter) → D.found self.new.device ≡ None ∷ D.found self.old.device }
        ensures not_shorter { IfErr result (λ why. why ≢ Unwritten Shorter) }

        // `Failed` is answered only if a call of the file failed.
        ensures unread { IsErrOf result (Unread Failed) → D.faults self.old.device < D.faults self.new.device }
        ensures unwritten { IsErrOf result (Unwritten Failed) → D.faults self.old.device < D.faults self.new.device }

        // A crash at any moment leaves a file whose lines begin with those that were known.
        ensures any_moment { LeavesOnly D.Device self.old.device self.new.device (BeginsWithLog D.Device self.old) }
    {
        let text = match self.take_over(alloc) {
            Ok(text) => text,
            Err(why) => return Err(EnterError::Unread(why)),
        };
        match self.catch_up(&text) {
            Ok(_) => Ok(text),
            Err(why) => Err(EnterError::Unwritten(why)),
        }
    }

    /// Adds the lines of a block, all or none, where it has any. At `Ok` they are on the disk.
    pub fn add(&mut self, block: Block) -> Result<(), AppendError>
        requires held { D.is_held self.old.device ≡ true }
        requires at_rest { IsAtRest D.Device self.old }

        ensures held { D.is_held self.new.device ≡ true }
        ensures found { D.found self.new.device ≡ D.found self.old.device }
        ensures start { self.new.start ≡ self.old.start }
        ensures at_rest { OnOk result (IsAtRest D.Device self.new) }
        ensures head { OnOk result (head_of D.Device self.new ≡ head_of D.Device self.old) }
        ensures lines { OnOk result (lines_of D.Device self.new ≡ lines_of D.Device self.old ++ block) }

        // A crash at any moment, and a failed call, leave the lines from before, with those of the block or without.
        ensures view { MayHaveBlock D.Device self.old block (D.seen self.new.device) }
        ensures any_moment { LeavesOnly D.Device self.old.device self.new.device (MayHaveBlock D.Device self.old block) }
        // It doesn't give up by itself, and then nothing is changed.
        ensures memory { IsErrOf result AppendError.OutOfMemory → self.new ≡ self.old }
        ensures failed { IsDiskFailure result → D.faults self.old.device < D.faults self.new.device }
        ensures not_shorter { IfErr result (λ why. why ≢ AppendError.Device Shorter) }

        // If the device was refused a growth, the lines are those from before.
        ensures refused { IsErrOf result (AppendError.Device Memory) → HasSameLines D.Device self.old self.new }
        ensures sound { OnOk result (D.faults self.new.device ≡ D.faults self.old.device) }
        ensures full { IsErrOf result AppendError.Full → IsTooMuch self.old block × (self.new ≡ self.old) }
    {
        if block.is_empty() {
            return Ok(());
        }
        self.append(block)
    }
}
