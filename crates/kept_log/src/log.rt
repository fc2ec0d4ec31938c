//! The log: opened, and grown by blocks.
ghost use Rattle.std.specs.Prelude.{◌≡◌, ◌≢◌, ◌≤◌, ◌<◌, ◌+◌, ◌++◌, [], ◌∷◌, All, List, ℕ, length, take, drop, IfOk, OnOk, IfErr, IsErr, IsErrOf, ◌^◌, None, true, false};
ghost use Rattle.kept_log.specs.Device.{Only, HasCause};
ghost use Rattle.kept_log.specs.declared.device.DeviceError.{DeviceError};
ghost use Rattle.kept_log.specs.declared.device.DeviceError.TheVariants.{Memory, Failed, Shorter};
ghost use Rattle.kept_log.specs.Lines.{IsLine, lines_text};
ghost use Rattle.kept_log.specs.Log.{at_rest, head_of, lines_of, IsAtRest, IsKnown, IsLeft, lines_after, HasHead, LacksHead, HasNoLine, IsTextOf, rest_of, StandsIfHeaded, LeavesAfter, StandsForLog, BeginsWithLog, MayHaveBlock, lines_beyond, OthersLeave, IsKept, IsTooMuch, IsFoundOnce, IsDiskFailure, HasSameLines};
ghost use Rattle.kept_log.specs.Moments.{LeavesOnly, LeavesAlso};

use crate::settling::settle;
use crate::steps::write_through;
use crate::{Block, Device, DeviceError};
use std::alloc::Global;

/// No file is longer.
const MAX_LENGTH: usize = 1 << 60;

/// Why no block was added. Only `Device` may have changed the file.
#[derive(Clone, Copy, Debug, PartialEq, Eq)]
pub enum AppendError {
    /// A growth was refused.
    OutOfMemory,
    /// The file would get too long.
    Full,
    /// A call of the file failed. Nothing more can be added until the log is caught up.
    Device(DeviceError),
}

impl From<DeviceError> for AppendError {
    ghost use Rattle.std.specs.Prelude.{◌≡◌};
    ghost use Rattle.kept_log.specs.declared.log.AppendError.TheVariants.{Device};

    ghost from_gives = { λ d e. e ≡ Device d };

    fn from(why: DeviceError) -> Self {
        AppendError::Device(why)
    }
}

#[derive(Drop)]
pub struct KeptLog<D: Device> {
    pub device: D,
    pub start: usize,
    pub end: usize,
}

/// Makes an empty file a log with this head and no lines. Its lock is held.
pub fn create<D: Device>(alloc: Global, device: &mut D, head: &[u8]) -> Result<(), DeviceError>
    requires held { D.is_held device.old ≡ true }
    requires empty { D.seen device.old ≡ [] }

    ensures made { OnOk result (D.seen device.new ≡ at_rest head.now []) }
    ensures durable { OnOk result (Only (D.seen device.new) (D.may_leave device.new)) }

    // A crash at any moment leaves what it might have left before, or a file of no lines, no matter what its head is.
    ensures any_moment { LeavesAlso D.Device device.old device.new (HasNoLine head.now) }
    ensures held { D.is_held device.new ≡ true }
    ensures found { D.found device.new ≡ D.found device.old }
    ensures cause { HasCause (D.faults device.old) (D.faults device.new) result }
    ensures not_shorter { IfErr result (λ why. why ≢ Shorter) }
{
    let mut text = head.to_vec(alloc)?;
    text.push(b'!')?;
    device.sync()?;
    write_through(device, 0, &text)
}

/// Why a file was not opened.
#[derive(Clone, Copy, Debug, PartialEq, Eq)]
pub enum OpenError {
    /// The file begins otherwise. It is left as it was.
    Stranger,
    /// A call of the file failed.
    Device(DeviceError),
}

impl From<DeviceError> for OpenError {
    ghost use Rattle.std.specs.Prelude.{◌≡◌};
    ghost use Rattle.kept_log.specs.declared.log.OpenError.TheVariants.{Device};

    ghost from_gives = { λ d e. e ≡ Device d };

    fn from(why: DeviceError) -> Self {
        OpenError::Device(why)
    }
}

/// The length of the text of the lines after a head, in a file that begins with the head.
fn find<D: Device>(device: &mut D, head: &[u8], bytes: &[u8]) -> Result<usize, OpenError>
    requires held { D.is_held device.old ≡ true }
    requires bytes { bytes.now ≡ D.seen device.old }
    requires fits { length (D.seen device.old) < 2 ^ 63 }

    ensures held { D.is_held device.new ≡ true }
    ensures found { D.found device.new ≡ D.found device.old }
    ensures begins { OnOk result (HasHead head.now (D.seen device.old)) }
    ensures sound { OnOk result (D.faults device.new ≡ D.faults device.old) }
    ensures failed { IsErrOf result (OpenError.Device Failed) → D.faults device.old < D.faults device.new }
    ensures not_shorter { IfErr result (λ why. why ≢ OpenError.Device Shorter) }
    ensures within { IfOk result (λ len. length head.now + len ≤ length (D.seen device.old)) }
    ensures lines { IfOk result (λ len. IsTextOf head.now bytes.now len (lines_after head.now (D.seen device.old))) }
    ensures len { IfOk result (λ len. len ≡ length (lines_text (lines_after head.now (D.seen device.old)))) }
    ensures are_lines { OnOk result (All IsLine (lines_after head.now (D.seen device.old))) }
    ensures at_rest { OnOk result (D.seen device.new ≡ rest_of head.now (D.seen device.old)) }
    ensures durable { OnOk result (Only (D.seen device.new) (D.may_leave device.new)) }

    ensures refused { IsErrOf result OpenError.Stranger → LacksHead head.now (D.seen device.old) }
    ensures stranger { LacksHead head.now (D.seen device.old) → device.new ≡ device.old }
    ensures view { StandsIfHeaded head.now (D.seen device.old) (D.seen device.new) }

    // A crash at any moment leaves what it might have left before, or the lines that are seen.
    ensures any_moment { LeavesAfter D.Device head.now device.old device.new }
{
    if !bytes.starts_with(head) {
        return Err(OpenError::Stranger);
    }
    // What another process wrote, and was killed, may be on no disk yet.
    match device.sync() {
        Ok(()) => {}
        Err(why) => return Err(OpenError::Device(why)),
    }
    match settle(device, head.len(), &bytes[head.len()..]) {
        Ok(len) => Ok(len),
        Err(why) => Err(OpenError::Device(why)),
    }
}

/// The text of a block with a closed gate after it, for a log that ends at this place.
fn closed_text(end: usize, block: Block) -> Result<Vec<u8>, AppendError>
    ensures text { IfOk result (λ text. text.items ≡ lines_text block ++ 33 ∷ []) }
    ensures are_lines { All IsLine block }
    ensures fits { OnOk result (end + length (lines_text block) ≤ 2 ^ 60) }
    ensures full { IsErrOf result AppendError.Full → 2 ^ 60 < end + length (lines_text block) }
    ensures not_device { (why : DeviceError) → ¬ IsErrOf result (AppendError.Device why) }
{
    let mut text = block.into_text();
    if text.len() > MAX_LENGTH || end > MAX_LENGTH - text.len() {
        return Err(AppendError::Full);
    }
    let Ok(()) = text.push(b'!') else {
        return Err(AppendError::OutOfMemory);
    };
    Ok(text)
}

impl<D: Device> KeptLog<D> {
    /// Opens a file that begins with a head. Its lock is held, and `bytes` is all of it. Returns also the length of the
    /// text of the lines, which comes after the head.
    pub fn open(
        mut device: D,
        head: &[u8],
        bytes: &[u8],
    ) -> Result<(KeptLog<D>, usize), (OpenError, D)>
        requires held { D.is_held device ≡ true }
        requires bytes { bytes.now ≡ D.seen device }
        requires fits { length (D.seen device) < 2 ^ 63 }

        ensures held { IfOk result (λ opened. D.is_held opened.0.device ≡ true) }
        ensures held_err { IfErr result (λ e. D.is_held e.1 ≡ true) }
        ensures found { IfOk result (λ opened. D.found opened.0.device ≡ D.found device) }
        ensures found_err { IfErr result (λ e. D.found e.1 ≡ D.found device) }
        ensures at_rest { IfOk result (λ opened. IsAtRest D.Device opened.0) }
        ensures head { IfOk result (λ opened. head_of D.Device opened.0 ≡ head.now) }
        ensures lines { IfOk result (λ r. lines_of D.Device r.0 ≡ lines_after head.now (D.seen device)) }
        ensures text { IfOk result (λ r. IsTextOf head.now bytes.now r.1 (lines_of D.Device r.0)) }
        ensures begins { OnOk result (HasHead head.now (D.seen device)) }
        ensures sound { IfOk result (λ opened. D.faults opened.0.device ≡ D.faults device) }
        ensures failed { IfErr result (λ e. e.0 ≡ OpenError.Device Failed → D.faults device < D.faults e.1) }
        ensures not_shorter { IfErr result (λ e. e.0 ≢ OpenError.Device Shorter) }

        // A file that begins otherwise is refused, and is left as it was.
        ensures refused { IfErr result (λ e. e.0 ≡ OpenError.Stranger → LacksHead head.now (D.seen device)) }
        ensures stranger { LacksHead head.now (D.seen device) → IfErr result (λ e. e.1 ≡ device) × IsErr result }

        // A file that begins with the head has the same lines, also where a call failed.
        ensures view { IfErr result (λ e. StandsIfHeaded head.now (D.seen device) (D.seen e.1)) }

        // A crash at any moment leaves what it might have left before, or the lines that are seen.
        ensures any_moment { IfOk result (λ r. LeavesAfter D.Device head.now device r.0.device) }
        ensures any_moment_err { IfErr result (λ e. LeavesAfter D.Device head.now device e.1) }
    {
        match find(&mut device, head, bytes) {
            Ok(len) => {
                let start = head.len();
                let end = start + len;
                Ok((KeptLog { device, start, end }, len))
            }
            Err(why) => Err((why, device)),
        }
    }

    /// Waits for the file's lock, and reads the file from the gate on that this log knows.
    pub fn take_over(&mut self, alloc: Global) -> Result<Vec<u8>, DeviceError>
        requires known { IsKnown D.Device self.old }

        ensures held { OnOk result (D.is_held self.new.device ≡ true) }
        ensures found { OnOk result (IsFoundOnce D.Device self.old.device self.new.device) }
        ensures none_found { IfErr result (λ why. why ≢ Shorter → D.found self.new.device ≡ D.found self.old.device) }
        ensures shorter { IsErrOf result Shorter → D.found self.new.device ≡ None ∷ D.found self.old.device }
        ensures known { IsKnown D.Device self.new }
        ensures front { take self.old.end (D.seen self.new.device) ≡ take self.old.end (D.seen self.old.device) }
        ensures places { (self.new.start ≡ self.old.start) × (self.new.end ≡ self.old.end) }
        ensures bytes { IfOk result (λ bytes. drop self.new.end (D.seen self.new.device) ≡ bytes.items) }
        ensures fits { OnOk result (length (D.seen self.new.device) < 2 ^ 63) }
        ensures any_moment { LeavesAlso D.Device self.old.device self.new.device (OthersLeave D.Device self.old) }
        ensures cause { HasCause (D.faults self.old.device) (D.faults self.new.device) result }
    {
        self.device.take_over(alloc, self.end)
    }

    /// Lets the file's lock go. From then on, no matter what others do, each crash leaves a file whose lines begin with
    /// those of this log.
    pub fn release(&mut self) -> Result<(), DeviceError>
        requires at_rest { IsAtRest D.Device self.old }

        ensures free { OnOk result (D.is_held self.new.device ≡ false) }
        ensures found { D.found self.new.device ≡ D.found self.old.device }
        ensures known { IsKnown D.Device self.new }
        ensures left { IsLeft D.Device self.new }
        ensures same { IsKept D.Device self.old self.new }
        ensures kept { (c : List ℕ) → D.may_leave self.new.device c → BeginsWithLog D.Device self.old c }
        ensures any_moment { LeavesOnly D.Device self.old.device self.new.device (BeginsWithLog D.Device self.old) }
        ensures cause { HasCause (D.faults self.old.device) (D.faults self.new.device) result }
        ensures only { IfErr result (λ why. why ≡ Failed) }
    {
        self.device.release(self.end)
    }

    /// Takes in what others added. The file's lock is held, and `text` is the whole file from the gate on that this log
    /// knows. Returns the length of the text of the further lines.
    pub fn catch_up(&mut self, text: &[u8]) -> Result<usize, DeviceError>
        requires held { D.is_held self.old.device ≡ true }
        requires known { IsKnown D.Device self.old }
        requires text { drop self.old.end (D.seen self.old.device) ≡ text.now }
        requires fits { length (D.seen self.old.device) < 2 ^ 63 }

        ensures held { D.is_held self.new.device ≡ true }
        ensures found { D.found self.new.device ≡ D.found self.old.device }
        ensures start { self.new.start ≡ self.old.start }
        ensures text { IfOk result (λ len. take len text.now ≡ lines_text (lines_beyond D.Device self.old)) }
        ensures at_rest { OnOk result (IsAtRest D.Device self.new) }
        ensures lines { OnOk result (lines_of D.Device self.new ≡ lines_of D.Device self.old) }
        ensures head { OnOk result (head_of D.Device self.new ≡ head_of D.Device self.old) }

        // A crash at any moment leaves what it might have left before, or the lines that are seen. A failed call
        // changes no line.
        ensures view { StandsForLog D.Device self.old (D.seen self.new.device) }
        ensures any_moment { LeavesAlso D.Device self.old.device self.new.device (StandsForLog D.Device self.old) }
        ensures cause { HasCause (D.faults self.old.device) (D.faults self.new.device) result }
        ensures not_shorter { IfErr result (λ why. why ≢ Shorter) }
    {
        // What another process wrote, and was killed, may be on no disk yet.
        self.device.sync()?;
        let len = settle(&mut self.device, self.end, text)?;
        self.end += len;
        Ok(len)
    }

    /// Adds the lines of a block, all or none. At `Ok` they are on the disk: from then on each crash leaves a file
    /// that has them. At `Failed` nothing more can be added until the log was caught up.
    pub fn append(&mut self, block: Block) -> Result<(), AppendError>
        requires held { D.is_held self.old.device ≡ true }
        requires at_rest { IsAtRest D.Device self.old }
        requires some { block ≢ [] }

        ensures held { D.is_held self.new.device ≡ true }
        ensures found { D.found self.new.device ≡ D.found self.old.device }
        ensures start { self.new.start ≡ self.old.start }
        ensures at_rest { OnOk result (IsAtRest D.Device self.new) }
        ensures lines { OnOk result (lines_of D.Device self.new ≡ lines_of D.Device self.old ++ block) }
        ensures head { OnOk result (head_of D.Device self.new ≡ head_of D.Device self.old) }

        // A crash at any moment, and a failed call, leave the lines from before, with those of the block or without.
        ensures view { MayHaveBlock D.Device self.old block (D.seen self.new.device) }
        ensures known { IsKnown D.Device self.new }
        ensures any_moment { LeavesOnly D.Device self.old.device self.new.device (MayHaveBlock D.Device self.old block) }

        // It doesn't give up by itself, and then nothing is changed.
        ensures memory { IsErrOf result AppendError.OutOfMemory → self.new ≡ self.old }
        ensures failed { IsDiskFailure result → D.faults self.old.device < D.faults self.new.device }
        ensures not_shorter { IfErr result (λ why. why ≢ AppendError.Device Shorter) }

        // If the device was refused a growth, the lines are those from before.
        ensures refused { IsErrOf result (AppendError.Device Memory) → HasSameLines D.Device self.old self.new }
        ensures sound { OnOk result (D.faults self.new.device ≡ D.faults self.old.device) }
        ensures full { IsErrOf result AppendError.Full → IsTooMuch self.old block × (self.new ≡ self.old) }
    {
        let text = match closed_text(self.end, block) {
            Ok(text) => text,
            Err(why) => return Err(why),
        };
        match write_through(&mut self.device, self.end + 1, &text[1..]) {
            Ok(()) => {}
            Err(why) => return Err(AppendError::Device(why)),
        }
        match write_through(&mut self.device, self.end, b" ") {
            Ok(()) => {}
            Err(why) => return Err(AppendError::Device(why)),
        }
        self.end += text.len() - 1;
        Ok(())
    }
}
