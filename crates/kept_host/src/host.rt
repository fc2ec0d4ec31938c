//! Each method makes its call of the system, and then notes it with its answer.
ghost use Rattle.std.specs.Prelude.{◌≡◌, ◌≢◌, ◌+◌, ◌<◌, ◌^◌, [], ◌∷◌, length, true, false, Err, IfErr, IfOk, IsOk, IsErrOf};
ghost use Rattle.kept_host.specs.History.{seen_of, left_of, left_since, faults_of, held_of, found_of};
ghost use Rattle.kept_host.specs.HistoryLaws.{now_counts, now_only};
ghost use Rattle.kept_log.specs.declared.device.DeviceError.TheVariants.{Failed, Shorter};

use crate::call::{FileCall, Taking};
use crate::record::Record;
use kept_log::{Device, DeviceError};
use std::alloc::Global;
use std::fs::File;
use std::io;
use std::os::unix::fs::FileExt;

/// No file is longer.
const MAX_LENGTH: usize = 1 << 62;

/// An open file of the operating system.
#[derive(Drop)]
pub struct Host {
    file: File,
    log: Record,
}

impl Host {
    ghost use Rattle.kept_host.specs.Shown.{host_events};

    /// Takes an open file, to read and write.
    pub fn new(file: File) -> Host
        ensures { host_events result ≡ [] }
    {
        Host {
            file,
            log: Record::new(),
        }
    }
}

/// The bytes from a place on.
fn read_from(file: &File, alloc: Global, at: usize) -> io::Result<Vec<u8>>
    ensures { IfOk result (λ bytes. at + length bytes.items < 2 ^ 63) }
{
    if at > MAX_LENGTH {
        return Err(io::ErrorKind::FileTooLarge.into());
    }
    let mut bytes = Vec::new(alloc);
    let mut chunk = [0u8; 4096];
    for _ in 0..u64::MAX {
        let got = file.read_at(&mut chunk, (at + bytes.len()) as u64)?;
        if got == 0 {
            return Ok(bytes);
        }
        if got > MAX_LENGTH - at || bytes.len() > MAX_LENGTH - at - got {
            break;
        }
        bytes.extend_from_slice(&chunk[..got])?;
    }
    Err(io::ErrorKind::FileTooLarge.into())
}

/// Why nothing was read.
fn cause_of(error: &io::Error) -> DeviceError
    ensures { result ≢ Shorter }
{
    match error.kind() {
        io::ErrorKind::OutOfMemory => DeviceError::Memory,
        _ => DeviceError::Failed,
    }
}

/// Waits for the lock. Returns how long the file is then.
fn locked_length(file: &File) -> io::Result<u64> {
    file.lock()?;
    Ok(file.metadata()?.len())
}

/// Waits for the lock, and reads. A file that ends before the place was changed by something else.
fn locked(file: &File, alloc: Global, at: usize) -> Result<Vec<u8>, DeviceError>
    ensures fits { IfOk result (λ bytes. at + length bytes.items < 2 ^ 63) }
    ensures shorter { IsErrOf result Shorter → 0 < at }
{
    let len = match locked_length(file) {
        Ok(len) => len,
        Err(error) => return Err(cause_of(&error)),
    };
    if len < at as u64 {
        return Err(DeviceError::Shorter);
    }
    match read_from(file, alloc, at) {
        Ok(bytes) => Ok(bytes),
        Err(error) => Err(cause_of(&error)),
    }
}

/// What is answered of a call that was made.
fn told(is_done: bool) -> Result<(), DeviceError>
    ensures done { is_done ≡ true → IsOk result }
    ensures failed { is_done ≡ false → result ≡ Err Failed }
    ensures only { IfErr result (λ why. why ≡ Failed) }
{
    if is_done {
        return Ok(());
    }
    Err(DeviceError::Failed)
}

impl Device for Host {
    ghost seen = { λ h. seen_of h.log.events };

    ghost may_leave = { λ h. left_of h.log.events };

    ghost moment = { λ h. length h.log.events };

    ghost left_since = { λ h. left_since h.log.events };

    ghost faults = { λ h. faults_of h.log.events };

    ghost is_held = { λ h. held_of h.log.events };

    ghost found = { λ h. found_of h.log.events };

    ghost counts_now = { λ h t c le now. now_counts h.log.events t c now };

    ghost only_now = { λ h c left. now_only h.log.events c left };

    fn take_over(&mut self, alloc: Global, gate: usize) -> Result<Vec<u8>, DeviceError> {
        match locked(&self.file, alloc, gate) {
            Ok(bytes) => {
                let (from, how) = (gate, Taking::Read);
                self.log.note(&FileCall::Taken { from, how }, &bytes);
                Ok(bytes)
            }
            Err(DeviceError::Shorter) => {
                let (from, how) = (gate, Taking::Shorter);
                self.log.note(&FileCall::Taken { from, how }, &[]);
                Err(DeviceError::Shorter)
            }
            Err(why) => {
                let (from, how) = (gate, Taking::Failed);
                self.log.note(&FileCall::Taken { from, how }, &[]);
                Err(why)
            }
        }
    }

    fn release(&mut self, gate: usize) -> Result<(), DeviceError> {
        let is_done = self.file.unlock().is_ok();
        let from = gate;
        self.log.note(&FileCall::Released { from, is_done }, &[]);
        told(is_done)
    }

    fn write_at(&mut self, at: usize, bytes: &[u8]) -> Result<(), DeviceError> {
        let is_done = self.file.write_all_at(bytes, at as u64).is_ok();
        self.log.note(&FileCall::Written { at, is_done }, bytes);
        told(is_done)
    }

    fn cut(&mut self, len: usize) -> Result<(), DeviceError> {
        let is_done = self.file.set_len(len as u64).is_ok();
        self.log.note(&FileCall::Cut { len, is_done }, &[]);
        told(is_done)
    }

    fn sync(&mut self) -> Result<(), DeviceError> {
        let is_done = self.file.sync_all().is_ok();
        self.log.note(&FileCall::Synced { is_done }, &[]);
        told(is_done)
    }
}
