//! A file in memory. Each call is done at once, so a crash leaves what is there. It keeps each past content.
ghost use Rattle.std.specs.Prelude.{◌≡◌, ◌⊎◌, ◌≤◌, length, drop, IfOk, OnOk, OnErr};
ghost use Rattle.std.proofs.Common.{inl};
ghost use Rattle.kept_log.specs.Device.{Holds};
ghost use Rattle.kept_log.specs.Past.{HadBeen, only_bytes, newest_first, KeepsBytes};

use crate::{Device, DeviceError};
use std::alloc::{AllocError, Global};

#[derive(Drop)]
pub struct Memory {
    alloc: Global,
    bytes: Vec<u8>,
    past: Vec<Vec<u8>>,
    found: Vec<Vec<u8>>,
    held: bool,
}

impl Memory {
    ghost use Rattle.kept_log.specs.Memory.{memory_bytes, memory_past, memory_found};

    /// A file with these bytes, all on the disk.
    pub fn new(alloc: Global, bytes: Vec<u8>) -> Self
        ensures { memory_bytes result ≡ bytes.items }
    {
        Memory {
            alloc,
            bytes,
            past: Vec::new(alloc),
            found: Vec::new(alloc),
            held: false,
        }
    }

    pub fn bytes(&self) -> &[u8]
        ensures { result.now ≡ memory_bytes self.now }
    {
        &self.bytes
    }

    /// The contents that it had before, the oldest first.
    pub fn past(&self) -> &[Vec<u8>]
        ensures { result.now ≡ memory_past self.now }
    {
        &self.past
    }

    /// What it held each time that its lock was taken, the oldest first.
    pub fn found(&self) -> &[Vec<u8>]
        ensures { result.now ≡ memory_found self.now }
    {
        &self.found
    }
}

// Replaces the bytes, and keeps the old ones.
fn replace(
    alloc: Global,
    bytes: &mut Vec<u8>,
    past: &mut Vec<Vec<u8>>,
    next: Vec<u8>,
) -> Result<(), AllocError>
    ensures ok { OnOk result (bytes.new.items ≡ next.items) }
    ensures err { OnErr result (bytes.new.items ≡ bytes.old.items) }
    ensures past { OnOk result (KeepsBytes bytes.old.items past.old.items past.new.items) }
    ensures past_err { OnErr result (past.new.items ≡ past.old.items) }
{
    past.push(bytes.to_vec(alloc)?)?;
    *bytes = next;
    Ok(())
}

// Bytes of a file with these in it at a place.
fn written(alloc: Global, old: &[u8], at: usize, bytes: &[u8]) -> Result<Vec<u8>, AllocError>
    requires { at ≤ length old.now }
    ensures { IfOk result (λ next. Holds old.now at bytes.now next.items) }
{
    let mut next = old[..at].to_vec(alloc)?;
    next.extend_from_slice(bytes)?;
    if bytes.len() < old.len() - at {
        next.extend_from_slice(&old[at + bytes.len()..])?;
    }
    Ok(next)
}

impl Device for Memory {
    ghost seen = { λ m. m.bytes.items };

    ghost may_leave = { λ m c. c ≡ m.bytes.items };

    ghost moment = { λ m. length m.past.items };

    ghost left_since = { λ m t c. (c ≡ m.bytes.items) ⊎ HadBeen (drop t m.past.items) c };

    ghost faults = { λ m. 0 };

    ghost is_held = { λ m. m.held };

    ghost found = { λ m. newest_first m.found.items };

    ghost counts_now = { λ m t c le now. inl now };

    ghost only_now = { λ m c left. only_bytes m.past.items m.bytes.items c left };

    fn take_over(&mut self, alloc: Global, gate: usize) -> Result<Vec<u8>, DeviceError> {
        let bytes = self.bytes[gate..].to_vec(alloc)?;
        self.found.push(self.bytes.to_vec(self.alloc)?)?;
        self.held = true;
        Ok(bytes)
    }

    fn release(&mut self, _gate: usize) -> Result<(), DeviceError> {
        self.held = false;
        Ok(())
    }

    fn write_at(&mut self, at: usize, bytes: &[u8]) -> Result<(), DeviceError> {
        let next = written(self.alloc, &self.bytes, at, bytes)?;
        Ok(replace(self.alloc, &mut self.bytes, &mut self.past, next)?)
    }

    fn cut(&mut self, len: usize) -> Result<(), DeviceError> {
        let next = self.bytes[..len].to_vec(self.alloc)?;
        Ok(replace(self.alloc, &mut self.bytes, &mut self.past, next)?)
    }

    fn sync(&mut self) -> Result<(), DeviceError> {
        Ok(())
    }
}
