//! A reader and a writer in memory that fail when a test wants them to.
ghost use Rattle.std.specs.Prelude.{◌≡◌, false};

use client_scripts::{Failed, Sink, Source};
use std::alloc::Global;

/// A reader that gives three bytes at a time and fails at one of its reads.
#[derive(Drop)]
pub(crate) struct Broken<'a> {
    pub(crate) left: &'a [u8],
    pub(crate) reads: u32,
    pub(crate) fails_at: u32,
    pub(crate) failed: bool,
}

impl<'a> Source for Broken<'a> {
    ghost use Rattle.std.specs.Prelude.{Some};

    ghost rest = { λ s. Some s.left.now };

    ghost has_failed = { λ s. s.failed };

    fn read(&mut self, buf: &mut [u8]) -> Result<usize, Failed> {
        self.reads = self.reads.saturating_add(1);
        if self.reads == self.fails_at {
            self.failed = true;
            return Err(Failed);
        }
        let count = self.left.len().min(buf.len()).min(3);
        let (front, rest) = self.left.split_at(count);
        buf[..count].copy_from_slice(front);
        self.left = rest;
        Ok(count)
    }
}

/// A writer that takes a number of bytes and then fails.
#[derive(Drop)]
pub(crate) struct Full {
    pub(crate) taken: Vec<u8>,
    pub(crate) room: usize,
    pub(crate) failed: bool,
}

impl Sink for Full {
    ghost use Rattle.std.specs.Prelude.{Some};

    ghost taken = { λ s. Some s.taken.items };

    ghost has_failed = { λ s. s.failed };

    fn write(&mut self, bytes: &[u8]) -> Result<usize, Failed> {
        let count = bytes.len().min(self.room);
        if count == 0 || self.taken.extend_from_slice(&bytes[..count]).is_err() {
            self.failed = true;
            return Err(Failed);
        }
        self.room -= count;
        Ok(count)
    }
}

/// A writer that has room for this many bytes.
pub(crate) fn with_room(alloc: Global, room: usize) -> Full
    ensures { result.failed ≡ false }
{
    Full {
        taken: Vec::new(alloc),
        room,
        failed: false,
    }
}
