//! A writer that keeps what is written in memory.
ghost use Rattle.std.specs.Prelude.{◌≡◌, false};

use client_scripts::{Failed, Sink};
use std::alloc::Global;

/// The bytes that were written, and whether memory ran out for more.
#[derive(Drop)]
pub(crate) struct Kept {
    pub(crate) bytes: Vec<u8>,
    failed: bool,
}

impl Kept {
    /// A writer to which nothing was written yet.
    pub(crate) fn new(alloc: Global) -> Kept
        ensures { result.failed ≡ false }
    {
        Kept {
            bytes: Vec::new(alloc),
            failed: false,
        }
    }
}

impl Sink for Kept {
    ghost use Rattle.std.specs.Prelude.{None};

    ghost taken = { λ s. None };

    ghost has_failed = { λ s. s.failed };

    fn write(&mut self, bytes: &[u8]) -> Result<usize, Failed> {
        match self.bytes.extend_from_slice(bytes) {
            Ok(()) => Ok(bytes.len()),
            Err(_) => {
                self.failed = true;
                Err(Failed)
            }
        }
    }
}
