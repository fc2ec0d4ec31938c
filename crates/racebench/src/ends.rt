//! The first and the last bytes of a text that is read in pieces. They say whether a recording is whole.

use crate::pieces::{before, from};
use calls::triage::{Wholeness, wholeness_of};
use rapid_text::OutOfMemory;
use std::alloc::Global;

/// How many of the first bytes are kept: more than the first line of a recording has.
const FIRST: usize = 64;

/// How many of the last bytes are kept: more than a line may have.
const LAST: usize = 8_192;

/// The first and the last bytes so far.
#[derive(Drop)]
pub(crate) struct Ends {
    first: Vec<u8>,
    last: Vec<u8>,
}

impl Ends {
    /// No bytes.
    pub(crate) fn new(alloc: Global) -> Ends {
        Ends {
            first: Vec::new(alloc),
            last: Vec::new(alloc),
        }
    }

    /// Adds these bytes.
    pub(crate) fn note(&mut self, alloc: Global, bytes: &[u8]) -> Result<(), OutOfMemory> {
        let room = FIRST.saturating_sub(self.first.len());
        self.first.extend_from_slice(before(bytes, room))?;
        let more = from(bytes, bytes.len().saturating_sub(LAST));
        let left = LAST.saturating_sub(more.len());
        let start = self.last.len().saturating_sub(left);
        let mut last = Vec::from_slice(alloc, from(self.last.as_slice(), start))?;
        last.extend_from_slice(more)?;
        self.last = last;
        Ok(())
    }

    /// What the text says of itself. Its end counts as far as it was read.
    pub(crate) fn wholeness(&self, alloc: Global) -> Result<Wholeness, OutOfMemory> {
        let mut text = Vec::from_slice(alloc, self.first.as_slice())?;
        text.push(b'\n')?;
        text.extend_from_slice(self.last.as_slice())?;
        wholeness_of(alloc, text.as_slice())
    }
}
