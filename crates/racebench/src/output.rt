//! Standard output of a session. It knows whether it failed, because a failed write may also be one of the log, and
//! both are fault 95. After answers it has the notes on them written.
ghost use Rattle.std.specs.Prelude.{◌≡◌, false};

use crate::line_notes::LineNotes;
use crate::pieces::before;
use client_scripts::{Failed, Sink};

/// A writer, whether a write to it has failed, and what writes notes on its bytes.
#[derive(Drop)]
pub(crate) struct Output<'a, K: Sink> {
    writer: K,
    failed: bool,
    notes: &'a LineNotes<'a>,
}

impl<'a, K: Sink> Output<'a, K> {
    /// A writer that has not failed.
    pub(crate) fn new(writer: K, notes: &'a LineNotes<'a>) -> Output<'a, K>
        requires { K.has_failed writer ≡ false }
        ensures { result.failed ≡ false }
    {
        Output {
            writer,
            failed: false,
            notes,
        }
    }

    /// Whether a write has failed. If none has at fault 95, the log was not written.
    pub(crate) fn is_broken(&self) -> bool {
        self.failed
    }
}

impl<K: Sink> Sink for Output<'_, K> {
    ghost taken = { λ s. K.taken s.writer };

    ghost has_failed = { λ s. s.failed };

    fn write(&mut self, bytes: &[u8]) -> Result<usize, Failed> {
        let written = self.writer.write(bytes);
        self.failed = self.failed || written.is_err();
        if let Ok(count) = written {
            self.notes.tell(before(bytes, count));
        }
        written
    }
}
