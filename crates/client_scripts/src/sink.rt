//! Writers whose bytes and failures a contract can name.
ghost use Rattle.std.specs.Prelude.{◌≡◌, ◌≢◌, ◌<◌, ◌≤◌, ◌||◌, length, is_err, false, IfOk, IfErr, OnOk, OnErr};
ghost use Rattle.std.specs.Io.KnownBytes.{Appends, Keeps, WriteAppends};
ghost use Rattle.std.specs.IoError.{error_kind};
ghost use Rattle.client_scripts.specs.Replay.{AppendsFewer};

use crate::source::{Failed, MAX_INTERRUPTS};
use std::io;
use std::io::ErrorKind;
use std::marker::Model;

/// A writer. `taken` is the bytes that it has taken, if its type shows them. `has_failed` is whether a call has
/// failed.
pub trait Sink {
    ghost use Rattle.std.specs.Prelude.{Bool, List, ℕ, Option};

    ghost taken: { Self → Option (List ℕ) };

    ghost has_failed: { Self → Bool };

    /// Takes at least one byte from the front of `bytes` and returns how many it took. If the call fails, it took
    /// none.
    fn write(&mut self, bytes: &[u8]) -> Result<usize, Failed>
        requires { 0 < length bytes.now }
        ensures bound { IfOk result (λ n. (0 < n) × (n ≤ length bytes.now)) }
        ensures bytes { WriteAppends (taken self.old) (taken self.new) result bytes.now }
        ensures failed { has_failed self.new ≡ (has_failed self.old || is_err result) };
}

/// Writes once, and tries again if a signal interrupted the write, at most 1,000,000 times. An interrupted write took
/// nothing.
fn write_retrying<W: io::Write>(writer: &mut W, bytes: &[u8]) -> io::Result<usize>
    ensures bound { IfOk result (λ n. n ≤ length bytes.now) }
    ensures bytes { WriteAppends (W.contents writer.old) (W.contents writer.new) result bytes.now }
    ensures retried { IfErr result (λ e. error_kind e ≢ ErrorKind.Interrupted) }
{
    'tries: for _ in 0..MAX_INTERRUPTS {
        match writer.write(bytes) {
            Ok(count) => return Ok(count),
            Err(error) => {
                if error.kind() != ErrorKind::Interrupted {
                    return Err(error);
                }
            }
        }
    }
    Err(io::Error::from(ErrorKind::Other))
}

/// Makes a `Sink` from a writer of std. A write that takes nothing counts as a failure.
#[derive(Drop)]
pub struct FromWrite<W: io::Write> {
    writer: W,
    failed: bool,
}

impl<W: io::Write> Model for FromWrite<W> {
    ghost use Rattle.std.specs.Prelude.{Bool, List, ℕ, Option};

    ghost Value = { Option (List ℕ) × Bool };

    ghost view = { λ s. (W.contents s.writer, s.failed) };
}

impl<W: io::Write> FromWrite<W> {
    /// Returns a sink that has not failed.
    pub fn new(writer: W) -> FromWrite<W>
        ensures { result ≡ (W.contents writer, false) }
    {
        FromWrite {
            writer,
            failed: false,
        }
    }

    /// Flushes the writer. The bytes that the sink has taken stay the same.
    pub fn flush(&mut self) -> Result<(), Failed>
        ensures bytes { Keeps self.old.0 self.new.0 }
        ensures failed { self.new.1 ≡ (self.old.1 || is_err result) }
    {
        match self.writer.flush() {
            Ok(()) => Ok(()),
            Err(_) => {
                self.failed = true;
                Err(Failed)
            }
        }
    }
}

impl<W: io::Write> Sink for FromWrite<W> {
    ghost taken = { λ s. s.0 };

    ghost has_failed = { λ s. s.1 };

    fn write(&mut self, bytes: &[u8]) -> Result<usize, Failed> {
        match write_retrying(&mut self.writer, bytes) {
            Ok(count) if count > 0 => Ok(count),
            _ => {
                self.failed = true;
                Err(Failed)
            }
        }
    }
}

/// Writes all bytes. If the sink fails, it has taken some of the first bytes, but not all.
pub fn write_all<K: Sink>(sink: &mut K, bytes: &[u8]) -> Result<(), Failed>
    requires { K.has_failed sink.old ≡ false }
    ensures ok { OnOk result (Appends (K.taken sink.old) (K.taken sink.new) bytes.now) }
    ensures err { OnErr result (AppendsFewer (K.taken sink.old) (K.taken sink.new) bytes.now) }
    ensures failed { K.has_failed sink.new ≡ is_err result }
{
    let mut at = 0;
    while at < bytes.len() {
        at += sink.write(&bytes[at..])?;
    }
    Ok(())
}
