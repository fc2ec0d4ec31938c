//! Readers whose bytes and failures a contract can name.
ghost use Rattle.std.specs.Prelude.{◌≡◌, ◌≢◌, ◌<◌, ◌≤◌, ◌||◌, length, is_err, false, true, IfOk, IfErr, IfSome, Ok, Err, vec_len};
ghost use Rattle.std.specs.Io.KnownBytes.{ReadConsumes};
ghost use Rattle.std.specs.IoError.{error_kind};

use crate::fault::{LIMIT, ReadFault};
use std::alloc::Global;
use std::io;
use std::io::ErrorKind;
use std::marker::Model;

/// A read or a write failed.
#[derive(Clone, Copy, PartialEq, Eq, Debug)]
pub struct Failed;

/// A reader. `rest` is the bytes that are left to read, if its type shows them. `has_failed` is whether a call has
/// failed.
pub trait Source {
    ghost use Rattle.std.specs.Prelude.{Bool, List, ℕ, Option};

    ghost rest: { Self → Option (List ℕ) };

    ghost has_failed: { Self → Bool };

    /// Reads at least one byte into the front of `buf` and returns how many it read, or 0 at the end.
    fn read(&mut self, buf: &mut [u8]) -> Result<usize, Failed>
        requires { 0 < length buf.old }
        ensures bound { IfOk result (λ n. n ≤ length buf.new) }
        ensures bytes { ReadConsumes (rest self.old) (rest self.new) result buf.new }
        ensures failed { has_failed self.new ≡ (has_failed self.old || is_err result) };
}

/// How often in a row a signal may interrupt a read or a write before it counts as a failure.
pub(crate) const MAX_INTERRUPTS: u32 = 1_000_000;

/// Reads once, and tries again if a signal interrupted the read, at most 1,000,000 times. An interrupted read took
/// nothing.
fn read_retrying<R: io::Read>(reader: &mut R, buf: &mut [u8]) -> io::Result<usize>
    ensures bound { IfOk result (λ n. n ≤ length buf.new) }
    ensures bytes { ReadConsumes (R.remaining reader.old) (R.remaining reader.new) result buf.new }
    ensures retried { IfErr result (λ e. error_kind e ≢ ErrorKind.Interrupted) }
{
    'tries: for _ in 0..MAX_INTERRUPTS {
        match reader.read(buf) {
            Ok(count) => return Ok(count),
            Err(error) => {
                if error.kind() != ErrorKind::Interrupted {
                    return Err(error);
                }
            }
        }
    }
    Err(io::Error::from(ErrorKind::Other))
}

/// Makes a `Source` from a reader of std.
#[derive(Drop)]
pub struct FromRead<R: io::Read> {
    reader: R,
    failed: bool,
}

impl<R: io::Read> Model for FromRead<R> {
    ghost use Rattle.std.specs.Prelude.{Bool, List, ℕ, Option};

    ghost Value = { Option (List ℕ) × Bool };

    ghost view = { λ s. (R.remaining s.reader, s.failed) };
}

impl<R: io::Read> FromRead<R> {
    /// Returns a source that has not failed.
    pub fn new(reader: R) -> FromRead<R>
        ensures { result ≡ (R.remaining reader, false) }
    {
        FromRead {
            reader,
            failed: false,
        }
    }
}

impl<R: io::Read> Source for FromRead<R> {
    ghost rest = { λ s. s.0 };

    ghost has_failed = { λ s. s.1 };

    fn read(&mut self, buf: &mut [u8]) -> Result<usize, Failed> {
        match read_retrying(&mut self.reader, buf) {
            Ok(count) => Ok(count),
            Err(_) => {
                self.failed = true;
                Err(Failed)
            }
        }
    }
}

/// The most bytes that one read may return.
const PIECE: usize = 65_536;

/// Reads all bytes of the source, using `piece` as the buffer.
fn read_pieces<S: Source>(
    alloc: Global,
    source: &mut S,
    piece: &mut [u8],
) -> Result<Vec<u8>, ReadFault>
    requires not_failed { S.has_failed source.old ≡ false }
    requires room { 0 < length piece.old }
    ensures bytes { IfOk result (λ v. IfSome (S.rest source.old) (λ xs. v.items ≡ xs)) }
    ensures short { IfOk result (λ v. vec_len v ≤ LIMIT) }
    ensures device { result ≡ Err ReadFault.Device → S.has_failed source.new ≡ true }
    ensures failed { S.has_failed source.new ≡ true → result ≡ Err ReadFault.Device }
    ensures long { result ≡ Err ReadFault.TooLong → IfSome (S.rest source.old) (λ xs. LIMIT < length xs) }
{
    let mut out = Vec::new(alloc);
    'reads: loop {
        let count = source.read(piece)?;
        if count == 0 {
            return Ok(out);
        }
        if count > LIMIT - out.len() {
            return Err(ReadFault::TooLong);
        }
        out.extend_from_slice(&piece[..count])?;
    }
}

/// Reads all bytes of the source. Fails with `TooLong` as soon as it has read more than 268,435,456 bytes.
pub fn read_all<S: Source>(alloc: Global, source: &mut S) -> Result<Vec<u8>, ReadFault>
    requires { S.has_failed source.old ≡ false }
    ensures bytes { IfOk result (λ v. IfSome (S.rest source.old) (λ xs. v.items ≡ xs)) }
    ensures short { IfOk result (λ v. vec_len v ≤ LIMIT) }
    ensures device { result ≡ Err ReadFault.Device → S.has_failed source.new ≡ true }
    ensures failed { S.has_failed source.new ≡ true → result ≡ Err ReadFault.Device }
    ensures long { result ≡ Err ReadFault.TooLong → IfSome (S.rest source.old) (λ xs. LIMIT < length xs) }
{
    let mut piece = vec![in alloc; 0u8; PIECE]?;
    read_pieces(alloc, source, &mut piece)
}
