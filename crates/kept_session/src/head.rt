//! The head of a log's file: its first line, which names the format and the trace.
ghost use Rattle.std.specs.Prelude.{◌≡◌, IfOk, IfNone, IfSome};
ghost use Rattle.std.specs.List.{list_all};
ghost use Rattle.kept_session.specs.Heads.{head_text, is_digest_digit, IsHeaded, IsHeadless};

use event_index::Indexed;
use memchr::memchr;
use rapid_text::{OutOfMemory, print};
use report::{Piece, append_pieces};
use sha2::{Digest, Sha256};
use std::alloc::Global;

/// The text before the digest.
const FORMAT: &[u8] = b"racebench log 1 ";

/// How many hexadecimal digits a digest has.
const DIGITS: usize = 64;

/// Returns the head of the file of a log on this trace. It is a line with the format's name and the SHA-256 digest of
/// the trace's canonical text.
pub fn head_of(alloc: Global, indexed: &Indexed) -> Result<Vec<u8>, OutOfMemory>
    ensures { IfOk result (λ head. head.items ≡ head_text indexed.now) }
{
    let text = print(alloc, indexed.trace().raw())?;
    let digits = hex::encode(alloc, Sha256::digest(text.items()))?;
    let mut head = Vec::new(alloc);
    append_pieces(
        &mut head,
        &[
            Piece::Words(FORMAT),
            Piece::Words(digits.as_bytes()),
            Piece::Words(b"\n"),
        ],
    )?;
    Ok(head)
}

/// Whether the byte is a digit of a digest: from `0` to `9`, or from `a` to `f`.
fn is_digit(byte: u8) -> bool
    ensures { result ≡ is_digest_digit byte }
{
    byte.is_ascii_digit() || (byte >= b'a' && byte <= b'f')
}

/// Whether all bytes are digits of a digest.
fn are_digits(word: &[u8]) -> bool
    ensures { result ≡ list_all is_digest_digit word.now }
{
    word.iter().all(|byte| is_digit(*byte))
}

/// The text after the head of a log's file, no matter what its trace is. Returns None if the file has no head.
pub(crate) fn behind_head(bytes: &[u8]) -> Option<&[u8]>
    ensures some { IfSome result (λ text. IsHeaded bytes.now text.now) }
    ensures none { IfNone result (IsHeadless bytes.now) }
{
    if !bytes.starts_with(FORMAT) {
        return None;
    }
    let line = &bytes[FORMAT.len()..];
    let end = memchr(b'\n', line)?;
    if end != DIGITS {
        return None;
    }
    if !are_digits(&line[..DIGITS]) {
        return None;
    }
    Some(&line[DIGITS + 1..])
}
