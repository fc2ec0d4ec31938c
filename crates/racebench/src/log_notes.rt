//! Notes on a file whose first line is not that of a log: it is empty, of another version, or damaged.

use crate::lines::{first_line, first_word};
use crate::notes::append_about;
use rapid_text::OutOfMemory;

/// How the first line of a log begins in each version. The version comes after this.
const BEGINNING: &[u8] = b"racebench log ";

/// How the first line of a log begins. The digest of the trace comes after this.
const HEAD: &[u8] = b"racebench log 1 ";

/// How many digits the digest has.
const DIGITS: usize = 64;

/// What is wrong with the first line of a log.
#[derive(Clone, Copy)]
pub(crate) enum BadHead {
    /// The file is empty.
    Empty,
    /// The log is in another version of the format.
    Version,
    /// The line is cut or was changed.
    Damaged,
}

/// Whether the byte is a digit of a digest.
fn is_digit(byte: u8) -> bool {
    byte.is_ascii_digit() || (byte >= b'a' && byte <= b'f')
}

/// Whether the word is the digest of a trace: 64 digits of `0` to `9` and `a` to `f`.
fn is_digest(word: &[u8]) -> bool {
    word.len() == DIGITS && word.iter().all(|byte| is_digit(*byte))
}

/// Whether the word is the number of another version than this one.
fn is_other_version(word: &[u8]) -> bool {
    !word.is_empty() && word != b"1".as_slice() && word.iter().all(|byte| byte.is_ascii_digit())
}

/// What is wrong with this first line, which begins like that of a log.
fn fault_behind(line: &[u8]) -> Option<BadHead> {
    if is_other_version(first_word(line)) {
        return Some(BadHead::Version);
    }
    match line.strip_prefix(b"1 ") {
        Some(digest) if is_digest(digest) => None,
        _ => Some(BadHead::Damaged),
    }
}

/// What is wrong with the first line of this text; None if it is that of a log, or does not begin like one.
pub(crate) fn head_fault(text: &[u8]) -> Option<BadHead> {
    if text.is_empty() {
        return Some(BadHead::Empty);
    }
    let line = first_line(text, true).unwrap_or(text);
    match line.strip_prefix(BEGINNING) {
        Some(behind) => fault_behind(behind),
        None => {
            if !line.is_empty() && HEAD.starts_with(line) {
                Some(BadHead::Damaged)
            } else {
                None
            }
        }
    }
}

/// The fault in words, after the file's name.
fn words_of(fault: BadHead) -> &'static [u8] {
    match fault {
        BadHead::Empty => b" is empty",
        BadHead::Version => b" is a log in another version of the format",
        BadHead::Damaged => b" has a damaged first line",
    }
}

/// Appends the note on the first line of the log with this name, and these words.
pub(crate) fn append_head_note(
    out: &mut Vec<u8>,
    name: &str,
    fault: BadHead,
    words: &[u8],
) -> Result<(), OutOfMemory> {
    append_about(out, name, words_of(fault), words)
}
