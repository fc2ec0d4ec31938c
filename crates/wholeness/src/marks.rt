//! The marks of a recording: its first line, and its last line.
ghost use Rattle.std.specs.Prelude.{◌≡◌, IfOk, option_map};
ghost use Rattle.wholeness.specs.Marks.{is_marked, is_whole, last_line, without, without_end, words_of, IsLossIn, IsWholeness};

use crate::loss::{append_loss, loss_of};
use memchr::memrchr;
use rapid_text::OutOfMemory;
use std::alloc::Global;

/// How a recording with marks begins.
const BEGIN: &[u8] = b"recording|begin(RECORDED)|";

/// How a whole recording ends, with the end of the line before.
const WHOLE: &[u8] = b"\nrecording|end(WHOLE)|";

/// What a recording says of itself.
#[derive(Drop)]
pub enum Wholeness {
    /// It has no marks: another recorder made it, and it is judged as it is.
    Unmarked,
    /// Nothing was left out.
    Whole,
    /// Something was left out.
    LeftOut {
        /// What a report says of it: `left out 12 from 340: DISK`.
        words: Vec<u8>,
        /// The last line of the recording.
        line: Vec<u8>,
    },
    /// It has a first mark and no last one: the recorder was killed, or the file was cut.
    NoEnd,
}

impl Wholeness {
    /// Whether nothing is known to be missing.
    pub fn is_whole(&self) -> bool
        ensures { result ≡ is_whole self.now }
    {
        match self {
            Wholeness::Unmarked | Wholeness::Whole => true,
            Wholeness::LeftOut { words: _, line: _ } | Wholeness::NoEnd => false,
        }
    }

    /// Whether the recording has a first mark.
    pub fn is_marked(&self) -> bool
        ensures { result ≡ is_marked self.now }
    {
        match self {
            Wholeness::Unmarked => false,
            _ => true,
        }
    }

    /// What a report says of it, if something is missing.
    pub fn words(&self) -> Option<&[u8]>
        ensures { option_map (λ words. words.now) result ≡ words_of self.now }
    {
        match self {
            Wholeness::Unmarked | Wholeness::Whole => None,
            Wholeness::LeftOut { words, line: _ } => Some(words.as_slice()),
            Wholeness::NoEnd => Some(b"no end of the recording was read"),
        }
    }
}

/// The text without the line feed at its end, and without a carriage return before that.
fn without_end(text: &[u8]) -> &[u8]
    ensures { result.now ≡ without_end text.now }
{
    without(without(text, b'\n'), b'\r')
}

/// The text without this byte at its end.
fn without(text: &[u8], byte: u8) -> &[u8]
    ensures { result.now ≡ without byte text.now }
{
    match text.split_last() {
        Some((last, rest)) if *last == byte => rest,
        _ => text,
    }
}

/// What comes after the last line feed.
fn last_line(text: &[u8]) -> &[u8]
    ensures { result.now ≡ last_line text.now }
{
    match memrchr(b'\n', text) {
        Some(at) => &text[at + 1..],
        None => text,
    }
}

/// What the recording in this text says of itself.
pub fn wholeness_of(alloc: Global, text: &[u8]) -> Result<Wholeness, OutOfMemory>
    ensures { IfOk result (IsWholeness text.now) }
{
    if !text.starts_with(BEGIN) {
        return Ok(Wholeness::Unmarked);
    }
    let ended = without_end(text);
    if ended.ends_with(WHOLE) {
        return Ok(Wholeness::Whole);
    }
    loss_in(alloc, last_line(ended))
}

/// What this last line says of a recording that is not whole.
fn loss_in(alloc: Global, line: &[u8]) -> Result<Wholeness, OutOfMemory>
    ensures { IfOk result (IsLossIn line.now) }
{
    match loss_of(alloc, line)? {
        Some(loss) => {
            let mut words = Vec::new(alloc);
            append_loss(&mut words, loss)?;
            let line = Vec::from_slice(alloc, line)?;
            Ok(Wholeness::LeftOut { words, line })
        }
        None => Ok(Wholeness::NoEnd),
    }
}
