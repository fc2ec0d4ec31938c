//! Lines of the code.
ghost use Rattle.std.specs.Prelude.{◌≡◌};
ghost use Rattle.triage_report.specs.sarif.Places.{is_at, line_at, line_text, text_at, text_if};

use crate::folder::Folder;

/// A line of the code.
#[derive(Drop)]
pub struct SourceLine {
    /// The place of the line, `FILE:LINE`.
    pub place: Vec<u8>,
    /// The text of the line, without blanks at its ends.
    pub text: Vec<u8>,
}

/// The code that ran.
#[derive(Clone, Copy)]
pub struct Sources<'a> {
    /// The folder of the code.
    pub root: &'a Folder,
    /// Lines of the code that were read. Fingerprints have their texts.
    pub lines: &'a [SourceLine],
}

/// The text of the line at this place; empty if it was not read.
pub(crate) fn line_text<'a>(lines: &'a [SourceLine], place: &[u8]) -> &'a [u8]
    ensures { result.now ≡ line_text lines.now place.now }
{
    text_if(lines, line_at(lines, place))
}

/// The index of the first line at this place.
fn line_at(lines: &[SourceLine], place: &[u8]) -> Option<usize>
    ensures { result ≡ line_at lines.now place.now }
{
    lines.iter().position(|line| is_at(line, place))
}

/// Whether the line is at this place.
fn is_at(line: &SourceLine, place: &[u8]) -> bool
    ensures { result ≡ is_at place.now line.now }
{
    line.place.as_slice() == place
}

/// The text of the line with this index; empty if there is no such line.
fn text_if(lines: &[SourceLine], at: Option<usize>) -> &[u8]
    ensures { result.now ≡ text_if lines.now at }
{
    match at {
        Some(at) => text_at(lines, at),
        None => b"",
    }
}

/// The text of the line with this index; empty if the index is too large.
fn text_at(lines: &[SourceLine], at: usize) -> &[u8]
    ensures { result.now ≡ text_at lines.now at }
{
    match lines.get(at) {
        Some(line) => line.text.as_slice(),
        None => b"",
    }
}
