//! Reads a trace text.
ghost use Rattle.std.specs.Prelude.{◌≡◌, ◌⊎◌, ◌+◌, ◌<◌, ◌≤◌, ◌∷◌, length, IfOk, IfErr, OnOk, None, Ok, Err};
ghost use Rattle.std.specs.List.{before_first, slice_split};
ghost use Rattle.rapid_text.specs.Growth.{line_fault, with_line};
ghost use Rattle.rapid_text.specs.LineLayout.{reading_in};
ghost use Rattle.rapid_text.specs.Marking.{IsMarked};
ghost use Rattle.rapid_text.specs.LinesLeft.{bytes_left, lines_left, refusal_for};
ghost use Rattle.rapid_text.specs.Reading.{is_line_feed, line_reading, reading_of};
ghost use Rattle.rapid_text.specs.Recorded.{recorded, IsReady, StopsFor};
ghost use Rattle.rapid_text.specs.Refusals.{no_memory};

use crate::line::{Line, read_line, read_plain};
use crate::marks::{Marks, cut_marked};
use crate::names::TextKeyed;
use crate::raw_trace::RawTrace;
use crate::recorder::{Recorder, Stop};
use crate::refusal::{TextCause, TextRefusal};
use std::alloc::Global;

/// Records the event of a line, if the line has one.
fn record_line(recorder: &mut Recorder, line: Line<'_>) -> Result<(), Stop>
    requires { IsReady recorder.old }
    ensures allowed { OnOk result (line_fault (recorded recorder.old) (reading_in line.entry) ≡ None) }
    ensures ok { OnOk result
        (recorded recorder.new ≡ with_line (recorded recorder.old) (reading_in line.entry)) }
    ensures ready { OnOk result (IsReady recorder.new) }
    ensures refused { IfErr result (StopsFor (line_fault (recorded recorder.old) (reading_in line.entry))) }
{
    match line {
        Line::Skipped => Ok(()),
        Line::Refused(why) => Err(Stop::Fault(why)),
        Line::Says(fields) => recorder.record(fields),
    }
}

/// The first line of a text without its line feed, and the text after the line feed if there is one. The marks of the
/// text are also those of the line.
fn cut_line(text: &[u8], marks: Marks) -> (&[u8], Option<&[u8]>)
    requires { IsMarked marks text.now }
    ensures marked { IsMarked marks result.0.now }
    ensures line { result.0.now ≡ before_first is_line_feed text.now }
    ensures lines { slice_split is_line_feed text.now ≡ result.0.now ∷ lines_left result.1 }
    ensures shorter { bytes_left result.1 ≤ length text.now }
{
    match cut_marked(b'\n', marks.feeds, text) {
        Some((line, rest)) => (line, Some(rest)),
        None => (text, None),
    }
}

/// What the first line of a text means, and the text after its line feed if there is one. The marks are those of the
/// text.
#[inline(always)]
fn any_line(text: &[u8], marks: Marks) -> (Line<'_>, Option<&[u8]>)
    requires { IsMarked marks text.now }
    ensures line { reading_in result.0 ≡ line_reading (before_first is_line_feed text.now) }
    ensures lines { slice_split is_line_feed text.now
        ≡ before_first is_line_feed text.now ∷ lines_left result.1 }
    ensures shorter { bytes_left result.1 ≤ length text.now }
{
    let (line, rest) = cut_line(text, marks);
    (read_line(line, marks), rest)
}

/// The same as `any_line`, with its own marks. Most lines are short and without blanks, and `read_plain` reads them
/// faster.
#[inline(always)]
fn first_line(text: &[u8]) -> (Line<'_>, Option<&[u8]>)
    ensures line { reading_in result.0 ≡ line_reading (before_first is_line_feed text.now) }
    ensures lines { slice_split is_line_feed text.now
        ≡ before_first is_line_feed text.now ∷ lines_left result.1 }
    ensures shorter { bytes_left result.1 ≤ length text.now }
{
    let marks = Marks::of(text);
    match read_plain(text, marks) {
        Some((line, rest)) => (line, Some(rest)),
        None => any_line(text, marks),
    }
}

/// The refusal of a text if the reader stopped at this line.
fn refusal_at(line: u64, stop: Stop) -> TextRefusal
    ensures { result ≡ refusal_for line stop }
{
    match stop {
        Stop::Fault(why) => TextRefusal { line, why },
        Stop::Memory => TextRefusal {
            line: 0,
            why: TextCause::OutOfMemory,
        },
    }
}

/// Reads a trace text. Returns its events with names and locations, or the first line that is refused with its first
/// cause, 1 to 8. Error 9 means out of memory, which may hide a refusal of a later line.
pub fn parse(alloc: Global, text: &[u8]) -> Result<RawTrace, TextRefusal>
    ensures read { IfOk result (λ trace. reading_of text.now ≡ Ok trace) }
    ensures refused { IfErr result
        (λ refusal. (refusal ≡ no_memory) ⊎ (reading_of text.now ≡ Err refusal)) }
{
    let mut recorder = Recorder::new(alloc, TextKeyed::of_trace(text));
    let mut left = Some(text);
    let mut number: u64 = 0;
    while let Some(lines) = left {
        number += 1;
        let (line, rest) = first_line(lines);
        if let Err(stop) = record_line(&mut recorder, line) {
            return Err(refusal_at(number, stop));
        }
        left = rest;
    }
    Ok(recorder.finish())
}
