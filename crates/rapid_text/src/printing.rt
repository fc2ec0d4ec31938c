//! Prints a trace as its canonical text.
ghost use Rattle.std.specs.Prelude.{◌≡◌, ◌++◌, IfOk, Ok, codes};
ghost use Rattle.rapid_text.specs.Appended.{Appended};
ghost use Rattle.rapid_text.specs.Canonical.{canonical_text, event_text, op_text};
ghost use Rattle.rapid_text.specs.Reading.{reading_of};
ghost use Rattle.rapid_text.specs.Recording.{IsNamed, IsNamedOp};

use crate::event::{Event, Op};
use crate::items::Bytes;
use crate::memory::OutOfMemory;
use crate::raw_trace::RawTrace;
use std::alloc::Global;

/// The fewest bytes of a line: two names and a word of one byte each, two bars, two parentheses and the line feed.
const MIN_LINE: usize = 8;

/// The canonical text: for each event a line `thread|word(name)|location` and a line feed.
///
/// `parse` reads the same trace from it, unless memory runs out. Fails if memory runs out.
pub fn print(alloc: Global, trace: &RawTrace) -> Result<Bytes, OutOfMemory>
    ensures text { IfOk result (λ text. text ≡ canonical_text trace.now) }
    ensures reads_back { IfOk result (λ text. reading_of text ≡ Ok trace.now) }
{
    let mut text = Vec::with_capacity(alloc, trace.events.len() * MIN_LINE)?;
    for number in 0..trace.len() {
        append_line(
            &mut text,
            trace,
            trace.event(number),
            trace.location(number),
        )?;
    }
    Ok(Bytes::from(text))
}

// Appends the line of an event at this location, with its line feed.
fn append_line(
    text: &mut Vec<u8>,
    trace: &RawTrace,
    event: Event,
    location: &[u8],
) -> Result<(), OutOfMemory>
    requires { IsNamed trace.now event }
    ensures { Appended result text.old text.new (event_text trace.now event location.now) }
{
    text.extend_from_slice(trace.thread_name(event.thread))?;
    text.push(b'|')?;
    append_operation(text, trace, event.op)?;
    text.push(b'|')?;
    text.extend_from_slice(location)?;
    text.push(b'\n')?;
    Ok(())
}

// Appends an operation as `word(name)`.
fn append_operation(text: &mut Vec<u8>, trace: &RawTrace, op: Op) -> Result<(), OutOfMemory>
    requires { IsNamedOp trace.now op }
    ensures { Appended result text.old text.new (op_text trace.now op) }
{
    match op {
        Op::Read(variable) => append_call(text, b"r", trace.variable_name(variable)),
        Op::Write(variable) => append_call(text, b"w", trace.variable_name(variable)),
        Op::Acquire(lock) => append_call(text, b"acq", trace.lock_name(lock)),
        Op::Release(lock) => append_call(text, b"rel", trace.lock_name(lock)),
        Op::Fork(thread) => append_call(text, b"fork", trace.thread_name(thread)),
        Op::Join(thread) => append_call(text, b"join", trace.thread_name(thread)),
    }
}

// Appends `word(name)`.
fn append_call(text: &mut Vec<u8>, word: &[u8], name: &[u8]) -> Result<(), OutOfMemory>
    ensures { Appended result text.old text.new (word.now ++ codes "(" ++ name.now ++ codes ")") }
{
    text.extend_from_slice(word)?;
    text.push(b'(')?;
    text.extend_from_slice(name)?;
    text.push(b')')?;
    Ok(())
}
