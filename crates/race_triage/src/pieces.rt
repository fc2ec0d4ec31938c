//! Appends words, numbers and the lines of events.
ghost use Rattle.std.specs.Prelude.{◌++◌, codes};
ghost use Rattle.rapid_text.specs.Appended.{Appended};
ghost use Rattle.rapid_text.specs.Canonical.{op_text};
ghost use Rattle.rapid_text.specs.Recording.{IsNamed, IsNamedOp};
ghost use Rattle.race_triage.specs.Pieces.{count_line, event_words, event_words_at, number_text};

use event_index::Indexed;
use itoa::Buffer;
use rapid_text::{Event, Op, OutOfMemory, RawTrace};

/// Appends `words`.
pub(crate) fn append_words(out: &mut Vec<u8>, words: &[u8]) -> Result<(), OutOfMemory>
    ensures { Appended result out.old out.new words.now }
{
    out.extend_from_slice(words)?;
    Ok(())
}

/// Appends a word, a blank, the number, and a line feed.
pub(crate) fn append_count(out: &mut Vec<u8>, word: &[u8], number: u64) -> Result<(), OutOfMemory>
    ensures { Appended result out.old out.new (count_line word.now number) }
{
    append_words(out, word)?;
    append_number(out, number)?;
    append_words(out, b"\n")?;
    Ok(())
}

/// Appends a blank and a number.
pub(crate) fn append_number(out: &mut Vec<u8>, number: u64) -> Result<(), OutOfMemory>
    ensures { Appended result out.old out.new (number_text number) }
{
    let mut digits = Buffer::new();
    append_words(out, b" ")?;
    append_words(out, digits.format(number).as_bytes())?;
    Ok(())
}

/// Appends a blank and a number of 32 bits.
pub(crate) fn append_small(out: &mut Vec<u8>, number: u32) -> Result<(), OutOfMemory>
    ensures { Appended result out.old out.new (number_text number) }
{
    append_number(out, u64::from(number))
}

/// Appends the canonical line of the event, without the line feed. Appends nothing if the trace has no such event.
pub fn append_event(out: &mut Vec<u8>, indexed: &Indexed, event: u32) -> Result<(), OutOfMemory>
    ensures { Appended result out.old out.new (event_words_at indexed.now event) }
{
    if event >= indexed.len() {
        return Ok(());
    }
    let raw = indexed.trace().raw();
    append_found(out, raw, raw.event(event), raw.location(event))?;
    Ok(())
}

// Appends an event and its location.
fn append_found(
    out: &mut Vec<u8>,
    trace: &RawTrace,
    event: Event,
    location: &[u8],
) -> Result<(), OutOfMemory>
    requires { IsNamed trace.now event }
    ensures { Appended result out.old out.new (event_words trace.now event location.now) }
{
    append_words(out, trace.thread_name(event.thread))?;
    append_words(out, b"|")?;
    append_operation(out, trace, event.op)?;
    append_words(out, b"|")?;
    append_words(out, location)?;
    Ok(())
}

// Appends an operation as `word(name)`.
fn append_operation(out: &mut Vec<u8>, trace: &RawTrace, op: Op) -> Result<(), OutOfMemory>
    requires { IsNamedOp trace.now op }
    ensures { Appended result out.old out.new (op_text trace.now op) }
{
    match op {
        Op::Read(variable) => append_call(out, b"r", trace.variable_name(variable)),
        Op::Write(variable) => append_call(out, b"w", trace.variable_name(variable)),
        Op::Acquire(lock) => append_call(out, b"acq", trace.lock_name(lock)),
        Op::Release(lock) => append_call(out, b"rel", trace.lock_name(lock)),
        Op::Fork(thread) => append_call(out, b"fork", trace.thread_name(thread)),
        Op::Join(thread) => append_call(out, b"join", trace.thread_name(thread)),
    }
}

// Appends `word(name)`.
fn append_call(out: &mut Vec<u8>, word: &[u8], name: &[u8]) -> Result<(), OutOfMemory>
    ensures { Appended result out.old out.new (word.now ++ codes "(" ++ name.now ++ codes ")") }
{
    append_words(out, word)?;
    append_words(out, b"(")?;
    append_words(out, name)?;
    append_words(out, b")")?;
    Ok(())
}
