//! The lines of events.
ghost use Rattle.std.specs.Prelude.{◌≡◌, ◌<◌, ◌++◌, [], length, slice_index_or, All, IfSome, codes};
ghost use Rattle.rapid_text.specs.Appended.{Appended};
ghost use Rattle.rapid_text.specs.Canonical.{event_text, name_at, op_text};
ghost use Rattle.rapid_text.specs.Recording.{IsNamed, IsNamedOp};
ghost use Rattle.event_index.specs.Events.{op_at, thread_at};
ghost use Rattle.explain_report.specs.Chains.{line_at, lock_name, thread_name};
ghost use Rattle.explain_report.specs.EventLines.{event_line, event_lines, numbered_line, numbered_lines};

use crate::pieces::{append_number, append_words};
use event_index::Indexed;
use rapid_text::{Event, Op, OutOfMemory, RawTrace};

/// Appends the canonical line of the event.
pub(crate) fn append_event(
    out: &mut Vec<u8>,
    indexed: &Indexed,
    event: u32,
) -> Result<(), OutOfMemory>
    requires { event < length indexed.now.events }
    ensures { Appended result out.old out.new (event_line indexed.now event) }
{
    let raw = indexed.trace().raw();
    append_found(out, raw, raw.event(event), raw.location(event))?;
    Ok(())
}

/// Appends the canonical line of an event with this location.
fn append_found(
    out: &mut Vec<u8>,
    trace: &RawTrace,
    event: Event,
    location: &[u8],
) -> Result<(), OutOfMemory>
    requires { IsNamed trace.now event }
    ensures { Appended result out.old out.new (event_text trace.now event location.now) }
{
    out.extend_from_slice(trace.thread_name(event.thread))?;
    out.push(b'|')?;
    append_operation(out, trace, event.op)?;
    out.push(b'|')?;
    out.extend_from_slice(location)?;
    out.push(b'\n')?;
    Ok(())
}

/// Appends an operation as `word(name)`.
pub(crate) fn append_operation(
    out: &mut Vec<u8>,
    trace: &RawTrace,
    op: Op,
) -> Result<(), OutOfMemory>
    requires { IsNamedOp trace.now op }
    ensures { Appended result out.old out.new (op_text trace.now op) }
{
    match op {
        Op::Read(variable) => append_call(out, b"r", trace.variable_name(variable)),
        Op::Write(variable) => append_call(out, b"w", trace.variable_name(variable)),
        Op::Acquire(lock) => append_call(out, b"acq", trace.lock_name(lock)),
        Op::Release(lock) => append_call(out, b"rel", trace.lock_name(lock)),
        Op::Fork(thread) => append_call(out, b"fork", trace.thread_name(thread)),
        Op::Join(thread) => append_call(out, b"join", trace.thread_name(thread)),
    }
}

/// Appends `word(name)`.
fn append_call(out: &mut Vec<u8>, word: &[u8], name: &[u8]) -> Result<(), OutOfMemory>
    ensures { Appended result out.old out.new (word.now ++ codes "(" ++ name.now ++ codes ")") }
{
    out.extend_from_slice(word)?;
    out.push(b'(')?;
    out.extend_from_slice(name)?;
    Ok(out.push(b')')?)
}

/// Appends the number of the event and its canonical line.
pub(crate) fn append_numbered(
    out: &mut Vec<u8>,
    indexed: &Indexed,
    event: u32,
) -> Result<(), OutOfMemory>
    requires { event < length indexed.now.events }
    ensures { Appended result out.old out.new (numbered_line indexed.now event) }
{
    append_number(out, u64::from(event))?;
    append_words(out, b"  ")?;
    append_event(out, indexed, event)?;
    Ok(())
}

/// Appends the canonical lines of the events.
pub fn append_events(
    out: &mut Vec<u8>,
    indexed: &Indexed,
    events: &[u32],
) -> Result<(), OutOfMemory>
    requires { All (λ e. e < length indexed.now.events) events.now }
    ensures { Appended result out.old out.new (event_lines indexed.now events.now) }
{
    for event in events {
        append_event(out, indexed, *event)?;
    }
    Ok(())
}

/// Appends the numbered lines of the events.
pub fn append_all_numbered(
    out: &mut Vec<u8>,
    indexed: &Indexed,
    events: &[u32],
) -> Result<(), OutOfMemory>
    requires { All (λ e. e < length indexed.now.events) events.now }
    ensures { Appended result out.old out.new (numbered_lines indexed.now events.now) }
{
    for event in events {
        append_numbered(out, indexed, *event)?;
    }
    Ok(())
}

/// Appends the number of the event and its canonical line, if the trace has it.
pub(crate) fn append_line(
    out: &mut Vec<u8>,
    indexed: &Indexed,
    event: u32,
) -> Result<(), OutOfMemory>
    ensures { Appended result out.old out.new (line_at indexed.now event) }
{
    if event < indexed.len() {
        append_numbered(out, indexed, event)?;
    }
    Ok(())
}

/// Appends the name of the thread, if the trace has it.
pub(crate) fn append_thread(
    out: &mut Vec<u8>,
    indexed: &Indexed,
    thread: u32,
) -> Result<(), OutOfMemory>
    ensures { Appended result out.old out.new (name_at indexed.now.threads thread) }
{
    if thread >= indexed.threads() {
        return Ok(());
    }
    append_words(out, indexed.thread_name(thread))
}

/// Appends the name of the event's thread, if the trace has the event.
pub fn append_thread_of(out: &mut Vec<u8>, indexed: &Indexed, event: u32) -> Result<(), OutOfMemory>
    ensures { Appended result out.old out.new (thread_name indexed.now event) }
{
    match thread_of(indexed, event) {
        Some(thread) => append_thread(out, indexed, thread),
        None => Ok(()),
    }
}

/// Appends the name of the lock, if the trace has it.
pub fn append_lock(out: &mut Vec<u8>, indexed: &Indexed, lock: u32) -> Result<(), OutOfMemory>
    ensures { Appended result out.old out.new (name_at indexed.now.locks lock) }
{
    if lock >= indexed.locks() {
        return Ok(());
    }
    append_words(out, indexed.trace().raw().lock_name(lock))
}

/// Appends the name of the lock that the event acquires.
pub(crate) fn append_lock_of(
    out: &mut Vec<u8>,
    indexed: &Indexed,
    event: u32,
) -> Result<(), OutOfMemory>
    ensures { Appended result out.old out.new (lock_name indexed.now event) }
{
    match op_of(indexed, event) {
        Some(Op::Acquire(lock)) => append_lock(out, indexed, lock),
        _ => Ok(()),
    }
}

/// The thread of the event, or None if the trace lacks it.
pub(crate) fn thread_of(indexed: &Indexed, event: u32) -> Option<u32>
    ensures thread { result ≡ thread_at indexed.now.events event }
    ensures within { IfSome result (λ t. t < length indexed.now.threads) }
{
    Some(indexed.get(event)?.thread)
}

/// The operation of the event, or None if the trace lacks it.
pub(crate) fn op_of(indexed: &Indexed, event: u32) -> Option<Op>
    ensures { result ≡ op_at indexed.now.events event }
{
    Some(indexed.get(event)?.op)
}
