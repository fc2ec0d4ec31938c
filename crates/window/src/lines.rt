//! Appends the lines of a window.
ghost use Rattle.std.specs.Fmt.{decimal};
ghost use Rattle.std.specs.Prelude.{◌≡◌, ◌+◌, ◌<◌, ◌≤◌, ◌++◌, ◌∷◌, [], All, length, codes};
ghost use Rattle.rapid_text.specs.Appended.{Appended};
ghost use Rattle.rapid_text.specs.Canonical.{name_at, op_text};
ghost use Rattle.rapid_text.specs.Recording.{IsNamed, IsNamedOp};
ghost use Rattle.window.specs.Cuts.{begin_line, own_line, own_lines, span_lines, with_name};

use itoa::Buffer;
use rapid_text::{Event, Op, OutOfMemory, RawTrace};

// The name of a variable of the trace, or `own` for the number after them.
fn variable_name<'a>(trace: &'a RawTrace, own: &'a [u8], variable: u32) -> &'a [u8]
    requires { variable < length trace.now.variables + 1 }
    ensures { result.now ≡ name_at (trace.now.variables ++ own.now ∷ []) variable }
{
    if variable < trace.variables() {
        return trace.variable_name(variable);
    }
    own
}

// The name of a lock of the trace, or `own` for the number after them.
fn lock_name<'a>(trace: &'a RawTrace, own: &'a [u8], lock: u32) -> &'a [u8]
    requires { lock < length trace.now.locks + 1 }
    ensures { result.now ≡ name_at (trace.now.locks ++ own.now ∷ []) lock }
{
    if lock < trace.locks() {
        return trace.lock_name(lock);
    }
    own
}

// Appends `word(name)`.
fn append_call(text: &mut Vec<u8>, word: &[u8], name: &[u8]) -> Result<(), OutOfMemory>
    ensures { Appended result text.old text.new (word.now ++ codes "(" ++ name.now ++ codes ")") }
{
    text.extend_from_slice(word)?;
    text.push(b'(')?;
    text.extend_from_slice(name)?;
    text.push(b')')?;
    Ok(())
}

// Appends an operation as `word(name)`.
fn append_operation(
    text: &mut Vec<u8>,
    trace: &RawTrace,
    own: &[u8],
    op: Op,
) -> Result<(), OutOfMemory>
    requires { IsNamedOp (with_name trace.now own.now) op }
    ensures { Appended result text.old text.new (op_text (with_name trace.now own.now) op) }
{
    match op {
        Op::Read(variable) => append_call(text, b"r", variable_name(trace, own, variable)),
        Op::Write(variable) => append_call(text, b"w", variable_name(trace, own, variable)),
        Op::Acquire(lock) => append_call(text, b"acq", lock_name(trace, own, lock)),
        Op::Release(lock) => append_call(text, b"rel", lock_name(trace, own, lock)),
        Op::Fork(thread) => append_call(text, b"fork", trace.thread_name(thread)),
        Op::Join(thread) => append_call(text, b"join", trace.thread_name(thread)),
    }
}

// Appends the line of an event with this location.
fn append_line(
    text: &mut Vec<u8>,
    trace: &RawTrace,
    own: &[u8],
    event: Event,
    location: &[u8],
) -> Result<(), OutOfMemory>
    requires { IsNamed (with_name trace.now own.now) event }
    ensures { Appended result text.old text.new (own_line trace.now own.now event location.now) }
{
    text.extend_from_slice(trace.thread_name(event.thread))?;
    text.push(b'|')?;
    append_operation(text, trace, own, event.op)?;
    text.push(b'|')?;
    text.extend_from_slice(location)?;
    text.push(b'\n')?;
    Ok(())
}

/// Appends the lines of a prologue, whose events have no location.
pub(crate) fn append_prologue(
    text: &mut Vec<u8>,
    trace: &RawTrace,
    own: &[u8],
    events: &[Event],
) -> Result<(), OutOfMemory>
    requires { All (IsNamed (with_name trace.now own.now)) events.now }
    ensures { Appended result text.old text.new (own_lines trace.now own.now events.now) }
{
    for at in 0..events.len() {
        append_line(text, trace, own, events[at], b"")?;
    }
    Ok(())
}

/// Appends the lines of the trace from `from` to `to`.
pub(crate) fn append_part(
    text: &mut Vec<u8>,
    trace: &RawTrace,
    own: &[u8],
    from: u32,
    to: u32,
) -> Result<(), OutOfMemory>
    requires from { from ≤ to }
    requires to { to ≤ length trace.now.events }
    ensures { Appended result text.old text.new (span_lines trace.now own.now from to) }
{
    for event in from..to {
        append_line(text, trace, own, trace.event(event), trace.location(event))?;
    }
    Ok(())
}

// Appends a text and a number.
fn append_number(text: &mut Vec<u8>, front: &[u8], number: u64) -> Result<(), OutOfMemory>
    ensures { Appended result text.old text.new (front.now ++ decimal number) }
{
    let mut buffer = Buffer::new();
    text.extend_from_slice(front)?;
    text.extend_from_slice(buffer.format(number).as_bytes())?;
    Ok(())
}

/// Appends the line with the window's numbers in the trace.
pub(crate) fn append_begin(
    text: &mut Vec<u8>,
    from: u64,
    to: u64,
    size: usize,
) -> Result<(), OutOfMemory>
    ensures { Appended result text.old text.new (begin_line from to size) }
{
    append_number(text, b"window|begin(FROM ", from)?;
    append_number(text, b" TO ", to)?;
    append_number(text, b" PROLOGUE ", size as u64)?;
    text.extend_from_slice(b")|\n")?;
    Ok(())
}
