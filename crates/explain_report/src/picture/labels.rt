//! The lines of a picture, and their words.
ghost use Rattle.std.specs.Prelude.{◌≡◌, ◌<◌, length};
ghost use Rattle.rapid_text.specs.Appended.{Appended};
ghost use Rattle.rapid_text.specs.Canonical.{name_at};
ghost use Rattle.rapid_text.specs.Recording.{IsNamedOp};
ghost use Rattle.explain_report.specs.picture.Boxes.{Drew, IsLine, count_words, held_words, label_words, more_words, reason_words, words_of};

use crate::Run;
use crate::event_lines::{append_lock, append_operation, append_thread};
use crate::picture::canvas::Canvas;
use crate::picture::class::Class;
use crate::picture::pieces::append_cut;
use crate::pieces::{append_count, append_number, append_words};
use crate::run_lines::event_total;
use crate::waiting::words_between;
use event_index::Indexed;
use rapid_text::{Op, OutOfMemory, RawTrace};

/// Draws a line of text, which is cut if it is longer than a box is wide.
pub(crate) fn draw_line(
    canvas: &mut Canvas,
    class: Class,
    left: u64,
    base: u64,
    text: &[u8],
) -> Result<(), OutOfMemory>
    ensures { Drew result canvas.old canvas.new (IsLine class text.now) }
{
    let mut line = Vec::new(canvas.allocator());
    append_cut(&mut line, text)?;
    canvas.line(class, left, base, line.as_slice())?;
    Ok(())
}

/// The name of the thread; empty if the trace lacks it.
pub(crate) fn thread_name(indexed: &Indexed, thread: u32) -> &[u8]
    ensures { result.now ≡ name_at indexed.now.threads thread }
{
    if thread >= indexed.threads() {
        return b"";
    }
    indexed.thread_name(thread)
}

/// Appends the label of a run: its number, its number of events, and its thread.
pub(crate) fn append_run_words(
    out: &mut Vec<u8>,
    indexed: &Indexed,
    number: u64,
    run: Run,
) -> Result<(), OutOfMemory>
    ensures { Appended result out.old out.new (count_words indexed.now number run) }
{
    append_words(out, b"run ")?;
    append_number(out, number)?;
    append_words(out, b", ")?;
    append_count(out, u64::from(event_total(run)), b"event")?;
    append_words(out, b" of ")?;
    append_thread(out, indexed, run.thread)?;
    Ok(())
}

/// Appends the label of the event: its number, operation and location. Appends nothing if the trace lacks it.
pub(crate) fn append_label(
    out: &mut Vec<u8>,
    indexed: &Indexed,
    event: u32,
) -> Result<(), OutOfMemory>
    ensures { Appended result out.old out.new (label_words indexed.now event) }
{
    if event >= indexed.len() {
        return Ok(());
    }
    append_found(out, indexed, event)?;
    Ok(())
}

/// Appends the label of an event of the trace.
fn append_found(out: &mut Vec<u8>, indexed: &Indexed, event: u32) -> Result<(), OutOfMemory>
    requires { event < length indexed.now.events }
    ensures { Appended result out.old out.new (label_words indexed.now event) }
{
    let raw = indexed.trace().raw();
    append_of(out, raw, event, raw.event(event).op, raw.location(event))?;
    Ok(())
}

/// Appends the number of an event, its operation and location.
fn append_of(
    out: &mut Vec<u8>,
    trace: &RawTrace,
    number: u32,
    op: Op,
    location: &[u8],
) -> Result<(), OutOfMemory>
    requires { IsNamedOp trace.now op }
    ensures { Appended result out.old out.new (words_of trace.now number op location.now) }
{
    append_number(out, u64::from(number))?;
    append_words(out, b"  ")?;
    append_operation(out, trace, op)?;
    append_words(out, b" ")?;
    append_words(out, location)?;
    Ok(())
}

/// Appends the reason why the second event waits for the first, and the number of the second.
pub(crate) fn append_reason(
    out: &mut Vec<u8>,
    indexed: &Indexed,
    first: u32,
    second: u32,
) -> Result<(), OutOfMemory>
    ensures { Appended result out.old out.new (reason_words indexed.now first second) }
{
    append_words(out, words_between(indexed, first, second))?;
    append_words(out, b" ")?;
    append_number(out, u64::from(second))?;
    Ok(())
}

/// Appends the text for a lock that is held.
pub(crate) fn append_held(
    out: &mut Vec<u8>,
    indexed: &Indexed,
    lock: u32,
) -> Result<(), OutOfMemory>
    ensures { Appended result out.old out.new (held_words indexed.now lock) }
{
    append_words(out, b"holds ")?;
    append_lock(out, indexed, lock)?;
    Ok(())
}

/// Appends the text for `count` more locks.
pub(crate) fn append_more(out: &mut Vec<u8>, count: u64) -> Result<(), OutOfMemory>
    ensures { Appended result out.old out.new (more_words count) }
{
    append_words(out, b"and ")?;
    append_count(out, count, b"lock")?;
    append_words(out, b" more")?;
    Ok(())
}
