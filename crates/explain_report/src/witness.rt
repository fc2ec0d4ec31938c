//! Prints a schedule that shows a pair.
ghost use Rattle.std.specs.Prelude.{◌≡◌, ◌<◌, length, All, OnErr};
ghost use Rattle.explain_report.specs.Witnesses.{add_line, add_lines, script_lines, trace_lines, witness_lines};
ghost use Rattle.rapid_text.specs.Appended.{Appended};

use crate::event_lines::{append_all_numbered, append_events};
use crate::pieces::{append_number, append_words};
use event_index::Indexed;
use rapid_text::OutOfMemory;

/// The form in which a schedule is printed.
#[derive(Clone, Copy, PartialEq, Eq, Debug)]
pub enum Form {
    /// The events, each after its number.
    Events,
    /// A script of one client that builds the schedule and prints which pairs it shows.
    Script,
    /// A trace text: the events of the schedule, and then the pair.
    Trace,
}

/// Appends the schedule `events`, which shows the pair. If memory runs out, `out` stays as it was.
pub fn witness_text(
    indexed: &Indexed,
    events: &[u32],
    first: u32,
    second: u32,
    form: Form,
    out: &mut Vec<u8>,
) -> Result<(), OutOfMemory>
    requires events { All (λ e. e < length indexed.now.events) events.now }
    requires first { first < length indexed.now.events }
    requires second { second < length indexed.now.events }
    ensures ok { Appended result out.old out.new (witness_lines indexed.now events.now first second form) }
    ensures err { OnErr result (out.new.items ≡ out.old.items) }
{
    let mut text = Vec::new(*out.allocator());
    append_witness(&mut text, indexed, events, first, second, form)?;
    out.extend_from_slice(&text)?;
    Ok(())
}

fn append_witness(
    out: &mut Vec<u8>,
    indexed: &Indexed,
    events: &[u32],
    first: u32,
    second: u32,
    form: Form,
) -> Result<(), OutOfMemory>
    requires events { All (λ e. e < length indexed.now.events) events.now }
    requires first { first < length indexed.now.events }
    requires second { second < length indexed.now.events }
    ensures { Appended result out.old out.new (witness_lines indexed.now events.now first second form) }
{
    match form {
        Form::Events => append_all_numbered(out, indexed, events),
        Form::Script => append_script(out, events),
        Form::Trace => append_trace(out, indexed, events, first, second),
    }
}

/// Appends a script that builds the schedule.
fn append_script(out: &mut Vec<u8>, events: &[u32]) -> Result<(), OutOfMemory>
    ensures { Appended result out.old out.new (script_lines events.now) }
{
    append_words(out, b"1 new S\n")?;
    append_adds(out, events)?;
    append_words(out, b"1 races S\n")?;
    Ok(())
}

/// Appends the lines that append the events to the schedule.
pub fn append_adds(out: &mut Vec<u8>, events: &[u32]) -> Result<(), OutOfMemory>
    ensures { Appended result out.old out.new (add_lines events.now) }
{
    for event in events {
        append_add(out, *event)?;
    }
    Ok(())
}

/// Appends the line that appends the event.
pub fn append_add(out: &mut Vec<u8>, event: u32) -> Result<(), OutOfMemory>
    ensures { Appended result out.old out.new (add_line event) }
{
    append_words(out, b"1 add S ")?;
    append_number(out, u64::from(event))?;
    append_words(out, b"\n")?;
    Ok(())
}

/// Appends the events' lines and those of the pair.
fn append_trace(
    out: &mut Vec<u8>,
    indexed: &Indexed,
    events: &[u32],
    first: u32,
    second: u32,
) -> Result<(), OutOfMemory>
    requires events { All (λ e. e < length indexed.now.events) events.now }
    requires first { first < length indexed.now.events }
    requires second { second < length indexed.now.events }
    ensures { Appended result out.old out.new (trace_lines indexed.now events.now first second) }
{
    append_events(out, indexed, events)?;
    append_events(out, indexed, &[first, second])?;
    Ok(())
}
