//! Prints a schedule that shows two requests which wait for each other.
ghost use Rattle.std.specs.Prelude.{◌≡◌, ◌<◌, length, All, OnErr};
ghost use Rattle.rapid_text.specs.Appended.{Appended};
ghost use Rattle.deadlock_report.specs.Schedules.{refused_script, schedule_lines};

use crate::pieces::append_words;
use event_index::Indexed;
use explain_report::{Form, append_adds, append_all_numbered, append_events};
use rapid_text::OutOfMemory;

/// Appends the schedule, after which the two requests wait for each other. The script ends with both requests, which
/// are refused. If memory runs out, `out` stays as it was.
pub fn schedule_text(
    indexed: &Indexed,
    events: &[u32],
    pair: (u32, u32),
    form: Form,
    out: &mut Vec<u8>,
) -> Result<(), OutOfMemory>
    requires { All (λ e. e < length indexed.now.events) events.now }
    ensures ok { Appended result out.old out.new (schedule_lines indexed.now events.now pair.0 pair.1 form) }
    ensures err { OnErr result (out.new.items ≡ out.old.items) }
{
    let mut text = Vec::new(*out.allocator());
    append_schedule(&mut text, indexed, events, pair, form)?;
    out.extend_from_slice(&text)?;
    Ok(())
}

// The same. If memory runs out, part of it may already be appended.
fn append_schedule(
    out: &mut Vec<u8>,
    indexed: &Indexed,
    events: &[u32],
    pair: (u32, u32),
    form: Form,
) -> Result<(), OutOfMemory>
    requires { All (λ e. e < length indexed.now.events) events.now }
    ensures { Appended result out.old out.new (schedule_lines indexed.now events.now pair.0 pair.1 form) }
{
    match form {
        Form::Events => append_all_numbered(out, indexed, events),
        Form::Script => append_script(out, events, pair),
        Form::Trace => append_events(out, indexed, events),
    }
}

// Appends a script that builds the schedule, and then adds both requests.
fn append_script(out: &mut Vec<u8>, events: &[u32], pair: (u32, u32)) -> Result<(), OutOfMemory>
    ensures { Appended result out.old out.new (refused_script events.now pair.0 pair.1) }
{
    append_words(out, b"1 new S\n")?;
    append_adds(out, events)?;
    append_adds(out, &[pair.0, pair.1])?;
    Ok(())
}
