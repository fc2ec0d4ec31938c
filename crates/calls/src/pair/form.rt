//! The forms in which a schedule is printed.
ghost use Rattle.std.specs.Prelude.{◌≡◌, ◌<◌, length, All};
ghost use Rattle.calls.specs.pair.Forms.{IsPrinted, lines_form};
ghost use Rattle.calls.specs.pair.Requests.{IsDeadlockPrinted};
ghost use Rattle.rapid_text.specs.Appended.{AppendedOne};

use deadlock_report::schedule_text;
use explain_report::picture::picture_text;
use explain_report::{Form as LinesForm, witness_text};
use must_order::Analysis;
use rapid_text::OutOfMemory;

/// The form in which a schedule is printed.
#[derive(Clone, Copy, PartialEq, Eq, Debug)]
pub enum Form {
    /// A line for each event: its number and its canonical line.
    Events,
    /// A script of client 1 that builds the schedule, and then asks which pairs it shows.
    Script,
    /// A trace text: the events of the schedule, and then the two of the pair.
    Trace,
    /// A picture: one SVG file.
    Svg,
}

/// The form as lines of text; None for a picture.
fn lines_form_of(form: Form) -> Option<LinesForm>
    ensures { result ≡ lines_form form }
{
    match form {
        Form::Events => Some(LinesForm::Events),
        Form::Script => Some(LinesForm::Script),
        Form::Trace => Some(LinesForm::Trace),
        Form::Svg => None,
    }
}

/// Appends the schedule with these events, which shows the pair, in this form.
pub(crate) fn append_schedule(
    text: &mut Vec<u8>,
    analysis: &Analysis<'_>,
    events: &[u32],
    first: u32,
    second: u32,
    form: Form,
) -> Result<(), OutOfMemory>
    requires events { All (λ e. e < length analysis.now.events) events.now }
    requires first { first < length analysis.now.events }
    requires second { second < length analysis.now.events }
    ensures { AppendedOne result text.old text.new (IsPrinted analysis.now events.now first second form) }
{
    let indexed = analysis.indexed();
    match lines_form_of(form) {
        Some(lines) => witness_text(indexed, events, first, second, lines, text)?,
        None => picture_text(analysis, events, first, second, text)?,
    }
    Ok(())
}

/// Appends the schedule with these events, after which the two requests wait for each other, in this form.
pub(crate) fn append_deadlock(
    text: &mut Vec<u8>,
    analysis: &Analysis<'_>,
    events: &[u32],
    pair: (u32, u32),
    form: Form,
) -> Result<(), OutOfMemory>
    requires events { All (λ e. e < length analysis.now.events) events.now }
    requires first { pair.0 < length analysis.now.events }
    requires second { pair.1 < length analysis.now.events }
    ensures { AppendedOne result text.old text.new (IsDeadlockPrinted analysis.now events.now pair.0 pair.1 form) }
{
    let indexed = analysis.indexed();
    match lines_form_of(form) {
        Some(lines) => schedule_text(indexed, events, pair, lines, text)?,
        None => picture_text(analysis, events, pair.0, pair.1, text)?,
    }
    Ok(())
}
