//! Whether a step follows by the rules of reads.
ghost use Rattle.std.specs.Prelude.{◌≡◌, ◌≢◌, ◌<◌, ◌↔◌, ℕ, All, IsTrue, IfSome, Option, None, Some, length};
ghost use Rattle.rapid_text.specs.declared.event.Op.TheVariants.{Read, Write};
ghost use Rattle.event_index.specs.Events.{op_at};
ghost use Rattle.event_index.specs.Lookups.{last_writer};
ghost use Rattle.closed_order.specs.Closed.{WritesTheSame};
ghost use Rattle.closed_order.specs.Known.{IsKnown, IsTrueAfter, events_in};

use crate::known::{Known, is_before, is_said};
use crate::steps::Step;
use rapid_text::Op;

// Whether the first event writes the variable that the second one reads.
fn writes_the_same(known: &Known<'_>, write: u32, read: u32) -> bool
    ensures { IsTrue result → WritesTheSame (events_in known.now) write read }
{
    match (variable_written(known, write), variable_read(known, read)) {
        (Some(written), Some(seen)) => written == seen,
        _ => false,
    }
}

// The variable that the event writes.
fn variable_written(known: &Known<'_>, event: u32) -> Option<u32>
    ensures { IfSome result (λ x. op_at (events_in known.now) event ≡ Some (Write x)) }
{
    match known.analysis.indexed().get(event)?.op {
        Op::Write(variable) => Some(variable),
        _ => None,
    }
}

// The variable that the event reads.
fn variable_read(known: &Known<'_>, event: u32) -> Option<u32>
    ensures { IfSome result (λ x. op_at (events_in known.now) event ≡ Some (Read x)) }
{
    match known.analysis.indexed().get(event)?.op {
        Op::Read(variable) => Some(variable),
        _ => None,
    }
}

// The write that the read sees.
fn writer_of(known: &Known<'_>, read: u32) -> Option<u32>
    ensures { IfSome result (λ w. last_writer (events_in known.now) read ≡ Some w) }
{
    let indexed = known.analysis.indexed();
    if read >= indexed.len() {
        return None;
    }
    indexed.last_writer(read)
}

// Whether the first event is another write than the second one, which the read sees, and comes before that read.
pub(crate) fn is_overwritten(
    known: &Known<'_>,
    step: Step,
    read: u32,
    before: u32,
    due: u32,
) -> bool
    requires { IsKnown known.now }
    ensures { IsTrue result → IsTrueAfter known.now step }
{
    let Some(writer) = writer_of(known, read) else {
        return false;
    };
    if !is_before(step, writer) || step.first == writer {
        return false;
    }
    if !writes_the_same(known, step.first, read) {
        return false;
    }
    if !is_said(known, before, step.first, Some(read)) {
        return false;
    }
    is_said(known, due, read, None)
}

// Whether the first event reads what another one wrote, and the second one is a write after that.
pub(crate) fn is_unseen(known: &Known<'_>, step: Step, after: u32, due: u32) -> bool
    requires { IsKnown known.now }
    ensures { IsTrue result → IsTrueAfter known.now step }
{
    let Some(writer) = writer_of(known, step.first) else {
        return false;
    };
    let Some(write) = step.second else {
        return false;
    };
    if !writes_the_same(known, write, step.first) {
        return false;
    }
    if !is_said(known, after, writer, Some(write)) {
        return false;
    }
    is_said(known, due, step.first, None)
}

// Whether the first event reads what nobody wrote, and the second one is a write.
pub(crate) fn is_initial(known: &Known<'_>, step: Step, due: u32) -> bool
    requires { IsKnown known.now }
    ensures { IsTrue result → IsTrueAfter known.now step }
{
    let Some(write) = step.second else {
        return false;
    };
    if !writes_the_same(known, write, step.first) {
        return false;
    }
    if !reads_nothing(known, step.first) {
        return false;
    }
    is_said(known, due, step.first, None)
}

// Whether the event is in the trace and sees no write.
fn reads_nothing(known: &Known<'_>, read: u32) -> bool
    ensures { IsTrue result → last_writer (events_in known.now) read ≡ None }
{
    let indexed = known.analysis.indexed();
    read < indexed.len() && indexed.last_writer(read) == None
}
