//! Answers how far a thread can go on after a schedule.
ghost use Rattle.std.specs.Prelude.{◌≡◌, ◌<◌, ◌≤◌, length, IfOk, Some};
ghost use Rattle.inverse_log.specs.declared.refusal.Refusal.TheVariants.{Move};
ghost use Rattle.moves.specs.declared.refusal.MoveRefusal.TheVariants.{Disabled as DisabledBy};
ghost use Rattle.rapid_text.specs.Appended.{Appended};
ghost use Rattle.report.specs.Refusals.{refusal_text};
ghost use Rattle.kept_session.specs.QuestionAnswers.{next_run, run_text, run_to, stop_line};
ghost use Rattle.kept_session.specs.QuestionItems.{RunsOn};

use crate::questions::items::append_item;
use event_index::Indexed;
use inverse_log::Refusal;
use moves::MoveRefusal;
use rapid_text::OutOfMemory;
use report::{Piece, append_pieces};
use schedule::{Disabled, ExtendRefusal, Schedule};
use std::alloc::Global;

/// Appends that an event cannot be added, and the cause.
fn append_refused(out: &mut Vec<u8>, indexed: &Indexed, cause: Disabled) -> Result<(), OutOfMemory>
    ensures { Appended result out.old out.new (refusal_text indexed.now (Move (DisabledBy cause))) }
{
    report::refusal(indexed, &Refusal::Move(MoveRefusal::Disabled(cause)), out)
}

/// Adds events of a thread up to `last`, as long as they can be added. Returns how many, and the event that cannot be
/// added, if any.
fn go_on(
    schedule: &mut Schedule,
    indexed: &Indexed,
    thread: u32,
    last: u32,
) -> Result<(u64, Option<u32>), OutOfMemory>
    requires trace { schedule.old.trace ≡ indexed.now }
    requires thread { thread < length indexed.now.threads }
    ensures trace { schedule.new.trace ≡ indexed.now }
    ensures run { IfOk result (RunsOn indexed.now schedule.old.events schedule.new.events thread last) }
{
    for count in 0..indexed.len() {
        let Some(next) = schedule.next_of(indexed, thread) else {
            return Ok((u64::from(count), None));
        };
        if last < next {
            return Ok((u64::from(count), None));
        }
        match schedule.extend(indexed, next) {
            Ok(()) => {}
            Err(ExtendRefusal::Disabled(_)) => return Ok((u64::from(count), Some(next))),
            Err(ExtendRefusal::OutOfMemory) => return Err(OutOfMemory),
        }
    }
    Ok((u64::from(indexed.len()), None))
}

/// Appends how many events were added, and the item of the one that cannot be added.
fn append_stop(
    out: &mut Vec<u8>,
    indexed: &Indexed,
    entries: u64,
    schedule: &Schedule,
    run: (u64, Option<u32>),
) -> Result<(), OutOfMemory>
    requires { schedule.now.trace ≡ indexed.now }
    ensures { Appended result out.old out.new (stop_line indexed.now entries schedule.now.events run) }
{
    append_pieces(
        out,
        &[
            Piece::Words(b"run "),
            Piece::Number(entries),
            Piece::Words(b" "),
            Piece::Number(run.0),
        ],
    )?;
    if let Some(event) = run.1 {
        append_item(out, indexed, schedule, event)?;
    }
    append_pieces(out, &[Piece::Words(b"\n")])
}

/// Appends how far a thread goes on from this copy of a schedule.
fn append_run(
    out: &mut Vec<u8>,
    indexed: &Indexed,
    entries: u64,
    mut copy: Schedule,
    thread: u32,
    last: u32,
) -> Result<(), OutOfMemory>
    requires trace { copy.trace ≡ indexed.now }
    requires thread { thread < length indexed.now.threads }
    ensures { Appended result out.old out.new (run_text indexed.now entries copy.events thread last) }
{
    match go_on(&mut copy, indexed, thread, last) {
        Ok(run) => append_stop(out, indexed, entries, &copy, run),
        Err(refused) => Err(refused),
    }
}

/// A copy of the schedule.
fn copy_of(alloc: Global, indexed: &Indexed, schedule: &Schedule) -> Result<Schedule, OutOfMemory>
    requires { schedule.now.trace ≡ indexed.now }
    ensures { IfOk result (λ copy. copy ≡ schedule.now) }
{
    let len = schedule.events().len() as u32;
    match schedule.prefix(alloc, indexed, len) {
        Ok(copy) => Ok(copy),
        Err(_) => Err(OutOfMemory),
    }
}

/// Appends how far the thread goes on after the schedule, if its next event is not after `last`.
fn append_next_run(
    out: &mut Vec<u8>,
    indexed: &Indexed,
    entries: u64,
    schedule: &Schedule,
    thread: u32,
    last: u32,
) -> Result<(), OutOfMemory>
    requires trace { schedule.now.trace ≡ indexed.now }
    requires thread { thread < length indexed.now.threads }
    ensures { Appended result out.old out.new (next_run indexed.now entries schedule.now.events thread last) }
{
    match schedule.next_of(indexed, thread) {
        Some(next) if next <= last => {
            let copy = copy_of(*out.allocator(), indexed, schedule)?;
            append_run(out, indexed, entries, copy, thread, last)
        }
        _ => append_refused(out, indexed, Disabled::NotNext),
    }
}

/// Appends how far the thread of event `last` goes on after the schedule, up to that event.
pub(crate) fn append_run_to(
    out: &mut Vec<u8>,
    indexed: &Indexed,
    entries: u64,
    schedule: &Schedule,
    last: u32,
) -> Result<(), OutOfMemory>
    requires { schedule.now.trace ≡ indexed.now }
    ensures { Appended result out.old out.new (run_to indexed.now entries last schedule.now.events) }
{
    if last >= indexed.len() {
        return append_refused(out, indexed, Disabled::NoSuchEvent);
    }
    let thread = indexed.event(last).thread;
    append_next_run(out, indexed, entries, schedule, thread, last)
}
