//! Why an event may not come next after a list of events.
ghost use Rattle.std.specs.Prelude.{◌≡◌, ℕ, ◌<◌, length, slice_get, Some};
ghost use Rattle.rapid_text.specs.Recording.{IsNamed};
ghost use Rattle.rapid_text.specs.declared.event.Op.TheVariants.{Read, Acquire, Join};
ghost use Rattle.schedule.specs.Refusals.{refusal_of, refusal_of_op};
ghost use Rattle.schedule.specs.Reordering.{IsCorrectReordering};
ghost use Rattle.schedule.specs.Tables.{AreTables};
ghost use Rattle.trace_rules.specs.Rules.{IsDisciplined};

use crate::reads::{is_ended, is_forked, is_next, last_write, other_holder};
use crate::refusal::Disabled;
use crate::tables::Tables;
use event_index::Indexed;
use rapid_text::{Event, Op};

/// The first cause why the event may not come after the list, or None if it may.
#[tactic(auto, unfolding(crate::specs::Refusals::refusal_of))]
pub(crate) fn refusal_of(
    indexed: &Indexed,
    tables: &Tables,
    events: &[u32],
    event: u32,
) -> Option<Disabled>
    requires tables { AreTables indexed.now.events events.now tables.now }
    requires reordering { IsCorrectReordering indexed.now.events events.now }
    ensures { result ≡ refusal_of indexed.now.events events.now event }
{
    let Some(found) = indexed.get(event) else {
        return Some(Disabled::NoSuchEvent);
    };
    if !is_next(indexed, tables, events, found.thread, event) {
        return Some(Disabled::NotNext);
    }
    if !is_forked(indexed, tables, events, found.thread) {
        return Some(Disabled::NotForked);
    }
    refusal_of_op(indexed, tables, events, event, found)
}

/// The cause that comes from the event's operation, or None.
fn refusal_of_op(
    indexed: &Indexed,
    tables: &Tables,
    events: &[u32],
    event: u32,
    found: Event,
) -> Option<Disabled>
    requires found { slice_get indexed.now.events event ≡ Some found }
    requires named { IsNamed indexed.now found }
    requires tables { AreTables indexed.now.events events.now tables.now }
    requires reordering { IsCorrectReordering indexed.now.events events.now }
    ensures { result ≡ refusal_of_op indexed.now.events events.now event found.thread found.op }
{
    match found.op {
        Op::Read(variable) => read_refusal(indexed, tables, events, event, variable),
        Op::Acquire(lock) => acquire_refusal(indexed, tables, events, found.thread, lock),
        Op::Join(thread) => join_refusal(indexed, tables, events, thread),
        Op::Write(_) | Op::Release(_) | Op::Fork(_) => None,
    }
}

/// Refuses a read that would see another write than in the trace.
fn read_refusal(
    indexed: &Indexed,
    tables: &Tables,
    events: &[u32],
    event: u32,
    variable: u32,
) -> Option<Disabled>
    requires event { event < length indexed.now.events }
    requires tables { AreTables indexed.now.events events.now tables.now }
    ensures { (t : ℕ) → result ≡ refusal_of_op indexed.now.events events.now event t (Read variable) }
{
    let needs = indexed.last_writer(event);
    let has = last_write(indexed, tables, events, variable);
    if has == needs {
        return None;
    }
    Some(Disabled::WrongWriter { needs, has })
}

/// Refuses an acquire if another thread holds the lock.
fn acquire_refusal(
    indexed: &Indexed,
    tables: &Tables,
    events: &[u32],
    thread: u32,
    lock: u32,
) -> Option<Disabled>
    requires tables { AreTables indexed.now.events events.now tables.now }
    requires reordering { IsCorrectReordering indexed.now.events events.now }
    ensures { (e : ℕ) → result ≡ refusal_of_op indexed.now.events events.now e thread (Acquire lock) }
{
    let _len = indexed.len();
    match other_holder(indexed, tables, events, thread, lock) {
        Some(holder) => Some(Disabled::LockHeld { thread: holder }),
        None => None,
    }
}

/// Refuses a join if the thread has not ended in the list.
fn join_refusal(indexed: &Indexed, tables: &Tables, events: &[u32], thread: u32) -> Option<Disabled>
    requires thread { thread < length indexed.now.threads }
    requires tables { AreTables indexed.now.events events.now tables.now }
    requires reordering { IsCorrectReordering indexed.now.events events.now }
    ensures { (e t : ℕ) → result ≡ refusal_of_op indexed.now.events events.now e t (Join thread) }
{
    if is_ended(indexed, tables, events, thread) {
        return None;
    }
    Some(Disabled::JoinEarly)
}
