//! Caches the last writes of the variables that a search by counts looks at.
ghost use Rattle.std.specs.Prelude.{◌≡◌, ◌<◌, length, nat_eq, IfSome, OnOk};
ghost use Rattle.std.specs.HashMap.{get};
ghost use Rattle.event_index.specs.Lookups.{last_write};
ghost use Rattle.witness_search.specs.trace_order.Standing.{start_of, KeepsNotes};

use crate::trace_order::acquires::Acquires;
use crate::trace_order::enabling::Aim;
use crate::trace_order::writing::last_counted;
use event_index::Indexed;
use rapid_text::{Op, OutOfMemory};
use std::collections::HashMap;

/// Notes the last writes of the variables that the threads' next events read. So a search goes over the writes of a
/// variable only once.
pub(crate) fn note_reads(
    last: &mut HashMap<u32, Option<u32>>,
    indexed: &Indexed,
    acquires: &Acquires,
    aim: &Aim,
    row: &[u32],
) -> Result<(), OutOfMemory>
    requires acquires { acquires.now ≡ indexed.now }
    requires start { length aim.now.start.items ≡ length indexed.now.threads }
    requires row { length row.now ≡ length indexed.now.threads }
    ensures { OnOk result (KeepsNotes indexed.now aim.now (get nat_eq last.old) (get nat_eq last.new)) }
{
    for thread in 0..indexed.threads() {
        note_next(last, indexed, acquires, aim, row, thread)?;
    }
    Ok(())
}

// The same for one thread.
fn note_next(
    last: &mut HashMap<u32, Option<u32>>,
    indexed: &Indexed,
    acquires: &Acquires,
    aim: &Aim,
    row: &[u32],
    thread: u32,
) -> Result<(), OutOfMemory>
    requires acquires { acquires.now ≡ indexed.now }
    requires thread { thread < length indexed.now.threads }
    requires start { length aim.now.start.items ≡ length indexed.now.threads }
    requires row { length row.now ≡ length indexed.now.threads }
    ensures { OnOk result (KeepsNotes indexed.now aim.now (get nat_eq last.old) (get nat_eq last.new)) }
{
    match read_next(indexed, row, thread) {
        Some(variable) => keep(last, indexed, acquires, aim, variable),
        None => Ok(()),
    }
}

// The variable that the thread's next event reads, or None.
fn read_next(indexed: &Indexed, row: &[u32], thread: u32) -> Option<u32>
    requires thread { thread < length indexed.now.threads }
    requires row { length row.now ≡ length indexed.now.threads }
    ensures { IfSome result (λ x. x < length indexed.now.variables) }
{
    let events = indexed.thread_events(thread);
    let count = row[thread as usize] as usize;
    if count >= events.len() {
        return None;
    }
    match indexed.event(events[count]).op {
        Op::Read(variable) => Some(variable),
        Op::Write(_) => None,
        Op::Acquire(_) => None,
        Op::Release(_) => None,
        Op::Fork(_) => None,
        Op::Join(_) => None,
    }
}

// Notes the last write of the variable that the start counts, unless a write is noted already.
fn keep(
    last: &mut HashMap<u32, Option<u32>>,
    indexed: &Indexed,
    acquires: &Acquires,
    aim: &Aim,
    variable: u32,
) -> Result<(), OutOfMemory>
    requires acquires { acquires.now ≡ indexed.now }
    requires variable { variable < length indexed.now.variables }
    requires start { length aim.now.start.items ≡ length indexed.now.threads }
    ensures { OnOk result (KeepsNotes indexed.now aim.now (get nat_eq last.old) (get nat_eq last.new)) }
{
    if let Some(_) = last.get(&variable) {
        return Ok(());
    }
    let found = last_of_start(indexed, acquires, aim, variable);
    last.insert(variable, found)?;
    Ok(())
}

/// The last write of the variable that the start counts, or None.
pub(crate) fn last_of_start(
    indexed: &Indexed,
    acquires: &Acquires,
    aim: &Aim,
    variable: u32,
) -> Option<u32>
    requires acquires { acquires.now ≡ indexed.now }
    requires variable { variable < length indexed.now.variables }
    requires start { length aim.now.start.items ≡ length indexed.now.threads }
    ensures { result ≡ last_write indexed.now.events variable (start_of indexed.now aim.now) }
{
    last_counted(
        acquires.writes[variable as usize].as_slice(),
        indexed,
        aim.start.as_slice(),
        variable,
    )
}
