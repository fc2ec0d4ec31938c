//! What the events of a part do: how many are on each lock, which threads they have, and which they fork or join.
ghost use Rattle.std.specs.Prelude.{◌+◌, ◌<◌, ◌≤◌, length, IfOk};
ghost use Rattle.window.specs.Tables.{IsForkTable, IsJoinTable, IsThreadTable, IsTouchTable};

use rapid_text::{Op, OutOfMemory};
use std::alloc::Global;
use trace_rules::Trace;

/// For each lock, the number of events from `from` to `to` that acquire or release it.
pub(crate) fn touches_in(
    alloc: Global,
    trace: &Trace,
    from: u32,
    to: u32,
) -> Result<Vec<u32>, OutOfMemory>
    requires from { from ≤ to }
    requires to { to ≤ length trace.now.events }
    ensures { IfOk result (λ counts. IsTouchTable trace.now from to counts.items) }
{
    let mut counts = vec![in alloc; 0u32; trace.raw().locks() as usize]?;
    for event in from..to {
        note_touch(&mut counts, trace, from, event);
    }
    Ok(counts)
}

// Adds the event to the counts, which are those before it.
fn note_touch(counts: &mut Vec<u32>, trace: &Trace, from: u32, at: u32)
    requires from { from ≤ at }
    requires event { at < length trace.now.events }
    requires table { IsTouchTable trace.now from at counts.old.items }
    ensures { IsTouchTable trace.now from (at + 1) counts.new.items }
{
    match trace.raw().event(at).op {
        Op::Acquire(lock) => counts[lock as usize] += 1,
        Op::Release(lock) => counts[lock as usize] += 1,
        Op::Read(_) | Op::Write(_) | Op::Fork(_) | Op::Join(_) => {}
    }
}

/// For each thread, whether it has an event from `from` to `to`.
pub(crate) fn threads_in(
    alloc: Global,
    trace: &Trace,
    from: u32,
    to: u32,
) -> Result<Vec<bool>, OutOfMemory>
    requires from { from ≤ to }
    requires to { to ≤ length trace.now.events }
    ensures { IfOk result (λ found. IsThreadTable trace.now from to found.items) }
{
    let mut found = vec![in alloc; false; trace.raw().threads() as usize]?;
    for event in from..to {
        note_thread(&mut found, trace, from, event);
    }
    Ok(found)
}

// Adds the event to the table, which has the events before it.
fn note_thread(found: &mut Vec<bool>, trace: &Trace, from: u32, at: u32)
    requires from { from ≤ at }
    requires event { at < length trace.now.events }
    requires table { IsThreadTable trace.now from at found.old.items }
    ensures { IsThreadTable trace.now from (at + 1) found.new.items }
{
    found[trace.raw().event(at).thread as usize] = true;
}

/// For each thread, whether an event from `from` to `to` forks it.
pub(crate) fn forks_in(
    alloc: Global,
    trace: &Trace,
    from: u32,
    to: u32,
) -> Result<Vec<bool>, OutOfMemory>
    requires from { from ≤ to }
    requires to { to ≤ length trace.now.events }
    ensures { IfOk result (λ found. IsForkTable trace.now from to found.items) }
{
    let mut found = vec![in alloc; false; trace.raw().threads() as usize]?;
    for event in from..to {
        note_fork(&mut found, trace, from, event);
    }
    Ok(found)
}

// Adds the event to the table, which has the events before it.
fn note_fork(found: &mut Vec<bool>, trace: &Trace, from: u32, at: u32)
    requires from { from ≤ at }
    requires event { at < length trace.now.events }
    requires table { IsForkTable trace.now from at found.old.items }
    ensures { IsForkTable trace.now from (at + 1) found.new.items }
{
    if let Op::Fork(thread) = trace.raw().event(at).op {
        found[thread as usize] = true;
    }
}

/// For each thread, whether an event from `from` to `to` joins it.
pub(crate) fn joins_in(
    alloc: Global,
    trace: &Trace,
    from: u32,
    to: u32,
) -> Result<Vec<bool>, OutOfMemory>
    requires from { from ≤ to }
    requires to { to ≤ length trace.now.events }
    ensures { IfOk result (λ found. IsJoinTable trace.now from to found.items) }
{
    let mut found = vec![in alloc; false; trace.raw().threads() as usize]?;
    for event in from..to {
        note_join(&mut found, trace, from, event);
    }
    Ok(found)
}

// Adds the event to the table, which has the events before it.
fn note_join(found: &mut Vec<bool>, trace: &Trace, from: u32, at: u32)
    requires from { from ≤ at }
    requires event { at < length trace.now.events }
    requires table { IsJoinTable trace.now from at found.old.items }
    ensures { IsJoinTable trace.now from (at + 1) found.new.items }
{
    if let Op::Join(thread) = trace.raw().event(at).op {
        found[thread as usize] = true;
    }
}
