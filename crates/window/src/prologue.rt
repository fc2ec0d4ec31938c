//! The locks that a window's prologue takes, and the threads that wait for it.
ghost use Rattle.std.specs.Prelude.{◌≡◌, ◌&&◌, not, ◌-◌, ◌*◌, ◌≤◌, ◌∷◌, [], length, if◌then◌else◌, IfOk};
ghost use Rattle.rapid_text.specs.Appended.{Appended};
ghost use Rattle.window.specs.Cuts.{AreNamed, own_holds, own_readers, own_threads, prologue_of, prologue_size};
ghost use Rattle.window.specs.Made.{access_of, chain_of, reads_of};
ghost use Rattle.window.specs.Tables.{serving_holds};

use crate::holding::{Held, held_before};
use crate::touching::{forks_in, threads_in, touches_in};
use rapid_text::{Event, Op, OutOfMemory};
use std::alloc::Global;
use trace_rules::Trace;

// Adds the holds of a lock: all, but at most twice the number of events on the lock.
fn add_holds(
    holds: &mut Vec<(u32, u32)>,
    held: Held,
    lock: u32,
    touches: u32,
) -> Result<(), OutOfMemory>
    ensures { Appended result holds.old holds.new (serving_holds held lock touches) }
{
    let most = 2 * u64::from(touches);
    let depth = u64::from(held.depth);
    let count = if most < depth { most } else { depth };
    for _taken in 0..count {
        holds.push((held.thread, lock))?;
    }
    Ok(())
}

/// The holds at `from` of locks that events before `to` acquire or release.
fn holds_in(
    alloc: Global,
    trace: &Trace,
    from: u32,
    to: u32,
) -> Result<Vec<(u32, u32)>, OutOfMemory>
    requires from { from ≤ to }
    requires to { to ≤ length trace.now.events }
    ensures { IfOk result (λ holds. holds.items ≡ own_holds trace.now from to) }
{
    let held = held_before(alloc, trace, from)?;
    let touches = touches_in(alloc, trace, from, to)?;
    let mut holds = Vec::new(alloc);
    for lock in 0..trace.raw().locks() {
        add_holds(
            &mut holds,
            held[lock as usize],
            lock,
            touches[lock as usize],
        )?;
    }
    Ok(holds)
}

// Whether a thread waits: it has an event in the part, and is not forked there.
fn is_reader(found: bool, forked: bool) -> bool
    ensures { result ≡ (found && not forked) }
{
    found && !forked
}

// Adds the thread if it waits.
fn add_reader(readers: &mut Vec<u32>, waits: bool, thread: u32) -> Result<(), OutOfMemory>
    ensures { Appended result readers.old readers.new (if waits then thread ∷ [] else []) }
{
    if waits {
        readers.push(thread)?;
    }
    Ok(())
}

/// The threads that have an event from `from` to `to` and are not forked there.
fn readers_in(alloc: Global, trace: &Trace, from: u32, to: u32) -> Result<Vec<u32>, OutOfMemory>
    requires from { from ≤ to }
    requires to { to ≤ length trace.now.events }
    ensures { IfOk result (λ readers. readers.items ≡ own_threads trace.now from to) }
{
    let found = threads_in(alloc, trace, from, to)?;
    let forked = forks_in(alloc, trace, from, to)?;
    let mut readers = Vec::new(alloc);
    for thread in 0..trace.raw().threads() {
        let waits = is_reader(found[thread as usize], forked[thread as usize]);
        add_reader(&mut readers, waits, thread)?;
    }
    Ok(readers)
}

/// The threads that wait for these holds: none if there is no hold.
fn waiting_in(
    alloc: Global,
    trace: &Trace,
    from: u32,
    to: u32,
    holds: &[(u32, u32)],
) -> Result<Vec<u32>, OutOfMemory>
    requires from { from ≤ to }
    requires to { to ≤ length trace.now.events }
    requires holds { holds.now ≡ own_holds trace.now from to }
    ensures { IfOk result (λ readers. readers.items ≡ own_readers trace.now from to) }
{
    if holds.is_empty() {
        return Ok(Vec::new(alloc));
    }
    readers_in(alloc, trace, from, to)
}

// Adds the events of a hold to the chain. `variable` and `own` are the prologue's variable and lock.
fn add_links(
    events: &mut Vec<Event>,
    hold: (u32, u32),
    variable: u32,
    own: u32,
) -> Result<(), OutOfMemory>
    ensures { Appended result events.old events.new (chain_of variable own (hold ∷ [])) }
{
    let (thread, lock) = hold;
    add_access(events, thread, Op::Read(variable), own)?;
    events.push(Event {
        thread,
        op: Op::Acquire(lock),
    })?;
    add_access(events, thread, Op::Write(variable), own)
}

// Adds an access that is made under the prologue's lock.
fn add_access(events: &mut Vec<Event>, thread: u32, op: Op, own: u32) -> Result<(), OutOfMemory>
    ensures { Appended result events.old events.new (access_of own thread op) }
{
    events.push(Event {
        thread,
        op: Op::Acquire(own),
    })?;
    events.push(Event { thread, op })?;
    events.push(Event {
        thread,
        op: Op::Release(own),
    })?;
    Ok(())
}

// Adds the chain of the holds.
fn add_chain(
    events: &mut Vec<Event>,
    holds: &[(u32, u32)],
    variable: u32,
    own: u32,
) -> Result<(), OutOfMemory>
    ensures { Appended result events.old events.new (chain_of variable own holds.now) }
{
    for at in 0..holds.len() {
        add_links(events, holds[at], variable, own)?;
    }
    Ok(())
}

// Adds a read by each thread of `readers`.
fn add_reads(
    events: &mut Vec<Event>,
    readers: &[u32],
    variable: u32,
    own: u32,
) -> Result<(), OutOfMemory>
    ensures { Appended result events.old events.new (reads_of variable own readers.now) }
{
    for at in 0..readers.len() {
        add_access(events, readers[at], Op::Read(variable), own)?;
    }
    Ok(())
}

// The events of the prologue, in order.
fn events_in(alloc: Global, trace: &Trace, from: u32, to: u32) -> Result<Vec<Event>, OutOfMemory>
    requires from { from ≤ to }
    requires to { to ≤ length trace.now.events }
    ensures { IfOk result (λ events. events.items ≡ prologue_of trace.now from to) }
{
    let holds = holds_in(alloc, trace, from, to)?;
    let readers = waiting_in(alloc, trace, from, to, holds.as_slice())?;
    let variable = trace.raw().variables();
    let own = trace.raw().locks();
    let mut events = Vec::new(alloc);
    add_chain(&mut events, holds.as_slice(), variable, own)?;
    add_reads(&mut events, readers.as_slice(), variable, own)?;
    Ok(events)
}

/// The events of the prologue of the window from `from` to `to`.
pub(crate) fn prologue_in(
    alloc: Global,
    trace: &Trace,
    from: u32,
    to: u32,
) -> Result<Vec<Event>, OutOfMemory>
    requires from { from ≤ to }
    requires to { to ≤ length trace.now.events }
    ensures events { IfOk result (λ events. events.items ≡ prologue_of trace.now from to) }
    ensures named { IfOk result (λ events. AreNamed trace.now events.items) }
    ensures size { IfOk result (λ events. length events.items ≡ prologue_size trace.now from to) }
    ensures short { IfOk result (λ events. length events.items ≤ 17 * (to - from)) }
{
    // the trace is well formed
    let _ = trace.raw();
    let events = events_in(alloc, trace, from, to)?;
    Ok(events)
}
