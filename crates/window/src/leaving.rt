//! A text that takes the locks that a trace holds at its end.
ghost use Rattle.std.specs.Prelude.{◌≡◌, ℕ, All, IfOk, OnOk};
ghost use Rattle.rapid_text.specs.Appended.{Appended};
ghost use Rattle.rapid_text.specs.declared.event.Op.{Op};
ghost use Rattle.window.specs.Streams.{HoldTheSame, HoldsIn, IsOf};
ghost use Rattle.window.specs.Tables.{AddsTakes, takes_of};

use crate::holding::{Held, held_before};
use crate::lines::append_prologue;
use rapid_text::{Event, Op, OutOfMemory};
use std::alloc::Global;
use trace_rules::Trace;

// Adds an acquire of the lock for each hold.
fn add_takes(events: &mut Vec<Event>, held: Held, lock: u32) -> Result<(), OutOfMemory>
    ensures { Appended result events.old events.new (takes_of held lock) }
{
    for _taken in 0..held.depth {
        events.push(Event {
            thread: held.thread,
            op: Op::Acquire(lock),
        })?;
    }
    Ok(())
}

// Adds acquires for all locks that are held after the trace.
fn add_holds(alloc: Global, trace: &Trace, events: &mut Vec<Event>) -> Result<(), OutOfMemory>
    ensures { OnOk result (AddsTakes trace.now events.old.items events.new.items) }
{
    let held = held_before(alloc, trace, trace.raw().len())?;
    for lock in 0..trace.raw().locks() {
        add_takes(events, held[lock as usize], lock)?;
    }
    Ok(())
}

// Acquires for all locks that are held after the trace.
fn takes_after(alloc: Global, trace: &Trace) -> Result<Vec<Event>, OutOfMemory>
    ensures named { IfOk result (λ events. All (IsOf trace.now) events.items) }
    ensures takes { IfOk result (λ events. All (λ e. (l : ℕ) × (e.op ≡ Op.Acquire l)) events.items) }
    ensures holds { IfOk result (λ events. HoldTheSame trace.now.events events.items) }
{
    // the trace is well formed
    let _ = trace.raw();
    let mut events = Vec::new(alloc);
    add_holds(alloc, trace, &mut events)?;
    Ok(events)
}

/// The text of acquires for all locks that are held after the trace, and their number.
pub(crate) fn held_text(alloc: Global, trace: &Trace) -> Result<(Vec<u8>, usize), OutOfMemory>
    ensures { IfOk result (λ made. HoldsIn trace.now made.0.items made.1) }
{
    let events = takes_after(alloc, trace)?;
    let mut text = Vec::new(alloc);
    let all = events.as_slice();
    append_prologue(&mut text, trace.raw(), b"seen", all)?;
    Ok((text, all.len()))
}
