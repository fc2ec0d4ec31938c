//! Who holds each lock before an event.
ghost use Rattle.std.specs.Prelude.{◌≡◌, ◌+◌, ◌<◌, ◌≤◌, length, IfOk};
ghost use Rattle.window.specs.Tables.{AreHeld};

use rapid_text::{Op, OutOfMemory};
use std::alloc::Global;
use trace_rules::Trace;

/// The thread that holds a lock, and the number of its holds; or any thread, and 0.
#[derive(Clone, Copy)]
pub(crate) struct Held {
    pub(crate) thread: u32,
    pub(crate) depth: u32,
}

/// The hold of each lock before this event.
pub(crate) fn held_before(alloc: Global, trace: &Trace, at: u32) -> Result<Vec<Held>, OutOfMemory>
    requires { at ≤ length trace.now.events }
    ensures { IfOk result (λ held. AreHeld trace.now.events at (length trace.now.locks) held.items) }
{
    let none = Held {
        thread: 0,
        depth: 0,
    };
    let mut held = vec![in alloc; none; trace.raw().locks() as usize]?;
    for event in 0..at {
        note_hold(&mut held, trace, event);
    }
    Ok(held)
}

// Adds the event to the holds, which are those before it.
fn note_hold(held: &mut Vec<Held>, trace: &Trace, at: u32)
    requires event { at < length trace.now.events }
    requires held { AreHeld trace.now.events at (length trace.now.locks) held.old.items }
    ensures { AreHeld trace.now.events (at + 1) (length trace.now.locks) held.new.items }
{
    let event = trace.raw().event(at);
    match event.op {
        Op::Acquire(lock) => {
            let depth = held[lock as usize].depth;
            held[lock as usize] = Held {
                thread: event.thread,
                depth: depth + 1,
            };
        }
        Op::Release(lock) => {
            let depth = held[lock as usize].depth;
            held[lock as usize] = Held {
                thread: event.thread,
                depth: depth - 1,
            };
        }
        Op::Read(_) | Op::Write(_) | Op::Fork(_) | Op::Join(_) => {}
    }
}
