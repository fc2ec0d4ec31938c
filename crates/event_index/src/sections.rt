//! Finds the end of each acquire's critical section, in one pass with a stack of open acquires for each lock.
ghost use Rattle.std.specs.Prelude.{◌≡◌, ◌+◌, ◌<◌, length, replicate, IfOk, None};
ghost use Rattle.rapid_text.specs.declared.event.Op.TheVariants.{Acquire, Release};
ghost use Rattle.trace_rules.specs.Rules.{IsDisciplined};
ghost use Rattle.event_index.specs.Lookups.{section_end};
ghost use Rattle.event_index.specs.Layout.{TellsEvents};
ghost use Rattle.event_index.specs.Open.{AreOpen, HasOp};

use rapid_text::{Op, OutOfMemory, RawTrace};
use std::alloc::Global;

/// What the pass knows after some events: the ends of the sections that have ended, and the sections that are open.
#[derive(Drop)]
pub(crate) struct Open {
    // For each acquire the release that ends its section; None while the section is open, and for other events.
    ends: Vec<Option<u32>>,
    // For each lock its last open acquire. For each open acquire, the acquire of the same lock that was open before
    // it.
    top: Vec<Option<u32>>,
    outer: Vec<Option<u32>>,
}

/// For each acquire the release that ends its critical section; None for other events.
pub(crate) fn sections_of(alloc: Global, raw: &RawTrace) -> Result<Vec<Option<u32>>, OutOfMemory>
    requires { IsDisciplined raw.now.events }
    ensures { IfOk result (λ sections. TellsEvents section_end raw.now sections.items) }
{
    let mut known = nothing_open(alloc, raw)?;
    for event in 0..raw.len() {
        take_in(&mut known, raw, event);
    }
    Ok(known.ends)
}

// What the pass knows before the first event.
fn nothing_open(alloc: Global, raw: &RawTrace) -> Result<Open, OutOfMemory>
    ensures { IfOk result (λ known. AreOpen raw.now 0 known) }
{
    Ok(Open {
        ends: none_for(alloc, raw.len() as usize)?,
        top: none_for(alloc, raw.locks() as usize)?,
        outer: none_for(alloc, raw.len() as usize)?,
    })
}

fn none_for(alloc: Global, count: usize) -> Result<Vec<Option<u32>>, OutOfMemory>
    ensures { IfOk result (λ made. made.items ≡ replicate count None) }
{
    Ok(vec![in alloc; None; count]?)
}

// Adds the event to what the pass knows.
fn take_in(known: &mut Open, raw: &RawTrace, event: u32)
    requires disciplined { IsDisciplined raw.now.events }
    requires event { event < length raw.now.events }
    requires known { AreOpen raw.now event known.old }
    ensures { AreOpen raw.now (event + 1) known.new }
{
    match raw.event(event).op {
        Op::Acquire(lock) => begin(known, raw, event, lock),
        Op::Release(lock) => end(known, raw, event, lock),
        Op::Read(_) | Op::Write(_) | Op::Fork(_) | Op::Join(_) => {}
    }
}

// Adds an acquire of the lock to what the pass knows.
fn begin(known: &mut Open, raw: &RawTrace, event: u32, lock: u32)
    requires disciplined { IsDisciplined raw.now.events }
    requires event { event < length raw.now.events }
    requires lock { lock < length raw.now.locks }
    requires acquire { HasOp raw.now.events event (Acquire lock) }
    requires known { AreOpen raw.now event known.old }
    ensures { AreOpen raw.now (event + 1) known.new }
{
    known.outer[event as usize] = known.top[lock as usize];
    known.top[lock as usize] = Some(event);
}

// Adds a release of the lock to what the pass knows: it ends the section of the last open acquire.
fn end(known: &mut Open, raw: &RawTrace, event: u32, lock: u32)
    requires disciplined { IsDisciplined raw.now.events }
    requires event { event < length raw.now.events }
    requires lock { lock < length raw.now.locks }
    requires release { HasOp raw.now.events event (Release lock) }
    requires known { AreOpen raw.now event known.old }
    ensures { AreOpen raw.now (event + 1) known.new }
{
    if let Some(acquire) = known.top[lock as usize] {
        known.ends[acquire as usize] = Some(event);
        known.top[lock as usize] = known.outer[acquire as usize];
    }
}
