//! Tables that one pass over the events makes, with the last event so far of each thread or variable.
ghost use Rattle.std.specs.Prelude.{◌≡◌, ◌+◌, ◌<◌, length, IfOk};
ghost use Rattle.rapid_text.specs.Recording.{IsWellFormed};
ghost use Rattle.event_index.specs.Lookups.{place_of, last_writer, before, fork_of, base_of};
ghost use Rattle.event_index.specs.Layout.{IsTable, fork_before, last_before, total_of, AreCountsBefore, TellsEvents, TellsThreads, AreLastWrites};

use rapid_text::{Op, OutOfMemory, RawTrace};
use std::alloc::Global;

/// The event that forks each thread, or None.
pub(crate) fn forks_of(alloc: Global, raw: &RawTrace) -> Result<Vec<Option<u32>>, OutOfMemory>
    ensures { IfOk result (λ forks. TellsThreads fork_of raw.now forks.items) }
{
    let mut forks = vec![in alloc; None; raw.threads() as usize]?;
    for event in 0..raw.len() {
        note_fork(&mut forks, raw, event);
    }
    Ok(forks)
}

// Adds the event to the table of forks, which has the forks before it.
fn note_fork(forks: &mut Vec<Option<u32>>, raw: &RawTrace, event: u32)
    requires event { event < length raw.now.events }
    requires table { IsTable (fork_before raw.now.events event) (length raw.now.threads) forks.old.items }
    ensures { IsTable (fork_before raw.now.events (event + 1)) (length raw.now.threads) forks.new.items }
{
    if let Op::Fork(thread) = raw.event(event).op {
        let thread = thread as usize;
        forks[thread] = forks[thread].or(Some(event));
    }
}

/// The write that each event sees, or None.
pub(crate) fn writers_of(alloc: Global, raw: &RawTrace) -> Result<Vec<Option<u32>>, OutOfMemory>
    ensures { IfOk result (λ writers. TellsEvents last_writer raw.now writers.items) }
{
    let mut writers = Vec::with_capacity(alloc, raw.len() as usize)?;
    let mut last = vec![in alloc; None; raw.variables() as usize]?;
    for event in 0..raw.len() {
        writers.push(seen_by(&mut last, raw, event))?;
    }
    Ok(writers)
}

// The write that the event sees. Adds the event to the last writes, which are those before it.
fn seen_by(last: &mut Vec<Option<u32>>, raw: &RawTrace, event: u32) -> Option<u32>
    requires event { event < length raw.now.events }
    requires table { AreLastWrites raw.now event last.old.items }
    ensures seen { result ≡ last_writer raw.now.events event }
    ensures table { AreLastWrites raw.now (event + 1) last.new.items }
{
    match raw.event(event).op {
        Op::Read(variable) => last[variable as usize],
        Op::Write(variable) => {
            last[variable as usize] = Some(event);
            None
        }
        Op::Acquire(_) | Op::Release(_) | Op::Fork(_) | Op::Join(_) => None,
    }
}

/// The place of each event in its thread, and the number of events of each thread.
pub(crate) fn places_of(alloc: Global, raw: &RawTrace) -> Result<(Vec<u32>, Vec<u32>), OutOfMemory>
    ensures places { IfOk result (λ made. TellsEvents place_of raw.now made.0.items) }
    ensures counts { IfOk result (λ made. TellsThreads total_of raw.now made.1.items) }
{
    let mut places = Vec::with_capacity(alloc, raw.len() as usize)?;
    let mut counts = vec![in alloc; 0u32; raw.threads() as usize]?;
    for event in 0..raw.len() {
        places.push(count_in(&mut counts, raw, event))?;
    }
    Ok((places, counts))
}

// The place of the event in its thread. Adds the event to the counts, which are those before it.
fn count_in(counts: &mut Vec<u32>, raw: &RawTrace, event: u32) -> u32
    requires well_formed { IsWellFormed raw.now }
    requires event { event < length raw.now.events }
    requires table { AreCountsBefore raw.now event counts.old.items }
    ensures place { result ≡ place_of raw.now.events event }
    ensures table { AreCountsBefore raw.now (event + 1) counts.new.items }
{
    let thread = raw.event(event).thread as usize;
    let place = counts[thread];
    counts[thread] = place + 1;
    place
}

/// The base of each event, or None.
pub(crate) fn bases_of(
    alloc: Global,
    raw: &RawTrace,
    forks: &[Option<u32>],
) -> Result<Vec<Option<u32>>, OutOfMemory>
    requires forks { TellsThreads fork_of raw.now forks.now }
    ensures { IfOk result (λ bases. TellsEvents base_of raw.now bases.items) }
{
    let mut bases = Vec::with_capacity(alloc, raw.len() as usize)?;
    let mut last = vec![in alloc; None; raw.threads() as usize]?;
    for event in 0..raw.len() {
        bases.push(base_at(&mut last, raw, forks, event))?;
    }
    Ok(bases)
}

// The base of the event. Adds the event to the last events of the threads, which are those before it.
fn base_at(
    last: &mut Vec<Option<u32>>,
    raw: &RawTrace,
    forks: &[Option<u32>],
    event: u32,
) -> Option<u32>
    requires event { event < length raw.now.events }
    requires forks { TellsThreads fork_of raw.now forks.now }
    requires table { IsTable (last_before raw.now.events event) (length raw.now.threads) last.old.items }
    ensures base { result ≡ base_of raw.now.events event }
    ensures table { IsTable (last_before raw.now.events (event + 1)) (length raw.now.threads) last.new.items }
{
    let thread = raw.event(event).thread as usize;
    let base = last[thread].or(forks[thread]);
    last[thread] = Some(event);
    base
}
