//! The events of all threads in one list, thread by thread.
ghost use Rattle.std.specs.Prelude.{◌+◌, ◌<◌, length, IfOk};
ghost use Rattle.rapid_text.specs.Recording.{IsWellFormed};
ghost use Rattle.event_index.specs.Lookups.{place_of};
ghost use Rattle.event_index.specs.Layout.{IsFilled, total_of, AreStarts, TellsEvents, TellsThreads, AreGrouped};

use rapid_text::{OutOfMemory, RawTrace};
use std::alloc::Global;

/// The index in the list at which the events of each thread begin, and after these the length of the list. `counts`
/// has each thread's number of events.
pub(crate) fn starts_of(
    alloc: Global,
    raw: &RawTrace,
    counts: &[u32],
) -> Result<Vec<u32>, OutOfMemory>
    requires counts { TellsThreads total_of raw.now counts.now }
    ensures { IfOk result (λ starts. AreStarts raw.now starts.items) }
{
    let threads = raw.threads() as usize;
    let mut starts = Vec::with_capacity(alloc, threads + 1)?;
    let mut start = 0;
    for thread in 0..threads {
        starts.push(start)?;
        start += counts[thread];
    }
    starts.push(start)?;
    Ok(starts)
}

/// The list: an event's index is the start of its thread plus the event's place in its thread.
pub(crate) fn grouped_of(
    alloc: Global,
    raw: &RawTrace,
    places: &[u32],
    starts: &[u32],
) -> Result<Vec<u32>, OutOfMemory>
    requires places { TellsEvents place_of raw.now places.now }
    requires starts { AreStarts raw.now starts.now }
    ensures { IfOk result (λ grouped. AreGrouped raw.now grouped.items starts.now) }
{
    let mut grouped = vec![in alloc; 0u32; raw.len() as usize]?;
    for event in 0..raw.len() {
        put(&mut grouped, raw, places, starts, event);
    }
    Ok(grouped)
}

// Puts the event at its index. The events before it are already there.
fn put(grouped: &mut Vec<u32>, raw: &RawTrace, places: &[u32], starts: &[u32], event: u32)
    requires well_formed { IsWellFormed raw.now }
    requires event { event < length raw.now.events }
    requires places { TellsEvents place_of raw.now places.now }
    requires starts { AreStarts raw.now starts.now }
    requires filled { IsFilled raw.now.events (length raw.now.threads) event grouped.old.items }
    ensures { IsFilled raw.now.events (length raw.now.threads) (event + 1) grouped.new.items }
{
    let start = starts[raw.event(event).thread as usize];
    grouped[(start + places[event as usize]) as usize] = event;
}
