//! How far the sections reach that a thread has begun.
ghost use Rattle.std.specs.Prelude.{◌≡◌, ◌<◌, length, IfOk, IfSome, None};
ghost use Rattle.event_index.specs.Lookups.{place_of};
ghost use Rattle.witness_search.specs.trace_order.Tables.{AreReachesUpTo, IsNextAfter, IsOwnEnd, IsReach};
ghost use Rattle.witness_search.specs.trace_order.Rows.{AreReaches};

use event_index::Indexed;
use rapid_text::OutOfMemory;
use std::alloc::Global;

/// For each event, the last of the event and the ends of all sections that its thread began up to it.
pub(crate) fn reaches_of(alloc: Global, indexed: &Indexed) -> Result<Vec<u32>, OutOfMemory>
    ensures { IfOk result (λ made. AreReaches indexed.now.events made.items) }
{
    let mut reach = Vec::with_capacity(alloc, indexed.len() as usize)?;
    for event in 0..indexed.len() {
        let next = reach_at(reach.as_slice(), indexed, event);
        reach.push(next)?;
    }
    Ok(reach)
}

// The same for one event, from the entries of the events before it.
fn reach_at(reach: &[u32], indexed: &Indexed, event: u32) -> u32
    requires event { event < length indexed.now.events }
    requires known { AreReachesUpTo indexed.now.events event reach.now }
    ensures { IsReach indexed.now.events event result }
{
    let _len = indexed.len();
    let own = own_end(indexed, event);
    match before(indexed, event) {
        None => own,
        Some(last) => reach[last as usize].max(own),
    }
}

// The end of the section that the event begins, or else the event itself.
fn own_end(indexed: &Indexed, event: u32) -> u32
    requires event { event < length indexed.now.events }
    ensures own { IsOwnEnd indexed.now.events event result }
{
    let _len = indexed.len();
    match indexed.section(event) {
        Some(end) => end,
        None => event,
    }
}

// The event before this one in its thread, or None.
fn before(indexed: &Indexed, event: u32) -> Option<u32>
    requires event { event < length indexed.now.events }
    ensures before { IfSome result (λ q. IsNextAfter indexed.now.events q event) }
    ensures none { result ≡ None → place_of indexed.now.events event ≡ 0 }
{
    let place = indexed.place(event) as usize;
    if place == 0 {
        return None;
    }
    let thread = indexed.event(event).thread;
    Some(indexed.thread_events(thread)[place - 1])
}
