//! What two requests need, as a count of events for each thread. It guides the search for a schedule. No contract rests
//! on it, because each schedule is judged.
ghost use Rattle.std.specs.Prelude.{◌≡◌, ◌<◌, All, IfSome, length};
ghost use Rattle.rapid_text.specs.Appended.{IfFound};

use crate::requests::acquired;
use event_index::Indexed;
use must_order::Must;
use rapid_text::OutOfMemory;
use std::alloc::Global;

// No acquire of the lock was visited.
const NONE: u32 = u32::MAX;

/// For each thread, how many of its first events the requests need. With `in_order`, they also need what each list in
/// the order of the trace needs. None if a section has to end and does not.
pub(crate) fn needs_of(
    alloc: Global,
    indexed: &Indexed,
    must: &Must,
    requests: &[u32],
    in_order: bool,
) -> Result<Option<Vec<u32>>, OutOfMemory>
    requires must { must.now ≡ indexed.now }
    requires requests { All (λ e. e < length indexed.now.events) requests.now }
    ensures len { IfFound result (λ row. length row.items ≡ length indexed.now.threads) }
{
    let threads = indexed.threads() as usize;
    let mut row = vec![in alloc; 0u32; threads]?;
    let mut visited = vec![in alloc; 0u32; threads]?;
    let mut latest = vec![in alloc; NONE; indexed.locks() as usize]?;
    for at in 0..requests.len() {
        raise(&mut row, indexed, must, indexed.base(requests[at]));
    }
    for _round in 0..indexed.len() {
        if !visit_threads(
            &mut row,
            &mut visited,
            &mut latest,
            indexed,
            must,
            requests,
            in_order,
        ) {
            return Ok(None);
        }
        if row.as_slice() == visited.as_slice() {
            return Ok(Some(row));
        }
    }
    Ok(Some(row))
}

// Counts the event, if there is one, and what is must-before it.
fn raise(row: &mut Vec<u32>, indexed: &Indexed, must: &Must, event: Option<u32>)
    requires must { must.now ≡ indexed.now }
    requires within { IfSome event (λ e. e < length indexed.now.events) }
    requires len { length row.old.items ≡ length indexed.now.threads }
    ensures len { length row.new.items ≡ length indexed.now.threads }
{
    let _threads = indexed.threads();
    if let Some(event) = event {
        must.rows().raise(event, row);
    }
}

// Visits the counted events of each thread that were not visited. False if a section has to end and does not.
fn visit_threads(
    row: &mut Vec<u32>,
    visited: &mut Vec<u32>,
    latest: &mut Vec<u32>,
    indexed: &Indexed,
    must: &Must,
    requests: &[u32],
    in_order: bool,
) -> bool
    requires must { must.now ≡ indexed.now }
    requires requests { All (λ e. e < length indexed.now.events) requests.now }
    requires row { length row.old.items ≡ length indexed.now.threads }
    requires visited { length visited.old.items ≡ length indexed.now.threads }
    ensures row { length row.new.items ≡ length indexed.now.threads }
    ensures visited { length visited.new.items ≡ length indexed.now.threads }
{
    for thread in 0..indexed.threads() {
        let from = visited[thread as usize] as usize;
        let to = row[thread as usize];
        visited[thread as usize] = to;
        let events = indexed.thread_events(thread);
        for place in from..to as usize {
            if let Some(event) = events.get(place) {
                if !visit(row, latest, indexed, must, requests, in_order, *event) {
                    return false;
                }
            }
        }
    }
    true
}

// Counts the end of the section that the event begins, if it has to end. False if it has to end and does not.
fn visit(
    row: &mut Vec<u32>,
    latest: &mut Vec<u32>,
    indexed: &Indexed,
    must: &Must,
    requests: &[u32],
    in_order: bool,
    event: u32,
) -> bool
    requires event { event < length indexed.now.events }
    requires must { must.now ≡ indexed.now }
    requires requests { All (λ e. e < length indexed.now.events) requests.now }
    requires row { length row.old.items ≡ length indexed.now.threads }
    ensures row { length row.new.items ≡ length indexed.now.threads }
{
    let Some(lock) = acquired(indexed, event) else {
        return true;
    };
    if must.held_since(indexed, event, lock).is_some() {
        return true;
    }
    if is_held_by_other(indexed, must, requests, event, lock) && !end(row, indexed, must, event) {
        return false;
    }
    if !in_order {
        return true;
    }
    match earlier_of(latest, indexed, event, lock) {
        Some(earlier) => end(row, indexed, must, earlier),
        None => true,
    }
}

// Counts the end of the section that the event begins. False if it has none.
fn end(row: &mut Vec<u32>, indexed: &Indexed, must: &Must, event: u32) -> bool
    requires must { must.now ≡ indexed.now }
    requires event { event < length indexed.now.events }
    requires row { length row.old.items ≡ length indexed.now.threads }
    ensures row { length row.new.items ≡ length indexed.now.threads }
{
    let found = indexed.section(event);
    raise(row, indexed, must, found);
    found.is_some()
}

// Of the event, an acquire of the lock, and the latest one visited before it: the earlier one, if they are of two
// threads. Notes the later one.
fn earlier_of(latest: &mut Vec<u32>, indexed: &Indexed, event: u32, lock: u32) -> Option<u32>
    requires event { event < length indexed.now.events }
    ensures { IfSome result (λ e. e < length indexed.now.events) }
{
    let noted = latest.as_mut_slice().get_mut(lock as usize)?;
    let before = *noted;
    if before >= indexed.len() {
        *noted = event;
        return None;
    }
    *noted = before.max(event);
    if indexed.event(before).thread == indexed.event(event).thread {
        return None;
    }
    Some(before.min(event))
}

// Whether the thread of a request, another one than the event's, holds the lock before the request.
fn is_held_by_other(indexed: &Indexed, must: &Must, requests: &[u32], event: u32, lock: u32) -> bool
    requires event { event < length indexed.now.events }
    requires lock { lock < length indexed.now.locks }
    requires must { must.now ≡ indexed.now }
    requires requests { All (λ e. e < length indexed.now.events) requests.now }
{
    for at in 0..requests.len() {
        if indexed.event(requests[at]).thread != indexed.event(event).thread
            && must.held_since(indexed, requests[at], lock).is_some()
        {
            return true;
        }
    }
    false
}
