//! Whether requests require what cannot be. What they require is kept as one count for each thread.
ghost use Rattle.std.specs.Prelude.{◌≡◌, ◌≢◌, ◌<◌, ◌≤◌, ◌↔◌, ℕ, All, IfOk, IfSome, IsTrue, None, Some, false, length, replicate, slice_index};
ghost use Rattle.rapid_text.specs.declared.event.Op.TheVariants.{Acquire};
ghost use Rattle.event_index.specs.Events.{op_at, thread_at};
ghost use Rattle.event_index.specs.Lookups.{events_of, place_of};
ghost use Rattle.must_order.specs.Layout.{IsCounted};
ghost use Rattle.witness_search.specs.trace_order.Joining.{Joins};
ghost use Rattle.witness_search.specs.trace_order.Layout.{IsBehind};
ghost use Rattle.witness_search.specs.trace_order.Rows.{row_in, row_of};
ghost use Rattle.lock_waits.specs.Gathering.{CountsOneOf, IsBarred, IsEnding, IsForeignToSome, IsGathering, none_visited};
ghost use Rattle.lock_waits.specs.Required.{AreRefuted, IsForeign, IsUnended};

use crate::cycles::are_of_one_thread;
use crate::waiting::lock_of;
use event_index::Indexed;
use must_order::{Analysis, Must};
use rapid_text::OutOfMemory;
use std::alloc::Global;

/// Whether the requests require one of themselves, or the end of a section that never ends. Then no correct reordering
/// shows their deadlock. It visits each required event once, and adds the number of visited events to `work`.
pub fn are_refuted(
    alloc: Global,
    analysis: &Analysis,
    requests: &[u32],
    work: &mut u64,
) -> Result<bool, OutOfMemory>
    requires requests { All (λ e. e < length analysis.now.events) requests.now }
    ensures refuted { IfOk result (λ refuted. IsTrue refuted ↔ AreRefuted analysis.now.events requests.now) }
{
    match required_row(alloc, analysis.indexed(), analysis.must(), requests, work) {
        Ok(None) => Ok(true),
        Ok(Some(_)) => Ok(false),
        Err(refused) => Err(refused),
    }
}

/// For each thread, the number of its events that the requests require. None if the requests are refuted.
pub(crate) fn required_row(
    alloc: Global,
    indexed: &Indexed,
    must: &Must,
    requests: &[u32],
    work: &mut u64,
) -> Result<Option<Vec<u32>>, OutOfMemory>
    requires must { must.now ≡ indexed.now }
    requires requests { All (λ e. e < length indexed.now.events) requests.now }
    ensures refuted { IfOk result (λ row. (row ≡ None) ↔ AreRefuted indexed.now.events requests.now) }
{
    let threads = indexed.threads() as usize;
    let mut row = zeros(alloc, threads)?;
    let mut visited = zeros(alloc, threads)?;
    if is_refuted_by(&mut row, &mut visited, indexed, must, requests, work) {
        return Ok(None);
    }
    Ok(Some(row))
}

fn zeros(alloc: Global, count: usize) -> Result<Vec<u32>, OutOfMemory>
    ensures items { IfOk result (λ made. made.items ≡ replicate count 0) }
    ensures len { IfOk result (λ made. length made.items ≡ count) }
{
    Ok(vec![in alloc; 0u32; count]?)
}

// The same with two rows of zeros. At the end `row` counts what is required.
fn is_refuted_by(
    row: &mut Vec<u32>,
    visited: &mut Vec<u32>,
    indexed: &Indexed,
    must: &Must,
    requests: &[u32],
    work: &mut u64,
) -> bool
    requires row { row.old.items ≡ replicate (length indexed.now.threads) 0 }
    requires row_len { length row.old.items ≡ length indexed.now.threads }
    requires visited { visited.old.items ≡ replicate (length indexed.now.threads) 0 }
    requires visited_len { length visited.old.items ≡ length indexed.now.threads }
    requires must { must.now ≡ indexed.now }
    requires requests { All (λ e. e < length indexed.now.events) requests.now }
    ensures { IsTrue result ↔ AreRefuted indexed.now.events requests.now }
{
    add_bases(row, indexed, must, requests);
    if !gather(row, visited, indexed, must, requests, work) {
        return true;
    }
    counts_one_of(row.as_slice(), indexed, requests)
}

// Counts the base of each request and what is must-before it.
fn add_bases(row: &mut Vec<u32>, indexed: &Indexed, must: &Must, requests: &[u32])
    requires row { row.old.items ≡ replicate (length indexed.now.threads) 0 }
    requires row_len { length row.old.items ≡ length indexed.now.threads }
    requires must { must.now ≡ indexed.now }
    requires requests { All (λ e. e < length indexed.now.events) requests.now }
    ensures len { length row.new.items ≡ length indexed.now.threads }
    ensures gathering { IsGathering indexed.now.events requests.now (length requests.now) (row_of row.new) none_visited }
{
    for at in 0..requests.len() {
        raise(row, indexed, must, indexed.base(requests[at]));
    }
}

// Counts the event, if there is one, and what is must-before it.
fn raise(row: &mut Vec<u32>, indexed: &Indexed, must: &Must, event: Option<u32>)
    requires must { must.now ≡ indexed.now }
    requires within { IfSome event (λ e. e < length indexed.now.events) }
    requires len { length row.old.items ≡ length indexed.now.threads }
    ensures len { length row.new.items ≡ length indexed.now.threads }
    ensures joins { Joins indexed.now.events (λ d. event ≡ Some d) (row_of row.old) (row_of row.new) }
{
    let _threads = indexed.threads();
    if let Some(event) = event {
        must.rows().raise(event, row);
    }
}

// Visits the counted events, and counts the ends of sections that have to end. False if such a section has no end.
fn gather(
    row: &mut Vec<u32>,
    visited: &mut Vec<u32>,
    indexed: &Indexed,
    must: &Must,
    requests: &[u32],
    work: &mut u64,
) -> bool
    requires row_len { length row.old.items ≡ length indexed.now.threads }
    requires visited { visited.old.items ≡ replicate (length indexed.now.threads) 0 }
    requires visited_len { length visited.old.items ≡ length indexed.now.threads }
    requires must { must.now ≡ indexed.now }
    requires requests { All (λ e. e < length indexed.now.events) requests.now }
    requires gathering { IsGathering indexed.now.events requests.now (length requests.now) (row_of row.old) none_visited }
    ensures len { length row.new.items ≡ length indexed.now.threads }
    ensures gathered { IsTrue result → IsGathering indexed.now.events requests.now (length requests.now) (row_of row.new) (row_of row.new) }
    ensures unended { result ≡ false → IsUnended indexed.now.events requests.now }
{
    let threads = indexed.threads();
    let mut next = behind(row.as_slice(), visited.as_slice(), threads, 0);
    while let Some(thread) = next {
        *work = work.saturating_add(1);
        let event = event_in(indexed, thread, visited[thread as usize]);
        if !end_section(row, indexed, must, requests, event) {
            return false;
        }
        visited[thread as usize] += 1;
        next = behind(row.as_slice(), visited.as_slice(), threads, thread);
    }
    true
}

// The event at this place of the thread.
fn event_in(indexed: &Indexed, thread: u32, place: u32) -> u32
    requires thread { thread < length indexed.now.threads }
    requires place { place < length (events_of indexed.now.events thread) }
    ensures thread { thread_at indexed.now.events result ≡ Some thread }
    ensures place { place_of indexed.now.events result ≡ place }
    ensures within { result < length indexed.now.events }
{
    indexed.thread_events(thread)[place as usize]
}

// A thread with counted events that were not visited; `near`, if it has some. None if there is no such thread.
fn behind(row: &[u32], visited: &[u32], threads: u32, near: u32) -> Option<u32>
    requires row { length row.now ≡ threads }
    requires visited { length visited.now ≡ threads }
    ensures found { IfSome result (λ t. IsBehind row.now visited.now t) }
    ensures none { result ≡ None → (t : ℕ) → slice_index row.now t ≤ slice_index visited.now t }
{
    if near < threads && visited[near as usize] < row[near as usize] {
        return Some(near);
    }
    for thread in 0..threads {
        if visited[thread as usize] < row[thread as usize] {
            return Some(thread);
        }
    }
    None
}

// Counts the end of the section that the event begins, if a request of another thread holds that lock. False if the
// section has to end and has no end.
fn end_section(
    row: &mut Vec<u32>,
    indexed: &Indexed,
    must: &Must,
    requests: &[u32],
    event: u32,
) -> bool
    requires must { must.now ≡ indexed.now }
    requires requests { All (λ e. e < length indexed.now.events) requests.now }
    requires event { event < length indexed.now.events }
    requires len { length row.old.items ≡ length indexed.now.threads }
    ensures len { length row.new.items ≡ length indexed.now.threads }
    ensures ending { IsTrue result → IsEnding indexed.now.events requests.now event (row_of row.old) (row_of row.new) }
    ensures barred { result ≡ false → IsBarred indexed.now.events requests.now event }
{
    if !is_foreign(indexed, must, requests, event) {
        return true;
    }
    match indexed.section(event) {
        None => false,
        Some(end) => {
            raise(row, indexed, must, Some(end));
            true
        }
    }
}

// Whether the event begins another thread's section of a lock that a request's thread holds.
fn is_foreign(indexed: &Indexed, must: &Must, requests: &[u32], event: u32) -> bool
    requires must { must.now ≡ indexed.now }
    requires requests { All (λ e. e < length indexed.now.events) requests.now }
    requires event { event < length indexed.now.events }
    ensures { IsTrue result ↔ IsForeignToSome indexed.now.events requests.now event }
{
    match lock_of(indexed, event) {
        None => false,
        Some(lock) => is_held_by_other(indexed, must, requests, event, lock),
    }
}

// The same for an acquire of the lock.
fn is_held_by_other(indexed: &Indexed, must: &Must, requests: &[u32], event: u32, lock: u32) -> bool
    requires must { must.now ≡ indexed.now }
    requires requests { All (λ e. e < length indexed.now.events) requests.now }
    requires event { event < length indexed.now.events }
    requires acquires { op_at indexed.now.events event ≡ Some (Acquire lock) }
    requires lock { lock < length indexed.now.locks }
    ensures { IsTrue result ↔ IsForeignToSome indexed.now.events requests.now event }
{
    for at in 0..requests.len() {
        if is_foreign_to(indexed, must, requests[at], event, lock) {
            return true;
        }
    }
    false
}

// The same for one request.
fn is_foreign_to(indexed: &Indexed, must: &Must, request: u32, event: u32, lock: u32) -> bool
    requires must { must.now ≡ indexed.now }
    requires request { request < length indexed.now.events }
    requires event { event < length indexed.now.events }
    requires acquires { op_at indexed.now.events event ≡ Some (Acquire lock) }
    requires lock { lock < length indexed.now.locks }
    ensures { IsTrue result ↔ IsForeign indexed.now.events request event }
{
    if are_of_one_thread(indexed, request, event) {
        return false;
    }
    match must.held_since(indexed, request, lock) {
        None => false,
        Some(_) => true,
    }
}

// Whether the row counts one of the events.
fn counts_one_of(row: &[u32], indexed: &Indexed, events: &[u32]) -> bool
    requires len { length row.now ≡ length indexed.now.threads }
    requires events { All (λ e. e < length indexed.now.events) events.now }
    ensures { IsTrue result ↔ CountsOneOf indexed.now.events (row_in row.now) events.now }
{
    for at in 0..events.len() {
        if is_counted(row, indexed, events[at]) {
            return true;
        }
    }
    false
}

// Whether the row counts the event.
fn is_counted(row: &[u32], indexed: &Indexed, event: u32) -> bool
    requires event { event < length indexed.now.events }
    requires len { length row.now ≡ length indexed.now.threads }
    ensures { IsTrue result ↔ IsCounted indexed.now.events (row_in row.now) event }
{
    indexed.place(event) < row[indexed.event(event).thread as usize]
}
