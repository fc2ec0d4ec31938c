//! The needed events as one count for each thread, since with an event its thread's earlier events are needed.
ghost use Rattle.std.specs.Prelude.{◌≡◌, ◌≢◌, ◌<◌, ◌≤◌, ℕ, length, IfOk, IfSome, None, OnOk, Some, slice_index, replicate};
ghost use Rattle.rapid_text.specs.declared.event.Op.TheVariants.{Acquire};
ghost use Rattle.event_index.specs.Events.{op_at, thread_at};
ghost use Rattle.event_index.specs.Lookups.{events_of, place_of};
ghost use Rattle.must_order.specs.Layout.{source_of};
ghost use Rattle.witness_search.specs.trace_order.Layout.{IsEither, IsNeededRow, IsBehind, Takes, IsStep};
ghost use Rattle.witness_search.specs.trace_order.Rows.{row_of, IsWithin, latest_in, HasVisited, HasTakenLock};

use event_index::Indexed;
use rapid_text::{Op, OutOfMemory};
use std::alloc::Global;

/// For each thread, the number of its events that a list in the order of the trace needs if it has the two events.
pub(crate) fn needed_row(
    alloc: Global,
    indexed: &Indexed,
    first: Option<u32>,
    second: Option<u32>,
) -> Result<Vec<u32>, OutOfMemory>
    requires first { IfSome first (λ e. e < length indexed.now.events) }
    requires second { IfSome second (λ e. e < length indexed.now.events) }
    ensures len { IfOk result (λ row. length row.items ≡ length indexed.now.threads) }
    ensures row { IfOk result (λ row. IsNeededRow indexed.now.events (IsEither first second) (row_of row)) }
    ensures within { IfOk result (λ row. IsWithin indexed.now.events (row_of row)) }
{
    let mut row = zeros(alloc, indexed.threads() as usize)?;
    match close(alloc, &mut row, indexed, first, second) {
        Ok(()) => Ok(row),
        Err(refused) => Err(refused),
    }
}

// Sets the row to the needed events. It is all zeros before.
fn close(
    alloc: Global,
    row: &mut Vec<u32>,
    indexed: &Indexed,
    first: Option<u32>,
    second: Option<u32>,
) -> Result<(), OutOfMemory>
    requires row { row.old.items ≡ replicate (length indexed.now.threads) 0 }
    requires row_len { length row.old.items ≡ length indexed.now.threads }
    requires first { IfSome first (λ e. e < length indexed.now.events) }
    requires second { IfSome second (λ e. e < length indexed.now.events) }
    ensures len { OnOk result (length row.new.items ≡ length indexed.now.threads) }
    ensures row { OnOk result (IsNeededRow indexed.now.events (IsEither first second) (row_of row.new)) }
    ensures within { OnOk result (IsWithin indexed.now.events (row_of row.new)) }
{
    let mut visited = zeros(alloc, indexed.threads() as usize)?;
    let mut latest = nones(alloc, indexed.locks() as usize)?;
    close_by(row, &mut visited, &mut latest, indexed, first, second);
    Ok(())
}

// The same, before any event is visited and any lock acquired.
fn close_by(
    row: &mut Vec<u32>,
    visited: &mut Vec<u32>,
    latest: &mut Vec<Option<u32>>,
    indexed: &Indexed,
    first: Option<u32>,
    second: Option<u32>,
)
    requires row { row.old.items ≡ replicate (length indexed.now.threads) 0 }
    requires row_len { length row.old.items ≡ length indexed.now.threads }
    requires visited { visited.old.items ≡ replicate (length indexed.now.threads) 0 }
    requires visited_len { length visited.old.items ≡ length indexed.now.threads }
    requires latest { latest.old.items ≡ replicate (length indexed.now.locks) None }
    requires latest_len { length latest.old.items ≡ length indexed.now.locks }
    requires first { IfSome first (λ e. e < length indexed.now.events) }
    requires second { IfSome second (λ e. e < length indexed.now.events) }
    ensures len { length row.new.items ≡ length indexed.now.threads }
    ensures row { IsNeededRow indexed.now.events (IsEither first second) (row_of row.new) }
    ensures within { IsWithin indexed.now.events (row_of row.new) }
{
    let threads = indexed.threads();
    take_in(row, indexed, first);
    take_in(row, indexed, second);
    let mut next = behind(row.as_slice(), visited.as_slice(), threads, 0);
    while let Some(thread) = next {
        let event = event_in(indexed, thread, visited[thread as usize]);
        visit(row, latest, indexed, event);
        visited[thread as usize] += 1;
        next = behind(row.as_slice(), visited.as_slice(), threads, thread);
    }
}

pub(crate) fn zeros(alloc: Global, count: usize) -> Result<Vec<u32>, OutOfMemory>
    ensures items { IfOk result (λ made. made.items ≡ replicate count 0) }
    ensures len { IfOk result (λ made. length made.items ≡ count) }
{
    Ok(vec![in alloc; 0u32; count]?)
}

fn nones(alloc: Global, count: usize) -> Result<Vec<Option<u32>>, OutOfMemory>
    ensures items { IfOk result (λ made. made.items ≡ replicate count None) }
    ensures len { IfOk result (λ made. length made.items ≡ count) }
{
    Ok(vec![in alloc; None; count]?)
}

// The event at this place of the thread.
fn event_in(indexed: &Indexed, thread: u32, place: u32) -> u32
    requires thread { thread < length indexed.now.threads }
    requires place { place < length (events_of indexed.now.events thread) }
    ensures thread { thread_at indexed.now.events result ≡ Some thread }
    ensures place { place_of indexed.now.events result ≡ place }
    ensures within { result < length indexed.now.events }
{
    indexed.thread_events(thread)[place as usize]
}

// A thread with counted events that were not visited; `near`, if it has some. None if there is no such thread.
fn behind(row: &[u32], visited: &[u32], threads: u32, near: u32) -> Option<u32>
    requires row { length row.now ≡ threads }
    requires visited { length visited.now ≡ threads }
    ensures found { IfSome result (λ t. IsBehind row.now visited.now t) }
    ensures none { result ≡ None → (t : ℕ) → slice_index row.now t ≤ slice_index visited.now t }
{
    if near < threads && visited[near as usize] < row[near as usize] {
        return Some(near);
    }
    for thread in 0..threads {
        if visited[thread as usize] < row[thread as usize] {
            return Some(thread);
        }
    }
    None
}

// Counts the event and those before it in its thread.
fn take_in(row: &mut Vec<u32>, indexed: &Indexed, event: Option<u32>)
    requires within { IfSome event (λ e. e < length indexed.now.events) }
    requires len { length row.old.items ≡ length indexed.now.threads }
    ensures len { length row.new.items ≡ length indexed.now.threads }
    ensures takes { Takes indexed.now.events (λ d. event ≡ Some d) (row_of row.old) (row_of row.new) }
{
    if let Some(event) = event {
        let thread = indexed.event(event).thread as usize;
        row[thread] = row[thread].max(indexed.place(event) + 1);
    }
}

// Counts what the event requires: its base, its source, and the section end that an acquire requires.
fn visit(row: &mut Vec<u32>, latest: &mut Vec<Option<u32>>, indexed: &Indexed, event: u32)
    requires event { event < length indexed.now.events }
    requires len { length row.old.items ≡ length indexed.now.threads }
    requires locks { length latest.old.items ≡ length indexed.now.locks }
    requires named { (l : ℕ) → IfSome (latest_in latest.old l) (λ m. m < length indexed.now.events) }
    ensures len { length row.new.items ≡ length indexed.now.threads }
    ensures locks { length latest.new.items ≡ length indexed.now.locks }
    ensures visit { HasVisited indexed.now.events event row.old row.new latest.old latest.new }
{
    take_in(row, indexed, indexed.base(event));
    take_in(row, indexed, source_at(indexed, event));
    if let Some(lock) = lock_of(indexed, event) {
        visit_acquire(row, latest, indexed, event, lock);
    }
}

/// The lock that the event acquires, or None.
pub(crate) fn lock_of(indexed: &Indexed, event: u32) -> Option<u32>
    requires event { event < length indexed.now.events }
    ensures acquires { IfSome result (λ l. op_at indexed.now.events event ≡ Some (Acquire l)) }
    ensures named { IfSome result (λ l. l < length indexed.now.locks) }
    ensures none { result ≡ None → (l : ℕ) → op_at indexed.now.events event ≢ Some (Acquire l) }
{
    match indexed.event(event).op {
        Op::Acquire(lock) => Some(lock),
        Op::Read(_) => None,
        Op::Write(_) => None,
        Op::Release(_) => None,
        Op::Fork(_) => None,
        Op::Join(_) => None,
    }
}

// The last event that comes before this one because of what this one does: the write that it sees, or the end of the
// thread that it joins.
fn source_at(indexed: &Indexed, event: u32) -> Option<u32>
    requires event { event < length indexed.now.events }
    ensures source { result ≡ source_of indexed.now.events event }
    ensures within { IfSome result (λ s. s < length indexed.now.events) }
{
    match indexed.event(event).op {
        Op::Read(_) => indexed.last_writer(event),
        Op::Join(thread) => {
            let last = indexed.thread_events(thread).last().copied();
            last.or(indexed.fork_of(thread))
        }
        Op::Acquire(_) => None,
        Op::Release(_) => None,
        Op::Write(_) => None,
        Op::Fork(_) => None,
    }
}

// Counts the end of the section of the earlier one of this acquire and the last visited acquire of the lock.
fn visit_acquire(
    row: &mut Vec<u32>,
    latest: &mut Vec<Option<u32>>,
    indexed: &Indexed,
    event: u32,
    lock: u32,
)
    requires event { event < length indexed.now.events }
    requires lock { lock < length indexed.now.locks }
    requires len { length row.old.items ≡ length indexed.now.threads }
    requires locks { length latest.old.items ≡ length indexed.now.locks }
    requires named { (l : ℕ) → IfSome (latest_in latest.old l) (λ m. m < length indexed.now.events) }
    ensures len { length row.new.items ≡ length indexed.now.threads }
    ensures locks { length latest.new.items ≡ length indexed.now.locks }
    ensures visit { HasTakenLock indexed.now.events event lock row.old row.new latest.old latest.new }
{
    let step = step_of(indexed, latest[lock as usize], event);
    take_in(row, indexed, step.owed);
    latest[lock as usize] = Some(step.last);
}

// The section end that an acquire requires, and the last acquire of its lock afterwards.
#[derive(Clone, Copy)]
struct Step {
    owed: Option<u32>,
    last: u32,
}

// `last` is the last visited acquire of the event's lock. The section of the earlier of the two has to end, unless
// the event is in it.
fn step_of(indexed: &Indexed, last: Option<u32>, event: u32) -> Step
    requires event { event < length indexed.now.events }
    requires named { IfSome last (λ m. m < length indexed.now.events) }
    ensures step { IsStep indexed.now.events event last result.owed result.last }
    ensures within { IfSome result.owed (λ e. e < length indexed.now.events) }
{
    let Some(last) = last else {
        return Step {
            owed: None,
            last: event,
        };
    };
    if event < last {
        return Step {
            owed: indexed.section(event),
            last,
        };
    }
    match indexed.section(last) {
        None => Step { owed: None, last },
        Some(end) => if end < event {
            Step {
                owed: Some(end),
                last: event,
            }
        } else {
            Step { owed: None, last }
        },
    }
}
