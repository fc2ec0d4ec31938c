//! The threads that have events of each class, and how many each has.
ghost use Rattle.std.specs.Prelude.{◌≡◌, ℕ, ◌+◌, ◌-◌, ◌<◌, ◌^◌, [], length, All, IfOk, IfSome, OnOk, Some, slice_get};
ghost use Rattle.rapid_text.specs.Recording.{IsWellFormed};
ghost use Rattle.event_index.specs.Lookups.{events_of};
ghost use Rattle.race_groups.specs.Totals.{AreNoted, entries_at, weighed_sum, AllStayBelow, IsClassNoted, IsClassSpread, IsOneNoted, StayBelow};

use crate::classes::Classes;
use event_index::Indexed;
use rapid_text::OutOfMemory;
use std::alloc::Global;

/// For each class the threads that have events of it, and each thread's number of events.
pub(crate) type Spread = Vec<Vec<(u32, u32)>>;

/// The spread of the trace's classes, which have `totals` events. Fails if memory runs out.
pub(crate) fn spread_of(
    alloc: Global,
    indexed: &Indexed,
    classes: &Classes,
    totals: &[u64],
) -> Result<Spread, OutOfMemory>
    requires numbers { length classes.now.numbers.items ≡ length indexed.now.events }
    requires classes { All (λ c. c < length classes.now.infos.items) classes.now.numbers.items }
    requires totals { length totals.now ≡ length classes.now.infos.items }
    ensures { IfOk result (λ spread. IsClassSpread indexed.now classes.now spread.items) }
{
    let _len = indexed.len();
    let numbers = classes.numbers.as_slice();
    let mut spread = empty(alloc, totals, indexed.threads())?;
    for thread in 0..indexed.threads() {
        note_thread(&mut spread, indexed, numbers, thread)?;
    }
    Ok(spread)
}

// A spread without events. Each class has room for all its entries, of which there are no more than events or threads.
// So the entries never move, and those of a class follow those of the class before it in memory.
fn empty(alloc: Global, totals: &[u64], threads: u32) -> Result<Spread, OutOfMemory>
    ensures len { IfOk result (λ spread. length spread.items ≡ length totals.now) }
    ensures none { IfOk result (λ spread. (c : ℕ) → entries_at spread.items c ≡ []) }
{
    let mut spread = Vec::with_capacity(alloc, totals.len())?;
    for class in 0..totals.len() {
        let most = totals[class].min(u64::from(threads));
        spread.push(Vec::with_capacity(alloc, most as usize)?)?;
    }
    Ok(spread)
}

// Adds all events of the thread, which has none yet.
fn note_thread(
    spread: &mut Spread,
    indexed: &Indexed,
    numbers: &[u32],
    thread: u32,
) -> Result<(), OutOfMemory>
    requires formed { IsWellFormed indexed.now }
    requires numbers { length numbers.now ≡ length indexed.now.events }
    requires classes { All (λ c. c < length spread.old.items) numbers.now }
    requires thread { thread < length indexed.now.threads }
    requires room { (c : ℕ) → weighed_sum (λ t. 1) (entries_at spread.old.items c) + length (events_of indexed.now.events thread) < 2 ^ 32 }
    requires within { (c : ℕ) → All (λ e. e.0 < length indexed.now.threads) (entries_at spread.old.items c) }
    ensures len { OnOk result (length spread.new.items ≡ length spread.old.items) }
    ensures within { OnOk result ((c : ℕ) → All (λ e. e.0 < length indexed.now.threads) (entries_at spread.new.items c)) }
    ensures noted { OnOk result (AreNoted numbers.now (events_of indexed.now.events thread) thread spread.old.items spread.new.items) }
{
    for at in 0..indexed.thread_events(thread).len() {
        let event = indexed.thread_events(thread)[at];
        note_class(spread, numbers[event as usize], thread)?;
    }
    Ok(())
}

// Adds one event of the class by this thread.
fn note_class(spread: &mut Spread, class: u32, thread: u32) -> Result<(), OutOfMemory>
    requires class { class < length spread.old.items }
    requires room { weighed_sum (λ t. 1) (entries_at spread.old.items class) < 2 ^ 32 - 1 }
    ensures len { OnOk result (length spread.new.items ≡ length spread.old.items) }
    ensures within { OnOk result (AllStayBelow thread spread.old.items spread.new.items) }
    ensures noted { OnOk result (IsClassNoted class thread spread.old.items spread.new.items) }
{
    note(&mut spread[class as usize], thread)?;
    Ok(())
}

// Adds one event of the thread. Events of one thread are added in a row.
fn note(entries: &mut Vec<(u32, u32)>, thread: u32) -> Result<(), OutOfMemory>
    requires room { weighed_sum (λ t. 1) entries.old.items < 2 ^ 32 - 1 }
    ensures within { OnOk result (StayBelow thread entries.old.items entries.new.items) }
    ensures noted { OnOk result (IsOneNoted thread entries.old.items entries.new.items) }
{
    match last_count(entries.as_slice(), thread) {
        Some(count) => {
            let last = entries.len() - 1;
            entries[last] = (thread, count + 1);
        }
        None => entries.push((thread, 1))?,
    }
    Ok(())
}

// The number of events in the last entry, if that is the thread's.
fn last_count(entries: &[(u32, u32)], thread: u32) -> Option<u32>
    ensures { IfSome result (λ n. (0 < length entries.now) × (slice_get entries.now (length entries.now - 1) ≡ Some (thread, n))) }
{
    let last = entries.last()?;
    if last.0 == thread { Some(last.1) } else { None }
}
