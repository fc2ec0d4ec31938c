//! The accesses at which each lock is held.
ghost use Rattle.std.specs.Prelude.{◌≡◌, ◌<◌, ◌≤◌, ◌+◌, ℕ, List, None, false, length, nat_lt, slice_index, IfOk, IsTrue, OnOk};
ghost use Rattle.rapid_text.specs.Appended.{IfFound};
ghost use Rattle.variable_uses.specs.Held.{AreHeld, AreUsesBefore, IsPut, once};
ghost use Rattle.variable_uses.specs.Table.{holds_at, holds_in};

use crate::holding::{Held, begin, note};
use event_index::Indexed;
use rapid_text::OutOfMemory;
use std::alloc::Global;

/// The most locks that are held at the accesses, over all accesses: 16,777,216. A lock that is held twice counts twice.
pub const MOST_HOLDS: u64 = 16_777_216;

/// For each lock the accesses at which it is held, in rising order. None if more than `MOST_HOLDS` locks are held at
/// the accesses.
pub(crate) fn uses_by_lock(
    alloc: Global,
    indexed: &Indexed,
    numbers: &[u32],
) -> Result<Option<Vec<Vec<u32>>>, OutOfMemory>
    requires len { length numbers.now ≡ length indexed.now.events }
    ensures len { IfFound result (λ lists. length lists.items ≡ length indexed.now.locks) }
    ensures uses { IfFound result (λ lists. AreUsesBefore indexed.now.events numbers.now (length indexed.now.events) lists.items) }
    ensures few { IfFound result (λ _. holds_in indexed.now (λ e. nat_lt 0 (slice_index numbers.now e)) (length indexed.now.events) ≤ 16777216) }
    ensures many { IfOk result (λ found. found ≡ None → 16777216 < holds_in indexed.now (λ e. nat_lt 0 (slice_index numbers.now e)) (length indexed.now.events)) }
{
    let mut lists = empty_lists(alloc, indexed)?;
    let mut held = begin(alloc, indexed)?;
    let done = add_all(&mut lists, &mut held, indexed, numbers)?;
    if done { Ok(Some(lists)) } else { Ok(None) }
}

// A list for each lock.
fn empty_lists(alloc: Global, indexed: &Indexed) -> Result<Vec<Vec<u32>>, OutOfMemory>
    ensures len { IfOk result (λ lists. length lists.items ≡ length indexed.now.locks) }
    ensures uses { IfOk result (λ lists. (numbers : List ℕ) → AreUsesBefore indexed.now.events numbers 0 lists.items) }
{
    let locks = indexed.locks();
    let mut lists = Vec::with_capacity(alloc, locks as usize)?;
    for _lock in 0..locks {
        lists.push(Vec::new(alloc))?;
    }
    Ok(lists)
}

// Adds all events. False if too many locks are held.
fn add_all(
    lists: &mut Vec<Vec<u32>>,
    held: &mut Held,
    indexed: &Indexed,
    numbers: &[u32],
) -> Result<bool, OutOfMemory>
    requires len { length numbers.now ≡ length indexed.now.events }
    requires lists { length lists.old.items ≡ length indexed.now.locks }
    requires uses { AreUsesBefore indexed.now.events numbers.now 0 lists.old.items }
    requires held { AreHeld indexed.now.events 0 held.old.items }
    requires threads { length held.old.items ≡ length indexed.now.threads }
    ensures len { length lists.new.items ≡ length lists.old.items }
    ensures uses { IfOk result (λ done. IsTrue done → AreUsesBefore indexed.now.events numbers.now (length indexed.now.events) lists.new.items) }
    ensures few { IfOk result (λ done. IsTrue done → holds_in indexed.now (λ e. nat_lt 0 (slice_index numbers.now e)) (length indexed.now.events) ≤ 16777216) }
    ensures many { IfOk result (λ done. done ≡ false → 16777216 < holds_in indexed.now (λ e. nat_lt 0 (slice_index numbers.now e)) (length indexed.now.events)) }
{
    let mut holds = 0u64;
    for event in 0..indexed.len() {
        let count = add_use(lists, held, indexed, numbers, event)?;
        holds = holds.saturating_add(count);
        if holds > MOST_HOLDS {
            return Ok(false);
        }
        note(held, indexed, event)?;
    }
    Ok(true)
}

// Adds the event to the lists of the locks that its thread holds, if it is in a row. Returns how many these are.
fn add_use(
    lists: &mut Vec<Vec<u32>>,
    held: &Held,
    indexed: &Indexed,
    numbers: &[u32],
    event: u32,
) -> Result<u64, OutOfMemory>
    requires event { event < length indexed.now.events }
    requires len { length numbers.now ≡ length indexed.now.events }
    requires lists { length lists.old.items ≡ length indexed.now.locks }
    requires uses { AreUsesBefore indexed.now.events numbers.now event lists.old.items }
    requires held { AreHeld indexed.now.events event held.now.items }
    requires threads { length held.now.items ≡ length indexed.now.threads }
    ensures len { length lists.new.items ≡ length lists.old.items }
    ensures uses { OnOk result (AreUsesBefore indexed.now.events numbers.now (event + 1) lists.new.items) }
    ensures count { IfOk result (λ count. count ≡ holds_at indexed.now (λ e. nat_lt 0 (slice_index numbers.now e)) event) }
{
    if numbers[event as usize] == 0 {
        return Ok(0);
    }
    let locks = held[indexed.event(event).thread as usize].as_slice();
    for lock in locks {
        add_to(lists, *lock, event)?;
    }
    Ok(locks.len() as u64)
}

// Appends the event to the list of the lock, if it is not the last one there.
fn add_to(lists: &mut Vec<Vec<u32>>, lock: u32, event: u32) -> Result<(), OutOfMemory>
    ensures len { length lists.new.items ≡ length lists.old.items }
    ensures put { OnOk result (IsPut lists.old.items lock event lists.new.items) }
{
    if lock as usize >= lists.len() {
        return Ok(());
    }
    add_once(&mut lists[lock as usize], event)?;
    Ok(())
}

// Appends the event, if it is not the last one.
fn add_once(events: &mut Vec<u32>, event: u32) -> Result<(), OutOfMemory>
    ensures { OnOk result (events.new.items ≡ once events.old.items event) }
{
    let len = events.len();
    if len > 0 && events[len - 1] == event {
        return Ok(());
    }
    events.push(event)?;
    Ok(())
}
