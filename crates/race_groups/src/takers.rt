//! Finds the locks that more than one thread acquires. Two conflicting events are of two threads, so no other lock
//! guards them.
ghost use Rattle.std.specs.Prelude.{◌≡◌, ◌≢◌, ◌+◌, ◌<◌, ℕ, IfOk, IfSome, OnOk, None, Some, filter, length};
ghost use Rattle.event_index.specs.Events.{op_at};
ghost use Rattle.rapid_text.specs.declared.event.Op.TheVariants.{Acquire};
ghost use Rattle.race_groups.specs.Takers.{AreTakersBelow, is_lent, AreTakersOf};

use crate::holding::acquired;
use crate::owners::owner_of;
use event_index::Indexed;
use rapid_text::OutOfMemory;
use std::alloc::Global;

/// For each lock the thread that acquires it; if more than one does, the number of threads.
pub(crate) fn takers_of(alloc: Global, indexed: &Indexed) -> Result<Vec<u32>, OutOfMemory>
    ensures { IfOk result (λ takers. AreTakersOf indexed.now takers.items) }
{
    let many = indexed.threads();
    let mut takers = vec![in alloc; many; indexed.locks() as usize]?;
    for event in 0..indexed.len() {
        if let Some(lock) = lock_taken(indexed, event) {
            takers[lock as usize] = indexed.event(event).thread;
        }
    }
    for event in 0..indexed.len() {
        part(takers.as_mut_slice(), indexed, many, event);
    }
    Ok(takers)
}

// The lock that the event acquires, or None.
fn lock_taken(indexed: &Indexed, event: u32) -> Option<u32>
    requires event { event < length indexed.now.events }
    ensures some { IfSome result (λ l. op_at indexed.now.events event ≡ Some (Acquire l)) }
    ensures within { IfSome result (λ l. l < length indexed.now.locks) }
    ensures none { result ≡ None → (l : ℕ) → op_at indexed.now.events event ≢ Some (Acquire l) }
{
    acquired(indexed.event(event).op)
}

// Marks the lock that the event acquires as shared if another thread acquires it.
fn part(takers: &mut [u32], indexed: &Indexed, many: u32, event: u32)
    requires locks { length takers.old ≡ length indexed.now.locks }
    requires many { many ≡ length indexed.now.threads }
    requires event { event < length indexed.now.events }
    requires takers { AreTakersBelow indexed.now.events (length indexed.now.threads) event takers.old }
    ensures takers { AreTakersBelow indexed.now.events (length indexed.now.threads) (event + 1) takers.new }
    ensures len { length takers.new ≡ length takers.old }
{
    let Some(lock) = lock_taken(indexed, event) else {
        return;
    };
    if takers[lock as usize] != indexed.event(event).thread {
        takers[lock as usize] = many;
    }
}

/// Keeps the locks of the list that more than one of `threads` threads acquires.
pub(crate) fn keep_lent(
    kept: &mut Vec<u32>,
    locks: &[u32],
    takers: &[u32],
    threads: u32,
) -> Result<(), OutOfMemory>
    ensures { OnOk result (kept.new.items ≡ filter (is_lent takers.now threads) locks.now) }
{
    kept.clear();
    for lock in locks {
        if owner_of(takers, *lock) >= threads {
            kept.push(*lock)?;
        }
    }
    Ok(())
}
