//! Counts the threads of each row.
ghost use Rattle.std.specs.Prelude.{◌≡◌, ◌<◌, ◌≤◌, ◌+◌, ℕ, [], length, All, IfOk, slice_index};
ghost use Rattle.variable_uses.specs.Seen.{AreSeen, AreThreadsBefore, IsSeen};

use event_index::Indexed;
use rapid_text::OutOfMemory;
use std::alloc::Global;

/// For each of the first `rows` rows how many threads have an event in it.
pub(crate) fn threads_of(
    alloc: Global,
    indexed: &Indexed,
    numbers: &[u32],
    rows: usize,
) -> Result<Vec<u32>, OutOfMemory>
    requires len { length numbers.now ≡ length indexed.now.events }
    requires numbers { All (λ m. m ≤ rows) numbers.now }
    ensures len { IfOk result (λ counts. length counts.items ≡ rows) }
    ensures counts { IfOk result (λ counts. AreThreadsBefore indexed.now.events numbers.now (length indexed.now.threads) counts.items) }
{
    let mut counts = vec![in alloc; 0u32; rows]?;
    // For each row the last thread so far with an event in it, counted from 1.
    let mut lasts = vec![in alloc; 0u32; rows]?;
    for thread in 0..indexed.threads() {
        see_all(&mut counts, &mut lasts, indexed, numbers, thread);
    }
    Ok(counts)
}

// Adds the events of a thread.
fn see_all(
    counts: &mut Vec<u32>,
    lasts: &mut Vec<u32>,
    indexed: &Indexed,
    numbers: &[u32],
    thread: u32,
)
    requires thread { thread < length indexed.now.threads }
    requires len { length numbers.now ≡ length indexed.now.events }
    requires numbers { All (λ m. m ≤ length counts.old.items) numbers.now }
    requires lasts { length lasts.old.items ≡ length counts.old.items }
    requires seen { AreSeen indexed.now.events numbers.now thread [] counts.old.items lasts.old.items }
    ensures seen { AreSeen indexed.now.events numbers.now (thread + 1) [] counts.new.items lasts.new.items }
    ensures len { length counts.new.items ≡ length counts.old.items }
    ensures lasts { length lasts.new.items ≡ length lasts.old.items }
{
    let _threads = indexed.threads();
    let events = indexed.thread_events(thread);
    for event in events {
        see(counts, lasts, thread, numbers[*event as usize]);
    }
}

// Adds an event of the thread, with the number of its row.
fn see(counts: &mut Vec<u32>, lasts: &mut Vec<u32>, thread: u32, number: u32)
    requires number { number ≤ length counts.old.items }
    requires thread { thread < 256 }
    requires lasts { length lasts.old.items ≡ length counts.old.items }
    requires few { (k : ℕ) → k < length counts.old.items → slice_index counts.old.items k ≤ thread + 1 }
    ensures seen { IsSeen thread number counts.old.items lasts.old.items counts.new.items lasts.new.items }
    ensures len { length counts.new.items ≡ length counts.old.items }
    ensures lasts { length lasts.new.items ≡ length lasts.old.items }
{
    if number == 0 {
        return;
    }
    let row = number as usize - 1;
    if lasts[row] == thread + 1 {
        return;
    }
    lasts[row] = thread + 1;
    counts[row] += 1;
}
