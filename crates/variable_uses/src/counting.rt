//! Counts the accesses of each row.
ghost use Rattle.std.specs.Prelude.{◌≡◌, ◌<◌, ◌≤◌, ◌+◌, ℕ, length, All, IfOk, slice_index, count_by};
ghost use Rattle.event_index.specs.Lookups.{before};
ghost use Rattle.variable_uses.specs.Numbers.{has_number, AreCountsBefore};

use rapid_text::OutOfMemory;
use std::alloc::Global;

/// How many events are in each of the first `rows` rows.
pub(crate) fn counts_of(
    alloc: Global,
    numbers: &[u32],
    rows: usize,
) -> Result<Vec<u32>, OutOfMemory>
    requires few { length numbers.now ≤ 1048576 }
    requires numbers { All (λ m. m ≤ rows) numbers.now }
    ensures len { IfOk result (λ counts. length counts.items ≡ rows) }
    ensures counts { IfOk result (λ counts. AreCountsBefore numbers.now (length numbers.now) counts.items) }
{
    let mut counts = vec![in alloc; 0u32; rows]?;
    for event in 0..numbers.len() {
        count(counts.as_mut_slice(), numbers, event);
    }
    Ok(counts)
}

// Counts the next event.
fn count(counts: &mut [u32], numbers: &[u32], event: usize)
    requires few { length numbers.now ≤ 1048576 }
    requires event { event < length numbers.now }
    requires numbers { All (λ m. m ≤ length counts.old) numbers.now }
    requires counts { AreCountsBefore numbers.now event counts.old }
    ensures counts { AreCountsBefore numbers.now (event + 1) counts.new }
    ensures len { length counts.new ≡ length counts.old }
{
    let number = numbers[event];
    if number != 0 {
        counts[number as usize - 1] += 1;
    }
}
