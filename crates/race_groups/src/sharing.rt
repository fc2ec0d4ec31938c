//! Tests whether classes have a common lock.
ghost use Rattle.std.specs.Prelude.{◌≡◌, ◌<◌, ◌≤◌, ℕ, length, slice_index, true};
ghost use Rattle.std.specs.List.Sorted.{IsNonDecreasing};
ghost use Rattle.race_groups.specs.Shared.{is_meeting, is_sharing};

use crate::class::LockLists;

// Lists of at most this many locks are compared each with each.
const FEW: usize = 8;

/// Whether the lists of locks with these numbers have a common lock.
pub fn are_sharing(lists: &LockLists, first: u32, second: u32) -> bool
    ensures { result ≡ is_sharing lists.now.keys first second }
{
    let Some(mine) = lists.get_index(first as usize) else {
        return false;
    };
    // Most pairs hold the very same locks.
    if first == second {
        return !mine.as_slice().is_empty();
    }
    let Some(theirs) = lists.get_index(second as usize) else {
        return false;
    };
    meet(mine.as_slice(), theirs.as_slice())
}

// Whether the two lists have a common element. If long lists rise, they are merged, so the steps are at most their
// number of elements.
fn meet(first: &[u32], second: &[u32]) -> bool
    ensures { result ≡ is_meeting first.now second.now }
{
    if first.len() > FEW && second.len() > FEW && is_rising(first) && is_rising(second) {
        return meet_rising(first, second);
    }
    first.iter().any(|lock| second.contains(lock))
}

// Whether the numbers do not fall.
fn is_rising(list: &[u32]) -> bool
    ensures { result ≡ true → IsNonDecreasing list.now }
{
    list.is_sorted()
}

// Whether two rising lists have a common element.
fn meet_rising(first: &[u32], second: &[u32]) -> bool
    requires first { IsNonDecreasing first.now }
    requires second { IsNonDecreasing second.now }
    ensures { result ≡ is_meeting first.now second.now }
{
    let mut to = 0;
    for at in 0..first.len() {
        to = place_from(second, to, first[at]);
        if to < second.len() && second[to] == first[at] {
            return true;
        }
    }
    false
}

// The first index from `from` on whose element is not below the lock; the length of the list if all are below it.
fn place_from(list: &[u32], from: usize, lock: u32) -> usize
    requires from { from ≤ length list.now }
    ensures within { result ≤ length list.now }
    ensures from { from ≤ result }
    ensures below { (k : ℕ) → from ≤ k → k < result → slice_index list.now k < lock }
    ensures there { result < length list.now → lock ≤ slice_index list.now result }
{
    let mut to = from;
    while to < list.len() && list[to] < lock {
        to += 1;
    }
    to
}
