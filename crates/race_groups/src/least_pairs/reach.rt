//! Finds the index at which rising numbers reach a bound.
ghost use Rattle.std.specs.Prelude.{ℕ, ◌<◌, ◌≤◌, length, slice_index};
ghost use Rattle.race_groups.specs.least_pairs.Reach.{IsOrdered, IsReach};

/// How many of the first `end` numbers are below the bound. It searches from the end, in steps that double.
pub(crate) fn reach(numbers: &[u32], end: usize, bound: u32) -> usize
    requires ordered { IsOrdered numbers.now }
    requires end { end ≤ length numbers.now }
    ensures { IsReach numbers.now end bound result }
{
    let mut high = end;
    let mut step = 1;
    while step <= high && numbers[high - step] >= bound {
        high -= step;
        step = step.saturating_mul(2);
    }
    let low = (high + 1).saturating_sub(step);
    narrow(numbers, end, bound, low, high)
}

// The same if the result is known to be from `low` to `high`.
fn narrow(numbers: &[u32], _end: usize, bound: u32, low: usize, high: usize) -> usize
    requires ordered { IsOrdered numbers.now }
    requires end { _end ≤ length numbers.now }
    requires within { low ≤ high }
    requires high { high ≤ _end }
    requires below { (k : ℕ) → k < low → slice_index numbers.now k < bound }
    requires above { (k : ℕ) → high ≤ k → k < _end → bound ≤ slice_index numbers.now k }
    ensures { IsReach numbers.now _end bound result }
{
    let mut from = low;
    let mut to = high;
    while from < to {
        let middle = from + (to - from) / 2;
        if numbers[middle] < bound {
            from = middle + 1;
        } else {
            to = middle;
        }
    }
    to
}
