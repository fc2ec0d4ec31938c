//! Runs of classes with one owner in a list, so that a walk skips those of one thread in one step.
ghost use Rattle.std.specs.Prelude.{◌≡◌, ◌+◌, ◌≤◌, ◌<◌, ℕ, length, All, IfOk, slice_index};
ghost use Rattle.race_groups.specs.Owners.{AreRuns, AreRunsOf, IsRun};

use crate::owners::owner_of;
use rapid_text::OutOfMemory;
use std::alloc::Global;

/// For each index of each list, the end of the run of classes with one owner at that index.
pub(crate) fn runs_of(
    alloc: Global,
    owners: &[u32],
    lists: &[Vec<u32>],
) -> Result<Vec<Vec<usize>>, OutOfMemory>
    ensures { IfOk result (λ runs. AreRunsOf owners.now lists.now runs.items) }
{
    let mut runs = Vec::with_capacity(alloc, lists.len())?;
    for variable in 0..lists.len() {
        let found = runs_in(alloc, owners, lists[variable].as_slice())?;
        runs.push(found)?;
    }
    Ok(runs)
}

// The same for one list, from its end.
fn runs_in(alloc: Global, owners: &[u32], classes: &[u32]) -> Result<Vec<usize>, OutOfMemory>
    ensures { IfOk result (λ runs. AreRuns owners.now classes.now runs.items) }
{
    let mut runs = vec![in alloc; 0usize; classes.len()]?;
    for done in 0..classes.len() {
        let at = classes.len() - 1 - done;
        runs[at] = run_at(owners, classes, runs.as_slice(), at);
    }
    Ok(runs)
}

// The end of the run at this index, from the ends of the later runs.
fn run_at(owners: &[u32], classes: &[u32], runs: &[usize], at: usize) -> usize
    requires at { at < length classes.now }
    requires len { length runs.now ≡ length classes.now }
    requires runs { (i : ℕ) → at < i → i < length classes.now → IsRun owners.now classes.now i (slice_index runs.now i) }
    ensures { IsRun owners.now classes.now at result }
{
    let next = at + 1;
    if next == classes.len() {
        return next;
    }
    if owner_of(owners, classes[at]) != owner_of(owners, classes[next]) {
        return next;
    }
    runs[next]
}
