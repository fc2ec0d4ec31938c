//! Counts a trace's pairs with several workers: each counts the threads and classes whose turn it is, and then all
//! are summed.
ghost use Rattle.std.specs.Prelude.{◌≡◌, ℕ, ◌+◌, ◌^◌, ◌<◌, ◌≤◌, All, IfOk, OnOk, length, slice_index};
ghost use Rattle.indexmap.specs.IndexMap.{index_map_len};
ghost use Rattle.race_groups.specs.Basis.{AreFewAll, AreJoined, AreParts, IsBasis, IsPart, AreTooManyIn};
ghost use Rattle.race_groups.specs.ClassTables.{AreFewClasses, HaveClasses, HaveMembers};
ghost use Rattle.race_groups.specs.Counts.{AreCountedBy};
ghost use Rattle.race_groups.specs.Found.{AreTooMany, IfTooMany};
ghost use Rattle.race_groups.specs.Owners.{AreClassConflicts};
ghost use Rattle.race_groups.specs.Rows.{Part, AreMore, AreRows, count_at, AreGrownBy, AreGrownUpTo, IsRowAdded};

use crate::basis::Basis;
use crate::classes::Classes;
use crate::counted::{are_all, count_in_turn};
use crate::rows::{GrowingRows, Rows, RowsRefusal};
use crate::writers::Conflicts;
use event_index::Indexed;
use must_order::Must;
use rapid_text::OutOfMemory;
use shb_clocks::Clocks;
use std::alloc::Global;
use std::thread;
use std::thread::Threads;

/// The same counts as `count_cuts`, with `workers` workers.
pub(crate) fn count_by_workers<R: Threads + Sync>(
    rt: &R,
    alloc: Global,
    indexed: &Indexed,
    places: &[u32],
    clocks: &Clocks,
    must: &Must,
    classes: &Classes,
    limit: u32,
    workers: usize,
) -> Result<Rows, RowsRefusal>
    requires clocks { clocks.now ≡ indexed.now }
    requires must { must.now ≡ indexed.now }
    requires classes { HaveClasses indexed.now.events (slice_index places.now) classes.now }
    requires few { AreFewClasses classes.now }
    requires members { HaveMembers classes.now }
    requires workers { 0 < workers }
    ensures counted { IfOk result (AreCountedBy indexed.now.events (slice_index places.now) classes.now) }
    ensures kept { IfOk result (λ rows. index_map_len rows ≤ limit) }
    ensures too_many { IfTooMany result (AreTooMany indexed.now.events (slice_index places.now) limit) }
{
    let conflicts = conflicts_of(rt, alloc, indexed, classes, workers)?;
    let basis = Basis::of(indexed, places, clocks, must, classes, &conflicts, workers);
    match in_turns(rt, alloc, places, basis, limit) {
        Ok(rows) => {
            are_all(&rows, places, basis);
            Ok(rows)
        }
        Err(refusal) => Err(refusal),
    }
}

// The tables for the trace's classes, which two workers or more compute in two threads.
fn conflicts_of<R: Threads>(
    rt: &R,
    alloc: Global,
    indexed: &Indexed,
    classes: &Classes,
    workers: usize,
) -> Result<Conflicts, OutOfMemory>
    requires numbers { length classes.now.numbers.items ≡ length indexed.now.events }
    requires classes { All (λ c. c < length classes.now.infos.items) classes.now.numbers.items }
    requires members { HaveMembers classes.now }
    ensures { IfOk result (AreClassConflicts indexed.now classes.now) }
{
    if workers < 2 {
        return Conflicts::of(alloc, indexed, classes);
    }
    Conflicts::at_once(rt, alloc, indexed, classes)
}

// The counts of all workers.
fn in_turns<R: Threads + Sync>(
    rt: &R,
    alloc: Global,
    places: &[u32],
    basis: Basis<'_>,
    limit: u32,
) -> Result<Rows, RowsRefusal>
    requires basis { IsBasis basis }
    requires classes { HaveClasses basis.indexed.now.events (slice_index places.now) basis.classes.now }
    ensures rows { IfOk result (λ rows. AreRows rows) }
    ensures joined { IfOk result (AreJoined basis.entry basis.entry.every) }
    ensures kept { IfOk result (λ rows. index_map_len rows ≤ limit) }
    ensures too_many { IfTooMany result (AreTooManyIn basis.entry (slice_index places.now) limit) }
{
    let count = |worker: usize| -> Result<Rows, RowsRefusal>
        requires basis { IsBasis basis }
        requires classes { HaveClasses basis.indexed.now.events (slice_index places.now) basis.classes.now }
        ensures { IsPart basis.entry (slice_index places.entry.now) limit worker result }
    { count_some(alloc, places, basis, limit, worker) };
    let parts = thread::map_indices(rt, alloc, basis.every, &count)?;
    joined(alloc, places, basis, limit, parts.as_slice())
}

// The counts of worker `worker`.
fn count_some(
    alloc: Global,
    places: &[u32],
    basis: Basis<'_>,
    limit: u32,
    worker: usize,
) -> Result<Rows, RowsRefusal>
    requires basis { IsBasis basis }
    requires classes { HaveClasses basis.indexed.now.events (slice_index places.now) basis.classes.now }
    ensures { IsPart basis.entry (slice_index places.now) limit worker result }
{
    let own = Basis {
        indexed: basis.indexed,
        clocks: basis.clocks,
        forced: basis.forced,
        classes: basis.classes,
        conflicts: basis.conflicts,
        every: basis.every,
        from: worker,
    };
    count_in_turn(alloc, places, own, limit)
}

// Joins all parts.
fn joined(
    alloc: Global,
    places: &[u32],
    basis: Basis<'_>,
    limit: u32,
    parts: &[Result<Rows, RowsRefusal>],
) -> Result<Rows, RowsRefusal>
    requires basis { IsBasis basis }
    requires classes { HaveClasses basis.indexed.now.events (slice_index places.now) basis.classes.now }
    requires len { length parts.now ≡ basis.every }
    requires parts { AreParts basis (slice_index places.now) limit parts.now }
    ensures rows { IfOk result (λ rows. AreRows rows) }
    ensures joined { IfOk result (AreJoined basis.entry basis.entry.every) }
    ensures kept { IfOk result (λ rows. index_map_len rows ≤ limit) }
    ensures too_many { IfTooMany result (AreTooManyIn basis.entry (slice_index places.now) limit) }
{
    let mut all = GrowingRows::new(alloc, basis.classes)?;
    add_parts(&mut all, places, basis, limit, parts)?;
    Ok(all.into_rows())
}

// Adds all parts.
fn add_parts(
    all: &mut GrowingRows,
    _places: &[u32],
    basis: Basis<'_>,
    limit: u32,
    parts: &[Result<Rows, RowsRefusal>],
) -> Result<(), RowsRefusal>
    requires basis { IsBasis basis }
    requires classes { HaveClasses basis.indexed.now.events (slice_index _places.now) basis.classes.now }
    requires len { length parts.now ≡ basis.every }
    requires parts { AreParts basis (slice_index _places.now) limit parts.now }
    requires all { AreRows all.old }
    requires kept { index_map_len all.old ≤ limit }
    requires joined { AreJoined basis 0 all.old }
    ensures all { OnOk result (AreRows all.new) }
    ensures joined { OnOk result (AreJoined basis.entry basis.entry.every all.new) }
    ensures kept { OnOk result (index_map_len all.new ≤ limit) }
    ensures too_many { IfTooMany result (AreTooManyIn basis.entry (slice_index _places.now) limit) }
{
    for worker in 0..parts.len() {
        add_part(all, _places, basis, limit, &parts[worker], worker)?;
    }
    Ok(())
}

// Adds the counts of one worker.
fn add_part(
    all: &mut GrowingRows,
    _places: &[u32],
    _basis: Basis<'_>,
    limit: u32,
    part: &Result<Rows, RowsRefusal>,
    _worker: usize,
) -> Result<(), RowsRefusal>
    requires basis { IsBasis _basis }
    requires classes { HaveClasses _basis.indexed.now.events (slice_index _places.now) _basis.classes.now }
    requires worker { _worker < _basis.every }
    requires part { IsPart _basis (slice_index _places.now) limit _worker part.now }
    requires all { AreRows all.old }
    requires kept { index_map_len all.old ≤ limit }
    requires joined { AreJoined _basis _worker all.old }
    ensures all { OnOk result (AreRows all.new) }
    ensures joined { OnOk result (AreJoined _basis.entry (_worker + 1) all.new) }
    ensures kept { OnOk result (index_map_len all.new ≤ limit) }
    ensures too_many { IfTooMany result (AreTooManyIn _basis.entry (slice_index _places.now) limit) }
{
    match part {
        Ok(rows) => match add_rows(all, limit, rows) {
            Ok(()) => Ok(()),
            Err(refusal) => Err(refusal),
        },
        Err(refusal) => Err(*refusal),
    }
}

// Adds the rows of a part. Fails if there are then more than `limit` rows.
fn add_rows(all: &mut GrowingRows, limit: u32, part: &Rows) -> Result<(), RowsRefusal>
    requires all { AreRows all.old }
    requires kept { index_map_len all.old ≤ limit }
    requires part { AreRows part.now }
    requires room { (k : Part) (p q : ℕ) → p ≤ q → count_at k all.old p q + count_at k part.now p q ≤ 2 ^ 43 }
    ensures all { OnOk result (AreRows all.new) }
    ensures kept { OnOk result (index_map_len all.new ≤ limit) }
    ensures added { OnOk result (AreGrownBy (λ k. count_at k part.now) all.old all.new) }
    ensures too_many { IfTooMany result (AreMore limit all.new
        × AreGrownUpTo (λ k. count_at k part.now) all.old all.new) }
{
    let rows = part.len();
    for at in 0..rows {
        add_row(all, part, at)?;
        if all.len() > limit as usize {
            return Err(RowsRefusal::TooMany);
        }
    }
    Ok(())
}

// Adds the row at this index of a part.
fn add_row(all: &mut GrowingRows, part: &Rows, at: usize) -> Result<(), OutOfMemory>
    requires all { AreRows all.old }
    requires part { AreRows part.now }
    requires at { at < index_map_len part.now }
    requires room { (k : Part) (p q : ℕ) → p ≤ q → count_at k all.old p q + count_at k part.now p q ≤ 2 ^ 44 }
    ensures all { OnOk result (AreRows all.new) }
    ensures added { OnOk result (IsRowAdded part.now at all.old all.new) }
{
    let Some((places, sums)) = part.get_index(at) else {
        return Ok(());
    };
    all.add(places.0, places.1, *sums)?;
    Ok(())
}
