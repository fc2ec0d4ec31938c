//! Gives the verdicts on all rows, by one thread or by several.
ghost use Rattle.std.specs.Prelude.{◌≡◌, ℕ, ◌+◌, ◌<◌, ◌%◌, All, Contains, IfOk, OnOk, Result, Vec, length, slice_index_or};
ghost use Rattle.std.specs.declared.alloc.Global.{Global};
ghost use Rattle.race_groups.specs.Found.{AreOnce};
ghost use Rattle.race_triage.specs.Verdicts.{AreOnRowsOf, ArePartOf, AreWholeOf, IsAddedAt, IsAnsweredAt, IsBelow, IsFoundIn, IsOwn, IsPartAnswered, IsVerdictOf};
ghost use Rattle.race_triage.specs.declared.verdicts.Verdict.{Verdict as Told};

use crate::found::Found;
use crate::verdicts::Verdict;
use crate::watch::Watch;
use rapid_text::OutOfMemory;
use std::alloc::Global;
use std::thread;
use std::thread::Threads;

/// The verdicts on all rows, found by the effort's number of worker threads, or by this thread.
pub(crate) fn all_verdicts<R: Threads + Sync, W: Watch + Sync>(
    rt: &R,
    found: &Found<'_>,
    watch: &W,
) -> Result<Vec<Verdict>, OutOfMemory>
    requires found { IsFoundIn found.now }
    ensures { IfOk result (λ vs. AreWholeOf found.now vs.items) }
{
    if found.effort.workers == 0 {
        return part_of(found, 0, 1, watch);
    }
    by_workers(rt, found, watch)
}

// The verdicts, found by several threads, which share the rows evenly.
fn by_workers<R: Threads + Sync, W: Watch + Sync>(
    rt: &R,
    found: &Found<'_>,
    watch: &W,
) -> Result<Vec<Verdict>, OutOfMemory>
    requires found { IsFoundIn found.now }
    requires workers { 0 < found.now.effort.workers }
    ensures { IfOk result (λ vs. AreWholeOf found.now vs.items) }
{
    let every = found.effort.workers as usize;
    let find_some = |worker: usize| -> Result<Vec<Verdict>, OutOfMemory>
        requires found { IsFoundIn found.now }
        requires every { 0 < every }
        ensures { IfOk result (λ vs. ArePartOf found.entry.now worker every vs.items) }
    { part_of(found, worker, every, watch) };
    let parts = thread::map_indices(rt, found.tables.alloc, every, &find_some)?;
    joined(found, parts.as_slice(), every)
}

// The verdicts on the rows whose index is `from` plus a multiple of `every`.
fn part_of<W: Watch>(
    found: &Found<'_>,
    from: usize,
    every: usize,
    watch: &W,
) -> Result<Vec<Verdict>, OutOfMemory>
    requires found { IsFoundIn found.now }
    requires every { 0 < every }
    ensures { IfOk result (λ vs. ArePartOf found.now from every vs.items) }
{
    let mut verdicts = Vec::new(found.tables.alloc);
    for at in 0..found.groups.rows.len() {
        add_own(found, &mut verdicts, at, from, every, watch)?;
    }
    Ok(verdicts)
}

// Adds the verdict on the row at index `at`, if it belongs to this thread, and reports it to `watch`.
fn add_own<W: Watch>(
    found: &Found<'_>,
    verdicts: &mut Vec<Verdict>,
    at: usize,
    from: usize,
    every: usize,
    watch: &W,
) -> Result<(), OutOfMemory>
    requires found { IsFoundIn found.now }
    requires at { at < length found.now.groups.rows.items }
    requires every { 0 < every }
    requires verdicts { All (IsVerdictOf found.now) verdicts.old.items }
    requires on { AreOnRowsOf found.now (IsOwn from every at) verdicts.old.items }
    ensures verdicts { OnOk result (All (IsVerdictOf found.now) verdicts.new.items) }
    ensures on { OnOk result (AreOnRowsOf found.now (IsOwn from every (at + 1)) verdicts.new.items) }
    ensures answered { OnOk result (at % every ≡ from → IsAnsweredAt found.now verdicts.new.items at) }
    ensures kept { OnOk result ((v : Told) → Contains verdicts.old.items v → Contains verdicts.new.items v) }
{
    if at % every != from {
        return Ok(());
    }
    add(found, verdicts, at)?;
    watch.judged(found.groups.rows.len());
    Ok(())
}

// Adds the verdict on the row at index `at`.
fn add(found: &Found<'_>, verdicts: &mut Vec<Verdict>, at: usize) -> Result<(), OutOfMemory>
    requires found { IsFoundIn found.now }
    requires at { at < length found.now.groups.rows.items }
    ensures { OnOk result (IsAddedAt found.now at verdicts.old.items verdicts.new.items) }
{
    let verdict = found.verdict(at)?;
    verdicts.push(verdict)?;
    Ok(())
}

// The verdicts of all parts, one part after another.
fn joined(
    found: &Found<'_>,
    parts: &[Result<Vec<Verdict>, OutOfMemory>],
    every: usize,
) -> Result<Vec<Verdict>, OutOfMemory>
    requires every { 0 < every }
    requires once { AreOnce found.now.groups.rows.items }
    requires len { length parts.now ≡ every }
    requires parts { (i : ℕ) (d : Result (Vec Told Global) OutOfMemory) → i < length parts.now → IfOk (slice_index_or parts.now i d)
        (λ vs. ArePartOf found.now i every vs.items) }
    ensures { IfOk result (λ vs. AreWholeOf found.now vs.items) }
{
    let mut all = Vec::new(found.tables.alloc);
    for at in 0..parts.len() {
        add_part(found, &mut all, &parts[at], at, every)?;
    }
    Ok(all)
}

// Adds the verdicts of a part.
fn add_part(
    _found: &Found<'_>,
    all: &mut Vec<Verdict>,
    part: &Result<Vec<Verdict>, OutOfMemory>,
    _from: usize,
    _every: usize,
) -> Result<(), OutOfMemory>
    requires all { All (IsVerdictOf _found.now) all.old.items }
    requires once { AreOnce _found.now.groups.rows.items }
    requires on { AreOnRowsOf _found.now (IsBelow _every _from) all.old.items }
    requires part { IfOk part.now (λ vs. ArePartOf _found.now _from _every vs.items) }
    ensures all { OnOk result (All (IsVerdictOf _found.now) all.new.items) }
    ensures answered { OnOk result (IsPartAnswered _found.now _from _every all.new.items) }
    ensures on { OnOk result (AreOnRowsOf _found.now (IsBelow _every (_from + 1)) all.new.items) }
    ensures kept { OnOk result ((v : Told) → Contains all.old.items v → Contains all.new.items v) }
{
    match part {
        Ok(some) => {
            all.extend_from_slice(some.as_slice())?;
            Ok(())
        }
        Err(refused) => Err(*refused),
    }
}
