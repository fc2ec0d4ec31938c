//! Finds the least pairs with several workers: each visits the variables whose turn it is, and then their findings
//! are joined.
ghost use Rattle.std.specs.Prelude.{◌≡◌, ℕ, ◌+◌, ◌<◌, ◌≤◌, All, IfOk, OnOk, Result, Vec, length, slice_index_or};
ghost use Rattle.std.specs.declared.alloc.Global.{Global};
ghost use Rattle.race_groups.specs.least_pairs.Going.{AreFoundOf, IsSound, IsTurn};
ghost use Rattle.race_groups.specs.least_pairs.Joining.{AreJoined, IsBelow};
ghost use Rattle.race_groups.specs.least_pairs.Lanes.{AreAllAccesses};
ghost use Rattle.race_groups.specs.least_pairs.Pairs.{AreCountedGroups, AreLeastsOf, IsOneForEachRow};
ghost use Rattle.race_groups.specs.least_pairs.Taking.{AreTries};
ghost use Rattle.race_groups.specs.declared.least_pairs.least.Least.{Least as Found};

use crate::least_pairs::lanes::accesses_of;
use crate::least_pairs::least::Least;
use crate::least_pairs::leasts::{Search, has_candidates, has_open};
use crate::{Classes, Groups};
use event_index::Indexed;
use must_order::Must;
use rapid_text::OutOfMemory;
use shb_clocks::{Clocks, known_tells_shb};
use std::alloc::Global;
use std::thread;
use std::thread::Threads;

/// A trace whose pairs have been counted.
#[derive(Clone, Copy)]
pub struct Counted<'a> {
    /// The trace.
    pub indexed: &'a Indexed,
    /// The number of each event's place.
    pub places: &'a [u32],
    /// The order SHB.
    pub clocks: &'a Clocks,
    /// Must-before.
    pub must: &'a Must,
    /// The classes of the trace's events.
    pub classes: &'a Classes,
    /// The rows of all pairs of places.
    pub groups: &'a Groups,
    /// The most open pairs that are kept of a row.
    pub most: usize,
}

/// The same as `leasts_of`, with `workers` workers, which share the variables. They are threads if threads can be
/// started. The findings do not depend on their number. Fails if memory runs out.
pub fn leasts_by_workers<R: Threads + Sync>(
    rt: &R,
    alloc: Global,
    counted: Counted<'_>,
    workers: usize,
) -> Result<Vec<Least>, OutOfMemory>
    requires clocks { counted.clocks.now ≡ counted.indexed.now }
    requires must { counted.must.now ≡ counted.indexed.now }
    requires places { length counted.places.now ≡ length counted.indexed.now.events }
    requires groups { AreCountedGroups counted }
    requires most { 0 < counted.most }
    ensures len { IfOk result (IsOneForEachRow counted.entry) }
    ensures leasts { IfOk result (AreLeastsOf counted.entry) }
{
    known_tells_shb();
    let _len = counted.indexed.len();
    let search = Search {
        indexed: counted.indexed,
        places: counted.places,
        clocks: counted.clocks,
        rows: counted.must.rows(),
        classes: counted.classes,
        groups: counted.groups,
        most: counted.most,
        has_candidates: has_candidates(counted.groups),
        has_open: has_open(counted.groups),
        every: 1,
        from: 0,
    };
    // Workers beyond the number of variables would have nothing to do.
    let every = workers.min(counted.indexed.variables() as usize);
    if every < 2 || search.has_none() {
        let leasts = search.found(alloc)?;
        return Ok(leasts);
    }
    let leasts = by_workers(rt, alloc, &search, every)?;
    Ok(leasts)
}

// The joined findings of `every` workers.
fn by_workers<R: Threads + Sync>(
    rt: &R,
    alloc: Global,
    search: &Search<'_>,
    every: usize,
) -> Result<Vec<Least>, OutOfMemory>
    requires sound { IsSound search.now }
    requires every { 0 < every }
    ensures { IfOk result (λ leasts. AreFoundOf search.now (IsBelow every every) leasts.items) }
{
    let accesses = accesses_of(alloc, search.indexed)?;
    let lists = accesses.as_slice();
    let find_some = |worker: usize| -> Result<Vec<Least>, OutOfMemory>
        requires sound { IsSound search.now }
        requires every { 0 < every }
        requires len { length lists.now ≡ length search.now.indexed.now.variables }
        requires accesses { AreAllAccesses search.now.indexed.now lists.now }
        ensures { IfOk result (λ leasts. AreFoundOf search.entry.now (IsTurn every worker) leasts.items) }
    { part_of(search, alloc, lists, worker, every) };
    let parts = thread::map_indices(rt, alloc, every, &find_some)?;
    joined(search, alloc, parts.as_slice(), every)
}

// The findings of worker `from`: those on the variables whose turn it is.
fn part_of(
    search: &Search<'_>,
    alloc: Global,
    accesses: &[Vec<u32>],
    from: usize,
    every: usize,
) -> Result<Vec<Least>, OutOfMemory>
    requires sound { IsSound search.now }
    requires every { 0 < every }
    requires len { length accesses.now ≡ length search.now.indexed.now.variables }
    requires accesses { AreAllAccesses search.now.indexed.now accesses.now }
    ensures { IfOk result (λ leasts. AreFoundOf search.now (IsTurn every from) leasts.items) }
{
    let own = Search {
        indexed: search.indexed,
        places: search.places,
        clocks: search.clocks,
        rows: search.rows,
        classes: search.classes,
        groups: search.groups,
        most: search.most,
        has_candidates: search.has_candidates,
        has_open: search.has_open,
        every,
        from,
    };
    let mut leasts = own.nothing(alloc)?;
    own.all(alloc, accesses, leasts.as_mut_slice())?;
    Ok(leasts)
}

// Joins all parts.
fn joined(
    search: &Search<'_>,
    alloc: Global,
    parts: &[Result<Vec<Least>, OutOfMemory>],
    every: usize,
) -> Result<Vec<Least>, OutOfMemory>
    requires sound { IsSound search.now }
    requires len { length parts.now ≡ every }
    requires parts { (i : ℕ) (d : Result (Vec Found Global) OutOfMemory) → i < length parts.now → IfOk (slice_index_or parts.now i d)
        (λ leasts. AreFoundOf search.now (IsTurn every i) leasts.items) }
    ensures { IfOk result (λ leasts. AreFoundOf search.now (IsBelow every every) leasts.items) }
{
    let mut all = search.nothing(alloc)?;
    for at in 0..parts.len() {
        add_part(search, all.as_mut_slice(), &parts[at], at, every)?;
    }
    Ok(all)
}

// Adds a part.
fn add_part(
    search: &Search<'_>,
    all: &mut [Least],
    part: &Result<Vec<Least>, OutOfMemory>,
    _from: usize,
    _every: usize,
) -> Result<(), OutOfMemory>
    requires sound { IsSound search.now }
    requires all { AreFoundOf search.now (IsBelow _every _from) all.old }
    requires part { IfOk part.now (λ leasts. AreFoundOf search.now (IsTurn _every _from) leasts.items) }
    ensures { OnOk result (AreFoundOf search.now (IsBelow _every (_from + 1)) all.new) }
{
    let _len = search.indexed.len();
    match part {
        Ok(some) => {
            join_all(all, some.as_slice(), search.most)?;
            Ok(())
        }
        Err(refused) => Err(*refused),
    }
}

// Adds the findings of a part, row by row.
fn join_all(all: &mut [Least], part: &[Least], most: usize) -> Result<(), OutOfMemory>
    requires len { length part.now ≡ length all.old }
    requires room { (at : ℕ) (d : Found) → at < length all.old
        → (slice_index_or all.old at d).variables + (slice_index_or part.now at d).variables ≤ 4294967295 }
    requires all { All (λ (l : Found). AreTries most l.tries.items) all.old }
    requires part { All (λ (l : Found). AreTries most l.tries.items) part.now }
    requires most { 0 < most }
    ensures { OnOk result (AreJoined most part.now all.old all.new) }
{
    for at in 0..part.len() {
        all[at].join(most, &part[at])?;
    }
    Ok(())
}
