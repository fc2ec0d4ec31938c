//! The conflicting pairs of a trace by pair of places and by kind.
ghost use Rattle.std.specs.Prelude.{◌≡◌, ◌<◌, ◌≤◌, ℕ, All, IfOk, IfSome, Err, Some, None, true, false, length, map, slice_get, slice_index};
ghost use Rattle.indexmap.specs.IndexMap.{IsUnique, index_map_len, keys};
ghost use Rattle.race_groups.specs.Found.{AreComplete, AreOnce, AreTooMany, HaveConflict, are_places};
ghost use Rattle.race_groups.specs.Rows.{same_places};
ghost use Rattle.race_groups.specs.ClassTables.{AreFewClasses, HaveClasses, HaveLocks, HaveMembers};
ghost use Rattle.race_groups.specs.Counts.{AreCountedBy};
ghost use Rattle.race_groups.specs.Kinds.{IsDifference, IsRow};

use crate::classes::Classes;
use crate::counted::count_cuts;
use crate::guesses::Guesses;
use crate::rows::{Rows, RowsRefusal, Sums};
use crate::workers::count_by_workers;
use event_index::Indexed;
use must_order::Must;
use rapid_text::OutOfMemory;
use shb_clocks::Clocks;
use std::alloc::Global;
use std::thread::Threads;

/// The number of conflicting pairs of each kind, for one pair of places.
#[derive(Clone, Copy, PartialEq, Eq, Debug)]
pub struct Counts {
    /// The number of candidates.
    pub candidates: u64,
    /// The number of open pairs.
    pub open_pairs: u64,
    /// The number of guarded pairs.
    pub guarded: u64,
    /// The number of forced pairs.
    pub forced: u64,
}

/// The conflicting pairs of one pair of places, which may be the same place twice.
#[derive(Clone, Copy, PartialEq, Eq, Debug)]
pub struct Row {
    /// The numbers of the two places, the lesser first.
    pub places: (u32, u32),
    /// The number of pairs of each kind.
    pub counts: Counts,
}

/// All pairs of places.
#[derive(Drop)]
pub struct Groups {
    /// A row for each pair of places.
    pub rows: Vec<Row>,
    // The places of the rows, in the same order.
    pub(crate) index: Rows,
    // The likely index of the row of two places, which spares most look-ups.
    pub(crate) guesses: Guesses,
    ghost places: { are_places rows.items (keys index) ≡ true },
}

// The indices of the rows.
fn guesses_of(alloc: Global, classes: &Classes, rows: &[Row]) -> Result<Guesses, OutOfMemory> {
    let mut guesses = Guesses::new(alloc, classes.infos.as_slice())?;
    for at in 0..rows.len() {
        let places = rows[at].places;
        guesses.note(places.0, places.1, at);
        guesses.note(places.1, places.0, at);
    }
    Ok(guesses)
}

/// The conflicting pairs of a trace by pair of places and by kind. Fails if there are more than `limit` pairs of
/// places, or if memory runs out. `places` has the number of each event's place.
pub fn groups_of(
    alloc: Global,
    indexed: &Indexed,
    places: &[u32],
    clocks: &Clocks,
    must: &Must,
    classes: &Classes,
    limit: u32,
) -> Result<Groups, RowsRefusal>
    requires clocks { clocks.now ≡ indexed.now }
    requires must { must.now ≡ indexed.now }
    requires classes { HaveClasses indexed.now.events (slice_index places.now) classes.now }
    requires few { AreFewClasses classes.now }
    requires members { HaveMembers classes.now }
    requires locks { HaveLocks indexed.now.events classes.now }
    // The four counts of each row are the numbers of conflicting pairs of its places, by kind.
    ensures rows { IfOk result (λ found. All (IsRow indexed.now (slice_index places.now)) found.rows.items) }
    // Each two conflicting events have a row, and the places of each row have two conflicting events. No two rows
    // have the same places, and there are at most `limit` rows.
    ensures complete { IfOk result (λ found. AreComplete indexed.now.events (slice_index places.now) found.rows.items) }
    ensures there { IfOk result (λ found. All (λ row. HaveConflict indexed.now.events (slice_index places.now) row.places) found.rows.items) }
    ensures once { IfOk result (λ found. AreOnce found.rows.items) }
    ensures few_rows { IfOk result (λ found. length found.rows.items ≤ limit) }
    // It fails only if more than `limit` pairs of places have a conflicting pair, or if memory runs out.
    ensures too_many { result ≡ Err RowsRefusal.TooMany → AreTooMany indexed.now.events (slice_index places.now) limit }
{
    let index = count_cuts(alloc, indexed, places, clocks, must, classes, limit)?;
    Ok(groups_in(alloc, indexed, places, classes, index)?)
}

/// The same with `workers` workers, which share the counting. They are threads if threads can be started.
pub fn groups_by_workers<R: Threads + Sync>(
    rt: &R,
    alloc: Global,
    indexed: &Indexed,
    places: &[u32],
    clocks: &Clocks,
    must: &Must,
    classes: &Classes,
    limit: u32,
    workers: usize,
) -> Result<Groups, RowsRefusal>
    requires clocks { clocks.now ≡ indexed.now }
    requires must { must.now ≡ indexed.now }
    requires classes { HaveClasses indexed.now.events (slice_index places.now) classes.now }
    requires few { AreFewClasses classes.now }
    requires members { HaveMembers classes.now }
    requires locks { HaveLocks indexed.now.events classes.now }
    requires workers { 0 < workers }
    // The four counts of each row are the numbers of conflicting pairs of its places, by kind.
    ensures rows { IfOk result (λ found. All (IsRow indexed.now (slice_index places.now)) found.rows.items) }
    // Each two conflicting events have a row, and the places of each row have two conflicting events. No two rows
    // have the same places, and there are at most `limit` rows.
    ensures complete { IfOk result (λ found. AreComplete indexed.now.events (slice_index places.now) found.rows.items) }
    ensures there { IfOk result (λ found. All (λ row. HaveConflict indexed.now.events (slice_index places.now) row.places) found.rows.items) }
    ensures once { IfOk result (λ found. AreOnce found.rows.items) }
    ensures few_rows { IfOk result (λ found. length found.rows.items ≤ limit) }
    // It fails only if more than `limit` pairs of places have a conflicting pair, or if memory runs out.
    ensures too_many { result ≡ Err RowsRefusal.TooMany → AreTooMany indexed.now.events (slice_index places.now) limit }
{
    let index = count_by_workers(
        rt, alloc, indexed, places, clocks, must, classes, limit, workers,
    )?;
    Ok(groups_in(alloc, indexed, places, classes, index)?)
}

// The same after all pairs are counted.
fn groups_in(
    alloc: Global,
    indexed: &Indexed,
    places: &[u32],
    classes: &Classes,
    index: Rows,
) -> Result<Groups, OutOfMemory>
    requires classes { HaveClasses indexed.now.events (slice_index places.now) classes.now }
    requires locks { HaveLocks indexed.now.events classes.now }
    requires counted { AreCountedBy indexed.now.events (slice_index places.now) classes.now index }
    ensures rows { IfOk result (λ found. All (IsRow indexed.now (slice_index places.now)) found.rows.items) }
    ensures complete { IfOk result (λ found. AreComplete indexed.now.events (slice_index places.now) found.rows.items) }
    ensures there { IfOk result (λ found. All (λ row. HaveConflict indexed.now.events (slice_index places.now) row.places) found.rows.items) }
    ensures once { IfOk result (λ found. AreOnce found.rows.items) }
    ensures few_rows { IfOk result (λ found. length found.rows.items ≡ index_map_len index) }
{
    let rows = rows_of(alloc, indexed, places, classes, &index)?;
    let guesses = guesses_of(alloc, classes, rows.as_slice())?;
    Ok(Groups {
        rows,
        index,
        guesses,
    })
}

// The rows of the pairs that were counted.
fn rows_of(
    alloc: Global,
    indexed: &Indexed,
    places: &[u32],
    classes: &Classes,
    counted: &Rows,
) -> Result<Vec<Row>, OutOfMemory>
    requires classes { HaveClasses indexed.now.events (slice_index places.now) classes.now }
    requires locks { HaveLocks indexed.now.events classes.now }
    requires counted { AreCountedBy indexed.now.events (slice_index places.now) classes.now counted.now }
    ensures rows { IfOk result (λ rows. All (IsRow indexed.now (slice_index places.now)) rows.items) }
    ensures places { IfOk result (λ rows. map (λ row. row.places) rows.items ≡ keys counted.now) }
    ensures once { IsUnique same_places counted.now }
{
    let _len = indexed.len();
    let mut rows = Vec::with_capacity(alloc, counted.len())?;
    for at in 0..counted.len() {
        if let Some((places, sums)) = counted.get_index(at) {
            rows.push(Row {
                places: *places,
                counts: sums.counts(),
            })?;
        }
    }
    Ok(rows)
}

impl Sums {
    // The counts of the four kinds. The forced pairs are the rest.
    fn counts(self) -> Counts
        ensures { IsDifference self result }
    {
        Counts {
            candidates: self.candidates,
            open_pairs: self.ordered.saturating_sub(self.guarded),
            guarded: self.guarded,
            forced: (self.all / 2)
                .saturating_sub(self.candidates)
                .saturating_sub(self.ordered),
        }
    }
}
