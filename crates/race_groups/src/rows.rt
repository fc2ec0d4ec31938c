//! Rows by pair of places, each with its counts.
ghost use Rattle.std.specs.Prelude.{◌≡◌, ℕ, ◌+◌, ◌^◌, ◌<◌, ◌≤◌, OnErr, OnOk, IfOk, IfSome, true, Some, None, slice_get};
ghost use Rattle.indexmap.specs.IndexMap.{get, keys, index_map_len, IsEmpty, IsUnchanged, IsUnique};
ghost use Rattle.race_groups.specs.Groups.{is_between};
ghost use Rattle.race_groups.specs.Rows.{Part, part, same_places, count_at, AreRows, AreGrownBy, IsEntryAt, IsEntryGrown, added_sums};
ghost use Rattle.race_groups.specs.Waiting.{AreWaiting, rows_with, waiting_at, with_more, IsEntrySettled};

use crate::classes::Classes;
use crate::guesses::Guesses;
use crate::waiting::Waiting;
use indexmap::IndexMap;
use rapid_text::{OutOfMemory, TextKeyed};
use std::alloc::{AllocError, AllocFailed, Global};
use std::marker::Model;

/// The numbers of conflicting pairs of a pair of places.
#[derive(Clone, Copy)]
pub(crate) struct Sums {
    /// All, each counted twice: once at its later event, and once at its earlier event.
    pub(crate) all: u64,
    /// Those that are candidates.
    pub(crate) candidates: u64,
    /// Those that SHB orders and must-before does not.
    pub(crate) ordered: u64,
    /// Those that `ordered` counts and whose threads both hold one lock.
    pub(crate) guarded: u64,
}

/// For each pair of places, the lesser place first, its counts.
pub(crate) type Rows = IndexMap<(u32, u32), Sums, TextKeyed>;

/// Rows to which counts are added, with guesses of their indices. A contract sees the rows with all that waits for
/// them.
#[derive(Drop)]
pub(crate) struct GrowingRows {
    rows: Rows,
    guesses: Guesses,
    waiting: Waiting,
}

impl Model for GrowingRows {
    ghost use Rattle.std.specs.Prelude.{ℕ};
    ghost use Rattle.rapid_text.specs.declared.names.TextKeyed.{TextKeyed};
    ghost use Rattle.std.specs.Coded.{coded×, coded_ℕ};
    ghost use Rattle.rapid_text.specs.contracts.names.TextKeyed as keyed;
    ghost use Rattle.indexmap.specs.IndexMap.{IndexMap as Entries};
    ghost use Rattle.indexmap.specs.Layout.{hash_map_code};
    ghost use Rattle.race_groups.specs.contracts.rows.Sums as sums;
    ghost use Rattle.race_groups.specs.declared.rows.Sums.{Sums};
    ghost use Rattle.race_groups.specs.Waiting.{AreWaiting, rows_with};

    ghost Value = { Entries (ℕ × ℕ) Sums TextKeyed };

    ghost coded = { hash_map_code (coded× coded_ℕ coded_ℕ) sums.the_row.coded keyed.the_row.coded };

    ghost view = { λ r. rows_with r.waiting.cells.items r.rows };

    ghost invariant = { λ r. AreWaiting r.waiting.cells.items r.rows };
}

impl GrowingRows {
    /// No rows, with guesses for the places of the classes. Fails if memory runs out.
    pub(crate) fn new(alloc: Global, classes: &Classes) -> Result<GrowingRows, OutOfMemory>
        ensures empty { IfOk result IsEmpty }
        ensures len { IfOk result (λ rows. index_map_len rows ≡ 0) }
        ensures unique { IfOk result (IsUnique same_places) }
    {
        let infos = classes.infos.as_slice();
        let guesses = Guesses::new(alloc, infos)?;
        let waiting = Waiting::new(alloc, infos)?;
        Ok(GrowingRows {
            rows: IndexMap::with_hasher(alloc, *classes.lists.hasher()),
            guesses,
            waiting,
        })
    }

    /// The number of rows.
    pub(crate) fn len(&self) -> usize
        ensures len { result ≡ index_map_len self.now }
        ensures unique { IsUnique same_places self.now }
    {
        self.rows.len()
    }

    /// Adds to the counts of a pair of places.
    pub(crate) fn add(&mut self, first: u32, second: u32, more: Sums) -> Result<(), OutOfMemory>
        requires more { (k : Part) × (0 < part k more) }
        requires rows { AreRows self.old }
        requires room { (k : Part) (p q : ℕ) → p ≤ q → count_at k self.old p q + part k more < 2 ^ 64 }
        ensures ok { OnOk result (AreGrownBy (added_sums first second more) self.old self.new) }
        ensures rows { OnOk result (AreRows self.new) }
    {
        add_or_wait(
            &mut self.rows,
            &mut self.guesses,
            &mut self.waiting,
            first,
            second,
            more,
        )?;
        Ok(())
    }

    /// The rows after all is added.
    pub(crate) fn into_rows(self) -> Rows
        ensures { result ≡ self }
    {
        let GrowingRows { rows, waiting, .. } = self;
        let mut rows = rows;
        settle(&mut rows, &waiting);
        rows
    }
}

/// Why pairs are not counted.
#[derive(Clone, Copy, PartialEq, Eq, Debug)]
pub enum RowsRefusal {
    /// There are more pairs of places than the limit.
    TooMany,
    /// Out of memory.
    OutOfMemory,
}

impl From<AllocError> for RowsRefusal {
    ghost use Rattle.std.specs.Prelude.{◌≡◌};
    ghost use Rattle.race_groups.specs.declared.rows.RowsRefusal.TheVariants.{OutOfMemory};

    ghost from_gives = { λ refused refusal. refusal ≡ OutOfMemory };

    fn from(_error: AllocError) -> RowsRefusal {
        RowsRefusal::OutOfMemory
    }
}

impl From<OutOfMemory> for RowsRefusal {
    ghost use Rattle.std.specs.Prelude.{◌≡◌};
    ghost use Rattle.race_groups.specs.declared.rows.RowsRefusal.TheVariants.{OutOfMemory};

    ghost from_gives = { λ refused refusal. refusal ≡ OutOfMemory };

    fn from(_refused: OutOfMemory) -> RowsRefusal {
        RowsRefusal::OutOfMemory
    }
}

impl<T: Drop> From<AllocFailed<T>> for RowsRefusal {
    ghost use Rattle.std.specs.Prelude.{◌≡◌};
    ghost use Rattle.race_groups.specs.declared.rows.RowsRefusal.TheVariants.{OutOfMemory};

    ghost from_gives = { λ refused refusal. refusal ≡ OutOfMemory };

    fn from(_failed: AllocFailed<T>) -> RowsRefusal {
        RowsRefusal::OutOfMemory
    }
}

impl Sums {
    // The sums with `more` further candidates.
    fn with_candidates(self, more: u64) -> Sums
        requires { self.candidates + more < 2 ^ 64 }
        ensures { result ≡ with_more self more }
    {
        Sums {
            all: self.all,
            candidates: self.candidates + more,
            ordered: self.ordered,
            guarded: self.guarded,
        }
    }

    // The sum of both.
    fn plus(self, more: Sums) -> Sums
        requires room { (k : Part) → part k self + part k more < 2 ^ 64 }
        ensures { (k : Part) → part k result ≡ part k self + part k more }
    {
        Sums {
            all: self.all + more.all,
            candidates: self.candidates + more.candidates,
            ordered: self.ordered + more.ordered,
            guarded: self.guarded + more.guarded,
        }
    }
}

// Adds to the counts of a pair of places. If the row is known, mere candidates wait.
fn add_or_wait(
    rows: &mut Rows,
    guesses: &mut Guesses,
    waiting: &mut Waiting,
    first: u32,
    second: u32,
    more: Sums,
) -> Result<(), OutOfMemory>
    requires more { (k : Part) × (0 < part k more) }
    requires waiting { AreWaiting waiting.old.cells.items rows.old }
    requires room { (k : Part) (p q : ℕ) → p ≤ q → count_at k (rows_with waiting.old.cells.items rows.old) p q + part k more < 2 ^ 64 }
    ensures ok { OnOk result (AreGrownBy (added_sums first second more)
        (rows_with waiting.old.cells.items rows.old) (rows_with waiting.new.cells.items rows.new)) }
    ensures waiting { AreWaiting waiting.new.cells.items rows.new }
{
    if waiting.keep(first, second, more) {
        return Ok(());
    }
    add(rows, guesses, first, second, more)?;
    waiting.open(first, second);
    Ok(())
}

// Adds to each row what waits for it.
fn settle(rows: &mut Rows, waiting: &Waiting)
    requires { AreWaiting waiting.now.cells.items rows.old }
    ensures { rows.new ≡ rows_with waiting.now.cells.items rows.old }
{
    for at in 0..rows.len() {
        settle_at(rows, waiting, at);
    }
}

// Adds to the row at this index what waits for it.
fn settle_at(rows: &mut Rows, waiting: &Waiting, at: usize)
    requires at { at < index_map_len rows.old }
    requires fits { (e : (ℕ × ℕ) × Sums) → slice_get rows.old.entries at ≡ Some e
        → e.1.candidates + waiting_at waiting.now.cells.items e.0.0 e.0.1 < 2 ^ 64 }
    ensures { IsEntrySettled waiting.now at rows.old rows.new }
{
    let (places, sums) = rows.pair_mut(at);
    let more = waiting.of(places.0, places.1);
    *sums = sums.with_candidates(more);
}

// Adds to the counts of a pair of places.
fn add(
    rows: &mut Rows,
    guesses: &mut Guesses,
    first: u32,
    second: u32,
    more: Sums,
) -> Result<(), OutOfMemory>
    requires more { (k : Part) × (0 < part k more) }
    requires rows { AreRows rows.old }
    requires room { (k : Part) (p q : ℕ) → p ≤ q → count_at k rows.old p q + part k more < 2 ^ 64 }
    ensures ok { OnOk result (AreGrownBy (added_sums first second more) rows.old rows.new) }
    ensures rows { OnOk result (AreRows rows.new) }
    ensures err { OnErr result (IsUnchanged rows.old rows.new) }
{
    let key = ordered(first, second);
    match guessed_at(rows, guesses, first, second, key) {
        Some(at) => grow(rows, at, more),
        None => {
            rows.insert(key, more)?;
        }
    }
    Ok(())
}

// The index of the row for the places of an earlier and a later event. It is looked up only if the guess is wrong.
fn guessed_at(
    rows: &Rows,
    guesses: &mut Guesses,
    earlier: u32,
    later: u32,
    places: (u32, u32),
) -> Option<usize>
    ensures found { IfSome result (IsEntryAt rows.now places) }
    ensures none { result ≡ None → get same_places rows.now places ≡ None }
{
    if let Some(at) = guesses.guess(earlier, later) {
        if is_at(rows, at, places) {
            return Some(at);
        }
    }
    let at = row_at(rows, places)?;
    guesses.note(earlier, later, at);
    Some(at)
}

// Whether the row at this index has these places.
fn is_at(rows: &Rows, at: usize, places: (u32, u32)) -> bool
    ensures { result ≡ true → IsEntryAt rows.now places at }
{
    match rows.get_index(at) {
        Some((key, _)) => key.0 == places.0 && key.1 == places.1,
        None => false,
    }
}

/// The index of the row of a pair of places, the lesser place first; None if there is no row.
pub(crate) fn row_at(rows: &Rows, places: (u32, u32)) -> Option<usize>
    ensures found { IfSome result (IsEntryAt rows.now places) }
    ensures none { result ≡ None → get same_places rows.now places ≡ None }
{
    let (at, _, _) = rows.get_full(&places)?;
    Some(at)
}

// Adds to the row at this index.
fn grow(rows: &mut Rows, at: usize, more: Sums)
    requires at { at < index_map_len rows.old }
    requires room { (k : Part) (e : (ℕ × ℕ) × Sums) → slice_get rows.old.entries at ≡ Some e → part k e.1 + part k more < 2 ^ 64 }
    ensures keys { keys rows.new ≡ keys rows.old }
    ensures updates { IsEntryGrown at more rows.old rows.new }
{
    let (_, sums) = rows.pair_mut(at);
    *sums = sums.plus(more);
}

/// The two places, the lesser first.
pub(crate) fn ordered(first: u32, second: u32) -> (u32, u32)
    ensures rising { result.0 ≤ result.1 }
    ensures same { is_between result.0 result.1 first second ≡ true }
{
    (first.min(second), first.max(second))
}
