//! The accesses of chosen variables, as a table.
ghost use Rattle.std.specs.Prelude.{◌≡◌, ◌<◌, ◌≤◌, length, nat_lt, slice_index, All, Err, IfOk, None};
ghost use Rattle.rapid_text.specs.Appended.{IfFound};
ghost use Rattle.variable_uses.specs.Numbers.{AreNumbers};
ghost use Rattle.variable_uses.specs.Parts.{AreHolds, IsRace};
ghost use Rattle.variable_uses.specs.Rows.{keys_of};
ghost use Rattle.variable_uses.specs.Table.{AreUses, holds_asked, holds_in};
ghost use Rattle.variable_uses.specs.declared.uses.UsesRefusal.TheVariants.{TooMany};

use crate::columns::{LockCount, locks_of_rows, totals_of};
use crate::counting::counts_of;
use crate::ends::named_rows;
use crate::keys::keys_of;
use crate::locks::uses_by_lock;
use crate::numbering::{Numbering, numbering_of};
use crate::order::{Side, edges_of, sides_of};
use crate::threads::threads_of;
use event_index::Indexed;
use must_order::{Analysis, Must};
use rapid_text::OutOfMemory;
use std::alloc::Global;

/// What a table is about.
#[derive(Clone, Copy)]
pub struct Asked<'a> {
    /// For each event the number of its place, below 1,048,576.
    pub places: &'a [u32],
    /// For each variable whether it is chosen.
    pub chosen: &'a [bool],
    /// For each event whether the race names it.
    pub named: &'a [bool],
}

/// The accesses of chosen variables, in rows. The accesses of a row are of one place, and all are reads or all writes.
#[derive(Drop)]
pub struct Uses {
    /// The first access of each row, in rising order.
    pub firsts: Vec<u32>,
    /// For each row how many accesses it has.
    pub counts: Vec<u32>,
    /// For each row how many threads have an access in it.
    pub threads: Vec<u32>,
    /// For each row whether it has a named event. The accesses of such rows are the accesses of the race.
    pub named: Vec<bool>,
    /// For each row whether its accesses come before all accesses of the race, or after them.
    pub sides: Vec<Side>,
    /// For each row the locks that are held at some of its accesses, in rising order.
    pub locks: Vec<Vec<LockCount>>,
    /// The locks that are held at some access, in rising order.
    pub totals: Vec<LockCount>,
}

/// Why there is no table.
#[derive(Clone, Copy)]
pub enum UsesRefusal {
    /// More than `MOST_HOLDS` locks are held at the accesses.
    TooMany,
    /// Out of memory.
    OutOfMemory,
}

impl From<OutOfMemory> for UsesRefusal {
    ghost use Rattle.std.specs.Prelude.{◌≡◌};
    ghost use Rattle.variable_uses.specs.declared.uses.UsesRefusal.TheVariants.{OutOfMemory as NoMemory};

    ghost from_gives = { λ _ refusal. refusal ≡ NoMemory };

    fn from(_refused: OutOfMemory) -> UsesRefusal {
        UsesRefusal::OutOfMemory
    }
}

/// The table of the accesses of the chosen variables. It fails if memory runs out, or if more than `MOST_HOLDS` locks
/// are held at the accesses.
pub fn uses_of(
    alloc: Global,
    analysis: &Analysis<'_>,
    asked: Asked<'_>,
) -> Result<Uses, UsesRefusal>
    requires places { length asked.places.now ≡ length analysis.now.events }
    requires few { All (λ p. p < 1048576) asked.places.now }
    // Each access of a chosen variable is in exactly one row, that of its place and operation (`AreUses`). A row has the
    // number of its accesses, of their threads, and of its accesses at which each lock is held. It comes before the race
    // exactly if each of its accesses is must-before each access of the race; after it likewise. `totals` has the locks
    // of all accesses.
    ensures uses { IfOk result (AreUses analysis.now asked.entry) }
    // A table comes only if at most 16,777,216 locks are held at the accesses, counted over all accesses. A lock that a
    // thread took twice counts twice.
    ensures few { IfOk result (λ _. holds_asked analysis.now asked.entry ≤ 16777216) }
    // `TooMany` comes only if there are more.
    ensures many { result ≡ Err TooMany → 16777216 < holds_asked analysis.now asked.entry }
{
    table_of(alloc, analysis.indexed(), analysis.must(), asked)
}

// The same by the trace and must-before.
fn table_of(
    alloc: Global,
    indexed: &Indexed,
    must: &Must,
    asked: Asked<'_>,
) -> Result<Uses, UsesRefusal>
    requires must { must.now ≡ indexed.now }
    requires places { length asked.places.now ≡ length indexed.now.events }
    requires few { All (λ p. p < 1048576) asked.places.now }
    ensures uses { IfOk result (AreUses indexed.now asked.entry) }
    ensures few { IfOk result (λ _. holds_asked indexed.now asked.entry ≤ 16777216) }
    ensures many { result ≡ Err TooMany → 16777216 < holds_asked indexed.now asked.entry }
{
    let _len = indexed.len();
    let numbering = rows_of(alloc, indexed, asked)?;
    let numbers = numbering.numbers.as_slice();
    let rows = numbering.firsts.len();
    let (locks, totals) = match holds_of(alloc, indexed, numbers, rows)? {
        Some(holds) => holds,
        None => return Err(UsesRefusal::TooMany),
    };
    let (named, sides) = race_of(alloc, indexed, must, numbers, asked.named, rows)?;
    let counts = counts_of(alloc, numbers, rows)?;
    let threads = threads_of(alloc, indexed, numbers, rows)?;
    Ok(Uses {
        firsts: numbering.firsts,
        counts,
        threads,
        named,
        sides,
        locks,
        totals,
    })
}

// The rows, and the row of each event.
fn rows_of(alloc: Global, indexed: &Indexed, asked: Asked<'_>) -> Result<Numbering, OutOfMemory>
    requires places { length asked.places.now ≡ length indexed.now.events }
    requires few { All (λ p. p < 1048576) asked.places.now }
    ensures { IfOk result (AreNumbers (keys_of indexed.now.events asked.entry.places.now asked.entry.chosen.now)) }
{
    let _len = indexed.len();
    let keys = keys_of(alloc, indexed, asked.places, asked.chosen)?;
    numbering_of(alloc, keys.as_slice())
}

// The locks of each row, and those of all rows. None if too many locks are held.
fn holds_of(
    alloc: Global,
    indexed: &Indexed,
    numbers: &[u32],
    rows: usize,
) -> Result<Option<(Vec<Vec<LockCount>>, Vec<LockCount>)>, OutOfMemory>
    requires len { length numbers.now ≡ length indexed.now.events }
    requires numbers { All (λ m. m ≤ rows) numbers.now }
    ensures holds { IfFound result (AreHolds indexed.now numbers.now rows) }
    ensures few { IfFound result (λ _. holds_in indexed.now (λ e. nat_lt 0 (slice_index numbers.now e)) (length indexed.now.events) ≤ 16777216) }
    ensures many { IfOk result (λ found. found ≡ None → 16777216 < holds_in indexed.now (λ e. nat_lt 0 (slice_index numbers.now e)) (length indexed.now.events)) }
{
    let _len = indexed.len();
    let lists = match uses_by_lock(alloc, indexed, numbers)? {
        Some(lists) => lists,
        None => return Ok(None),
    };
    let locks = locks_of_rows(alloc, numbers, lists.as_slice(), rows)?;
    let totals = totals_of(alloc, lists.as_slice())?;
    Ok(Some((locks, totals)))
}

// Which rows have a named event, and the side of each row.
fn race_of(
    alloc: Global,
    indexed: &Indexed,
    must: &Must,
    numbers: &[u32],
    named: &[bool],
    rows: usize,
) -> Result<(Vec<bool>, Vec<Side>), OutOfMemory>
    requires must { must.now ≡ indexed.now }
    requires len { length numbers.now ≡ length indexed.now.events }
    requires numbers { All (λ m. m ≤ rows) numbers.now }
    ensures race { IfOk result (IsRace indexed.now numbers.now named.now rows) }
{
    let _len = indexed.len();
    let flags = named_rows(alloc, numbers, named, rows)?;
    let edges = edges_of(alloc, indexed, numbers, flags.as_slice())?;
    let sides = sides_of(alloc, must, numbers, &edges, rows)?;
    Ok((flags, sides))
}
