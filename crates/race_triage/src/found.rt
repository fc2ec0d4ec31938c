//! Counts the pairs of events for each pair of locations, and finds the least ones.
ghost use Rattle.std.specs.Prelude.{◌≡◌, ◌<◌, ◌≤◌, Err, count_by, IfOk, Some, length, max, slice_get};
ghost use Rattle.race_triage.specs.Limits.{place_pair_limit};
ghost use Rattle.race_triage.specs.Tables.{AreCompleteIn, AreGroupsIn, AreLeastsFound, AreTables, HaveTooManyPlaces};
ghost use Rattle.race_triage.specs.Verdicts.{IsFoundIn, budget_for, has_tries};

use crate::tables::Tables;
use crate::verdicts::{Effort, MAX_PLACES, TriageRefusal};
use explain_report::findings::BUDGET;
use race_groups::least_pairs::{Counted, Least, Pair, firsts_of, leasts_by_workers, leasts_of};
use race_groups::{Groups, Row, RowsRefusal, groups_by_workers, groups_of};
use rapid_text::OutOfMemory;
use std::thread::Threads;

// The most steps of all searches together. Each row gets `BUDGET` steps, or less if many rows have open pairs to try.
const STEPS: u64 = 4_294_967_296;

/// The rows of all pairs of locations, and what was found for each.
#[derive(Drop)]
pub(crate) struct Found<'a> {
    pub(crate) tables: Tables<'a>,
    pub(crate) effort: Effort,
    pub(crate) groups: Groups,
    pub(crate) leasts: Vec<Least>,
    // How many search steps the tries of one row share.
    pub(crate) budget: u32,
    // The least conflicting pair of each row; empty unless apart verdicts need it.
    firsts: Vec<Option<Pair>>,
}

impl Found<'_> {
    /// The least conflicting pair of the row with this index; None if it was not requested.
    pub(crate) fn first(&self, at: usize) -> Option<Pair>
        ensures { at < length self.now.firsts.items → slice_get self.now.firsts.items at ≡ Some result }
    {
        *self.firsts.get(at)?
    }
}

/// Finds the rows and their least pairs. If `apart` is true, finds their least conflicting pairs too.
pub(crate) fn found_of<'a>(tables: Tables<'a>, effort: Effort) -> Result<Found<'a>, TriageRefusal>
    requires tables { AreTables tables }
    ensures found { IfOk result IsFoundIn }
    ensures tables { IfOk result (λ found. found.tables ≡ tables.entry) }
    ensures effort { IfOk result (λ found. found.effort ≡ effort) }
    ensures complete { IfOk result (λ found. AreCompleteIn tables.entry found.groups.rows.items) }
    ensures few { IfOk result (λ found. length found.groups.rows.items ≤ place_pair_limit) }
    ensures too_many { result ≡ Err TriageRefusal.TooMany → HaveTooManyPlaces tables.entry }
{
    let groups = counted(tables)?;
    let leasts = leasts_in(tables, &groups, effort)?;
    Ok(found_in(tables, groups, leasts, effort)?)
}

/// The same by `workers` threads, which share the counting and the least pairs. With fewer than two workers, this
/// thread does it all.
pub(crate) fn found_by_workers<'a, R: Threads + Sync>(
    rt: &R,
    tables: Tables<'a>,
    effort: Effort,
) -> Result<Found<'a>, TriageRefusal>
    requires tables { AreTables tables }
    ensures found { IfOk result IsFoundIn }
    ensures tables { IfOk result (λ found. found.tables ≡ tables.entry) }
    ensures effort { IfOk result (λ found. found.effort ≡ effort) }
    ensures complete { IfOk result (λ found. AreCompleteIn tables.entry found.groups.rows.items) }
    ensures few { IfOk result (λ found. length found.groups.rows.items ≤ place_pair_limit) }
    ensures too_many { result ≡ Err TriageRefusal.TooMany → HaveTooManyPlaces tables.entry }
{
    if effort.workers < 2 {
        return found_of(tables, effort);
    }
    let groups = counted_by_workers(rt, tables, effort.workers)?;
    let leasts = leasts_by(rt, tables, &groups, effort)?;
    Ok(found_in(tables, groups, leasts, effort)?)
}

// The least pairs of each row.
fn leasts_in(tables: Tables<'_>, groups: &Groups, effort: Effort) -> Result<Vec<Least>, OutOfMemory>
    requires tables { AreTables tables }
    requires groups { AreGroupsIn tables groups.now }
    ensures { IfOk result (λ leasts. AreLeastsFound tables.entry effort groups.now.rows.items leasts.items) }
{
    let leasts = leasts_of(
        tables.alloc,
        tables.indexed,
        tables.places,
        tables.clocks,
        tables.must,
        tables.classes,
        groups,
        most_of(effort),
    )?;
    Ok(leasts)
}

// The same by several workers.
fn leasts_by<R: Threads + Sync>(
    rt: &R,
    tables: Tables<'_>,
    groups: &Groups,
    effort: Effort,
) -> Result<Vec<Least>, OutOfMemory>
    requires tables { AreTables tables }
    requires groups { AreGroupsIn tables groups.now }
    ensures { IfOk result (λ leasts. AreLeastsFound tables.entry effort groups.now.rows.items leasts.items) }
{
    let counted = Counted {
        indexed: tables.indexed,
        places: tables.places,
        clocks: tables.clocks,
        must: tables.must,
        classes: tables.classes,
        groups,
        most: most_of(effort),
    };
    let leasts = leasts_by_workers(rt, tables.alloc, counted, effort.workers as usize)?;
    Ok(leasts)
}

// How many of a row's least open pairs are kept: at least one, so that the least one is among them.
fn most_of(effort: Effort) -> usize
    ensures { result ≡ max effort.tries 1 }
{
    effort.tries.max(1) as usize
}

// The same, given the counts and the least pairs.
fn found_in<'a>(
    tables: Tables<'a>,
    groups: Groups,
    leasts: Vec<Least>,
    effort: Effort,
) -> Result<Found<'a>, OutOfMemory>
    requires tables { AreTables tables }
    requires groups { AreGroupsIn tables groups }
    requires leasts { AreLeastsFound tables effort groups.rows.items leasts.items }
    ensures found { IfOk result IsFoundIn }
    ensures tables { IfOk result (λ found. found.tables ≡ tables.entry) }
    ensures effort { IfOk result (λ found. found.effort ≡ effort) }
    ensures complete { IfOk result (λ found. AreCompleteIn tables.entry found.groups.rows.items) }
    ensures few { IfOk result (λ found. length found.groups.rows.items ≤ place_pair_limit) }
{
    let budget = budget_of(groups.rows.as_slice());
    let firsts = if effort.apart {
        firsts_of(
            tables.alloc,
            tables.indexed,
            tables.places,
            tables.classes,
            &groups,
        )?
    } else {
        Vec::new(tables.alloc)
    };
    Ok(Found {
        tables,
        effort,
        groups,
        leasts,
        budget,
        firsts,
    })
}

// How many search steps the tries of one row share.
fn budget_of(rows: &[Row]) -> u32
    requires few { length rows.now ≤ place_pair_limit }
    ensures { result ≡ budget_for (count_by has_tries rows.now) }
{
    let mut count = 0u64;
    for row in rows {
        if has_tries(row) {
            count += 1;
        }
    }
    budget_for(count)
}

// Whether the row has open pairs and no candidate.
fn has_tries(row: &Row) -> bool
    ensures { result ≡ has_tries row.now }
{
    row.counts.candidates == 0 && row.counts.open_pairs > 0
}

// How many search steps the tries of one row share, if `count` rows have tries.
fn budget_for(count: u64) -> u32
    ensures { result ≡ budget_for count }
{
    u64::from(BUDGET).min(STEPS / count.max(1)) as u32
}

// Counts the rows. Fails if there are too many.
fn counted(tables: Tables<'_>) -> Result<Groups, TriageRefusal>
    requires tables { AreTables tables }
    ensures groups { IfOk result (AreGroupsIn tables.entry) }
    ensures too_many { result ≡ Err TriageRefusal.TooMany → HaveTooManyPlaces tables.entry }
{
    match groups_of(
        tables.alloc,
        tables.indexed,
        tables.places,
        tables.clocks,
        tables.must,
        tables.classes,
        MAX_PLACES,
    ) {
        Ok(groups) => Ok(groups),
        Err(RowsRefusal::TooMany) => Err(TriageRefusal::TooMany),
        Err(RowsRefusal::OutOfMemory) => Err(TriageRefusal::OutOfMemory),
    }
}

// The same by several workers.
fn counted_by_workers<R: Threads + Sync>(
    rt: &R,
    tables: Tables<'_>,
    workers: u32,
) -> Result<Groups, TriageRefusal>
    requires tables { AreTables tables }
    requires workers { 0 < workers }
    ensures groups { IfOk result (AreGroupsIn tables.entry) }
    ensures too_many { result ≡ Err TriageRefusal.TooMany → HaveTooManyPlaces tables.entry }
{
    let limit = MAX_PLACES;
    match groups_by_workers(
        rt,
        tables.alloc,
        tables.indexed,
        tables.places,
        tables.clocks,
        tables.must,
        tables.classes,
        limit,
        workers as usize,
    ) {
        Ok(groups) => Ok(groups),
        Err(RowsRefusal::TooMany) => Err(TriageRefusal::TooMany),
        Err(RowsRefusal::OutOfMemory) => Err(TriageRefusal::OutOfMemory),
    }
}
