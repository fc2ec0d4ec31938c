//! The verdict on one pair of locations.
ghost use Rattle.std.specs.Prelude.{◌≡◌, ℕ, ◌<◌, None, Ok, length, slice_index, true};
ghost use Rattle.race_groups.specs.Found.{HaveConflict};
ghost use Rattle.race_groups.specs.Groups.{is_between};
ghost use Rattle.race_triage.specs.Limits.{usual_tries};
ghost use Rattle.race_triage.specs.Tables.{AreCompleteIn, AreTables, HasConflictIn};
ghost use Rattle.race_triage.specs.Verdicts.{IsFoundIn, IsUsualVerdict, IsVerdict, IsVerdictOf};
ghost use Rattle.rapid_text.specs.Appended.{IfFound};

use crate::found::{Found, found_of};
use crate::settling::settled;
use crate::tables::Tables;
use crate::verdicts::{Effort, TriageRefusal, Verdict};
use closed_order::{Closing, USUAL_WORK};
use must_order::Analysis;
use race_groups::Classes;
use rapid_text::OutOfMemory;
use std::alloc::Global;
use witness_search::trace_order::Acquires;

/// How many open pairs of events are tried for a pair of locations, if nobody gives a number.
pub const USUAL_TRIES: u32 = 16;

/// Returns the verdict on a pair of locations. `places` has for each event the number of its location: 0, 1 or 2.
/// Returns None if no two events of the two locations conflict.
pub fn verdict_between(
    alloc: Global,
    analysis: &Analysis<'_>,
    places: &[u32],
    between: (u32, u32),
) -> Result<Option<Verdict>, OutOfMemory>
    requires places { length places.now ≡ length analysis.now.events }
    requires few { (e : ℕ) → slice_index places.now e < 3 }
    // The verdict is the one that `triage` gives with these numbers of locations.
    ensures verdict { IfFound result (IsVerdict analysis.now (slice_index places.now) usual_tries true) }
    ensures between { IfFound result (λ v. is_between v.row.places.0 v.row.places.1 between.0 between.1 ≡ true) }
    ensures none { result ≡ Ok None → ¬ HaveConflict analysis.now.events (slice_index places.now) between }
{
    let indexed = analysis.indexed();
    let acquires = Acquires::new(alloc, indexed)?;
    let classes = Classes::of(alloc, indexed, places)?;
    let tables = Tables {
        alloc,
        indexed,
        clocks: analysis.clocks(),
        must: analysis.must(),
        acquires: &acquires,
        classes: &classes,
        places,
    };
    verdict_by(analysis, tables, between)
}

// The same, given the tables of the trace.
fn verdict_by(
    analysis: &Analysis<'_>,
    tables: Tables<'_>,
    between: (u32, u32),
) -> Result<Option<Verdict>, OutOfMemory>
    requires tables { AreTables tables }
    requires trace { analysis.now ≡ tables.indexed.now }
    requires few { (e : ℕ) → slice_index tables.places.now e < 3 }
    ensures verdict { IfFound result (IsUsualVerdict tables.entry) }
    ensures between { IfFound result (λ v. is_between v.row.places.0 v.row.places.1 between.0 between.1 ≡ true) }
    ensures none { result ≡ Ok None → ¬ HasConflictIn tables.entry between }
{
    let effort = Effort {
        tries: USUAL_TRIES,
        apart: true,
        workers: 0,
    };
    match found_of(tables, effort) {
        Ok(found) => verdict_in(analysis, &found, between),
        Err(TriageRefusal::OutOfMemory) => Err(OutOfMemory),
        Err(TriageRefusal::TooMany) => unreachable!(),
    }
}

// The same, given what was found for all pairs of locations.
fn verdict_in(
    analysis: &Analysis<'_>,
    found: &Found<'_>,
    between: (u32, u32),
) -> Result<Option<Verdict>, OutOfMemory>
    requires found { IsFoundIn found.now }
    requires trace { analysis.now ≡ found.now.tables.indexed.now }
    requires complete { AreCompleteIn found.now.tables found.now.groups.rows.items }
    ensures verdict { IfFound result (IsVerdictOf found.now) }
    ensures between { IfFound result (λ v. is_between v.row.places.0 v.row.places.1 between.0 between.1 ≡ true) }
    ensures none { result ≡ Ok None → ¬ HasConflictIn found.now.tables between }
{
    match found.groups.row_of(between.0, between.1) {
        Some(at) => {
            let mut closing = Closing::new(USUAL_WORK);
            Ok(Some(settled(found, analysis, &mut closing, found.verdict(at)?)?))
        }
        None => Ok(None),
    }
}
