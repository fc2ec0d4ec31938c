//! The orders of a trace, and its locations with the classes of its accesses.
ghost use Rattle.std.specs.Prelude.{◌≡◌, IfOk};
ghost use Rattle.std.specs.Thread.{IsSync};
ghost use Rattle.race_triage.specs.Located.{IsLocated};
ghost use Rattle.calls.specs.triage.Listings.{AreTablesOf};

use event_index::Indexed;
use must_order::Analysis;
use race_triage::Located;
use rapid_text::OutOfMemory;
use std::alloc::Global;
use std::thread;
use std::thread::Threads;

/// Computes the orders and the locations of the trace. From two workers on two threads do it, from four on four.
pub(crate) fn tables_of<'a, R: Threads + Sync>(
    rt: &R,
    alloc: Global,
    indexed: &'a Indexed,
    workers: u32,
) -> Result<(Analysis<'a>, Located), OutOfMemory>
    ensures { IfOk result (AreTablesOf indexed.now) }
{
    if workers < 2 {
        return tables_in_turn(alloc, indexed);
    }
    if workers < 4 {
        return tables_by_two(rt, alloc, indexed);
    }
    tables_by_four(rt, alloc, indexed)
}

/// Computes the orders, and then the locations.
fn tables_in_turn(alloc: Global, indexed: &Indexed) -> Result<(Analysis<'_>, Located), OutOfMemory>
    ensures { IfOk result (AreTablesOf indexed.now) }
{
    match Analysis::new(alloc, indexed) {
        Ok(analysis) => Ok((analysis, Located::of(alloc, indexed)?)),
        Err(refused) => Err(refused),
    }
}

/// Computes the locations in another thread, and the orders in this one.
fn tables_by_two<'a, R: Threads>(
    rt: &R,
    alloc: Global,
    indexed: &'a Indexed,
) -> Result<(Analysis<'a>, Located), OutOfMemory>
    ensures { IfOk result (AreTablesOf indexed.now) }
{
    let (located, analysis) = thread::join(
        rt,
        move || Located::of(alloc, indexed),
        move || Analysis::new(alloc, indexed),
    );
    Ok((analysis?, located?))
}

/// The same, each in two threads.
fn tables_by_four<'a, R: Threads + Sync>(
    rt: &R,
    alloc: Global,
    indexed: &'a Indexed,
) -> Result<(Analysis<'a>, Located), OutOfMemory>
    ensures { IfOk result (AreTablesOf indexed.now) }
{
    let (located, analysis) = thread::join(
        rt,
        move || -> Result<Located, OutOfMemory>
            requires { IsSync R.row }
            ensures { IfOk result (IsLocated indexed.entry.now) }
        { Located::at_once(rt, alloc, indexed) },
        move || -> Result<Analysis<'_>, OutOfMemory>
            requires { IsSync R.row }
            ensures { IfOk result (λ analysis. analysis ≡ indexed.entry.now) }
        { Analysis::at_once(rt, alloc, indexed) },
    );
    Ok((analysis?, located?))
}
