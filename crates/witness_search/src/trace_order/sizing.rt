//! Computes the length of the list in order, and its number of threads, without making the list.
ghost use Rattle.std.specs.Prelude.{◌≡◌, length, IsOk, IfOk, IfErr};
ghost use Rattle.witness_search.specs.trace_order.Layout.{IsListLength, IsThreadCount};
ghost use Rattle.witness_search.specs.trace_order.Laws.{HasListInOrder};
ghost use Rattle.witness_search.specs.trace_order.Refusals.{IsRefusalOf, MeansNeverShown};
ghost use Rattle.witness_search.specs.trace_order.Sizes.{IsSizeInOrder};
ghost use Rattle.witness_search.specs.trace_order.Rows.{row_in, IsWithin};

use crate::trace_order::acquires::Acquires;
use crate::trace_order::joining::joined_in_order;
use crate::trace_order::refusal::InOrderRefusal;
use event_index::Indexed;
use must_order::Must;
use std::alloc::Global;

/// The number of events in the pair's list in order, and the number of their threads. Fails as `in_order` does. Its
/// steps grow with the threads and the acquires of shared locks, not with the events.
pub fn in_order_size(
    alloc: Global,
    indexed: &Indexed,
    must: &Must,
    acquires: &Acquires,
    first: u32,
    second: u32,
) -> Result<(u32, u32), InOrderRefusal>
    requires must { must.now ≡ indexed.now }
    requires acquires { acquires.now ≡ indexed.now }
    ensures size { IfOk result (IsSizeInOrder indexed.now.events first second) }
    ensures there { IsOk result → HasListInOrder indexed.now.events first second }
    ensures refused { IfErr result (IsRefusalOf indexed.now.events first second) }
    ensures never_shown { IfErr result (MeansNeverShown indexed.now.events first second) }
{
    let row = joined_in_order(alloc, indexed, must, acquires, first, second)?;
    Ok((
        events_counted(indexed, row.as_slice()),
        threads_counted(indexed, row.as_slice()),
    ))
}

/// The number of events that the row counts.
pub(crate) fn events_counted(indexed: &Indexed, row: &[u32]) -> u32
    requires len { length row.now ≡ length indexed.now.threads }
    requires within { IsWithin indexed.now.events (row_in row.now) }
    ensures { IsListLength indexed.now.events (row_in row.now) result }
{
    let mut count = 0;
    for thread in 0..indexed.threads() {
        count += row[thread as usize];
    }
    count
}

/// The number of threads with an event that the row counts.
pub(crate) fn threads_counted(indexed: &Indexed, row: &[u32]) -> u32
    requires len { length row.now ≡ length indexed.now.threads }
    ensures { IsThreadCount (row_in row.now) (length indexed.now.threads) result }
{
    let mut count = 0;
    for thread in 0..indexed.threads() {
        if row[thread as usize] > 0 {
            count += 1;
        }
    }
    count
}
