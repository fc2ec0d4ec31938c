//! The least list in the order of the trace that shows a pair.
ghost use Rattle.std.specs.Prelude.{◌≡◌, ◌≢◌, ◌<◌, ◌↔◌, length, IsTrue, IsOk, IfOk, IfErr};
ghost use Rattle.witness_search.specs.trace_order.Laws.{HasListInOrder};
ghost use Rattle.rapid_text.specs.Recording.{IsWellFormed};
ghost use Rattle.trace_rules.specs.Rules.{IsDisciplined};
ghost use Rattle.event_index.specs.Relations.{IsConflicting};
ghost use Rattle.schedule.specs.Reordering.{IsCorrectReordering};
ghost use Rattle.schedule.specs.Shows.{Shows};
ghost use Rattle.must_order.specs.Layout.{IsCounted};
ghost use Rattle.witness_search.specs.trace_order.InOrder.{IsInOrder};
ghost use Rattle.witness_search.specs.trace_order.Layout.{IsCountedList};
ghost use Rattle.witness_search.specs.trace_order.Refusals.{AreThere, IsLeastInOrder, IsRefusalOf, MeansNeverShown};
ghost use Rattle.witness_search.specs.declared.trace_order.refusal.InOrderRefusal.TheVariants.{OutOfMemory as NoMemory};
ghost use Rattle.witness_search.specs.trace_order.Rows.{row_in, row_of, IsWithin, IsPairRow};

use crate::trace_order::closing::needed_row;
use crate::trace_order::refusal::InOrderRefusal;
use event_index::{EventList, Indexed};
use rapid_text::OutOfMemory;
use std::alloc::Global;

/// The least list in the order of the trace that is a correct reordering and shows the pair. Unless memory runs out,
/// a refusal means that there is no such list.
pub fn in_order(
    alloc: Global,
    indexed: &Indexed,
    first: u32,
    second: u32,
) -> Result<EventList, InOrderRefusal>
    ensures list { IfOk result (IsInOrder indexed.now.events first second) }
    ensures reordering { IfOk result (IsCorrectReordering indexed.now.events) }
    ensures shows { IfOk result (λ list. Shows indexed.now.events list first second) }
    ensures least { IfOk result (IsLeastInOrder indexed.now.events first second) }
    ensures refused { IfErr result (IsRefusalOf indexed.now.events first second) }
    ensures never_shown { IfErr result (MeansNeverShown indexed.now.events first second) }
{
    let row = row_in_order(alloc, indexed, first, second)?;
    let Ok(list) = list_of(alloc, indexed, row.as_slice()) else {
        return Err(InOrderRefusal::OutOfMemory);
    };
    Ok(list)
}

/// For each thread, the number of its events that are needed for the pair. Fails if the pair has no list in order, or
/// if memory runs out.
pub(crate) fn row_in_order(
    alloc: Global,
    indexed: &Indexed,
    first: u32,
    second: u32,
) -> Result<Vec<u32>, InOrderRefusal>
    ensures disciplined { IsDisciplined indexed.now.events }
    ensures well_formed { IsWellFormed indexed.now }
    ensures len { IfOk result (λ row. length row.items ≡ length indexed.now.threads) }
    ensures row { IfOk result (λ row. IsPairRow indexed.now.events first second (row_of row)) }
    ensures within { IfOk result (λ row. IsWithin indexed.now.events (row_of row)) }
    ensures there { IsOk result → HasListInOrder indexed.now.events first second }
    ensures refused { IfErr result (IsRefusalOf indexed.now.events first second) }
    ensures never_shown { IfErr result (MeansNeverShown indexed.now.events first second) }
{
    if let Err(refusal) = judge(indexed, first, second) {
        return Err(refusal);
    }
    let Ok(row) = row_for(alloc, indexed, first, second) else {
        return Err(InOrderRefusal::OutOfMemory);
    };
    unless_needed(row, indexed, first, second)
}

/// Returns the row of what the pair needs, unless it counts one of the two.
pub(crate) fn unless_needed(
    row: Vec<u32>,
    indexed: &Indexed,
    first: u32,
    second: u32,
) -> Result<Vec<u32>, InOrderRefusal>
    requires conflict { IsConflicting indexed.now.events first second }
    requires first { first < length indexed.now.events }
    requires second { second < length indexed.now.events }
    requires len { length row.items ≡ length indexed.now.threads }
    requires row { IsPairRow indexed.now.events first second (row_of row) }
    ensures same { IfOk result (λ kept. kept ≡ row) }
    ensures there { IsOk result → HasListInOrder indexed.now.events first second }
    ensures refused { IfErr result (IsRefusalOf indexed.now.events first second) }
    ensures never_shown { IfErr result (MeansNeverShown indexed.now.events first second) }
{
    let _len = indexed.len();
    if is_counted(row.as_slice(), indexed, first) {
        return Err(InOrderRefusal::NotInOrder);
    }
    if is_counted(row.as_slice(), indexed, second) {
        return Err(InOrderRefusal::NotInOrder);
    }
    Ok(row)
}

/// Whether the two events exist and conflict; if not, the first cause.
pub(crate) fn judge(indexed: &Indexed, first: u32, second: u32) -> Result<(), InOrderRefusal>
    ensures disciplined { IsDisciplined indexed.now.events }
    ensures well_formed { IsWellFormed indexed.now }
    ensures there { IsOk result → AreThere indexed.now.events first second }
    ensures conflict { IsOk result → IsConflicting indexed.now.events first second }
    ensures refused { IfErr result (IsRefusalOf indexed.now.events first second) }
    ensures known { IfErr result (λ why. why ≢ NoMemory) }
{
    if first >= indexed.len() {
        return Err(InOrderRefusal::NoSuchEvent);
    }
    if second >= indexed.len() {
        return Err(InOrderRefusal::NoSuchEvent);
    }
    if !indexed.conflict(first, second) {
        return Err(InOrderRefusal::NotConflicting);
    }
    Ok(())
}

/// For each thread, the number of its events that are needed for the pair.
pub(crate) fn row_for(
    alloc: Global,
    indexed: &Indexed,
    first: u32,
    second: u32,
) -> Result<Vec<u32>, OutOfMemory>
    requires first { first < length indexed.now.events }
    requires second { second < length indexed.now.events }
    ensures len { IfOk result (λ row. length row.items ≡ length indexed.now.threads) }
    ensures row { IfOk result (λ row. IsPairRow indexed.now.events first second (row_of row)) }
    ensures within { IfOk result (λ row. IsWithin indexed.now.events (row_of row)) }
{
    needed_row(alloc, indexed, indexed.base(first), indexed.base(second))
}

/// Whether the row counts the event.
pub(crate) fn is_counted(row: &[u32], indexed: &Indexed, event: u32) -> bool
    requires event { event < length indexed.now.events }
    requires len { length row.now ≡ length indexed.now.threads }
    ensures { IsTrue result ↔ IsCounted indexed.now.events (row_in row.now) event }
{
    indexed.place(event) < row[indexed.event(event).thread as usize]
}

/// The events that the row counts, in the order of the trace.
pub(crate) fn list_of(
    alloc: Global,
    indexed: &Indexed,
    row: &[u32],
) -> Result<EventList, OutOfMemory>
    requires len { length row.now ≡ length indexed.now.threads }
    ensures { IfOk result (IsCountedList indexed.now.events (row_in row.now)) }
{
    let mut list = EventList::new(alloc);
    for event in 0..indexed.len() {
        if is_counted(row, indexed, event) {
            list.push(event)?;
        }
    }
    Ok(list)
}
