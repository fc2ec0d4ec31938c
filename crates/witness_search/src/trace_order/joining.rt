//! Computes the needed events by joining the rows of must-before.
ghost use Rattle.std.specs.Prelude.{◌≡◌, ◌<◌, ◌≤◌, ℕ, length, IsOk, IfOk, IfErr, IfSome, Some, None, All};
ghost use Rattle.rapid_text.specs.Recording.{IsWellFormed};
ghost use Rattle.trace_rules.specs.Rules.{IsDisciplined};
ghost use Rattle.witness_search.specs.trace_order.Acquires.{AreTaken};
ghost use Rattle.witness_search.specs.trace_order.Joining.{Joins, IsJoined, IsDue, IsClosedOn};
ghost use Rattle.witness_search.specs.trace_order.Laws.{HasListInOrder};
ghost use Rattle.witness_search.specs.trace_order.Layout.{IsEither, IsNeededRow};
ghost use Rattle.witness_search.specs.trace_order.Refusals.{IsRefusalOf, MeansNeverShown};
ghost use Rattle.witness_search.specs.trace_order.Rows.{row_in, row_of, IsWithin, IsPairRow, IsClosedOnAll, IsClosedBetween};

use crate::trace_order::acquires::{Acquires, Lane};
use crate::trace_order::closing::zeros;
use crate::trace_order::lasting::due_on;
use crate::trace_order::listing::{judge, unless_needed};
use crate::trace_order::refusal::InOrderRefusal;
use event_index::Indexed;
use must_order::Must;
use rapid_text::OutOfMemory;
use std::alloc::Global;

/// For each thread, the number of its events that are needed for the pair. Fails if the pair has no list in order, or
/// if memory runs out.
pub(crate) fn joined_in_order(
    alloc: Global,
    indexed: &Indexed,
    must: &Must,
    acquires: &Acquires,
    first: u32,
    second: u32,
) -> Result<Vec<u32>, InOrderRefusal>
    requires must { must.now ≡ indexed.now }
    requires acquires { acquires.now ≡ indexed.now }
    ensures well_formed { IsWellFormed indexed.now }
    ensures len { IfOk result (λ row. length row.items ≡ length indexed.now.threads) }
    ensures row { IfOk result (λ row. IsPairRow indexed.now.events first second (row_of row)) }
    ensures within { IfOk result (λ row. IsWithin indexed.now.events (row_of row)) }
    ensures there { IsOk result → HasListInOrder indexed.now.events first second }
    ensures refused { IfErr result (IsRefusalOf indexed.now.events first second) }
    ensures never_shown { IfErr result (MeansNeverShown indexed.now.events first second) }
{
    if let Err(refusal) = judge(indexed, first, second) {
        return Err(refusal);
    }
    let Ok(row) = joined_for(alloc, indexed, must, acquires, first, second) else {
        return Err(InOrderRefusal::OutOfMemory);
    };
    unless_needed(row, indexed, first, second)
}

/// For each thread, the number of its events that are needed for the pair.
pub(crate) fn joined_for(
    alloc: Global,
    indexed: &Indexed,
    must: &Must,
    acquires: &Acquires,
    first: u32,
    second: u32,
) -> Result<Vec<u32>, OutOfMemory>
    requires must { must.now ≡ indexed.now }
    requires acquires { acquires.now ≡ indexed.now }
    requires first { first < length indexed.now.events }
    requires second { second < length indexed.now.events }
    ensures len { IfOk result (λ row. length row.items ≡ length indexed.now.threads) }
    ensures row { IfOk result (λ row. IsPairRow indexed.now.events first second (row_of row)) }
    ensures within { IfOk result (λ row. IsWithin indexed.now.events (row_of row)) }
{
    joined_row(
        alloc,
        indexed,
        must,
        acquires,
        indexed.base(first),
        indexed.base(second),
    )
}

/// For each thread, the number of its events that a list in the order of the trace needs if it has the two events.
pub(crate) fn joined_row(
    alloc: Global,
    indexed: &Indexed,
    must: &Must,
    acquires: &Acquires,
    first: Option<u32>,
    second: Option<u32>,
) -> Result<Vec<u32>, OutOfMemory>
    requires must { must.now ≡ indexed.now }
    requires acquires { acquires.now ≡ indexed.now }
    requires first { IfSome first (λ e. e < length indexed.now.events) }
    requires second { IfSome second (λ e. e < length indexed.now.events) }
    ensures len { IfOk result (λ row. length row.items ≡ length indexed.now.threads) }
    ensures row { IfOk result (λ row. IsNeededRow indexed.now.events (IsEither first second) (row_of row)) }
    ensures within { IfOk result (λ row. IsWithin indexed.now.events (row_of row)) }
{
    let mut row = begun(alloc, indexed, must, first, second)?;
    let mut next = acquires.due(indexed, row.as_slice(), 0);
    while let Some(due) = next {
        raise(&mut row, indexed, must, Some(due.end));
        next = acquires.due(indexed, row.as_slice(), due.near);
    }
    Ok(row)
}

// The row that counts the given events and what is must-before them.
fn begun(
    alloc: Global,
    indexed: &Indexed,
    must: &Must,
    first: Option<u32>,
    second: Option<u32>,
) -> Result<Vec<u32>, OutOfMemory>
    requires must { must.now ≡ indexed.now }
    requires first { IfSome first (λ e. e < length indexed.now.events) }
    requires second { IfSome second (λ e. e < length indexed.now.events) }
    ensures well_formed { IsWellFormed indexed.now }
    ensures disciplined { IsDisciplined indexed.now.events }
    ensures len { IfOk result (λ row. length row.items ≡ length indexed.now.threads) }
    ensures joined { IfOk result (λ row. IsJoined indexed.now.events (IsEither first second) (row_of row)) }
{
    let mut row = zeros(alloc, indexed.threads() as usize)?;
    raise(&mut row, indexed, must, first);
    raise(&mut row, indexed, must, second);
    Ok(row)
}

/// Counts the event, if there is one, and what is must-before it.
pub(crate) fn raise(row: &mut Vec<u32>, indexed: &Indexed, must: &Must, event: Option<u32>)
    requires must { must.now ≡ indexed.now }
    requires within { IfSome event (λ e. e < length indexed.now.events) }
    requires len { length row.old.items ≡ length indexed.now.threads }
    ensures len { length row.new.items ≡ length indexed.now.threads }
    ensures joins { Joins indexed.now.events (λ d. event ≡ Some d) (row_of row.old) (row_of row.new) }
{
    let _threads = indexed.threads();
    if let Some(event) = event {
        must.rows().raise(event, row);
    }
}

/// The end of a section that the row has to count, and the index of its lock among the shared locks.
#[derive(Clone, Copy)]
struct Due {
    end: u32,
    near: usize,
}

impl Acquires {
    // The end of a section that the row has to count and does not. The search begins at the lock where the last one
    // was found, and continues from the first lock.
    fn due(&self, indexed: &Indexed, row: &[u32], near: usize) -> Option<Due>
        requires trace { self.now ≡ indexed.now }
        requires len { length row.now ≡ length indexed.now.threads }
        requires within { IsWithin indexed.now.events (row_in row.now) }
        ensures due { IfSome result (λ due. IsDue indexed.now.events (row_in row.now) due.end) }
        ensures within { IfSome result (λ due. due.end < length indexed.now.events) }
        ensures none { result ≡ None → (l : ℕ) → IsClosedOn indexed.now.events (row_in row.now) l }
    {
        let _len = indexed.len();
        let by_lock = self.by_lock.as_slice();
        let shared = self.shared.as_slice();
        due_around(by_lock, shared, indexed, row, near)
    }
}

// The same for the shared locks from index `near` to the last, and then for those before it.
fn due_around(
    by_lock: &[Vec<Lane>],
    shared: &[u32],
    indexed: &Indexed,
    row: &[u32],
    near: usize,
) -> Option<Due>
    requires taken { AreTaken indexed.now by_lock.now }
    requires shared { All (λ l. l < length by_lock.now) shared.now }
    requires len { length row.now ≡ length indexed.now.threads }
    requires within { IsWithin indexed.now.events (row_in row.now) }
    ensures due { IfSome result (λ due. IsDue indexed.now.events (row_in row.now) due.end) }
    ensures within { IfSome result (λ due. due.end < length indexed.now.events) }
    ensures none { result ≡ None → IsClosedOnAll indexed.now.events (row_in row.now) shared.now }
{
    let last = shared.len();
    match due_from(by_lock, shared, indexed, row, near, last) {
        Some(due) => Some(due),
        None => due_from(by_lock, shared, indexed, row, 0, near.min(last)),
    }
}

// The same for the shared locks from index `near` up to `to`.
fn due_from(
    by_lock: &[Vec<Lane>],
    shared: &[u32],
    indexed: &Indexed,
    row: &[u32],
    near: usize,
    to: usize,
) -> Option<Due>
    requires taken { AreTaken indexed.now by_lock.now }
    requires shared { All (λ l. l < length by_lock.now) shared.now }
    requires len { length row.now ≡ length indexed.now.threads }
    requires within { IsWithin indexed.now.events (row_in row.now) }
    requires to { to ≤ length shared.now }
    ensures due { IfSome result (λ due. IsDue indexed.now.events (row_in row.now) due.end) }
    ensures within { IfSome result (λ due. due.end < length indexed.now.events) }
    ensures none { result ≡ None → IsClosedBetween indexed.now.events (row_in row.now) shared.now near to }
{
    for at in near..to {
        let lock = shared[at];
        if let Some(end) = due_on(by_lock[lock as usize].as_slice(), indexed, row, lock) {
            return Some(Due { end, near: at });
        }
    }
    None
}
