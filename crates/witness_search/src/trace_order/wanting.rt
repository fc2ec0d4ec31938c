//! Computes the events that a search wants from the rows of must-before.
ghost use Rattle.std.specs.Prelude.{◌≡◌, ◌<◌, ℕ, length, IfSome, None};
ghost use Rattle.witness_search.specs.trace_order.Counting.{IsAhead, IsEndedIn, IsWantedRow};
ghost use Rattle.witness_search.specs.trace_order.Laws.{IsBaseOf};
ghost use Rattle.witness_search.specs.trace_order.Layout.{IsNeededRow};
ghost use Rattle.witness_search.specs.trace_order.Rows.{row_in, row_of, IsWithin};

use crate::trace_order::acquires::Acquires;
use crate::trace_order::joining::raise;
use crate::trace_order::lasting::end_of;
use crate::trace_order::listing::is_counted;
use event_index::Indexed;
use must_order::Must;

/// For each thread, the number of its events that are wanted for the pair. `row` has those that are needed for its
/// second event.
pub(crate) fn wanted_row(
    row: Vec<u32>,
    indexed: &Indexed,
    must: &Must,
    acquires: &Acquires,
    first: u32,
    second: u32,
) -> Vec<u32>
    requires must { must.now ≡ indexed.now }
    requires acquires { acquires.now ≡ indexed.now }
    requires first { first < length indexed.now.events }
    requires second { second < length indexed.now.events }
    requires len { length row.items ≡ length indexed.now.threads }
    requires row { IsNeededRow indexed.now.events (IsBaseOf indexed.now.events second) (row_of row) }
    requires within { IsWithin indexed.now.events (row_of row) }
    ensures len { length result.items ≡ length indexed.now.threads }
    ensures wanted { IsWantedRow indexed.now.events first second (row_of result) }
{
    let mut row = row;
    let _threads = indexed.threads();
    raise(&mut row, indexed, must, indexed.base(first));
    let mut next = acquires.ahead(indexed, row.as_slice());
    while let Some(end) = next {
        raise(&mut row, indexed, must, Some(end));
        next = acquires.ahead(indexed, row.as_slice());
    }
    row
}

impl Acquires {
    // The end of a section that the row does not count although it counts the beginning, or None.
    fn ahead(&self, indexed: &Indexed, row: &[u32]) -> Option<u32>
        requires trace { self.now ≡ indexed.now }
        requires len { length row.now ≡ length indexed.now.threads }
        requires within { IsWithin indexed.now.events (row_in row.now) }
        ensures ahead { IfSome result (IsAhead indexed.now.events (row_in row.now)) }
        ensures within { IfSome result (λ r. r < length indexed.now.events) }
        ensures none { result ≡ None → (t : ℕ) → IsEndedIn indexed.now.events (row_in row.now) t }
    {
        for thread in 0..indexed.threads() {
            if let Some(end) = self.ahead_in(indexed, row, thread) {
                return Some(end);
            }
        }
        None
    }

    // The same for one thread.
    fn ahead_in(&self, indexed: &Indexed, row: &[u32], thread: u32) -> Option<u32>
        requires trace { self.now ≡ indexed.now }
        requires thread { thread < length indexed.now.threads }
        requires len { length row.now ≡ length indexed.now.threads }
        requires within { IsWithin indexed.now.events (row_in row.now) }
        ensures ahead { IfSome result (IsAhead indexed.now.events (row_in row.now)) }
        ensures within { IfSome result (λ r. r < length indexed.now.events) }
        ensures none { result ≡ None → IsEndedIn indexed.now.events (row_in row.now) thread }
    {
        let last = end_of(indexed, row, thread)?;
        let end = self.reach[last as usize];
        if is_counted(row, indexed, end) {
            return None;
        }
        Some(end)
    }
}
