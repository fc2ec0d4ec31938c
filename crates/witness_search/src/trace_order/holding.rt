//! Who holds a lock after the events that a row counts.
ghost use Rattle.std.specs.Prelude.{◌≡◌, ◌↔◌, length, IsTrue};
ghost use Rattle.witness_search.specs.trace_order.Acquires.{IsLane, AreLanes};
ghost use Rattle.witness_search.specs.trace_order.Counting.{IsHolding, IsHeldByOther};
ghost use Rattle.witness_search.specs.trace_order.Rows.{row_in, IsWithin, IsHolder};

use crate::trace_order::acquires::Lane;
use crate::trace_order::lasting::last_in;
use crate::trace_order::listing::is_counted;
use event_index::Indexed;

/// Whether a thread other than this one holds the lock.
pub(crate) fn is_held(
    lanes: &[Lane],
    indexed: &Indexed,
    row: &[u32],
    lock: u32,
    thread: u32,
) -> bool
    requires lanes { AreLanes indexed.now lock lanes.now }
    requires len { length row.now ≡ length indexed.now.threads }
    requires within { IsWithin indexed.now.events (row_in row.now) }
    ensures { IsTrue result ↔ IsHeldByOther indexed.now.events (row_in row.now) lock thread }
{
    for at in 0..lanes.len() {
        if is_held_by(&lanes[at], indexed, row, lock, thread) {
            return true;
        }
    }
    false
}

// Whether the thread of the lane is another one and holds the lock.
fn is_held_by(lane: &Lane, indexed: &Indexed, row: &[u32], lock: u32, thread: u32) -> bool
    requires lane { IsLane indexed.now lock lane.now }
    requires len { length row.now ≡ length indexed.now.threads }
    requires within { IsWithin indexed.now.events (row_in row.now) }
    ensures { IsTrue result ↔ IsHolder indexed.now.events (row_in row.now) lock thread lane.now.thread }
{
    if lane.thread == thread {
        return false;
    }
    is_holding(lane, indexed, row, lock)
}

// Whether the thread of the lane holds the lock.
fn is_holding(lane: &Lane, indexed: &Indexed, row: &[u32], lock: u32) -> bool
    requires lane { IsLane indexed.now lock lane.now }
    requires len { length row.now ≡ length indexed.now.threads }
    requires within { IsWithin indexed.now.events (row_in row.now) }
    ensures { IsTrue result ↔ IsHolding indexed.now.events (row_in row.now) lock lane.now.thread }
{
    let _len = indexed.len();
    let Some(last) = last_in(lane, indexed, row, lock) else {
        return false;
    };
    match indexed.section(last) {
        None => true,
        Some(end) => !is_counted(row, indexed, end),
    }
}
