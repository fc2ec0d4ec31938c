//! The last acquires of a lock that a row counts, and the ends of sections that it does not count yet.
ghost use Rattle.std.specs.Prelude.{◌≡◌, ◌<◌, ◌≤◌, ℕ, length, AllPairs, Contains, IfSome, None, Some};
ghost use Rattle.witness_search.specs.trace_order.Acquires.{IsLane, AreLanes};
ghost use Rattle.witness_search.specs.trace_order.Joining.{IsEndOf, IsLastUpTo, IsLastCounted, IsCountedTaken, IsUpToLatest, IsDue, IsClosedOn};
ghost use Rattle.witness_search.specs.trace_order.Rows.{row_in, IsWithin, CountsNone, CountsNoneOf, IsLatestOf, IsEndedBeside};

use crate::trace_order::acquires::Lane;
use crate::trace_order::listing::is_counted;
use event_index::Indexed;

/// An acquire and its thread.
#[derive(Clone, Copy)]
pub(crate) struct Latest {
    pub(crate) thread: u32,
    pub(crate) event: u32,
}

/// The end of a needed section of the lock that the row does not count, or None.
pub(crate) fn due_on(lanes: &[Lane], indexed: &Indexed, row: &[u32], lock: u32) -> Option<u32>
    requires lanes { AreLanes indexed.now lock lanes.now }
    requires len { length row.now ≡ length indexed.now.threads }
    requires within { IsWithin indexed.now.events (row_in row.now) }
    ensures due { IfSome result (IsDue indexed.now.events (row_in row.now)) }
    ensures within { IfSome result (λ r. r < length indexed.now.events) }
    ensures none { result ≡ None → IsClosedOn indexed.now.events (row_in row.now) lock }
{
    let _len = indexed.len();
    let latest = latest_of(lanes, indexed, row, lock)?;
    for at in 0..lanes.len() {
        if let Some(end) = due_by(&lanes[at], indexed, row, lock, latest) {
            return Some(end);
        }
    }
    None
}

// The last acquire of the lock that the row counts, or None.
fn latest_of(lanes: &[Lane], indexed: &Indexed, row: &[u32], lock: u32) -> Option<Latest>
    requires lanes { AreLanes indexed.now lock lanes.now }
    requires len { length row.now ≡ length indexed.now.threads }
    requires within { IsWithin indexed.now.events (row_in row.now) }
    ensures counted { IfSome result (IsCountedTaken indexed.now.events (row_in row.now) lock) }
    ensures last { IsLatestOf indexed.now.events (row_in row.now) lanes.now result }
{
    let mut latest = None;
    for at in 0..lanes.len() {
        latest = later(&lanes[at], indexed, row, lock, latest);
    }
    latest
}

// The later of this acquire and the last acquire of the lane that the row counts.
fn later(
    lane: &Lane,
    indexed: &Indexed,
    row: &[u32],
    lock: u32,
    latest: Option<Latest>,
) -> Option<Latest>
    requires lane { IsLane indexed.now lock lane.now }
    requires len { length row.now ≡ length indexed.now.threads }
    requires within { IsWithin indexed.now.events (row_in row.now) }
    requires counted { IfSome latest (IsCountedTaken indexed.now.events (row_in row.now) lock) }
    ensures counted { IfSome result (IsCountedTaken indexed.now.events (row_in row.now) lock) }
    ensures last { IsUpToLatest indexed.now.events (row_in row.now) result lane.now.events.items }
    ensures grows { IfSome latest (λ m. IfSome result (λ n. m.event ≤ n.event)) }
    ensures stays { result ≡ None → latest ≡ None }
{
    let Some(event) = last_in(lane, indexed, row, lock) else {
        return latest;
    };
    let found = Latest {
        thread: lane.thread,
        event,
    };
    match latest {
        None => Some(found),
        Some(other) => if other.event < event {
            Some(found)
        } else {
            Some(other)
        },
    }
}

// The end of the section of the lane's last counted acquire, if the latest acquire requires it and the row does not
// count it.
fn due_by(lane: &Lane, indexed: &Indexed, row: &[u32], lock: u32, latest: Latest) -> Option<u32>
    requires lane { IsLane indexed.now lock lane.now }
    requires len { length row.now ≡ length indexed.now.threads }
    requires within { IsWithin indexed.now.events (row_in row.now) }
    requires counted { IsCountedTaken indexed.now.events (row_in row.now) lock latest }
    requires last { IsUpToLatest indexed.now.events (row_in row.now) (Some latest) lane.now.events.items }
    ensures due { IfSome result (IsDue indexed.now.events (row_in row.now)) }
    ensures within { IfSome result (λ r. r < length indexed.now.events) }
    ensures none { result ≡ None → IsEndedBeside indexed.now.events (row_in row.now) lane.now latest }
{
    let _len = indexed.len();
    if lane.thread == latest.thread {
        return None;
    }
    let last = last_in(lane, indexed, row, lock)?;
    let end = indexed.section(last)?;
    if is_counted(row, indexed, end) {
        return None;
    }
    Some(end)
}

/// The last acquire of the lane that the row counts, or None.
pub(crate) fn last_in(lane: &Lane, indexed: &Indexed, row: &[u32], lock: u32) -> Option<u32>
    requires lane { IsLane indexed.now lock lane.now }
    requires len { length row.now ≡ length indexed.now.threads }
    requires within { IsWithin indexed.now.events (row_in row.now) }
    ensures last { IfSome result (IsLastCounted indexed.now.events (row_in row.now) lane.now.events.items) }
    ensures within { IfSome result (λ p. p < length indexed.now.events) }
    ensures none { result ≡ None → CountsNone indexed.now.events (row_in row.now) lane.now.events.items }
{
    let end = end_of(indexed, row, lane.thread)?;
    last_up_to(lane.events.as_slice(), end)
}

/// The last event of the thread that the row counts, or None.
pub(crate) fn end_of(indexed: &Indexed, row: &[u32], thread: u32) -> Option<u32>
    requires thread { thread < length indexed.now.threads }
    requires len { length row.now ≡ length indexed.now.threads }
    requires within { IsWithin indexed.now.events (row_in row.now) }
    ensures end { IfSome result (IsEndOf indexed.now.events (row_in row.now) thread) }
    ensures none { result ≡ None → CountsNoneOf indexed.now.events (row_in row.now) thread }
{
    let count = row[thread as usize] as usize;
    if count == 0 {
        return None;
    }
    Some(indexed.thread_events(thread)[count - 1])
}

// The last of the events up to `end`, or None.
fn last_up_to(events: &[u32], end: u32) -> Option<u32>
    requires rising { AllPairs (λ x y. x < y) events.now }
    ensures last { IfSome result (IsLastUpTo events.now end) }
    ensures none { result ≡ None → (q : ℕ) → Contains events.now q → end < q }
{
    let count = events.partition_point(|event| *event <= end);
    if count == 0 {
        return None;
    }
    Some(events[count - 1])
}
