//! What no clause says of lists in the order of the trace, and of searches beyond it: that they give answers if memory
//! suffices.

use crate::fixtures::ONE_LOCK;
use crate::questions::{Question, first_wrong};
use event_index::Indexed;
use std::alloc::Global;
use witness_search::trace_order::{InOrderRefusal, fewer_runs, in_order, needs_of, turned};

// Whether the list of the pair is this one, and stays so as its runs are put together.
pub(crate) fn is_in_order(
    alloc: Global,
    indexed: &Indexed,
    pair: (u32, u32),
    wanted: &[u32],
) -> Option<bool> {
    match in_order(alloc, indexed, pair.0, pair.1) {
        Ok(list) => match fewer_runs(alloc, indexed, list.items(), pair.0, pair.1) {
            Ok(order) => Some(list.items() == wanted && order.items() == wanted),
            Err(_) => None,
        },
        Err(InOrderRefusal::OutOfMemory) => None,
        Err(_) => Some(false),
    }
}

// Whether the search beyond the order finds this list.
pub(crate) fn is_turned(
    alloc: Global,
    indexed: &Indexed,
    pair: (u32, u32),
    wanted: &[u32],
) -> Option<bool> {
    match turned(alloc, indexed, pair.0, pair.1, 9) {
        Ok(Some(list)) => Some(list.items() == wanted),
        Ok(None) => Some(false),
        Err(_) => None,
    }
}

// Whether none of the two events of the list waits for another thread's.
pub(crate) fn are_free(alloc: Global, indexed: &Indexed, list: &[u32]) -> Option<bool> {
    match needs_of(alloc, indexed, list) {
        Ok(needs) => Some(needs.len() == 2 && needs[0].is_empty() && needs[1].is_empty()),
        Err(_) => None,
    }
}

// A thread writes v while it holds m, and l twice; another goes through l and then m; a third reads v.
const TWO_LOCKS: &[u8] =
    b"T1|acq(m)|1\nT1|acq(l)|2\nT1|acq(l)|3\nT1|w(v)|4\nT1|rel(l)|5\nT1|rel(l)|6\nT1|rel(m)|7\nT1|w(y)|8\n\
T2|acq(l)|9\nT2|rel(l)|10\nT2|w(u)|11\nT2|acq(m)|12\nT2|rel(m)|13\nT2|w(x)|14\nT3|r(v)|15\nT3|w(x)|16\nT3|w(u)|17\nT3|w(y)|18\nT3|w(v)|19";

// Each thread goes through the other's lock, and then writes x while it holds its own.
const READ_LOCKS: &[u8] = b"T1|acq(r2)|1\nT1|rel(r2)|2\nT1|acq(r1)|3\nT1|w(x)|4\nT1|rel(r1)|5\n\
T2|acq(r1)|6\nT2|rel(r1)|7\nT2|acq(r2)|8\nT2|w(x)|9\nT2|rel(r2)|10";

const ROWS: &[(&[u8], Question)] = &[
    (ONE_LOCK, Question::InOrder((0, 5), &[3, 4])),
    (ONE_LOCK, Question::Size((0, 5), (2, 1))),
    (ONE_LOCK, Question::Turned((0, 5), &[3, 4])),
    (ONE_LOCK, Question::TurnedSize((0, 5), (2, 1))),
    (ONE_LOCK, Question::Free(&[3, 4])),
    // The first search has taken r2 for T2, so T1 can't go through it. The second search begins before both locks.
    (READ_LOCKS, Question::Turned((3, 8), &[0, 1, 5, 6, 2, 7])),
    (READ_LOCKS, Question::TurnedSize((3, 8), (6, 2))),
    // All of T1 but its last event, T2 up to its write of x, and the read.
    (TWO_LOCKS, Question::Size((13, 15), (13, 3))),
    // The sections of l alone.
    (TWO_LOCKS, Question::Size((10, 16), (10, 3))),
    (TWO_LOCKS, Question::Size((7, 17), (10, 2))),
];

#[test]
fn memory_lists_in_order_are_told_when_asked_again(rt: HostRuntime) {
    assert_eq!(rt; first_wrong(rt.alloc(), ROWS), None);
}
