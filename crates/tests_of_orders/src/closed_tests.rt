//! What no clause says of the closed order: if memory suffices, a contradiction of requests is found, no steps are none,
//! and a race is not contradicted.

use crate::questions::{Question, first_wrong};
use closed_order::{Tables, contradiction_of, contradicts};
use event_index::Indexed;
use must_order::Analysis;
use std::alloc::Global;

// Whether steps are found that contradict the pair of events, as is wanted.
pub(crate) fn is_contradicted(
    alloc: Global,
    indexed: &Indexed,
    pair: (u32, u32),
    wanted: bool,
) -> Option<bool> {
    match Analysis::new(alloc, indexed) {
        Ok(analysis) => are_found(alloc, &analysis, pair.0, pair.1, wanted),
        Err(_) => None,
    }
}

// The same of two requests.
fn are_found(
    alloc: Global,
    analysis: &Analysis<'_>,
    first: u32,
    second: u32,
    wanted: bool,
) -> Option<bool> {
    let indexed = analysis.indexed();
    if first >= indexed.len() || second >= indexed.len() {
        return Some(false);
    }
    let tables = Tables::of(alloc, indexed).ok()?;
    let mut work = 1_000_000;
    let requests = [first, second];
    let found = contradiction_of(alloc, &*analysis, &tables, &requests, &mut work).ok()?;
    Some(found.is_some() == wanted && work > 0 && !contradicts(&*analysis, &requests, &[]))
}

// Neither must-before nor a lock keeps events 3 and 15 apart, but the reads do. Drawn by chance; all correct reorderings
// of it were gone through.
const READS_AND_WRITES: &[u8] =
    b"A|acq(l)|0\nA|r(x)|1\nB|w(x)|2\nA|w(x)|3\nC|w(x)|4\nB|r(x)|5\nB|w(x)|6\n\
B|r(x)|7\nA|rel(l)|8\nC|r(x)|9\nC|w(x)|10\nC|acq(l)|11\nB|w(x)|12\nC|w(x)|13\nC|rel(l)|14\nC|r(x)|15";

// The two threads use one lock, and write one variable outside it.
const ROWS: &[(&[u8], Question)] = &[
    (READS_AND_WRITES, Question::Contradicted((3, 15), true)),
    (
        crate::fixtures::ONE_LOCK,
        Question::Contradicted((0, 5), false),
    ),
];

#[test]
fn memory_a_contradiction_is_found_when_asked_again(rt: HostRuntime) {
    assert_eq!(rt; first_wrong(rt.alloc(), ROWS), None);
}
