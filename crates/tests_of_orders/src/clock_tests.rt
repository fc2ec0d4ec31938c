//! What no clause says of the order SHB: with enough memory, the calls answer which events are ordered, the first
//! candidates up to a limit, and slices. Worked examples have other limits than the program uses, and pairs in reverse
//! order.
ghost use Rattle.std.specs.Prelude.{◌≡◌};

use crate::fixtures::{ONE_LOCK, TWO_PAIRS};
use crate::questions::{Question, first_wrong, is_answered};
use event_index::Indexed;
use shb_clocks::Clocks;
use std::alloc::Global;
use witness_search::{SliceRefusal, slice};

// Whether each pair of events is ordered or not, as is wanted.
fn are_ordered(clocks: &Clocks, indexed: &Indexed, pairs: &[(u32, u32, bool)]) -> bool
    requires { clocks.now ≡ indexed.now }
{
    let len = indexed.len();
    let mut are_right = true;
    for (first, second, wanted) in pairs {
        are_right = are_right
            && *first < len
            && *second < len
            && clocks.ordered(*first, *second) == *wanted;
    }
    are_right
}

// Whether each event knows as many events of the thread as is wanted.
fn are_known(clocks: &Clocks, indexed: &Indexed, wanted: &[(u32, u32, u32)]) -> bool
    requires { clocks.now ≡ indexed.now }
{
    let len = indexed.len();
    let threads = indexed.threads();
    let mut are_right = true;
    for (event, thread, count) in wanted {
        are_right = are_right
            && *event < len
            && *thread < threads
            && clocks.known(indexed, *event, *thread) == *count;
    }
    are_right
}

fn are_first(
    alloc: Global,
    clocks: &Clocks,
    indexed: &Indexed,
    limit: u32,
    wanted: &[(u32, u32)],
) -> Option<bool>
    requires { clocks.now ≡ indexed.now }
{
    match clocks.candidates(alloc, indexed, limit) {
        Ok(pairs) => Some(pairs.items() == wanted),
        Err(_) => None,
    }
}

fn is_slice(
    alloc: Global,
    clocks: &Clocks,
    indexed: &Indexed,
    pair: (u32, u32),
    wanted: Result<&[u32], SliceRefusal>,
) -> Option<bool>
    requires { clocks.now ≡ indexed.now }
{
    match slice(alloc, indexed, clocks, pair.0, pair.1) {
        Ok(list) => match wanted {
            Ok(events) => Some(list.items() == events),
            Err(_) => Some(false),
        },
        Err(SliceRefusal::OutOfMemory) => None,
        Err(found) => match wanted {
            Ok(_) => Some(false),
            Err(why) => Some(found == why),
        },
    }
}

fn is_told_with(
    alloc: Global,
    clocks: &Clocks,
    indexed: &Indexed,
    question: Question,
) -> Option<bool>
    requires { clocks.now ≡ indexed.now }
{
    match question {
        Question::Ordered(pairs) => Some(are_ordered(clocks, indexed, pairs)),
        Question::Known(wanted) => Some(are_known(clocks, indexed, wanted)),
        Question::Rows(wanted) => Some(clocks.rows() == wanted),
        Question::Candidates(limit, wanted) => are_first(alloc, clocks, indexed, limit, wanted),
        Question::Slice(pair, wanted) => is_slice(alloc, clocks, indexed, pair, wanted),
        _ => Some(false),
    }
}

// It owns the clocks and makes one call with them: how they are dropped is proved once.
pub(crate) fn is_told_by_clocks(
    alloc: Global,
    indexed: &Indexed,
    question: Question,
) -> Option<bool> {
    match Clocks::new(alloc, indexed) {
        Ok(clocks) => is_told_with(alloc, &clocks, indexed, question),
        Err(_) => None,
    }
}

// Three threads write one variable, in turn and unordered.
const THREE_WRITERS: &[u8] = b"A|w(x)|\nB|w(x)|\nC|w(x)|\nA|w(x)|";

// Two forked threads write one variable, one after a section of a lock that a third event has no part in.
const FORKED: &[u8] =
    b"M|fork(A)|\nM|fork(B)|\nA|acq(l)|\nA|rel(l)|\nA|w(x)|\nM|w(y)|\nB|acq(l)|\nB|w(x)|\nB|rel(l)|\nC|w(x)|";

const FORK_AND_JOIN: &[u8] = b"M|fork(W)|1\nW|w(x)|2\nM|join(W)|3\nM|r(x)|4";

// A thread is forked and joined and does nothing; the event before the fork comes before that after the join.
const IDLE_THREAD: &[u8] = b"A|w(x)|\nA|fork(W)|\nB|join(W)|\nB|w(x)|";

// Each number counted by hand along the edges of the trace.
const COUNTS: &[(&[u8], Question)] = &[
    (
        TWO_PAIRS,
        Question::Known(&[(2, 0, 1), (2, 1, 2), (3, 1, 0), (3, 0, 2)]),
    ),
    (
        ONE_LOCK,
        Question::Known(&[(5, 0, 3), (5, 1, 3), (2, 1, 0)]),
    ),
    (
        FORK_AND_JOIN,
        Question::Known(&[(1, 0, 1), (3, 1, 1), (3, 0, 3)]),
    ),
    (TWO_PAIRS, Question::Rows(2)),
    (ONE_LOCK, Question::Rows(3)),
    (FORK_AND_JOIN, Question::Rows(4)),
    (b"", Question::Rows(0)),
];

const CANDIDATES: &[(&[u8], Question)] = &[
    (
        ONE_LOCK,
        Question::Ordered(&[
            (0, 5, true),
            (0, 4, true),
            (3, 2, false),
            (2, 2, true),
            (5, 0, false),
        ]),
    ),
    (
        TWO_PAIRS,
        Question::Ordered(&[(0, 1, true), (0, 2, true), (2, 3, false), (3, 2, false)]),
    ),
    (
        FORK_AND_JOIN,
        Question::Ordered(&[(0, 1, true), (1, 2, true), (1, 3, true)]),
    ),
    (
        IDLE_THREAD,
        Question::Ordered(&[(0, 2, true), (0, 3, true), (1, 2, true)]),
    ),
    (TWO_PAIRS, Question::Candidates(10, &[(0, 1), (2, 3)])),
    (TWO_PAIRS, Question::Candidates(1, &[(0, 1)])),
    (TWO_PAIRS, Question::Candidates(0, &[])),
    (ONE_LOCK, Question::Candidates(10, &[])),
    (b"", Question::Candidates(10, &[])),
    (
        THREE_WRITERS,
        Question::Candidates(3, &[(0, 1), (0, 2), (1, 2)]),
    ),
];

const SLICES: &[(&[u8], Question)] = &[
    (FORKED, Question::Slice((4, 9), Ok(&[0, 2, 3]))),
    (FORKED, Question::Slice((7, 4), Ok(&[0, 1, 2, 3, 6]))),
    (TWO_PAIRS, Question::Slice((3, 2), Ok(&[0, 1]))),
    (
        ONE_LOCK,
        Question::Slice((6, 0), Err(SliceRefusal::NoSuchEvent)),
    ),
    (
        ONE_LOCK,
        Question::Slice((1, 3), Err(SliceRefusal::NotConflicting)),
    ),
    (
        ONE_LOCK,
        Question::Slice((0, 5), Err(SliceRefusal::NotCandidate)),
    ),
];

// A read of another thread after 65,536 writes: more events than 16 bits count.
const BEHIND_WRITES: &[Question] = &[
    Question::Candidates(2, &[(0, 65_536), (1, 65_536)]),
    Question::Rows(2),
    Question::Known(&[(65_535, 0, 65_536), (65_536, 0, 65_536)]),
];

fn many_writes(alloc: Global) -> Option<Vec<u8>> {
    let mut text = Vec::new(alloc);
    for _line in 0..65_536 {
        text.extend_from_slice(b"T1|w(x)|1\n").ok()?;
    }
    text.extend_from_slice(b"T2|r(x)|2").ok()?;
    Some(text)
}

// The first question of `BEHIND_WRITES` with another answer.
fn first_wrong_behind(alloc: Global, text: &[u8]) -> Option<usize> {
    for at in 0..BEHIND_WRITES.len() {
        if is_answered(alloc, text, BEHIND_WRITES[at]) != Some(true) {
            return Some(at);
        }
    }
    None
}

#[test]
fn questions_behind_65536_writes(rt: HostRuntime) {
    match many_writes(rt.alloc()) {
        Some(text) => assert_eq!(rt; first_wrong_behind(rt.alloc(), text.as_slice()), None),
        None => assert!(rt; false),
    }
}

#[test]
fn memory_known_events_are_counted_when_asked_again(rt: HostRuntime) {
    assert_eq!(rt; first_wrong(rt.alloc(), COUNTS), None);
}

#[test]
fn memory_candidates_are_told_when_asked_again(rt: HostRuntime) {
    assert_eq!(rt; first_wrong(rt.alloc(), CANDIDATES), None);
}

#[test]
fn memory_a_slice_is_told_when_asked_again(rt: HostRuntime) {
    assert_eq!(rt; first_wrong(rt.alloc(), SLICES), None);
}
