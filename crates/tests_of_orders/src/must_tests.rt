//! What no clause says of must-before: that its calls answer if memory suffices, also the call for a list's size.
ghost use Rattle.std.specs.Prelude.{◌≡◌};

use crate::questions::{Question, first_wrong};
use event_index::Indexed;
use must_order::{Chain, Must, Reason};
use std::alloc::Global;
use witness_search::trace_order::{Acquires, InOrderRefusal, in_order_size, turned_size};

// Whether the thread of the event holds these locks before it.
fn are_held(
    alloc: Global,
    must: &Must,
    indexed: &Indexed,
    event: u32,
    wanted: &[u32],
) -> Option<bool>
    requires { must.now ≡ indexed.now }
{
    if event >= indexed.len() {
        return Some(false);
    }
    match must.locks_held(alloc, indexed, event) {
        Ok(locks) => Some(locks.as_slice() == wanted),
        Err(_) => None,
    }
}

// Whether one chain of three steps leads from event 0 to event 3, the last of which is the fork.
fn is_chain(chains: &[Chain]) -> bool {
    if chains.len() != 1 {
        return false;
    }
    let chain = &chains[0];
    match chain.steps.last() {
        Some(step) => {
            chain.first == 0
                && chain.last == 3
                && chain.steps.len() == 3
                && step.from == 2
                && step.to == 3
                && step.reason == Reason::Forked
        }
        None => false,
    }
}

// The same of why the first event is must-before the fourth.
fn is_reasoned(alloc: Global, must: &Must, indexed: &Indexed) -> Option<bool>
    requires { must.now ≡ indexed.now }
{
    if indexed.len() < 4 {
        return Some(false);
    }
    match must.reasons(alloc, indexed, 0, 3) {
        Ok(Some(chains)) => Some(is_chain(chains.as_slice())),
        Ok(None) => Some(false),
        Err(_) => None,
    }
}

fn is_sized_by(
    alloc: Global,
    must: &Must,
    acquires: &Acquires,
    indexed: &Indexed,
    pair: (u32, u32),
    wanted: (u32, u32),
) -> Option<bool>
    requires must { must.now ≡ indexed.now }
    requires acquires { acquires.now ≡ indexed.now }
{
    match in_order_size(alloc, indexed, must, acquires, pair.0, pair.1) {
        Ok(size) => Some(size == wanted),
        Err(InOrderRefusal::OutOfMemory) => None,
        Err(_) => Some(false),
    }
}

// Whether the list of the pair has the wanted numbers of events and of threads.
fn is_sized(
    alloc: Global,
    must: &Must,
    indexed: &Indexed,
    pair: (u32, u32),
    wanted: (u32, u32),
) -> Option<bool>
    requires { must.now ≡ indexed.now }
{
    match Acquires::new(alloc, indexed) {
        Ok(acquires) => is_sized_by(alloc, must, &acquires, indexed, pair, wanted),
        Err(_) => None,
    }
}

// Whether the search beyond the order finds a schedule for the pair with the wanted numbers of events and of threads.
fn is_turned_sized(
    alloc: Global,
    must: &Must,
    indexed: &Indexed,
    pair: (u32, u32),
    wanted: (u32, u32),
) -> Option<bool>
    requires { must.now ≡ indexed.now }
{
    let mut left = 9;
    match Acquires::new(alloc, indexed) {
        Ok(acquires) => match turned_size(alloc, indexed, must, &acquires, pair, &mut left) {
            Ok(size) => Some(size == Some(wanted)),
            Err(_) => None,
        },
        Err(_) => None,
    }
}

fn is_told_with(alloc: Global, must: &Must, indexed: &Indexed, question: Question) -> Option<bool>
    requires { must.now ≡ indexed.now }
{
    match question {
        Question::Held(event, locks) => are_held(alloc, must, indexed, event, locks),
        Question::Reasons => is_reasoned(alloc, must, indexed),
        Question::Size(pair, wanted) => is_sized(alloc, must, indexed, pair, wanted),
        Question::TurnedSize(pair, wanted) => {
            is_turned_sized(alloc, must, indexed, pair, wanted)
        }
        _ => Some(false),
    }
}

// It owns must-before and makes one call with it: how that is dropped is proved once.
pub(crate) fn is_told_by_must(
    alloc: Global,
    indexed: &Indexed,
    question: Question,
) -> Option<bool> {
    match Must::new(alloc, indexed) {
        Ok(must) => is_told_with(alloc, &must, indexed, question),
        Err(_) => None,
    }
}

// A thread takes a lock and forks another one, which reads what the first wrote before.
const FORK_AFTER_WRITE: &[u8] = b"M|w(x)|1\nM|acq(l)|2\nM|fork(W)|3\nW|r(x)|4";

const ROWS: &[(&[u8], Question)] = &[
    (FORK_AFTER_WRITE, Question::Held(2, &[0])),
    (FORK_AFTER_WRITE, Question::Reasons),
];

#[test]
fn memory_reasons_are_told_when_asked_again(rt: HostRuntime) {
    assert_eq!(rt; first_wrong(rt.alloc(), ROWS), None);
}
