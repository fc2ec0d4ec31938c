//! What the tests start from: traces told by texts.
use event_index::Indexed;
use rapid_text::{RawTrace, parse};
use std::alloc::Global;
use trace_rules::{Trace, check};

// Two threads use one lock, and write one variable outside it.
pub(crate) const ONE_LOCK: &[u8] =
    b"T1|w(x)|1\nT1|acq(l)|2\nT1|rel(l)|3\nT2|acq(l)|4\nT2|rel(l)|5\nT2|w(x)|6\n";

// A read that sees the other thread's write, and two writes of another variable.
pub(crate) const TWO_PAIRS: &[u8] = b"T1|w(x)|1\nT2|r(x)|2\nT2|w(z)|3\nT1|w(z)|4";

// The trace of a text; None if memory ran out. Each call has a separate function, so that no proof carries along what
// another call promises. `ok` drops the rest of an answer, because how it drops a value of any type is proved already.
fn raw_of(alloc: Global, text: &[u8]) -> Option<RawTrace> {
    match parse(alloc, text) {
        Ok(raw) => Some(raw),
        Err(_) => None,
    }
}

// What the rules say of it; where memory was wanting, of the trace that came back.
fn trace_of(alloc: Global, raw: RawTrace) -> Option<Trace> {
    match check(alloc, raw) {
        Ok(trace) => Some(trace),
        Err((raw, _)) => check(alloc, raw).ok(),
    }
}

// The same of the index.
fn index_of(alloc: Global, trace: Trace) -> Option<Indexed> {
    match Indexed::new(alloc, trace) {
        Ok(indexed) => Some(indexed),
        Err((trace, _)) => Indexed::new(alloc, trace).ok(),
    }
}

pub(crate) fn indexed_of(alloc: Global, text: &[u8]) -> Option<Indexed> {
    index_of(alloc, trace_of(alloc, raw_of(alloc, text)?)?)
}
