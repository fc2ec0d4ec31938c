//! What the tests start from: the trace of a text.

use event_index::Indexed;
use moves::Name;
use rapid_text::{RawTrace, parse};
use std::alloc::Global;
use trace_rules::{Trace, check};

// Two threads use one lock, and write one variable outside it.
const ONE_LOCK: &[u8] = b"T1|w(x)|1\nT1|acq(l)|2\nT1|rel(l)|3\nT2|acq(l)|4\nT2|rel(l)|5\nT2|w(x)|6";

// Each call has a separate function, so that no proof carries along what another call promises. `ok` drops the rest of
// its answer, because how it drops a value of any type is proved already.
fn raw_of(alloc: Global) -> Option<RawTrace> {
    match parse(alloc, ONE_LOCK) {
        Ok(raw) => Some(raw),
        Err(_) => None,
    }
}

fn trace_of(alloc: Global, raw: RawTrace) -> Option<Trace> {
    check(alloc, raw).ok()
}

fn index_of(alloc: Global, trace: Trace) -> Option<Indexed> {
    Indexed::new(alloc, trace).ok()
}

fn indexed_of(alloc: Global) -> Option<Indexed> {
    index_of(alloc, trace_of(alloc, raw_of(alloc)?)?)
}

// The index of the trace of one lock, made at a second call where memory was wanting at the first.
pub(crate) fn indexed_again(alloc: Global) -> Option<Indexed> {
    match indexed_of(alloc) {
        Some(indexed) => Some(indexed),
        None => indexed_of(alloc),
    }
}

pub(crate) fn name_of(byte: u8) -> Option<Name> {
    match Name::new([byte].as_slice()) {
        Ok(name) => Some(name),
        Err(_) => None,
    }
}
