//! What the tests start from: an empty bench of one trace, seats at it, and a script. Where memory was wanting each is made a second time,
//! so that a test can be run with each of its allocations refused in turn, one in a run.

use client_scripts::{Script, ScriptCause, ScriptRefusal, load, read_script};
use event_index::Indexed;
use inverse_log::{Bench, Call};
use std::alloc::Global;
use std::sync::{Arc, Wait};
use workspace_lock::{OpenRefusal, Seat, Seats, open, open_with_room};

/// Two threads use one lock, and write one variable outside it.
pub(crate) const ONE_LOCK: &[u8] =
    b"T1|w(x)|1\nT1|acq(l)|2\nT1|rel(l)|3\nT2|acq(l)|4\nT2|rel(l)|5\nT2|w(x)|6";

// Large values are dropped here by `ok`, and in the tests by `drop`. For each other function the check proves, at each
// way out, how all that it owns is dropped, part by part. Both `ok` and `drop` take a value of any type, and are proved
// once.
fn shared_once(alloc: Global) -> Option<Arc<Indexed, Global>> {
    match load(alloc, ONE_LOCK) {
        Ok(indexed) => Arc::new(alloc, indexed).ok(),
        Err(_) => None,
    }
}

fn shared_at_last(alloc: Global) -> Option<Arc<Indexed, Global>> {
    match shared_once(alloc) {
        Some(shared) => Some(shared),
        None => shared_once(alloc),
    }
}

// A bench of the index; at the second try of the index that came back.
fn bench_on(alloc: Global, shared: Arc<Indexed, Global>) -> Option<Bench> {
    match Bench::new(alloc, shared) {
        Ok(bench) => Some(bench),
        Err((shared, _)) => Bench::new(alloc, shared).ok(),
    }
}

/// An empty bench.
pub(crate) fn bench_at_last(alloc: Global) -> Option<Bench> {
    match shared_at_last(alloc) {
        Some(shared) => bench_on(alloc, shared),
        None => None,
    }
}

/// The script; where memory was wanting, for which no line is named, at a second reading.
pub(crate) fn script_at_last(alloc: Global, text: &[u8]) -> Option<Script> {
    match read_script(alloc, text) {
        Ok(script) => Some(script),
        Err(
            ScriptRefusal {
                line: 0,
                why: ScriptCause::OutOfMemory,
            },
        ) => read_script(alloc, text).ok(),
        Err(_) => None,
    }
}

// Seats at the bench, with a door that has this room, or the best room.
fn opened(
    alloc: Global,
    bench: Bench,
    clients: u32,
    room: Option<u32>,
) -> Result<Seats, (Bench, OpenRefusal)> {
    match room {
        Some(room) => open_with_room(alloc, bench, clients, room),
        None => open(alloc, bench, clients),
    }
}

// The same. Where it was refused for memory the bench came back: then once more.
fn seats_on(alloc: Global, bench: Bench, clients: u32, room: Option<u32>) -> Option<Seats> {
    match opened(alloc, bench, clients, room) {
        Ok(seats) => Some(seats),
        Err((bench, OpenRefusal::OutOfMemory)) => opened(alloc, bench, clients, room).ok(),
        Err((bench, OpenRefusal::BadCount)) => {
            drop(bench);
            None
        }
    }
}

/// Seats for `clients` clients at an empty bench.
pub(crate) fn seats_at_last(alloc: Global, clients: u32, room: Option<u32>) -> Option<Seats> {
    match bench_at_last(alloc) {
        Some(bench) => seats_on(alloc, bench, clients, room),
        None => None,
    }
}

fn both(one: Option<Seat>, two: Option<Seat>) -> Option<(Seat, Seat)> {
    match (one, two) {
        (Some(one), Some(two)) => Some((one, two)),
        _ => None,
    }
}

/// Two seats at an empty bench.
pub(crate) fn two_seats(alloc: Global, room: Option<u32>) -> Option<(Seat, Seat)> {
    match seats_at_last(alloc, 2, room) {
        Some(mut seats) => {
            let one = seats.take();
            both(one, seats.take())
        }
        None => None,
    }
}

/// Whether the answer is a reply.
pub(crate) fn is_reply<T: Drop, E: Drop>(answer: Result<T, E>) -> bool {
    answer.is_ok()
}

/// Whether the seat's call is accepted.
pub(crate) fn is_accepted<R: Wait>(rt: &R, seat: &mut Seat, call: &Call) -> bool {
    is_reply(seat.run(rt, call))
}
