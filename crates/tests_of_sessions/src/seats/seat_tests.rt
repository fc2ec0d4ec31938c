//! What no clause says of seats in one thread: that a call for which there was no memory is answered when it is made again, and the others
//! go on in between. Each test can be run with each of its allocations refused in turn, one in a run.
use crate::seats::fixtures::{bench_at_last, is_accepted, script_at_last, two_seats};
use crate::seats::memory_tests::has_answers;
use client_scripts::{Script, run_seat};
use inverse_log::{Bench, Call, Refusal, SeatRefusal};
use std::alloc::Global;
use std::sync::Wait;
use workspace_lock::Seat;

// Whether the refused call changed nothing, and the other seat is served.
fn is_as_before<R: Wait>(rt: &R, other: &mut Seat, before: u64) -> bool {
    let is_unchanged = other.front() == before;
    let is_accepted = is_accepted(rt, other, &Call::Undo);
    is_unchanged && !is_accepted && other.front() == before
}

// What became of a call.
#[derive(Clone, Copy)]
enum Outcome {
    Done,
    NoMemory,
    Refused,
}

fn outcome_of<R: Wait>(rt: &R, seat: &mut Seat, call: &Call) -> Outcome {
    let answer = seat.run(rt, call);
    let outcome = match &answer {
        Ok(_) => Outcome::Done,
        Err(SeatRefusal::Bench(Refusal::OutOfMemory)) => Outcome::NoMemory,
        Err(_) => Outcome::Refused,
    };
    drop(answer);
    outcome
}

// The call, and if a growth was refused the same again: the first one changed nothing, and the other seat was served in
// between.
fn is_done_at_last<R: Wait>(rt: &R, seat: &mut Seat, other: &mut Seat, call: &Call) -> bool {
    let before = other.front();
    match outcome_of(rt, seat, call) {
        Outcome::Done => true,
        Outcome::NoMemory => is_as_before(rt, other, before) && is_accepted(rt, seat, call),
        Outcome::Refused => false,
    }
}

fn are_done_at_last<R: Wait>(rt: &R, one: &mut Seat, two: &mut Seat, script: &Script) -> bool {
    let mut are_done = true;
    for at in 0..script.len() {
        let call = script.call(at);
        are_done = is_done_at_last(rt, one, two, call.get()) && are_done;
        drop(call);
    }
    are_done && two.front() == 4
}

fn does_each_at_last<R: Wait>(rt: &R, alloc: Global, one: &mut Seat, two: &mut Seat) -> bool {
    let calls = b"1 new A\n1 add A 0\n1 show A\n1 list\n1 back A\n1 races A\n1 undo\n";
    match script_at_last(alloc, calls) {
        Some(script) => {
            let are_done = are_done_at_last(rt, one, two, &script);
            drop(script);
            are_done
        }
        None => false,
    }
}

fn is_served_again<R: Wait>(rt: &R, alloc: Global) -> bool {
    match two_seats(alloc, None) {
        Some((mut one, mut two)) => does_each_at_last(rt, alloc, &mut one, &mut two),
        None => false,
    }
}

#[test]
fn refused_memory_changes_nothing(rt: HostRuntime) {
    assert!(rt; is_served_again(&rt, rt.alloc()));
}

/// Calls of one client, with a reply and a refusal of several kinds.
const SCRIPT: &[u8] =
    b"1 new A\n1 new A\n1 add A 3\n1 add A 1\n1 propose 0 5 3 4\n1 adopt A 0\n1 show A\n1 races A\n1 undo\n1 list\n1 propose 0 5 3\n";

// A vector with room for all lines of the script.
fn roomy_at_last(alloc: Global) -> Option<Vec<u8>> {
    match Vec::with_capacity(alloc, 4096) {
        Ok(out) => Some(out),
        Err(_) => Vec::with_capacity(alloc, 4096).ok(),
    }
}

// Whether the seat's answers, in this vector with room for the lines, are those of a separate bench.
fn is_told_in<R: Wait>(
    rt: &R,
    alloc: Global,
    seat: &mut Seat,
    bench: &mut Bench,
    script: &Script,
    out: &mut Vec<u8>,
) -> bool {
    let is_run = run_seat(seat, rt, bench.indexed(), script, out).is_ok();
    is_run && has_answers(alloc, bench, script, out.as_slice())
}

// Whether a script whose lines have room gets an answer to each of its calls, also to one for which there was no
// memory.
fn is_each_told<R: Wait>(
    rt: &R,
    alloc: Global,
    seat: &mut Seat,
    bench: &mut Bench,
    script: &Script,
) -> bool {
    let is_told = match roomy_at_last(alloc) {
        Some(mut out) => is_told_in(rt, alloc, seat, bench, script, &mut out),
        None => false,
    };
    is_told && seat.turns() == 11
}

// Whether the seat is served.
fn is_served<R: Wait>(rt: &R, seat: &mut Seat) -> bool {
    let is_run = is_accepted(rt, seat, &Call::List) || is_accepted(rt, seat, &Call::List);
    is_run && seat.turns() > 11
}

fn tells_each<R: Wait>(rt: &R, alloc: Global, seat: &mut Seat, bench: &mut Bench) -> bool {
    match script_at_last(alloc, SCRIPT) {
        Some(script) => {
            let is_each_told = is_each_told(rt, alloc, seat, bench, &script);
            drop(script);
            is_each_told && is_served(rt, seat)
        }
        None => false,
    }
}

fn tells_each_on<R: Wait>(rt: &R, alloc: Global, seat: &mut Seat) -> bool {
    match bench_at_last(alloc) {
        Some(mut bench) => {
            let are_told = tells_each(rt, alloc, seat, &mut bench);
            drop(bench);
            are_told
        }
        None => false,
    }
}

fn does_tell<R: Wait>(rt: &R, alloc: Global) -> bool {
    match two_seats(alloc, None) {
        Some((mut one, _)) => tells_each_on(rt, alloc, &mut one),
        None => false,
    }
}

#[test]
fn refused_memory_is_told_to_a_script(rt: HostRuntime) {
    assert!(rt; does_tell(&rt, rt.alloc()));
}
