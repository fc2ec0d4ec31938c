//! What no clause says of calls for which there is memory: that they are answered. Each call is made once, so that a bench or a seat
//! which always answers that memory is wanting fails here.
ghost use Rattle.std.specs.Prelude.{◌<◌, length};

use crate::seats::fixtures::{bench_at_last, is_accepted, is_reply, script_at_last, seats_at_last};
use client_scripts::{GivenCall, Script};
use inverse_log::Bench;
use std::alloc::Global;
use std::sync::Wait;
use workspace_lock::Seat;

// A call of each kind and a command of each kind, each of which is accepted.
const EACH_CALL: &[u8] =
    b"1 new A\n1 add A 3\n1 add A 0\n1 swap A 0\n1 back A\n1 branch A 1 B\n1 propose 0 5 3 4\n1 adopt A 0\n1 show A\n1 races A\n1 list\n1 batch new C ; drop C\n1 drop B\n1 undo\n1 undo 8\n";

// A call that owns no memory is made here. The ninth shows a schedule, and no other does.
fn is_answered_by_a_bench(bench: &mut Bench, script: &Script, at: usize) -> bool
    requires { at < length script.now }
{
    match script.given(at) {
        GivenCall::Plain(call) => {
            let does_show = call.shown().is_some();
            let made = call.made();
            let is_answered = is_reply(bench.call(1, &made));
            drop(made);
            is_answered && does_show == (at == 8)
        }
        GivenCall::Lent(call) => is_reply(bench.call(1, call)),
    }
}

fn are_answered_by_a_bench(bench: &mut Bench, script: &Script) -> bool {
    let mut are_answered = script.len() == 15;
    for at in 0..script.len() {
        are_answered = is_answered_by_a_bench(bench, script, at) && are_answered;
    }
    are_answered
}

fn are_answered_by_a_seat<R: Wait>(rt: &R, seat: &mut Seat, script: &Script) -> bool {
    let mut are_answered = script.len() == 15;
    for at in 0..script.len() {
        let call = script.call(at);
        are_answered = is_accepted(rt, seat, call.get()) && are_answered;
        drop(call);
    }
    are_answered
}

fn does_a_bench_answer(alloc: Global, script: &Script) -> bool {
    match bench_at_last(alloc) {
        Some(mut bench) => {
            let are_answered = are_answered_by_a_bench(&mut bench, script);
            drop(bench);
            are_answered
        }
        None => false,
    }
}

fn does_a_seat_answer<R: Wait>(rt: &R, alloc: Global, script: &Script) -> bool {
    let seat = match seats_at_last(alloc, 1, None) {
        Some(mut seats) => seats.take(),
        None => None,
    };
    match seat {
        Some(mut seat) => {
            let are_answered = are_answered_by_a_seat(rt, &mut seat, script);
            drop(seat);
            are_answered
        }
        None => false,
    }
}

#[test]
fn bench_always_out_of_memory(rt: HostRuntime) {
    let is_right = match script_at_last(rt.alloc(), EACH_CALL) {
        Some(script) => {
            let does_answer = does_a_bench_answer(rt.alloc(), &script);
            drop(script);
            does_answer
        }
        None => false,
    };
    assert!(rt; is_right);
}

#[test]
fn seat_always_out_of_memory(rt: HostRuntime) {
    let is_right = match script_at_last(rt.alloc(), EACH_CALL) {
        Some(script) => {
            let does_answer = does_a_seat_answer(&rt, rt.alloc(), &script);
            drop(script);
            does_answer
        }
        None => false,
    };
    assert!(rt; is_right);
}
