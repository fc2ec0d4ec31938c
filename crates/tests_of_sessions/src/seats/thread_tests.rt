//! What no clause says of seats in two threads: that `front` is answered while another seat has the turn, and no call is; and that what one
//! thread did before it ended is there for the next, so that neither `front` nor a look is answered from a copy that the seat keeps.
use crate::seats::fixtures::{is_accepted, is_reply, two_seats};
use inverse_log::{Call, Reply};
use moves::{Command, Name};
use std::alloc::Global;
use std::sync::Wait;
use std::sync::atomic::{AtomicU64, Ordering};
use std::thread;
use std::thread::Threads;
use std::time::Duration;
use workspace_lock::{Gate, Seat, Told};

fn new_schedule() -> Option<Call> {
    match Name::new(b"A") {
        Ok(name) => Some(Call::Do(Command::Fresh { name })),
        Err(_) => None,
    }
}

// What the two threads of a gated call tell each other: each word is 0 until it is so.
#[derive(Drop)]
struct Signals {
    is_held: AtomicU64,
    was_front_told: AtomicU64,
    has_run_returned: AtomicU64,
}

impl Signals {
    fn new() -> Signals {
        Signals {
            is_held: AtomicU64::new(0),
            was_front_told: AtomicU64::new(0),
            has_run_returned: AtomicU64::new(0),
        }
    }
}

fn set(word: &AtomicU64) {
    word.store(1, Ordering::SeqCst);
    word.wake_all();
}

// Whether the word is set within some twenty milliseconds for each look.
fn is_set_soon<R: Wait>(rt: &R, word: &AtomicU64, looks: u32) -> bool {
    for _ in 0..looks {
        if word.load(Ordering::SeqCst) == 1 {
            return true;
        }
        word.park_timeout(rt, 0, Duration::from_millis(20));
    }
    word.load(Ordering::SeqCst) == 1
}

// A gate that holds its turn at step 1 until the other thread was told the front, and at step 2 until its call has returned,
// which it does not. It gives up after some ten seconds at step 1, and a fifth of a second at step 2.
#[derive(Drop)]
struct HoldsTurn<'a> {
    signals: &'a Signals,
    was_front_told: bool,
    has_run_returned: bool,
}

impl<'a> Gate for HoldsTurn<'a> {
    fn pass<R: Wait, N: Told>(&mut self, rt: &R, step: u32) {
        if step == 1 {
            set(&self.signals.is_held);
            self.was_front_told = is_set_soon(rt, &self.signals.was_front_told, 500);
        } else {
            self.has_run_returned = is_set_soon(rt, &self.signals.has_run_returned, 10);
        }
    }
}

// One call through the gate. Whether it was accepted while the other thread was told the front and no call of it returned, and is seen.
fn gated_call<R: Wait>(rt: &R, mut seat: Seat, call: &Call, signals: &Signals) -> bool {
    let mut gate = HoldsTurn {
        signals,
        was_front_told: false,
        has_run_returned: false,
    };
    let is_done = is_reply(seat.run_gated(rt, call, &mut gate));
    let is_gate_right = gate.was_front_told && !gate.has_run_returned;
    let is_seen = seat.front() == 1 && seat.turns() == 1;
    drop(seat);
    is_done && is_gate_right && is_seen
}

// How many names there are.
fn names_seen<R: Wait>(rt: &R, seat: &mut Seat) -> Option<u64> {
    let call = Call::List;
    let answer = seat.run(rt, &call);
    drop(call);
    let names = match &answer {
        Ok(Reply::Listing(names)) => Some(names.items().len() as u64),
        _ => None,
    };
    drop(answer);
    names
}

// What `front` answers while the other seat's turn is held, and how many names the listing has then.
fn calls_meanwhile<R: Wait>(rt: &R, mut seat: Seat, signals: &Signals) -> Option<(u64, u64)> {
    if !is_set_soon(rt, &signals.is_held, 500) {
        drop(seat);
        return None;
    }
    let front = seat.front();
    set(&signals.was_front_told);
    let names = names_seen(rt, &mut seat);
    set(&signals.has_run_returned);
    drop(seat);
    match names {
        Some(names) => Some((front, names)),
        None => None,
    }
}

// The first seat makes its call through the gate while the second one asks.
fn is_turn_held<R: Threads + Wait + Sync>(rt: &R, one: Seat, two: Seat, call: &Call) -> bool {
    let signals = Signals::new();
    let (is_gate_right, seen) = thread::join(
        rt,
        || gated_call(rt, one, call, &signals),
        || calls_meanwhile(rt, two, &signals),
    );
    is_gate_right && seen == Some((0, 1))
}

fn is_turn_held_behind<R: Threads + Wait + Sync>(
    rt: &R,
    alloc: Global,
    room: u32,
    call: &Call,
) -> bool {
    match two_seats(alloc, Some(room)) {
        Some((one, two)) => is_turn_held(rt, one, two, call),
        None => false,
    }
}

// The same, of a call that makes a schedule.
fn is_turn_held_of<R: Threads + Wait + Sync>(rt: &R, alloc: Global, room: u32) -> bool {
    match new_schedule() {
        Some(call) => is_turn_held_behind(rt, alloc, room, &call),
        None => false,
    }
}

// With room for one the second seat waits at the door, and with room for all with a ticket.
#[test]
fn front_is_answered_and_no_call_while_another_holds_the_turn(rt: HostRuntime) {
    for room in [1, 32u32] {
        assert!(rt; is_turn_held_of(&rt, rt.alloc(), room));
    }
}

fn one_call<R: Wait>(rt: &R, mut seat: Seat, call: &Call) -> bool {
    let is_accepted = is_accepted(rt, &mut seat, call);
    drop(seat);
    is_accepted
}

// The first seat makes a call in a thread that has ended. Whether it was accepted.
fn after_a_joined_call<R: Threads + Wait + Sync>(rt: &R, one: Seat, call: &Call) -> bool {
    let (is_done, _) = thread::join(rt, || one_call(rt, one, call), || 0u32);
    is_done
}

// What a seat asks for.
#[derive(Clone, Copy)]
enum Asked {
    Front,
    Names,
}

// The front, or how many names there are.
fn answer<R: Wait>(rt: &R, seat: &mut Seat, asked: Asked) -> Option<u64> {
    match asked {
        Asked::Front => Some(seat.front()),
        Asked::Names => names_seen(rt, seat),
    }
}

// Whether the second seat, which has asked before, is answered by what the first one's call has made.
fn sees<R: Threads + Wait + Sync>(
    rt: &R,
    one: Seat,
    two: &mut Seat,
    call: &Call,
    asked: Asked,
) -> bool {
    let before = answer(rt, two, asked);
    let is_done = after_a_joined_call(rt, one, call);
    is_done && before == Some(0) && answer(rt, two, asked) == Some(1)
}

// The same, with a door with room for none, which is room for one.
fn sees_what_was_done<R: Threads + Wait + Sync>(
    rt: &R,
    alloc: Global,
    call: &Call,
    asked: Asked,
) -> bool {
    match two_seats(alloc, Some(0)) {
        Some((one, mut two)) => sees(rt, one, &mut two, call, asked),
        None => false,
    }
}

// The same, of a call that makes a schedule.
fn sees_a_schedule<R: Threads + Wait + Sync>(rt: &R, alloc: Global, asked: Asked) -> bool {
    match new_schedule() {
        Some(call) => sees_what_was_done(rt, alloc, &call, asked),
        None => false,
    }
}

// The length of what the seat has seen already is an old one.
#[test]
fn front_from_a_copy(rt: HostRuntime) {
    assert!(rt; sees_a_schedule(&rt, rt.alloc(), Asked::Front));
}

// The answer to a look that the seat made before is an old one.
#[test]
fn looks_from_a_copy(rt: HostRuntime) {
    assert!(rt; sees_a_schedule(&rt, rt.alloc(), Asked::Names));
}
