//! What no clause says of the door before the lock: that those who wait for a call that is held up take next to nothing
//! of the processors' time.
use crate::seats::fixtures::{is_accepted, is_reply, seats_at_last};
use client_scripts::{FromRead, read_input};
use inverse_log::Call;
use std::alloc::Global;
use std::fs::File;
use std::sync::Wait;
use std::sync::atomic::{AtomicU64, Ordering};
use std::thread;
use std::thread::Threads;
use std::time::Duration;
use workspace_lock::{Gate, Seat, Seats, Told};

const TRIES: u32 = 8;
// In hundredths of a second. One that asks again and again takes 100 in a second, and 31 wait.
const MOST_TIME: u64 = 15;

// Takes the 32 seats that are in. One that had no place would be missed when the calls are counted.
fn take_all(seats: &mut Seats, own: &mut Vec<Seat>) {
    for _ in 0..32u32 {
        if let Some(seat) = seats.take() {
            drop(own.push(seat));
        }
    }
}

// A gate that is shut for a second once it has said that its turn is held.
#[derive(Drop)]
struct StaysShut<'a> {
    is_held: &'a AtomicU64,
}

impl<'a> Gate for StaysShut<'a> {
    fn pass<R: Wait, N: Told>(&mut self, rt: &R, step: u32) {
        if step == 1 {
            self.is_held.store(1, Ordering::SeqCst);
            self.is_held.wake_all();
            let never = AtomicU64::new(0);
            for _ in 0..10u32 {
                never.park_timeout(rt, 0, Duration::from_millis(100));
            }
        }
    }
}

fn call_through_it<R: Wait>(rt: &R, seat: &mut Seat, call: &Call, is_held: &AtomicU64) -> bool {
    is_reply(seat.run_gated(rt, call, &mut StaysShut { is_held }))
}

fn call_behind_it<R: Wait>(rt: &R, seat: &mut Seat, call: &Call, is_held: &AtomicU64) -> bool {
    for _ in 0..100u32 {
        is_held.park_timeout(rt, 0, Duration::from_millis(100));
    }
    is_accepted(rt, seat, call)
}

// One call: through the gate by the first client, and by the others once its turn is held. Whether it was accepted.
fn call_at_the_gate<R: Wait>(rt: &R, mut seat: Seat, is_held: &AtomicU64) -> bool {
    let call = Call::List;
    let is_accepted = if seat.number() == 1 {
        call_through_it(rt, &mut seat, &call, is_held)
    } else {
        call_behind_it(rt, &mut seat, &call, is_held)
    };
    drop(call);
    drop(seat);
    is_accepted
}

fn number_in(field: Option<&str>) -> Option<u64> {
    match field {
        Some(field) => field.parse::<u64>().ok(),
        None => None,
    }
}

// The twelfth and thirteenth field of the text, as a sum.
fn time_of(behind: &str) -> Option<u64> {
    let mut fields = behind.split_ascii_whitespace().skip(11);
    let own = number_in(fields.next());
    match (own, number_in(fields.next())) {
        (Some(own), Some(systems)) => Some(own.saturating_add(systems)),
        _ => None,
    }
}

// The twelfth and thirteenth field after the program's name in this text of the system, as a sum.
fn time_in(text: &str) -> Option<u64> {
    match text.rsplit_once(')') {
        Some((_, behind)) => time_of(behind),
        None => None,
    }
}

fn time_in_bytes(bytes: &[u8]) -> Option<u64> {
    match str::from_utf8(bytes) {
        Ok(text) => time_in(text),
        Err(_) => None,
    }
}

fn time_in_file(alloc: Global, file: File) -> Option<u64> {
    match read_input(alloc, &mut FromRead::new(file), 1) {
        Ok(bytes) => time_in_bytes(bytes.as_slice()),
        Err(_) => None,
    }
}

// The processors' time that the process has taken, in hundredths of a second.
fn processors_time(rt: &HostRuntime) -> Option<u64> {
    match File::open(rt, "/proc/self/stat") {
        Ok(file) => time_in_file(rt.alloc(), file),
        Err(_) => None,
    }
}

// Makes a call of each seat at once, in a thread each. Whether all were accepted.
fn are_done_at_the_gate<R: Threads + Wait + Sync>(rt: &R, own: Vec<Seat>) -> bool {
    let is_held = AtomicU64::new(0);
    let run = |seat: Seat| -> bool { call_at_the_gate(rt, seat, &is_held) };
    match thread::map_vec(rt, own, &run) {
        Ok(done) => done.len() == 32 && !done.as_slice().contains(&false),
        Err(_) => false,
    }
}

fn is_idle_at_the_gate<R: Threads + Wait + Sync>(
    rt: &R,
    system: &HostRuntime,
    own: Vec<Seat>,
) -> bool {
    let before = processors_time(system);
    let are_done = are_done_at_the_gate(rt, own);
    match (before, processors_time(system)) {
        (Some(before), Some(after)) => are_done && after.saturating_sub(before) <= MOST_TIME,
        _ => false,
    }
}

fn are_all_idle<R: Threads + Wait + Sync>(rt: &R, system: &HostRuntime, seats: &mut Seats) -> bool {
    match Vec::with_capacity(system.alloc(), 32) {
        Ok(mut own) => {
            take_all(seats, &mut own);
            is_idle_at_the_gate(rt, system, own)
        }
        Err(_) => false,
    }
}

fn is_gate_idle<R: Threads + Wait + Sync>(rt: &R, system: &HostRuntime) -> bool {
    match seats_at_last(system.alloc(), 32, None) {
        Some(mut seats) => are_all_idle(rt, system, &mut seats),
        None => false,
    }
}

// A machine that is busy charges more in some tries. Clients that ask again and again are charged in each.
fn is_gate_idle_at_last<R: Threads + Wait + Sync>(rt: &R, system: &HostRuntime) -> bool {
    for _ in 0..TRIES {
        if is_gate_idle(rt, system) {
            return true;
        }
    }
    false
}

#[test]
fn a_gate_that_stays_shut_costs_no_processor_time(rt: HostRuntime) {
    assert!(rt; is_gate_idle_at_last(&rt, &rt));
}
