//! The door that a call passes before it draws its ticket.
use crate::lock::MAX_CLIENTS;
use std::hint::spin_loop;
use std::sync::Wait;
use std::sync::atomic::{AtomicU64, Ordering};
use std::time::Duration;

/// How many seats `open` lets queue at a time. With one, a ticket has its turn at the first look.
pub const BEST_ROOM: u32 = 1;

// How often a call that has slept looks for room before it sleeps again. A new call does not look. If it did, it
// would get in between two calls of another thread, and both threads would sleep and wake at each call.
const LOOKS: u32 = 100;

// The shortest sleep, in microseconds.
const NAP: u64 = 1_000;

// The longest sleep while nobody leaves, in microseconds.
const LONG_NAP: u64 = 256_000;

// One leaving call in this many wakes a sleeper.
const BETWEEN: u64 = 64;

/// A door that lets only a few calls queue for a turn, so that a thread makes many calls before another thread wakes.
///
/// Like the bells, the door is not part of the lock's rule. It changes when a call draws its ticket, but not what the
/// call does. A call that finds no room sleeps for a millisecond. While nobody leaves, each sleep is twice as long as
/// the one before, up to 256 milliseconds. Every 64th call that leaves wakes a sleeper, and every call does while a
/// sleeper sleeps longer than a millisecond. So nobody sleeps longer than a millisecond if there is room. If a call
/// does not leave, each waiting thread looks only four times a second.
#[derive(Drop)]
pub struct Door {
    is_wide: bool,
    room: AtomicU64,
    sleepers: AtomicU64,
    long_sleepers: AtomicU64,
    calls: AtomicU64,
}

impl Door {
    /// Returns a door with room for this many calls; 0 counts as 1. With room for 32 or more it is always open and
    /// costs nothing.
    pub fn new(room: u32) -> Door {
        Door {
            is_wide: room >= MAX_CLIENTS,
            room: AtomicU64::new(u64::from(room.max(1))),
            sleepers: AtomicU64::new(0),
            long_sleepers: AtomicU64::new(0),
            calls: AtomicU64::new(0),
        }
    }

    // Goes in, if there is room. Returns whether it did.
    fn goes_in(&self) -> bool {
        let room = self.room.load(Ordering::SeqCst);
        room > 0
            && self
                .room
                .compare_exchange(room, room - 1, Ordering::SeqCst, Ordering::SeqCst)
                .is_ok()
    }

    fn goes_in_soon(&self) -> bool {
        for _ in 0..LOOKS {
            if self.goes_in() {
                return true;
            }
            spin_loop();
        }
        false
    }

    // Sleeps until it is woken or the time is over. Returns at once if there is room.
    fn sleep<R: Wait>(&self, rt: &R, nap: u64) {
        let long = u64::from(nap > NAP);
        self.sleepers.fetch_add(1, Ordering::SeqCst);
        self.long_sleepers.fetch_add(long, Ordering::SeqCst);
        self.room.park_timeout(rt, 0, Duration::from_micros(nap));
        self.long_sleepers.fetch_sub(long, Ordering::SeqCst);
        self.sleepers.fetch_sub(1, Ordering::SeqCst);
    }

    /// Waits for room and takes it. A caller that enters must leave.
    pub fn enter<R: Wait>(&self, rt: &R) {
        if self.is_wide || self.goes_in() {
            return;
        }
        let mut nap = NAP;
        for _ in rt.forever() {
            let calls = self.calls.load(Ordering::SeqCst);
            self.sleep(rt, nap);
            if self.goes_in_soon() {
                return;
            }
            let has_one_left = self.calls.load(Ordering::SeqCst) != calls;
            nap = if has_one_left {
                NAP
            } else {
                nap.saturating_mul(2).min(LONG_NAP)
            };
        }
        unreachable!()
    }

    /// Gives the room back, and wakes a sleeper if it is time to.
    pub fn leave(&self) {
        if self.is_wide {
            return;
        }
        let calls = self.calls.fetch_add(1, Ordering::SeqCst);
        self.room.fetch_add(1, Ordering::SeqCst);
        let is_wake_due = calls % BETWEEN == 0 && self.sleepers.load(Ordering::SeqCst) > 0;
        if is_wake_due || self.long_sleepers.load(Ordering::SeqCst) > 0 {
            self.room.wake_one();
        }
    }
}
