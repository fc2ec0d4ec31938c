//! Bells: a call sleeps on one until its turn comes.
use crate::lock::MAX_CLIENTS;
use std::array::from_fn;
use std::sync::Wait;
use std::thread::Parker;

/// A bell for each ticket that can wait at one time, so that passing the turn wakes only the thread whose turn it is.
/// A bell that rings before the wait ends that wait at once.
#[derive(Drop)]
pub struct Bells {
    bells: [Parker; MAX_CLIENTS as usize],
}

impl Bells {
    pub fn new() -> Bells {
        Bells {
            bells: from_fn(|_| Parker::new()),
        }
    }

    // Two tickets that wait at one time never have the same bell: each seat has at most one ticket, and there are at
    // least as many bells as seats.
    fn bell(&self, ticket: u64) -> &Parker {
        &self.bells[(ticket % u64::from(MAX_CLIENTS)) as usize]
    }

    /// Sleeps until the ticket's bell has rung. May return early, because of an earlier ring.
    pub fn wait<R: Wait>(&self, rt: &R, ticket: u64) {
        self.bell(ticket).park(rt);
    }

    /// Wakes the thread that waits with this ticket. If no thread waits yet, its next wait returns at once.
    pub fn ring(&self, ticket: u64) {
        self.bell(ticket).unpark();
    }
}
