//! A trace of any length, as far as it was read. Only this module uses the contracts of `window::Front`, so that the
//! proofs of callers stay small.

use rapid_text::{MAX_EVENTS, MAX_THREADS, OutOfMemory};
use std::alloc::Global;
use window::{Front, FrontFault, Window};

/// A front of which nothing was read.
pub(crate) fn begun(alloc: Global) -> Front {
    Front::begin(alloc)
}

/// How many events were read.
pub(crate) fn events_of(front: &Front) -> u64 {
    front.number()
}

/// How many lines were read.
pub(crate) fn lines_of(front: &Front) -> u64 {
    front.lines()
}

/// How many events may be read next, at least.
pub(crate) fn room_of(front: &Front) -> u32 {
    front.room()
}

/// How many acquires are held after what was read.
pub(crate) fn held_of(front: &Front) -> u64 {
    let most = (MAX_EVENTS as u64).saturating_sub(3 * MAX_THREADS as u64);
    most.saturating_sub(u64::from(front.room()))
}

/// How many threads the events have that were read. Threads that are only forked or joined count.
pub(crate) fn threads_of(alloc: Global, front: &Front) -> Result<usize, OutOfMemory> {
    front.threads(alloc)
}

/// The window of the events that follow what was read: the events in `more`, `most` at most.
pub(crate) fn window_of(
    alloc: Global,
    front: &Front,
    more: &[u8],
    most: u32,
) -> Result<Window, FrontFault> {
    if most == 0 {
        return Err(FrontFault::NoSuchEvent);
    }
    front.window(alloc, more, most)
}

/// Reads these lines too. They must be whole.
pub(crate) fn read_on(alloc: Global, front: &mut Front, more: &[u8]) -> Result<(), FrontFault> {
    front.go_on(alloc, more)
}
