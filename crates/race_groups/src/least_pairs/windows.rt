//! The events of a lane with which an access is compared.
ghost use Rattle.std.specs.Prelude.{◌≡◌, ℕ, ◌<◌, ◌≢◌, ◌||◌, true, false, length};
ghost use Rattle.race_groups.specs.least_pairs.Going.{AreNotClashing};

use crate::least_pairs::lanes::{Lane, Later};
use crate::least_pairs::tries::Between;

/// The events of a lane from one index up to another, and the access with which they are compared.
#[derive(Clone, Copy)]
pub(crate) struct Window<'a> {
    pub(crate) lane: &'a Lane,
    pub(crate) later: Later,
    pub(crate) from: usize,
    pub(crate) end: usize,
}

/// Two accesses, with the variable and the threads of their pair.
#[derive(Clone, Copy)]
pub(crate) struct Two {
    pub(crate) first: u32,
    pub(crate) second: u32,
    pub(crate) of: Between,
}

/// Whether the lane has events, and they conflict with the access.
pub(crate) fn are_clashing(lane: &Lane, later: Later) -> bool
    ensures some { result ≡ true → 0 < length lane.now.events.items }
    ensures threads { result ≡ true → lane.now.thread ≢ later.thread }
    ensures writes { result ≡ true → (lane.now.is_writing || later.is_writing) ≡ true }
    ensures none { result ≡ false → AreNotClashing lane.now later }
{
    lane.thread != later.thread && (lane.is_writing || later.is_writing) && !lane.events.is_empty()
}
