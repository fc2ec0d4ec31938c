//! The three cuts below which pairs are counted: what is earlier in the trace than an event, what SHB keeps before
//! its base, and what is must-before that base.
ghost use Rattle.std.specs.Prelude.{◌≡◌, ◌<◌, ◌≤◌, length};

use crate::counting::Cut;
use event_index::Indexed;
use shb_clocks::{Clocks, SharedRows};

/// The events that are earlier in the trace.
#[derive(Clone, Copy)]
pub(crate) struct Earlier<'a> {
    pub(crate) indexed: &'a Indexed,
}

impl Cut for Earlier<'_> {
    ghost use Rattle.std.specs.Prelude.{◌<◌, length};
    ghost use Rattle.event_index.specs.Lookups.{count_before};

    ghost can_end = { λ s b t. (b < length s.indexed.now.events) × (t < length s.indexed.now.threads) };

    ghost end_of = { λ s b t. count_before s.indexed.now.events b t };

    fn end(&self, later: u32, thread: u32, from: u32) -> u32 {
        let lane = self.indexed.thread_events(thread);
        let mut end = from as usize;
        while end < lane.len() && lane[end] < later {
            end += 1;
        }
        end as u32
    }
}

/// The events that SHB keeps before the base, with the base.
#[derive(Clone, Copy)]
pub(crate) struct Known<'a> {
    pub(crate) indexed: &'a Indexed,
    pub(crate) clocks: &'a Clocks,
}

impl Cut for Known<'_> {
    ghost use Rattle.std.specs.Prelude.{◌<◌, ◌≡◌, length};
    ghost use Rattle.event_index.specs.Lookups.{base_of};
    ghost use Rattle.race_groups.specs.Ends.{known_before};

    ghost can_end = { λ s b t. (b < length s.indexed.now.events) × (t < length s.indexed.now.threads) × (s.clocks.now ≡ s.indexed.now) };

    ghost end_of = { λ s b t. known_before s.indexed.now.events b t };

    fn end(&self, later: u32, thread: u32, _from: u32) -> u32 {
        match self.indexed.base(later) {
            None => 0,
            Some(base) => self.clocks.known(self.indexed, base, thread),
        }
    }
}

/// The events that are must-before the base, with the base.
#[derive(Clone, Copy)]
pub(crate) struct Forced<'a> {
    pub(crate) indexed: &'a Indexed,
    pub(crate) rows: &'a SharedRows,
}

impl Cut for Forced<'_> {
    ghost use Rattle.std.specs.Prelude.{◌<◌, ◌≤◌, length};
    ghost use Rattle.event_index.specs.Lookups.{base_of};
    ghost use Rattle.race_groups.specs.Ends.{counted_before};
    ghost use Rattle.shb_clocks.specs.SharedRows.{len_of};

    ghost can_end = { λ s b t. (b < length s.indexed.now.events) × (t < s.rows.now.width) × (length s.indexed.now.events ≤ len_of s.rows.now) };

    ghost end_of = { λ s b t. counted_before s.rows.now s.indexed.now.events b t };

    fn end(&self, later: u32, thread: u32, _from: u32) -> u32 {
        match self.indexed.base(later) {
            None => 0,
            Some(base) => self.rows.count(base, thread),
        }
    }
}
