//! The outcome of a request.
ghost use Rattle.std.specs.Prelude.{◌≡◌};
ghost use Rattle.search_pool.specs.Outcomes.{IsOutcomeOf, IsSliceOutcome, IsGreedyOutcome};

use crate::request::{Request, Way};
use event_index::{EventList, Indexed};
use schedule::{ListRefusal, Schedule};
use shb_clocks::Clocks;
use std::alloc::Global;
use witness_search::{SliceRefusal, greedy, slice};

/// The outcome of a request.
#[derive(Drop)]
pub enum Outcome {
    /// A correct reordering that shows the pair: its slice, or what the greedy search found.
    Witness(EventList),
    /// The greedy search found no schedule.
    Nothing,
    /// 61 to 63: the pair has no slice.
    NoSlice(SliceRefusal),
    /// The list to begin with is not a correct reordering.
    BadBase {
        /// The first index, counted from 0, whose event may not come next after those before it.
        position: u32,
    },
    /// Memory ran out while a worker handled the request.
    OutOfMemory,
}

/// The number of a request, its pair and its outcome.
#[derive(Drop)]
pub struct Found {
    /// The number of the request.
    pub request: u32,
    /// One event of the pair.
    pub first: u32,
    /// The other event.
    pub second: u32,
    /// The outcome of the request.
    pub outcome: Outcome,
}

fn slice_outcome(
    alloc: Global,
    indexed: &Indexed,
    clocks: &Clocks,
    first: u32,
    second: u32,
) -> Outcome
    requires trace { clocks.now ≡ indexed.now }
    ensures { IsSliceOutcome indexed.now.events first second result }
{
    match slice(alloc, indexed, clocks, first, second) {
        Ok(list) => Outcome::Witness(list),
        Err(SliceRefusal::OutOfMemory) => Outcome::OutOfMemory,
        Err(why) => Outcome::NoSlice(why),
    }
}

fn greedy_outcome(
    alloc: Global,
    indexed: &Indexed,
    first: u32,
    second: u32,
    base: &[u32],
    budget: u32,
) -> Outcome
    ensures { IsGreedyOutcome indexed.now.events first second base.now budget result }
{
    let start = match Schedule::from_list(alloc, indexed, base) {
        Ok(start) => start,
        Err(ListRefusal::NotReordering { position, .. }) => return Outcome::BadBase { position },
        Err(ListRefusal::OutOfMemory) => return Outcome::OutOfMemory,
    };
    match greedy(alloc, indexed, &start, first, second, budget) {
        Ok(Some(list)) => Outcome::Witness(list),
        Ok(None) => Outcome::Nothing,
        Err(_) => Outcome::OutOfMemory,
    }
}

/// Computes the outcome of the request.
pub(crate) fn work_on(
    alloc: Global,
    indexed: &Indexed,
    clocks: &Clocks,
    request: &Request,
) -> Outcome
    requires trace { clocks.now ≡ indexed.now }
    ensures { IsOutcomeOf indexed.now.events request.now result }
{
    match &request.way {
        Way::Slice => slice_outcome(alloc, indexed, clocks, request.first, request.second),
        Way::Greedy { base, budget } => greedy_outcome(
            alloc,
            indexed,
            request.first,
            request.second,
            base.items(),
            *budget,
        ),
    }
}
