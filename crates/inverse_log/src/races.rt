//! The pairs that a schedule shows.
ghost use Rattle.std.specs.Prelude.{◌≡◌, ◌++◌, IfOk, OnOk};
ghost use Rattle.inverse_log.specs.Next.{next_events};
ghost use Rattle.inverse_log.specs.Pairs.{shown_pairs, shown_with};

use event_index::{Indexed, Pairs};
use rapid_text::OutOfMemory;
use schedule::Schedule;
use std::alloc::Global;
use std::collections::BTreeSet;

/// The pairs of events that the schedule shows, the earlier event first, in rising order. Both events of a pair are
/// next in their threads.
pub(crate) fn shown_pairs(
    alloc: Global,
    indexed: &Indexed,
    schedule: &Schedule,
) -> Result<Pairs, OutOfMemory>
    requires { schedule.now.trace ≡ indexed.now }
    ensures { IfOk result (λ pairs. pairs ≡ shown_pairs indexed.now.events schedule.now.events) }
{
    let next = next_events(alloc, indexed, schedule)?;
    let mut pairs = Pairs::new(alloc);
    for at in 0..next.len() {
        add_pairs(&mut pairs, indexed, schedule, next[at], &next[at + 1..])?;
    }
    Ok(pairs)
}

// Appends the pairs of this event and a later one that the schedule shows.
fn add_pairs(
    pairs: &mut Pairs,
    indexed: &Indexed,
    schedule: &Schedule,
    first: u32,
    later: &[u32],
) -> Result<(), OutOfMemory>
    requires { schedule.now.trace ≡ indexed.now }
    ensures { OnOk result (pairs.new ≡ pairs.old ++ shown_with indexed.now schedule.now first later.now) }
{
    for second in later {
        if schedule.shows(indexed, first, *second) {
            pairs.push((first, *second))?;
        }
    }
    Ok(())
}

// The events that are next in their threads after the schedule, rising.
fn next_events(
    alloc: Global,
    indexed: &Indexed,
    schedule: &Schedule,
) -> Result<Vec<u32>, OutOfMemory>
    requires { schedule.now.trace ≡ indexed.now }
    ensures { IfOk result (λ next. next.items ≡ next_events indexed.now.events schedule.now.events) }
{
    let next = sorted_next(alloc, indexed, schedule)?;
    let mut events = Vec::new(alloc);
    for event in next.iter() {
        events.push(*event)?;
    }
    Ok(events)
}

// The same, as an ordered set.
#[tactic(auto, using(crate::proofs::NextLemmas::next_first, crate::proofs::NextLemmas::next_put, crate::proofs::NextLemmas::next_none, crate::proofs::NextLemmas::next_all))]
fn sorted_next(
    alloc: Global,
    indexed: &Indexed,
    schedule: &Schedule,
) -> Result<BTreeSet<u32>, OutOfMemory>
    requires { schedule.now.trace ≡ indexed.now }
    ensures { IfOk result (λ next. next.keys ≡ next_events indexed.now.events schedule.now.events) }
{
    let mut next = BTreeSet::new(alloc);
    for thread in 0..indexed.threads() {
        if let Some(event) = schedule.next_of(indexed, thread) {
            next.insert(event)?;
        }
    }
    Ok(next)
}
