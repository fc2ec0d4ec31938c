//! A search beyond the order of the trace.
ghost use Rattle.std.specs.Prelude.{◌≡◌, ◌<◌, ◌≤◌, ◌↔◌, length, IsTrue, IfOk, IfSome, None, true};
ghost use Rattle.event_index.specs.Relations.{IsConflicting};
ghost use Rattle.rapid_text.specs.Appended.{IfFound};
ghost use Rattle.schedule.specs.Reordering.{IsCorrectReordering};
ghost use Rattle.schedule.specs.Shows.{IsReady, Shows};
ghost use Rattle.witness_search.specs.trace_order.Counting.{SizeIfTurned, IsLeftOf};
ghost use Rattle.witness_search.specs.trace_order.Aims.{IsAgainOfSize, IsAim, IsAimBefore, IsAimFor, IsMissedFrom, IsRunOfSize};
ghost use Rattle.witness_search.specs.trace_order.InOrder.{AreNeeded, IsBaseOfPair};
ghost use Rattle.witness_search.specs.trace_order.Laws.{IsBaseOf};
ghost use Rattle.witness_search.specs.trace_order.Orders.{IsSearchedAgain, IsSearchedFirst, IsTurned};
ghost use Rattle.witness_search.specs.trace_order.Standing.{start_of, HasCome};

use crate::searching::greedy_within;
use crate::trace_order::acquires::Acquires;
use crate::trace_order::closing::needed_row;
use crate::trace_order::counting::search;
use crate::trace_order::enabling::{Aim, Reached};
use crate::trace_order::fronts::fronts_of;
use crate::trace_order::joining::{joined_for, joined_row};
use crate::trace_order::listing::{list_of, row_for};
use crate::trace_order::sizing::{events_counted, threads_counted};
use crate::trace_order::wanting::wanted_row;
use event_index::{EventList, Indexed};
use must_order::Must;
use rapid_text::OutOfMemory;
use schedule::{ListRefusal, Schedule};
use std::alloc::Global;
use std::collections::HashMap;

/// Searches for a schedule that shows the pair, whose critical sections may come in another order than in the trace.
/// It is the greedy search, twice, with at most `budget` steps in all. The first search starts from the least list in
/// the order of the trace after which the second event is the next of its thread. The second search starts from before
/// the sections that are open before the two events. Fails if memory runs out.
pub fn turned(
    alloc: Global,
    indexed: &Indexed,
    first: u32,
    second: u32,
    budget: u32,
) -> Result<Option<EventList>, OutOfMemory>
    ensures answer { IfOk result (IsTurned indexed.now.events first second budget) }
    ensures reordering { IfOk result (λ found. IfSome found (IsCorrectReordering indexed.now.events)) }
    ensures shows { IfFound result (λ P. Shows indexed.now.events P first second) }
{
    if !are_conflicting(indexed, first, second) {
        return Ok(None);
    }
    let mut left = budget;
    let found = search_first(alloc, indexed, (first, second), &mut left)?;
    if found.is_some() {
        return Ok(found);
    }
    let again = search_again(alloc, indexed, (first, second), &mut left)?;
    Ok(again)
}

// The first search.
fn search_first(
    alloc: Global,
    indexed: &Indexed,
    pair: (u32, u32),
    left: &mut u32,
) -> Result<Option<EventList>, OutOfMemory>
    requires first { pair.0 < length indexed.now.events }
    requires second { pair.1 < length indexed.now.events }
    ensures found { IfOk result (λ found. IsSearchedFirst indexed.now.events pair.0 pair.1 left.old found left.new) }
    ensures reordering { IfOk result (λ found. IfSome found (IsCorrectReordering indexed.now.events)) }
    ensures shows { IfFound result (λ P. Shows indexed.now.events P pair.0 pair.1) }
{
    let list = ready_list(alloc, indexed, pair.1)?;
    let start = schedule_of(alloc, indexed, list.items())?;
    let found = greedy_within(alloc, indexed, &start, pair, left)?;
    Ok(found)
}

// The second search.
fn search_again(
    alloc: Global,
    indexed: &Indexed,
    pair: (u32, u32),
    left: &mut u32,
) -> Result<Option<EventList>, OutOfMemory>
    requires first { pair.0 < length indexed.now.events }
    requires second { pair.1 < length indexed.now.events }
    ensures found { IfOk result (λ found. IsSearchedAgain indexed.now.events pair.0 pair.1 left.old found left.new) }
    ensures reordering { IfOk result (λ found. IfSome found (IsCorrectReordering indexed.now.events)) }
    ensures shows { IfFound result (λ P. Shows indexed.now.events P pair.0 pair.1) }
{
    if *left == 0 {
        return Ok(None);
    }
    let Some(fronts) = fronts_of(indexed, pair) else {
        return Ok(None);
    };
    let list = list_before(alloc, indexed, fronts)?;
    let start = schedule_of(alloc, indexed, list.items())?;
    let found = greedy_within(alloc, indexed, &start, pair, left)?;
    Ok(found)
}

/// The same searches with at most `left` steps, without making the schedule. Returns the schedule's number of events
/// and the number of their threads, or None. If they find none, `left` falls by the number of steps taken. Their steps
/// grow with the threads, the acquires and the events that they take. Fails if memory runs out.
pub fn turned_size(
    alloc: Global,
    indexed: &Indexed,
    must: &Must,
    acquires: &Acquires,
    pair: (u32, u32),
    left: &mut u32,
) -> Result<Option<(u32, u32)>, OutOfMemory>
    requires must { must.now ≡ indexed.now }
    requires acquires { acquires.now ≡ indexed.now }
    ensures size { IfOk result (SizeIfTurned indexed.now.events pair.0 pair.1 left.old) }
    ensures none { IfOk result (λ r. r ≡ None → IsTurned indexed.now.events pair.0 pair.1 left.old None) }
    ensures left { IfOk result (λ r. r ≡ None → IsLeftOf indexed.now.events pair.0 pair.1 left.old left.new) }
    ensures fewer { left.new ≤ left.old }
{
    if !are_conflicting(indexed, pair.0, pair.1) {
        return Ok(None);
    }
    let _len = indexed.len();
    let aim = aim_for(alloc, indexed, must, acquires, pair)?;
    let size = size_of(alloc, indexed, acquires, &aim, left)?;
    if size.is_some() {
        return Ok(size);
    }
    let again = size_again(alloc, indexed, must, acquires, aim, left)?;
    Ok(again)
}

// The size of what the search from the start of the aim finds with at most `left` steps. If it finds nothing, `left`
// falls by the number of steps taken.
fn size_of(
    alloc: Global,
    indexed: &Indexed,
    acquires: &Acquires,
    aim: &Aim,
    left: &mut u32,
) -> Result<Option<(u32, u32)>, OutOfMemory>
    requires acquires { acquires.now ≡ indexed.now }
    requires conflict { IsConflicting indexed.now.events aim.now.first aim.now.second }
    requires first { aim.now.first < length indexed.now.events }
    requires second { aim.now.second < length indexed.now.events }
    requires aim { IsAim indexed.now aim.now }
    ensures size { IfFound result (IsRunOfSize indexed.now aim.now left.old) }
    ensures none { IfOk result (λ r. r ≡ None → IsMissedFrom indexed.now aim.now left.old left.new) }
    ensures fewer { left.new ≤ left.old }
{
    let _len = indexed.len();
    let mut reached = reached_from(alloc, indexed, aim)?;
    if !search(&mut reached, indexed, acquires, aim, left)? {
        return Ok(None);
    }
    Ok(Some((
        events_counted(indexed, reached.row.as_slice()),
        threads_counted(indexed, reached.row.as_slice()),
    )))
}

// The size of what the second search finds. The aim is that of the first search.
fn size_again(
    alloc: Global,
    indexed: &Indexed,
    must: &Must,
    acquires: &Acquires,
    aim: Aim,
    left: &mut u32,
) -> Result<Option<(u32, u32)>, OutOfMemory>
    requires must { must.now ≡ indexed.now }
    requires acquires { acquires.now ≡ indexed.now }
    requires conflict { IsConflicting indexed.now.events aim.first aim.second }
    requires first { aim.first < length indexed.now.events }
    requires second { aim.second < length indexed.now.events }
    requires aim { IsAim indexed.now aim }
    ensures size { IfFound result (IsAgainOfSize indexed.now.events aim.first aim.second left.old) }
    ensures none { IfOk result
        (λ r. r ≡ None → IsSearchedAgain indexed.now.events aim.first aim.second left.old None left.new) }
    ensures fewer { left.new ≤ left.old }
{
    let _len = indexed.len();
    if *left == 0 {
        return Ok(None);
    }
    let Some(fronts) = fronts_of(indexed, (aim.first, aim.second)) else {
        return Ok(None);
    };
    let aim = aim_before(alloc, indexed, must, acquires, aim, fronts)?;
    let size = size_of(alloc, indexed, acquires, &aim, left)?;
    Ok(size)
}

// The aim with another start: what both fronts need.
fn aim_before(
    alloc: Global,
    indexed: &Indexed,
    must: &Must,
    acquires: &Acquires,
    aim: Aim,
    fronts: (u32, u32),
) -> Result<Aim, OutOfMemory>
    requires must { must.now ≡ indexed.now }
    requires acquires { acquires.now ≡ indexed.now }
    requires aim { IsAim indexed.now aim }
    requires first { fronts.0 < length indexed.now.events }
    requires second { fronts.1 < length indexed.now.events }
    ensures { IfOk result (IsAimBefore indexed.now aim fronts) }
{
    let _len = indexed.len();
    let start = joined_for(alloc, indexed, must, acquires, fronts.0, fronts.1)?;
    Ok(Aim {
        first: aim.first,
        second: aim.second,
        start,
        wanted: aim.wanted,
    })
}

// The start of a search for the pair, and the events that it wants.
fn aim_for(
    alloc: Global,
    indexed: &Indexed,
    must: &Must,
    acquires: &Acquires,
    pair: (u32, u32),
) -> Result<Aim, OutOfMemory>
    requires must { must.now ≡ indexed.now }
    requires acquires { acquires.now ≡ indexed.now }
    requires first { pair.0 < length indexed.now.events }
    requires second { pair.1 < length indexed.now.events }
    ensures { IfOk result (IsAimFor indexed.now pair.0 pair.1) }
{
    let _len = indexed.len();
    let start = joined_row(alloc, indexed, must, acquires, indexed.base(pair.1), None)?;
    let row = Vec::from_slice(alloc, start.as_slice())?;
    let wanted = wanted_row(row, indexed, must, acquires, pair.0, pair.1);
    Ok(Aim {
        first: pair.0,
        second: pair.1,
        start,
        wanted,
    })
}

// The state of the search before its first step.
fn reached_from(alloc: Global, indexed: &Indexed, aim: &Aim) -> Result<Reached, OutOfMemory>
    requires aim { IsAim indexed.now aim.now }
    ensures row { IfOk result (λ reached. length reached.row.items ≡ length indexed.now.threads) }
    ensures at { IfOk result (λ r. HasCome indexed.now aim.now r (start_of indexed.now aim.now)) }
{
    let _len = indexed.len();
    let row = Vec::from_slice(alloc, aim.start.as_slice())?;
    Ok(Reached {
        row,
        last: HashMap::new(alloc),
    })
}

// Whether both events exist and conflict.
fn are_conflicting(indexed: &Indexed, first: u32, second: u32) -> bool
    ensures first { result ≡ true → first < length indexed.now.events }
    ensures second { result ≡ true → second < length indexed.now.events }
    ensures conflict { IsTrue result ↔ IsConflicting indexed.now.events first second }
{
    if first >= indexed.len() {
        return false;
    }
    if second >= indexed.len() {
        return false;
    }
    indexed.conflict(first, second)
}

// The least list in the order of the trace after which the event is ready.
fn ready_list(alloc: Global, indexed: &Indexed, event: u32) -> Result<EventList, OutOfMemory>
    requires event { event < length indexed.now.events }
    ensures needed { IfOk result (AreNeeded indexed.now.events (IsBaseOf indexed.now.events event)) }
    ensures ready { IfOk result (λ list. IsReady indexed.now.events list event) }
    ensures reordering { IfOk result (IsCorrectReordering indexed.now.events) }
{
    let _len = indexed.len();
    let row = needed_row(alloc, indexed, indexed.base(event), None)?;
    let list = list_of(alloc, indexed, row.as_slice())?;
    Ok(list)
}

// The least list in the order of the trace that both fronts need.
fn list_before(
    alloc: Global,
    indexed: &Indexed,
    fronts: (u32, u32),
) -> Result<EventList, OutOfMemory>
    requires first { fronts.0 < length indexed.now.events }
    requires second { fronts.1 < length indexed.now.events }
    ensures needed { IfOk result (AreNeeded indexed.now.events (IsBaseOfPair indexed.now.events fronts.0 fronts.1)) }
    ensures reordering { IfOk result (IsCorrectReordering indexed.now.events) }
{
    let _len = indexed.len();
    let row = row_for(alloc, indexed, fronts.0, fronts.1)?;
    let list = list_of(alloc, indexed, row.as_slice())?;
    Ok(list)
}

// The schedule with the events of the list.
fn schedule_of(alloc: Global, indexed: &Indexed, list: &[u32]) -> Result<Schedule, OutOfMemory>
    requires reordering { IsCorrectReordering indexed.now.events list.now }
    ensures trace { IfOk result (λ s. s.trace ≡ indexed.now) }
    ensures events { IfOk result (λ s. s.events ≡ list.now) }
{
    match Schedule::from_list(alloc, indexed, list) {
        Ok(schedule) => Ok(schedule),
        Err(ListRefusal::OutOfMemory) => Err(OutOfMemory),
        Err(
            ListRefusal::NotReordering {
                position: _,
                cause: _,
            },
        ) => unreachable!(),
    }
}
