//! The greedy search.
ghost use Rattle.std.specs.Prelude.{◌≡◌, ◌+◌, ◌<◌, ◌≤◌, ◌↔◌, [], ◌∷◌, ◌++◌, length, IsTrue, IfOk, OnOk, OnErr, IfSome, Ok, None, Some, true, false};
ghost use Rattle.std.specs.Option.{is_none};
ghost use Rattle.rapid_text.specs.Appended.{IfFound};
ghost use Rattle.trace_rules.specs.Rules.{IsDisciplined};
ghost use Rattle.event_index.specs.Relations.{IsConflicting};
ghost use Rattle.schedule.specs.Refusals.{refusal_of};
ghost use Rattle.schedule.specs.Reordering.{IsCorrectReordering, IsPrefix};
ghost use Rattle.schedule.specs.Shows.{Shows};
ghost use Rattle.witness_search.specs.Greedy.{next_step, after_steps, first_shown, IsGreedyAnswer, IsGreedyRun};
ghost use Rattle.event_index.specs.Least.{IsLeastOf};
ghost use Rattle.witness_search.specs.Searches.{TellWanted, marked_events, is_step, lesser, IsStepOf};

use crate::wanting::wanted_for;
use event_index::{EventList, Indexed};
use rapid_text::OutOfMemory;
use schedule::{ExtendRefusal, Schedule};
use std::alloc::Global;

// The pair that a search is to show, and for each event of the trace whether the search wants it.
#[derive(Drop)]
pub(crate) struct Aim {
    pub(crate) first: u32,
    pub(crate) second: u32,
    pub(crate) wanted: Vec<bool>,
}

/// Searches for a schedule that shows the pair. From `start` on, each step appends the first event of the trace that
/// is wanted, is enabled, and is neither of the two. There are at most `budget` steps. The search may miss a schedule
/// that exists. Fails if memory runs out.
pub fn greedy(
    alloc: Global,
    indexed: &Indexed,
    start: &Schedule,
    first: u32,
    second: u32,
    budget: u32,
) -> Result<Option<EventList>, OutOfMemory>
    requires trace { start.now.trace ≡ indexed.now }
    // There is no such schedule for two events that do not conflict, or that the trace lacks.
    ensures no_conflict { IfOk result
        (λ found. ¬ IsConflicting indexed.now.events first second → found ≡ None) }
    ensures answer { IfOk result
        (λ found. IsConflicting indexed.now.events first second
        → IsGreedyAnswer indexed.now.events start.now.events first second budget found) }
    // Memory can run out only for two events that conflict.
    ensures refused { OnErr result (IsConflicting indexed.now.events first second) }
    // The result is a correct reordering that shows the pair, begins with `start`, and is at most `budget` events
    // longer.
    ensures reordering { IfOk result
        (λ found. IfSome found (IsCorrectReordering indexed.now.events)) }
    ensures shows { IfFound result (λ list. Shows indexed.now.events list first second) }
    ensures begins { IfOk result (λ found. IfSome found (IsPrefix start.now.events)) }
    ensures budget { IfFound result (λ list. length list ≤ length start.now.events + budget) }
{
    if !conflict(indexed, first, second) {
        return Ok(None);
    }
    let mut left = budget;
    let found = greedy_within(alloc, indexed, start, (first, second), &mut left)?;
    Ok(found)
}

/// The same search, with at most `left` steps, for two events of the trace. If it finds nothing, it subtracts the
/// steps that it took from `left`.
pub(crate) fn greedy_within(
    alloc: Global,
    indexed: &Indexed,
    start: &Schedule,
    pair: (u32, u32),
    left: &mut u32,
) -> Result<Option<EventList>, OutOfMemory>
    requires trace { start.now.trace ≡ indexed.now }
    requires first { pair.0 < length indexed.now.events }
    requires second { pair.1 < length indexed.now.events }
    ensures run { IfOk result (λ found. IsGreedyRun indexed.now.events start.now.events pair.0 pair.1 left.old found left.new) }
    ensures reordering { IfOk result (λ found. IfSome found (IsCorrectReordering indexed.now.events)) }
    ensures shows { IfFound result (λ list. Shows indexed.now.events list pair.0 pair.1) }
{
    let wanted = wanted_for(alloc, indexed, pair.0, pair.1)?;
    let aim = Aim {
        first: pair.0,
        second: pair.1,
        wanted,
    };
    let mut schedule = copied(alloc, indexed, start)?;
    if !search(&mut schedule, indexed, &aim, left)? {
        return Ok(None);
    }
    let events = EventList::of(alloc, schedule.events())?;
    Ok(Some(events))
}

// Whether both events exist and conflict.
fn conflict(indexed: &Indexed, first: u32, second: u32) -> bool
    ensures first { result ≡ true → first < length indexed.now.events }
    ensures second { result ≡ true → second < length indexed.now.events }
    ensures conflict { IsTrue result ↔ IsConflicting indexed.now.events first second }
{
    if first >= indexed.len() {
        return false;
    }
    if second >= indexed.len() {
        return false;
    }
    indexed.conflict(first, second)
}

// A schedule with the same events.
fn copied(alloc: Global, indexed: &Indexed, start: &Schedule) -> Result<Schedule, OutOfMemory>
    requires trace { start.now.trace ≡ indexed.now }
    ensures trace { IfOk result (λ s. s.trace ≡ indexed.now) }
    ensures events { IfOk result (λ s. s.events ≡ start.now.events) }
    ensures disciplined { IsDisciplined indexed.now.events }
{
    let Ok(schedule) = start.prefix(alloc, indexed, start.events().len() as u32) else {
        return Err(OutOfMemory);
    };
    Ok(schedule)
}

// Takes at most `left` steps until the schedule shows the pair, or no step is possible. Returns whether it shows the
// pair. If not, `left` falls by the number of steps taken.
fn search(
    schedule: &mut Schedule,
    indexed: &Indexed,
    aim: &Aim,
    left: &mut u32,
) -> Result<bool, OutOfMemory>
    requires trace { schedule.old.trace ≡ indexed.now }
    requires marks { length aim.now.wanted.items ≡ length indexed.now.events }
    ensures trace { schedule.new.trace ≡ indexed.now }
    ensures shown { result ≡ Ok true
        → first_shown indexed.now.events aim.now.first aim.now.second (marked_events indexed.now.events aim.now.wanted.items) schedule.old.events left.old
        ≡ Some schedule.new.events }
    ensures none { result ≡ Ok false
        → first_shown indexed.now.events aim.now.first aim.now.second (marked_events indexed.now.events aim.now.wanted.items) schedule.old.events left.old
        ≡ None }
    ensures left { result ≡ Ok false
        → length (after_steps indexed.now.events aim.now.first aim.now.second (marked_events indexed.now.events aim.now.wanted.items) schedule.old.events left.old)
        + left.new
        ≡ length schedule.old.events + left.old }
{
    let budget = *left;
    for step in 0..budget {
        if schedule.shows(indexed, aim.first, aim.second) {
            return Ok(true);
        }
        let Some(event) = next_step(schedule, indexed, aim) else {
            *left = budget - step;
            return Ok(false);
        };
        take_step(schedule, indexed, event)?;
    }
    *left = 0;
    Ok(schedule.shows(indexed, aim.first, aim.second))
}

// Appends the event.
fn take_step(schedule: &mut Schedule, indexed: &Indexed, event: u32) -> Result<(), OutOfMemory>
    requires trace { schedule.old.trace ≡ indexed.now }
    requires enabled { refusal_of indexed.now.events schedule.old.events event ≡ None }
    ensures trace { schedule.new.trace ≡ indexed.now }
    ensures events { OnOk result (schedule.new.events ≡ schedule.old.events ++ event ∷ []) }
{
    match schedule.extend(indexed, event) {
        Ok(()) => Ok(()),
        Err(ExtendRefusal::OutOfMemory) => Err(OutOfMemory),
        Err(ExtendRefusal::Disabled(_)) => unreachable!(),
    }
}

// The least event that the search may take. Only the next event of a thread may be enabled, so it looks at one for
// each thread.
fn next_step(schedule: &Schedule, indexed: &Indexed, aim: &Aim) -> Option<u32>
    requires trace { schedule.now.trace ≡ indexed.now }
    requires marks { length aim.now.wanted.items ≡ length indexed.now.events }
    ensures { result
        ≡ next_step indexed.now.events aim.now.first aim.now.second (marked_events indexed.now.events aim.now.wanted.items) schedule.now.events }
{
    let mut least = None;
    for thread in 0..indexed.threads() {
        least = lesser(least, step_of(schedule, indexed, aim, thread));
    }
    least
}

// The next event of the thread, if the search may take it.
fn step_of(schedule: &Schedule, indexed: &Indexed, aim: &Aim, thread: u32) -> Option<u32>
    requires trace { schedule.now.trace ≡ indexed.now }
    requires marks { length aim.now.wanted.items ≡ length indexed.now.events }
    requires thread { thread < length indexed.now.threads }
    ensures { IsLeastOf (IsStepOf indexed.now.events aim.now.first aim.now.second aim.now.wanted.items schedule.now.events thread) result }
{
    let _reordering = schedule.events();
    let Some(event) = schedule.next_of(indexed, thread) else {
        return None;
    };
    if is_step(schedule, indexed, aim, event) {
        Some(event)
    } else {
        None
    }
}

// Whether the event is wanted, neither of the pair, and enabled.
fn is_step(schedule: &Schedule, indexed: &Indexed, aim: &Aim, event: u32) -> bool
    requires trace { schedule.now.trace ≡ indexed.now }
    requires marks { length aim.now.wanted.items ≡ length indexed.now.events }
    requires event { event < length indexed.now.events }
    ensures { result
        ≡ is_step indexed.now.events aim.now.first aim.now.second aim.now.wanted.items schedule.now.events event }
{
    aim.wanted[event as usize]
        && event != aim.first
        && event != aim.second
        && is_enabled(indexed, schedule, event)
}

// Whether the event may come next.
fn is_enabled(indexed: &Indexed, schedule: &Schedule, event: u32) -> bool
    requires { schedule.now.trace ≡ indexed.now }
    ensures { result ≡ is_none (refusal_of indexed.now.events schedule.now.events event) }
{
    schedule.enabled(indexed, event).is_ok()
}

// The lesser of the two, or the one that exists.
fn lesser(left: Option<u32>, right: Option<u32>) -> Option<u32>
    ensures { result ≡ lesser left right }
{
    match left {
        None => right,
        Some(x) => match right {
            None => Some(x),
            Some(y) => if y < x { Some(y) } else { Some(x) },
        },
    }
}
