//! Searches for a schedule that shows two requests. Each schedule is judged, so the search is trusted for nothing.
ghost use Rattle.std.specs.Prelude.{◌≡◌, ◌<◌, [], ◌∷◌, All, IfOk, IfSome, length};
ghost use Rattle.rapid_text.specs.Appended.{IfFound};
ghost use Rattle.schedule.specs.Scheduled.{recorded};
ghost use Rattle.lock_waits.specs.Waits.{ShowsDeadlock};

use crate::needing::needs_of;
use event_index::Indexed;
use lock_waits::shows;
use must_order::Analysis;
use rapid_text::{Op, OutOfMemory};
use schedule::{ExtendRefusal, Schedule};
use std::alloc::Global;

/// A schedule after which the two requests are next and wait for each other, if the search finds one. It tries the
/// order of the trace first. Then it begins a section that stays open only after other threads' sections of its lock.
/// For each step it adds the number of threads to `work`.
pub(crate) fn schedule_of(
    alloc: Global,
    analysis: &Analysis<'_>,
    first: u32,
    second: u32,
    work: &mut u64,
) -> Result<Option<Schedule>, OutOfMemory>
    requires first { first < length analysis.now.events }
    requires second { second < length analysis.now.events }
    ensures shows { IfFound result (λ s. ShowsDeadlock analysis.now.events s.events (first ∷ second ∷ [])) }
    ensures trace { IfFound result (λ s. s.trace ≡ analysis.now) }
{
    let ordered = searched(alloc, analysis, first, second, true, work)?;
    if ordered.is_some() {
        return Ok(ordered);
    }
    searched(alloc, analysis, first, second, false, work)
}

// The same with one order.
fn searched(
    alloc: Global,
    analysis: &Analysis<'_>,
    first: u32,
    second: u32,
    in_order: bool,
    work: &mut u64,
) -> Result<Option<Schedule>, OutOfMemory>
    requires first { first < length analysis.now.events }
    requires second { second < length analysis.now.events }
    ensures shows { IfFound result (λ s. ShowsDeadlock analysis.now.events s.events (first ∷ second ∷ [])) }
    ensures trace { IfFound result (λ s. s.trace ≡ analysis.now) }
{
    let requests = [first, second];
    let indexed = analysis.indexed();
    match needs_of(alloc, indexed, analysis.must(), &requests, in_order)? {
        None => Ok(None),
        Some(row) => {
            let schedule = walked(alloc, indexed, row.as_slice(), in_order, work)?;
            Ok(if_shown(analysis, schedule, first, second))
        }
    }
}

// The schedule, if it shows the two requests.
fn if_shown(
    analysis: &Analysis<'_>,
    schedule: Schedule,
    first: u32,
    second: u32,
) -> Option<Schedule>
    requires trace { schedule.trace ≡ analysis.now }
    ensures shows { IfSome result (λ s. ShowsDeadlock analysis.now.events s.events (first ∷ second ∷ [])) }
    ensures trace { IfSome result (λ s. s.trace ≡ analysis.now) }
{
    if shows(analysis, &schedule, &[first, second]) {
        Some(schedule)
    } else {
        None
    }
}

// A schedule of these first events of each thread, as far as one was found.
fn walked(
    alloc: Global,
    indexed: &Indexed,
    row: &[u32],
    in_order: bool,
    work: &mut u64,
) -> Result<Schedule, OutOfMemory>
    requires row { length row.now ≡ length indexed.now.threads }
    ensures { IfOk result (λ s. s.trace ≡ indexed.now) }
{
    let mut schedule = Schedule::empty(alloc, indexed)?;
    let mut counts = vec![in alloc; 0u32; row.len()]?;
    let mut releases = releases_in(alloc, indexed, row)?;
    for _step in 0..indexed.len() {
        *work = work.saturating_add(u64::from(indexed.threads()));
        let Some(event) = next_event(
            indexed,
            &schedule,
            row,
            counts.as_slice(),
            releases.as_slice(),
            in_order,
        ) else {
            return Ok(schedule);
        };
        match schedule.extend(indexed, event) {
            Ok(()) => note(&mut counts, &mut releases, indexed, event),
            Err(ExtendRefusal::Disabled(_)) => return Ok(schedule),
            Err(ExtendRefusal::OutOfMemory) => return Err(OutOfMemory),
        }
    }
    Ok(schedule)
}

// For each lock, how many of these events release it.
fn releases_in(alloc: Global, indexed: &Indexed, row: &[u32]) -> Result<Vec<u32>, OutOfMemory>
    requires row { length row.now ≡ length indexed.now.threads }
{
    let mut releases = vec![in alloc; 0u32; indexed.locks() as usize]?;
    for thread in 0..indexed.threads() {
        let events = indexed.thread_events(thread);
        for place in 0..row[thread as usize] as usize {
            if let Some(event) = events.get(place) {
                if let Op::Release(lock) = indexed.event(*event).op {
                    if let Some(count) = releases.as_mut_slice().get_mut(lock as usize) {
                        *count = count.saturating_add(1);
                    }
                }
            }
        }
    }
    Ok(releases)
}

// The least event that comes next in its thread and may come. In the order of the trace it is the least event, and
// `extend` judges it.
fn next_event(
    indexed: &Indexed,
    schedule: &Schedule,
    row: &[u32],
    counts: &[u32],
    releases: &[u32],
    in_order: bool,
) -> Option<u32>
    requires trace { schedule.now.trace ≡ indexed.now }
    ensures { IfSome result (λ e. e < length indexed.now.events) }
{
    let mut least = None;
    for thread in 0..indexed.threads() {
        if let Some(event) = event_at(indexed, row, counts, thread) {
            if is_less(event, least)
                && (in_order || may_come(indexed, schedule, row, releases, event))
            {
                least = Some(event);
            }
        }
    }
    least
}

fn is_less(event: u32, least: Option<u32>) -> bool {
    match least {
        Some(least) => event < least,
        None => true,
    }
}

// The next of these events in the thread.
fn event_at(indexed: &Indexed, row: &[u32], counts: &[u32], thread: u32) -> Option<u32>
    requires thread { thread < length indexed.now.threads }
    ensures { IfSome result (λ e. e < length indexed.now.events) }
{
    let count = *counts.get(thread as usize)?;
    if count >= *row.get(thread as usize)? {
        return None;
    }
    let event = *indexed.thread_events(thread).get(count as usize)?;
    Some(event)
}

// Whether the event may come next. The acquire of a section that stays open comes after all releases of its lock.
fn may_come(
    indexed: &Indexed,
    schedule: &Schedule,
    row: &[u32],
    releases: &[u32],
    event: u32,
) -> bool
    requires trace { schedule.now.trace ≡ indexed.now }
    requires event { event < length indexed.now.events }
{
    if schedule.enabled(indexed, event).is_err() {
        return false;
    }
    let Op::Acquire(lock) = indexed.event(event).op else {
        return true;
    };
    if ends_within(indexed, row, event) {
        return true;
    }
    match releases.get(lock as usize) {
        Some(left) => *left == 0,
        None => true,
    }
}

// Whether the end of the section that the event begins is one of these events.
fn ends_within(indexed: &Indexed, row: &[u32], event: u32) -> bool
    requires event { event < length indexed.now.events }
{
    let Some(end) = indexed.section(event) else {
        return false;
    };
    match row.get(indexed.event(event).thread as usize) {
        Some(count) => indexed.place(end) < *count,
        None => false,
    }
}

// Notes that the event has come.
fn note(counts: &mut Vec<u32>, releases: &mut Vec<u32>, indexed: &Indexed, event: u32)
    requires event { event < length indexed.now.events }
{
    let found = indexed.event(event);
    if let Some(count) = counts.as_mut_slice().get_mut(found.thread as usize) {
        *count = count.saturating_add(1);
    }
    if let Op::Release(lock) = found.op {
        if let Some(count) = releases.as_mut_slice().get_mut(lock as usize) {
            *count = count.saturating_sub(1);
        }
    }
}
