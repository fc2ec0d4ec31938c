//! A search beyond the order of the trace that makes no list: its state is a count for each thread.
ghost use Rattle.std.specs.Prelude.{◌≡◌, ◌<◌, ◌≤◌, ◌+◌, length, nat_eq, IfSome, OnOk, Ok, None, Option, Some, true, false};
ghost use Rattle.std.specs.HashMap.{get};
ghost use Rattle.event_index.specs.Relations.{IsConflicting};
ghost use Rattle.witness_search.specs.Greedy.{next_step};
ghost use Rattle.witness_search.specs.Searches.{lesser};
ghost use Rattle.witness_search.specs.trace_order.Counting.{IsNoted, IsUp};
ghost use Rattle.witness_search.specs.trace_order.Rows.{row_of, IsWithin};
ghost use Rattle.witness_search.specs.trace_order.Standing.{start_of, HasCome, AtAny, AtRow, does_show_pair, IsLeastStep, step_after, found_within, HasFound, LeavesSteps, HasStepped};

use crate::trace_order::acquires::Acquires;
use crate::trace_order::enabling::{Aim, Reached, is_ready, is_step};
use crate::trace_order::noting::note_reads;
use crate::trace_order::writing::written_by;
use event_index::Indexed;
use rapid_text::OutOfMemory;
use std::collections::HashMap;

/// Takes at most `left` steps until the pair is shown or no step is possible. Returns whether it is shown. If not,
/// `left` falls by the number of steps taken. Fails if memory runs out.
pub(crate) fn search(
    reached: &mut Reached,
    indexed: &Indexed,
    acquires: &Acquires,
    aim: &Aim,
    left: &mut u32,
) -> Result<bool, OutOfMemory>
    requires acquires { acquires.now ≡ indexed.now }
    requires conflict { IsConflicting indexed.now.events aim.now.first aim.now.second }
    requires first { aim.now.first < length indexed.now.events }
    requires second { aim.now.second < length indexed.now.events }
    requires start { length aim.now.start.items ≡ length indexed.now.threads }
    requires wanted { length aim.now.wanted.items ≡ length indexed.now.threads }
    requires row { length reached.old.row.items ≡ length indexed.now.threads }
    requires at { HasCome indexed.now aim.now reached.old (start_of indexed.now aim.now) }
    ensures row { OnOk result (length reached.new.row.items ≡ length indexed.now.threads) }
    ensures shown { result ≡ Ok true → HasFound indexed.now aim.now reached.new left.old }
    ensures none { result ≡ Ok false → found_within indexed.now aim.now left.old ≡ None }
    ensures left { result ≡ Ok false → LeavesSteps indexed.now aim.now left.old left.new }
    ensures fewer { left.new ≤ left.old }
{
    let budget = *left;
    for step in 0..budget {
        if is_shown(indexed, aim, reached.row.as_slice()) {
            return Ok(true);
        }
        note_reads(
            &mut reached.last,
            indexed,
            acquires,
            aim,
            reached.row.as_slice(),
        )?;
        let Some(event) = next_step(indexed, acquires, aim, reached) else {
            *left = budget - step;
            return Ok(false);
        };
        take_step(reached, indexed, event)?;
    }
    *left = 0;
    Ok(is_shown(indexed, aim, reached.row.as_slice()))
}

// Whether the row shows the pair.
fn is_shown(indexed: &Indexed, aim: &Aim, row: &[u32]) -> bool
    requires conflict { IsConflicting indexed.now.events aim.now.first aim.now.second }
    requires first { aim.now.first < length indexed.now.events }
    requires second { aim.now.second < length indexed.now.events }
    requires len { length row.now ≡ length indexed.now.threads }
    ensures { AtRow indexed.now row.now (λ P. result ≡ does_show_pair indexed.now aim.now P) }
{
    if !is_ready(indexed, row, aim.first) {
        return false;
    }
    is_ready(indexed, row, aim.second)
}

// Counts the event, which is the next of its thread, and notes its write if it is one.
fn take_step(reached: &mut Reached, indexed: &Indexed, event: u32) -> Result<(), OutOfMemory>
    requires event { event < length indexed.now.events }
    requires row { length reached.old.row.items ≡ length indexed.now.threads }
    requires within { IsWithin indexed.now.events (row_of reached.old.row) }
    ensures row { length reached.new.row.items ≡ length indexed.now.threads }
    ensures at { OnOk result (HasStepped indexed.now event reached.old reached.new) }
{
    let _len = indexed.len();
    note(&mut reached.last, indexed, event)?;
    count_up(&mut reached.row, indexed, event);
    Ok(())
}

// Notes the event as the last write of its variable, if it is a write.
fn note(
    last: &mut HashMap<u32, Option<u32>>,
    indexed: &Indexed,
    event: u32,
) -> Result<(), OutOfMemory>
    requires event { event < length indexed.now.events }
    ensures { OnOk result (IsNoted indexed.now.events event (get nat_eq last.old) (get nat_eq last.new)) }
{
    if let Some(variable) = written_by(indexed, event) {
        last.insert(variable, Some(event))?;
    }
    Ok(())
}

// Counts the event in its thread.
fn count_up(row: &mut Vec<u32>, indexed: &Indexed, event: u32)
    requires event { event < length indexed.now.events }
    requires len { length row.old.items ≡ length indexed.now.threads }
    requires within { IsWithin indexed.now.events (row_of row.old) }
    ensures len { length row.new.items ≡ length indexed.now.threads }
    ensures up { IsUp indexed.now.events event (row_of row.old) (row_of row.new) }
{
    let thread = indexed.event(event).thread as usize;
    row[thread] += 1;
}

// The least event that the search may take. Only the next event of a thread may be enabled, so it looks at one for
// each thread.
fn next_step(indexed: &Indexed, acquires: &Acquires, aim: &Aim, reached: &Reached) -> Option<u32>
    requires acquires { acquires.now ≡ indexed.now }
    requires start { length aim.now.start.items ≡ length indexed.now.threads }
    requires wanted { length aim.now.wanted.items ≡ length indexed.now.threads }
    requires row { length reached.now.row.items ≡ length indexed.now.threads }
    requires within { IsWithin indexed.now.events (row_of reached.now.row) }
    ensures within { IfSome result (λ e. e < length indexed.now.events) }
    ensures next { AtAny indexed.now aim.now reached.now (λ P. result ≡ step_after indexed.now aim.now P) }
{
    let mut least = None;
    for thread in 0..indexed.threads() {
        least = lesser(least, step_of(indexed, acquires, aim, reached, thread));
    }
    least
}

// The next event of the thread, if the search may take it.
fn step_of(
    indexed: &Indexed,
    acquires: &Acquires,
    aim: &Aim,
    reached: &Reached,
    thread: u32,
) -> Option<u32>
    requires acquires { acquires.now ≡ indexed.now }
    requires thread { thread < length indexed.now.threads }
    requires start { length aim.now.start.items ≡ length indexed.now.threads }
    requires wanted { length aim.now.wanted.items ≡ length indexed.now.threads }
    requires row { length reached.now.row.items ≡ length indexed.now.threads }
    requires within { IsWithin indexed.now.events (row_of reached.now.row) }
    ensures within { IfSome result (λ e. e < length indexed.now.events) }
    ensures least { AtAny indexed.now aim.now reached.now (IsLeastStep indexed.now aim.now thread result) }
{
    let _len = indexed.len();
    let events = indexed.thread_events(thread);
    let count = reached.row[thread as usize] as usize;
    if count >= events.len() {
        return None;
    }
    let event = events[count];
    if is_step(indexed, acquires, aim, reached, thread, event) {
        Some(event)
    } else {
        None
    }
}

// The lesser of the two, or the one that exists.
fn lesser(left: Option<u32>, right: Option<u32>) -> Option<u32>
    ensures { result ≡ lesser left right }
{
    match left {
        None => right,
        Some(x) => match right {
            None => Some(x),
            Some(y) => if y < x { Some(y) } else { Some(x) },
        },
    }
}
