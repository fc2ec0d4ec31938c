//! Which events are enabled at a state of a search.
ghost use Rattle.std.specs.Prelude.{◌≡◌, ◌<◌, ◌↔◌, length, IsTrue, None, Option, Some};
ghost use Rattle.std.specs.HashMap.{get};
ghost use Rattle.event_index.specs.Events.{thread_at};
ghost use Rattle.event_index.specs.Lookups.{last_write};
ghost use Rattle.schedule.specs.Refusals.{is_forked};
ghost use Rattle.schedule.specs.Shows.{is_ready};
ghost use Rattle.witness_search.specs.Searches.{is_step};
ghost use Rattle.witness_search.specs.trace_order.Rows.{row_in, row_of, IsWithin};
ghost use Rattle.witness_search.specs.trace_order.Standing.{AtAny, AtRow, MayCome, MayBeDone, is_added, IsLastWrite, HasEnded, IsNextAt};

use crate::trace_order::acquires::Acquires;
use crate::trace_order::holding::is_held;
use crate::trace_order::listing::is_counted;
use crate::trace_order::noting::last_of_start;
use event_index::Indexed;
use rapid_text::Op;
use std::collections::HashMap;

/// The pair that a search is to show. `start` and `wanted` count the events of each thread that the search starts
/// from and wants.
#[derive(Drop)]
pub(crate) struct Aim {
    pub(crate) first: u32,
    pub(crate) second: u32,
    pub(crate) start: Vec<u32>,
    pub(crate) wanted: Vec<u32>,
}

/// The state of a search: the number of events of each thread so far, and the last writes of the variables that were
/// looked up or written since the start.
#[derive(Drop)]
pub(crate) struct Reached {
    pub(crate) row: Vec<u32>,
    pub(crate) last: HashMap<u32, Option<u32>>,
}

/// Whether the event, one of the pair, is the next of its thread, and the thread's fork is counted if there is one.
pub(crate) fn is_ready(indexed: &Indexed, row: &[u32], event: u32) -> bool
    requires event { event < length indexed.now.events }
    requires len { length row.now ≡ length indexed.now.threads }
    ensures { AtRow indexed.now row.now (λ P. result ≡ is_ready indexed.now.events P event) }
{
    let thread = indexed.event(event).thread;
    if indexed.place(event) != row[thread as usize] {
        return false;
    }
    is_forked(indexed, row, thread)
}

// Whether the thread's fork is counted. True also if no event forks the thread.
fn is_forked(indexed: &Indexed, row: &[u32], thread: u32) -> bool
    requires thread { thread < length indexed.now.threads }
    requires len { length row.now ≡ length indexed.now.threads }
    ensures { AtRow indexed.now row.now (λ P. result ≡ is_forked indexed.now.events P thread) }
{
    match indexed.fork_of(thread) {
        Some(fork) => is_counted(row, indexed, fork),
        None => true,
    }
}

/// Whether the event, which is the next of its thread, is wanted, neither of the pair, and enabled.
pub(crate) fn is_step(
    indexed: &Indexed,
    acquires: &Acquires,
    aim: &Aim,
    reached: &Reached,
    thread: u32,
    event: u32,
) -> bool
    requires acquires { acquires.now ≡ indexed.now }
    requires event { event < length indexed.now.events }
    requires named { thread < length indexed.now.threads }
    requires thread { thread_at indexed.now.events event ≡ Some thread }
    requires next { IsNextAt indexed.now reached.now thread event }
    requires start { length aim.now.start.items ≡ length indexed.now.threads }
    requires wanted { length aim.now.wanted.items ≡ length indexed.now.threads }
    requires row { length reached.now.row.items ≡ length indexed.now.threads }
    requires within { IsWithin indexed.now.events (row_of reached.now.row) }
    ensures { AtAny indexed.now aim.now reached.now (λ P. result ≡ is_added indexed.now aim.now event P) }
{
    if !is_counted(aim.wanted.as_slice(), indexed, event) {
        return false;
    }
    if event == aim.first {
        return false;
    }
    if event == aim.second {
        return false;
    }
    may_come(indexed, acquires, aim, reached, thread, event)
}

// Whether the event, which is the next of its thread, is enabled.
fn may_come(
    indexed: &Indexed,
    acquires: &Acquires,
    aim: &Aim,
    reached: &Reached,
    thread: u32,
    event: u32,
) -> bool
    requires acquires { acquires.now ≡ indexed.now }
    requires event { event < length indexed.now.events }
    requires named { thread < length indexed.now.threads }
    requires thread { thread_at indexed.now.events event ≡ Some thread }
    requires next { IsNextAt indexed.now reached.now thread event }
    requires start { length aim.now.start.items ≡ length indexed.now.threads }
    requires row { length reached.now.row.items ≡ length indexed.now.threads }
    requires within { IsWithin indexed.now.events (row_of reached.now.row) }
    ensures { AtAny indexed.now aim.now reached.now (λ P. IsTrue result ↔ MayCome indexed.now event P) }
{
    let _len = indexed.len();
    if !is_forked(indexed, reached.row.as_slice(), thread) {
        return false;
    }
    is_free(indexed, acquires, aim, reached, event)
}

// Whether the event's operation is possible now.
fn is_free(indexed: &Indexed, acquires: &Acquires, aim: &Aim, reached: &Reached, event: u32) -> bool
    requires acquires { acquires.now ≡ indexed.now }
    requires event { event < length indexed.now.events }
    requires start { length aim.now.start.items ≡ length indexed.now.threads }
    requires row { length reached.now.row.items ≡ length indexed.now.threads }
    requires within { IsWithin indexed.now.events (row_of reached.now.row) }
    ensures { AtAny indexed.now aim.now reached.now (λ P. IsTrue result ↔ MayBeDone indexed.now event P) }
{
    let found = indexed.event(event);
    let row = reached.row.as_slice();
    match found.op {
        Op::Read(variable) => {
            last_write(indexed, acquires, aim, reached, variable) == indexed.last_writer(event)
        }
        Op::Acquire(lock) => {
            !is_held(
                acquires.by_lock[lock as usize].as_slice(),
                indexed,
                row,
                lock,
                found.thread,
            )
        }
        Op::Join(thread) => is_ended(indexed, row, thread),
        Op::Write(_) => true,
        Op::Release(_) => true,
        Op::Fork(_) => true,
    }
}

// Whether all events of the thread are counted, and also its fork if it has one.
fn is_ended(indexed: &Indexed, row: &[u32], thread: u32) -> bool
    requires thread { thread < length indexed.now.threads }
    requires len { length row.now ≡ length indexed.now.threads }
    requires within { IsWithin indexed.now.events (row_in row.now) }
    ensures { AtRow indexed.now row.now (λ P. IsTrue result ↔ HasEnded indexed.now thread P) }
{
    if row[thread as usize] as usize != indexed.thread_events(thread).len() {
        return false;
    }
    is_forked(indexed, row, thread)
}

// The last write of the variable.
fn last_write(
    indexed: &Indexed,
    acquires: &Acquires,
    aim: &Aim,
    reached: &Reached,
    variable: u32,
) -> Option<u32>
    requires acquires { acquires.now ≡ indexed.now }
    requires variable { variable < length indexed.now.variables }
    requires start { length aim.now.start.items ≡ length indexed.now.threads }
    ensures { IsLastWrite indexed.now aim.now reached.now variable result }
{
    if let Some(last) = reached.last.get(&variable) {
        return *last;
    }
    last_of_start(indexed, acquires, aim, variable)
}
