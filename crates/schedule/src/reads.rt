//! What a list of events implies for threads, variables and locks, read from its tables.
ghost use Rattle.std.specs.Prelude.{◌≡◌, ◌<◌, ◌&&◌, length, Some};
ghost use Rattle.event_index.specs.Lookups.{last_write};
ghost use Rattle.schedule.specs.Refusals.{is_in, is_forked, same_option, next_of, other_holder, is_ended};
ghost use Rattle.schedule.specs.Reordering.{IsCorrectReordering};
ghost use Rattle.schedule.specs.Tables.{AreTables};
ghost use Rattle.trace_rules.specs.Rules.{IsDisciplined};

use crate::counts::count_at;
use crate::latest::{Key, latest_event};
use crate::tables::Tables;
use event_index::Indexed;

/// Whether the event is in the list.
pub(crate) fn is_in(indexed: &Indexed, tables: &Tables, events: &[u32], event: u32) -> bool
    requires event { event < length indexed.now.events }
    requires tables { AreTables indexed.now.events events.now tables.now }
    requires reordering { IsCorrectReordering indexed.now.events events.now }
    ensures { result ≡ is_in events.now event }
{
    let _ = events;
    let found = indexed.event(event);
    indexed.place(event) < count_at(&tables.counts, found.thread)
}

/// Whether the event is the next one of its thread after the list.
pub(crate) fn is_next(
    indexed: &Indexed,
    tables: &Tables,
    events: &[u32],
    thread: u32,
    event: u32,
) -> bool
    requires thread { thread < length indexed.now.threads }
    requires tables { AreTables indexed.now.events events.now tables.now }
    ensures { result ≡ same_option (next_of indexed.now.events events.now thread) (Some event) }
{
    let _ = events;
    let of_thread = indexed.thread_events(thread);
    match of_thread.get(count_at(&tables.counts, thread) as usize) {
        Some(next) => *next == event,
        None => false,
    }
}

/// Whether the thread's fork is in the list. True also if no event forks the thread.
pub(crate) fn is_forked(indexed: &Indexed, tables: &Tables, events: &[u32], thread: u32) -> bool
    requires thread { thread < length indexed.now.threads }
    requires tables { AreTables indexed.now.events events.now tables.now }
    requires reordering { IsCorrectReordering indexed.now.events events.now }
    ensures { result ≡ is_forked indexed.now.events events.now thread }
{
    match indexed.fork_of(thread) {
        Some(fork) => is_in(indexed, tables, events, fork),
        None => true,
    }
}

/// The last write of the variable in the list, or None.
pub(crate) fn last_write(
    indexed: &Indexed,
    tables: &Tables,
    events: &[u32],
    variable: u32,
) -> Option<u32>
    requires { AreTables indexed.now.events events.now tables.now }
    ensures { result ≡ last_write indexed.now.events variable events.now }
{
    let _ = indexed;
    let _ = events;
    latest_event(&tables.latest, Key::Variable(variable))
}

/// Whether all events of the thread are in the list, and also its fork if it has one.
pub(crate) fn is_ended(indexed: &Indexed, tables: &Tables, events: &[u32], thread: u32) -> bool
    requires thread { thread < length indexed.now.threads }
    requires tables { AreTables indexed.now.events events.now tables.now }
    requires reordering { IsCorrectReordering indexed.now.events events.now }
    ensures { result ≡ is_ended indexed.now.events events.now thread }
{
    let count = count_at(&tables.counts, thread) as usize;
    let all_in = count == indexed.thread_events(thread).len();
    all_in && is_forked(indexed, tables, events, thread)
}

/// The thread other than this one that holds the lock after the list, or None. Only the thread that acquired the lock
/// last can hold it.
pub(crate) fn other_holder(
    indexed: &Indexed,
    tables: &Tables,
    events: &[u32],
    thread: u32,
    lock: u32,
) -> Option<u32>
    requires disciplined { IsDisciplined indexed.now.events }
    requires tables { AreTables indexed.now.events events.now tables.now }
    requires reordering { IsCorrectReordering indexed.now.events events.now }
    ensures { result ≡ other_holder indexed.now.events events.now thread lock }
{
    let _ = events;
    let Some(kept) = tables.latest.get(Key::Lock(lock)) else {
        return None;
    };
    let Some(found) = indexed.get(kept.event) else {
        return None;
    };
    if found.thread == thread {
        return None;
    }
    if kept.depth == 0 {
        return None;
    }
    Some(found.thread)
}
