//! Finds the later event that waits for an event of a schedule, and the reason.
ghost use Rattle.std.specs.Prelude.{◌≡◌, ◌<◌, IfOk, length};
ghost use Rattle.event_index.specs.Relations.{is_access};
ghost use Rattle.rapid_text.specs.Operations.{is_acquire, is_fork, is_join, is_write};
ghost use Rattle.explain_report.specs.Waiting.{AreWaiters, fork_join_words, fork_words, is_awaited, is_handed, is_waiting, join_words, words_between, write_words};

use crate::event_lines::{op_of, thread_of};
use event_index::Indexed;
use rapid_text::{Event, Op, OutOfMemory};
use std::alloc::Global;
use witness_search::trace_order::needs_of;

/// For each index of the list, the first later event of another thread that waits for the event there.
pub fn waiters_of(
    alloc: Global,
    indexed: &Indexed,
    list: &[u32],
) -> Result<Vec<Option<u32>>, OutOfMemory>
    // Each is a later event of the list, and waits for the event there. That it is the first one is only tested.
    ensures { IfOk result (λ waiters. AreWaiters indexed.now.events list.now waiters.items) }
{
    let mut waiters = vec![in alloc; None; list.len()]?;
    note_found(alloc, &mut waiters, indexed, list)?;
    Ok(waiters)
}

/// Computes what each event of the list waits for, and records it.
fn note_found(
    alloc: Global,
    waiters: &mut Vec<Option<u32>>,
    indexed: &Indexed,
    list: &[u32],
) -> Result<(), OutOfMemory>
    requires { AreWaiters indexed.now.events list.now waiters.old.items }
    ensures { AreWaiters indexed.now.events list.now waiters.new.items }
{
    match needs_of(alloc, indexed, list) {
        Ok(all) => {
            note_all(waiters, indexed, list, all.as_slice());
            Ok(())
        }
        Err(refused) => Err(refused),
    }
}

/// Records what each event of the list waits for.
fn note_all(waiters: &mut Vec<Option<u32>>, indexed: &Indexed, list: &[u32], all: &[Vec<u32>])
    requires { AreWaiters indexed.now.events list.now waiters.old.items }
    ensures { AreWaiters indexed.now.events list.now waiters.new.items }
{
    for at in 0..list.len() {
        let Some(needs) = all.get(at) else {
            return;
        };
        note_needs(waiters, indexed, list, needs.as_slice(), at);
    }
}

/// Records that the event at index `at` waits for those at these indices.
fn note_needs(
    waiters: &mut Vec<Option<u32>>,
    indexed: &Indexed,
    list: &[u32],
    needs: &[u32],
    at: usize,
)
    requires waiters { AreWaiters indexed.now.events list.now waiters.old.items }
    requires within { at < length list.now }
    ensures { AreWaiters indexed.now.events list.now waiters.new.items }
{
    for need in needs {
        note_waiter(waiters, indexed, list, *need as usize, at);
    }
}

/// Records that the event at index `at` waits for the one at this index, unless an earlier one does.
fn note_waiter(
    waiters: &mut Vec<Option<u32>>,
    indexed: &Indexed,
    list: &[u32],
    place: usize,
    at: usize,
)
    requires waiters { AreWaiters indexed.now.events list.now waiters.old.items }
    requires within { at < length list.now }
    ensures { AreWaiters indexed.now.events list.now waiters.new.items }
{
    if place >= at || !is_waiting(indexed, list[place], list[at]) {
        return;
    }
    if waiters[place].is_none() {
        waiters[place] = Some(list[at]);
    }
}

/// Whether the second event is of another thread, and may wait for the first.
fn is_waiting(indexed: &Indexed, first: u32, second: u32) -> bool
    ensures { result ≡ is_waiting indexed.now.events first second }
{
    match (indexed.get(first), indexed.get(second)) {
        (Some(first), Some(second)) => is_awaited(first, second),
        _ => false,
    }
}

fn is_awaited(first: Event, second: Event) -> bool
    ensures { result ≡ is_awaited first second }
{
    first.thread != second.thread
        && (forks(first.op, second.thread)
            || joins(second.op, first.thread)
            || is_handed(first.op, second.op))
}

/// Whether the second operation may wait for the first, no matter in which threads.
fn is_handed(first: Op, second: Op) -> bool
    ensures { result ≡ is_handed first second }
{
    match first {
        Op::Read(variable) => writes(second, variable),
        Op::Write(variable) => accesses(second, variable),
        Op::Release(lock) => acquires(second, lock),
        Op::Fork(thread) => joins(second, thread),
        Op::Acquire(_) | Op::Join(_) => false,
    }
}

fn writes(op: Op, variable: u32) -> bool
    ensures { result ≡ is_write variable op }
{
    matches!(op, Op::Write(written) if written == variable)
}

fn accesses(op: Op, variable: u32) -> bool
    ensures { result ≡ is_access variable op }
{
    match op {
        Op::Read(accessed) | Op::Write(accessed) => accessed == variable,
        Op::Acquire(_) | Op::Release(_) | Op::Fork(_) | Op::Join(_) => false,
    }
}

fn acquires(op: Op, lock: u32) -> bool
    ensures { result ≡ is_acquire lock op }
{
    matches!(op, Op::Acquire(taken) if taken == lock)
}

fn forks(op: Op, thread: u32) -> bool
    ensures { result ≡ is_fork thread op }
{
    matches!(op, Op::Fork(forked) if forked == thread)
}

fn joins(op: Op, thread: u32) -> bool
    ensures { result ≡ is_join thread op }
{
    matches!(op, Op::Join(joined) if joined == thread)
}

/// Why the second event waits for the first, as the phrase that is printed between the two.
pub fn words_between(indexed: &Indexed, first: u32, second: u32) -> &'static [u8]
    ensures { result.now ≡ words_between indexed.now.events first second }
{
    let other = op_of(indexed, second);
    match op_of(indexed, first) {
        Some(Op::Fork(forked)) => fork_words(forked, thread_of(indexed, second), other),
        Some(Op::Write(_)) => write_words(other),
        Some(Op::Read(_)) => join_words(other, b"reads before"),
        _ => join_words(other, b"lets the lock go that is taken by"),
    }
}

/// The phrase between a fork and an operation of this thread.
fn fork_words(forked: u32, thread: Option<u32>, other: Option<Op>) -> &'static [u8]
    ensures { result.now ≡ fork_words forked thread other }
{
    match other {
        Some(Op::Join(joined)) => fork_join_words(forked, joined, thread),
        _ => b"begins the thread of",
    }
}

/// The phrase between a fork and a join by this thread.
fn fork_join_words(forked: u32, joined: u32, thread: Option<u32>) -> &'static [u8]
    ensures { result.now ≡ fork_join_words forked joined thread }
{
    if thread == Some(forked) && forked != joined {
        b"begins the thread of"
    } else {
        b"forks the thread that is joined by"
    }
}

/// The phrase between a write and an operation.
fn write_words(other: Option<Op>) -> &'static [u8]
    ensures { result.now ≡ write_words other }
{
    match other {
        Some(Op::Join(_)) => b"ends the thread that is joined by",
        Some(Op::Read(_)) => b"is read by",
        _ => b"writes before",
    }
}

/// These words between another operation and this one, unless it is a join.
fn join_words(other: Option<Op>, words: &'static [u8]) -> &'static [u8]
    ensures { result.now ≡ join_words other words.now }
{
    match other {
        Some(Op::Join(_)) => b"ends the thread that is joined by",
        _ => words,
    }
}
