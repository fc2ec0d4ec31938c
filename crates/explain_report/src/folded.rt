//! Prints the first runs of a schedule as one block.
ghost use Rattle.std.specs.Prelude.{◌≡◌, IfOk, length, take};
ghost use Rattle.explain_report.specs.RunTexts.{block_line, block_text, counted, end_of, tallied, tallies_after, tallies_of, tally_line, tally_lines};
ghost use Rattle.rapid_text.specs.Appended.{Appended};

use crate::event_lines::{append_line, thread_of};
use crate::pieces::{append_count, append_number, append_words};
use crate::runs::Run;
use event_index::Indexed;
use rapid_text::OutOfMemory;
use std::alloc::Global;

/// A thread's number of events, and its last event.
#[derive(Clone, Copy)]
pub(crate) struct Tally {
    count: u32,
    last: u32,
}

/// Appends the first `size` runs as one block, if there are any: for each thread, its number of events in them and
/// its last event.
pub(crate) fn append_block(
    out: &mut Vec<u8>,
    indexed: &Indexed,
    list: &[u32],
    runs: &[Run],
    size: usize,
) -> Result<(), OutOfMemory>
    ensures { Appended result out.old out.new (block_text indexed.now list.now runs.now size) }
{
    if size == 0 {
        return Ok(());
    }
    let end = end_of(runs, size);
    append_block_line(out, size as u64, end)?;
    append_tallies(out, indexed, first_of(list, end))?;
    Ok(())
}

/// The index after the first `size` runs.
fn end_of(runs: &[Run], size: usize) -> u32
    ensures { result ≡ end_of runs.now size }
{
    match runs.get(size.saturating_sub(1)) {
        Some(run) => run.end,
        None => 0,
    }
}

/// The first `end` events of the list.
fn first_of(list: &[u32], end: u32) -> &[u32]
    ensures { result.now ≡ take end list.now }
{
    if (end as usize) < list.len() {
        &list[..end as usize]
    } else {
        list
    }
}

/// Appends the line of the block, which has this many runs and events.
fn append_block_line(out: &mut Vec<u8>, size: u64, events: u32) -> Result<(), OutOfMemory>
    ensures { Appended result out.old out.new (block_line size events) }
{
    append_words(out, b"runs 1 to ")?;
    append_number(out, size)?;
    append_words(out, b", ")?;
    append_count(out, u64::from(events), b"event")?;
    append_words(out, b"\n")?;
    Ok(())
}

/// Appends for each thread its number of events in the list, and its last event there.
fn append_tallies(out: &mut Vec<u8>, indexed: &Indexed, list: &[u32]) -> Result<(), OutOfMemory>
    ensures { Appended result out.old out.new (tally_lines indexed.now (tallies_of indexed.now list.now)) }
{
    match tallies_of(*out.allocator(), indexed, list) {
        Ok(tallies) => append_each_tally(out, indexed, tallies.as_slice()),
        Err(refused) => Err(refused),
    }
}

/// For each thread, its number of events in the list, and its last event there.
fn tallies_of(alloc: Global, indexed: &Indexed, list: &[u32]) -> Result<Vec<Tally>, OutOfMemory>
    ensures { IfOk result (λ tallies. tallies.items ≡ tallies_of indexed.now list.now) }
{
    let none = Tally { count: 0, last: 0 };
    let mut tallies = vec![in alloc; none; indexed.threads() as usize]?;
    count_events(&mut tallies, indexed, list);
    Ok(tallies)
}

/// Counts the events for their threads.
fn count_events(tallies: &mut Vec<Tally>, indexed: &Indexed, list: &[u32])
    requires { length tallies.old.items ≡ length indexed.now.threads }
    ensures { tallies.new.items ≡ tallies_after indexed.now.events tallies.old.items list.now }
{
    for event in list {
        count_event(tallies, indexed, *event);
    }
}

/// Counts the event for its thread, and records it as the thread's last one.
fn count_event(tallies: &mut Vec<Tally>, indexed: &Indexed, event: u32)
    requires { length tallies.old.items ≡ length indexed.now.threads }
    ensures tallied { tallies.new.items ≡ tallied indexed.now.events tallies.old.items event }
    ensures len { length tallies.new.items ≡ length tallies.old.items }
{
    let Some(thread) = thread_of(indexed, event) else {
        return;
    };
    let at = thread as usize;
    tallies[at] = counted(tallies[at], event);
}

/// The tally with one event more, which is the last.
fn counted(tally: Tally, event: u32) -> Tally
    ensures { result ≡ counted tally event }
{
    Tally {
        count: tally.count.saturating_add(1),
        last: event,
    }
}

/// Appends the line of each tally.
fn append_each_tally(
    out: &mut Vec<u8>,
    indexed: &Indexed,
    tallies: &[Tally],
) -> Result<(), OutOfMemory>
    ensures { Appended result out.old out.new (tally_lines indexed.now tallies.now) }
{
    for tally in tallies {
        append_tally(out, indexed, *tally)?;
    }
    Ok(())
}

/// Appends a thread's number of events and its last event; nothing if the number is 0.
fn append_tally(out: &mut Vec<u8>, indexed: &Indexed, tally: Tally) -> Result<(), OutOfMemory>
    ensures { Appended result out.old out.new (tally_line indexed.now tally) }
{
    if tally.count == 0 {
        return Ok(());
    }
    append_words(out, b"  ")?;
    append_count(out, u64::from(tally.count), b"event")?;
    append_words(out, b" to ")?;
    append_line(out, indexed, tally.last)?;
    Ok(())
}
