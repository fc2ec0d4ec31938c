//! Computes and prints why SHB keeps one event before another: a chain of events, built backwards from its end.
ghost use Rattle.std.specs.Prelude.{◌≡◌, ◌++◌, ℕ, List, OnOk};

use crate::chains::{append_later, append_written};
use crate::event_lines::{append_line, op_of, thread_of};
use crate::pieces::append_words;
use crate::waiting::words_between;
use event_index::Indexed;
use must_order::Analysis;
use rapid_text::{Op, OutOfMemory};
use std::alloc::Global;

/// Events from the first to the second, each with an edge of SHB to the next. They are complete if SHB keeps the
/// first before the base of the second; otherwise there are fewer.
pub fn shb_chain(
    alloc: Global,
    analysis: &Analysis<'_>,
    first: u32,
    second: u32,
) -> Result<Vec<u32>, OutOfMemory> {
    let indexed = analysis.indexed();
    let releases = releases_before(alloc, indexed)?;
    let mut events = Vec::new(alloc);
    events.push(second)?;
    let mut next = base_of(indexed, second);
    for _step in 0..indexed.len() {
        let Some(event) = next else { break };
        events.push(event)?;
        if event == first {
            break;
        }
        next = step_back(analysis, releases.as_slice(), first, event);
    }
    events.reverse();
    Ok(events)
}

pub(crate) fn base_of(indexed: &Indexed, event: u32) -> Option<u32> {
    if event >= indexed.len() {
        return None;
    }
    indexed.base(event)
}

/// The last release of its lock before each acquire.
fn releases_before(alloc: Global, indexed: &Indexed) -> Result<Vec<Option<u32>>, OutOfMemory> {
    let locks = indexed.trace().raw().locks() as usize;
    let mut last = vec![in alloc; None; locks]?;
    let mut before = Vec::new(alloc);
    for event in 0..indexed.len() {
        match op_of(indexed, event) {
            Some(Op::Acquire(lock)) => before.push(last.get(lock as usize).copied().flatten())?,
            Some(Op::Release(lock)) => {
                before.push(None)?;
                if let Some(kept) = last.get_mut(lock as usize) {
                    *kept = Some(event);
                }
            }
            _ => before.push(None)?,
        }
    }
    Ok(before)
}

/// The event directly before this one that is the first event, or comes after it in SHB.
fn step_back(
    analysis: &Analysis<'_>,
    releases: &[Option<u32>],
    first: u32,
    event: u32,
) -> Option<u32> {
    let indexed = analysis.indexed();
    let release = releases.get(event as usize).copied().flatten();
    is_after(analysis, first, base_of(indexed, event))
        .or(is_after(analysis, first, source_of(indexed, event)))
        .or(is_after(analysis, first, release))
}

/// The write that the event reads, or the end of the thread that it joins.
pub(crate) fn source_of(indexed: &Indexed, event: u32) -> Option<u32> {
    match op_of(indexed, event) {
        Some(Op::Read(_)) => writer_of(indexed, event),
        Some(Op::Join(thread)) => end_of(indexed, thread),
        _ => None,
    }
}

fn writer_of(indexed: &Indexed, event: u32) -> Option<u32> {
    if event >= indexed.len() {
        return None;
    }
    indexed.last_writer(event)
}

fn end_of(indexed: &Indexed, thread: u32) -> Option<u32> {
    if thread >= indexed.trace().raw().threads() {
        return None;
    }
    let last = indexed.thread_events(thread).last().copied();
    last.or(indexed.fork_of(thread))
}

/// The event, if it is the first one or comes after it in SHB.
fn is_after(analysis: &Analysis<'_>, first: u32, event: Option<u32>) -> Option<u32> {
    let indexed = analysis.indexed();
    let event = event?;
    if first >= indexed.len() {
        return None;
    }
    if event >= indexed.len() {
        return None;
    }
    if analysis.clocks().ordered(first, event) {
        return Some(event);
    }
    None
}

/// Appends the chain. Events of one thread in a row are printed as one step.
pub(crate) fn append_shb_chain(
    out: &mut Vec<u8>,
    analysis: &Analysis<'_>,
    events: &[u32],
) -> Result<(), OutOfMemory>
    ensures { OnOk result ((text : List ℕ) × (out.new.items ≡ out.old.items ++ text)) }
{
    let mut text = Vec::new(*out.allocator());
    append_links(&mut text, analysis, events)?;
    out.extend_from_slice(text.as_slice())?;
    Ok(())
}

/// Appends the events of the chain, and the reason between two events of different threads.
fn append_links(
    out: &mut Vec<u8>,
    analysis: &Analysis<'_>,
    events: &[u32],
) -> Result<(), OutOfMemory> {
    let indexed = analysis.indexed();
    let mut before: Option<u32> = None;
    let mut later: Option<u32> = None;
    for event in events {
        let is_later = match before {
            Some(other) => thread_of(indexed, other) == thread_of(indexed, *event),
            None => false,
        };
        if is_later {
            later = Some(*event);
        } else {
            append_later(out, indexed, later, 0)?;
            later = None;
            if let Some(other) = before {
                append_link(out, analysis, other, *event)?;
            }
            append_line(out, indexed, *event)?;
        }
        before = Some(*event);
    }
    append_later(out, indexed, later, 0)
}

/// Appends why the first event comes before the second, which is of another thread.
fn append_link(
    out: &mut Vec<u8>,
    analysis: &Analysis<'_>,
    first: u32,
    second: u32,
) -> Result<(), OutOfMemory> {
    let indexed = analysis.indexed();
    if let (Some(Op::Write(_)), Some(Op::Read(_))) = (
        op_of(indexed, first),
        op_of(indexed, second),
    ) {
        return append_written(out, analysis, first, second);
    }
    append_words(out, b"  ")?;
    append_words(out, words_between(indexed, first, second))?;
    append_words(out, b"\n")
}
