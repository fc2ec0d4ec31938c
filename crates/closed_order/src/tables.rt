//! Which events of a thread write a variable, acquire a lock, or read what a write wrote: sorted lists to look into.
//! What is found there is only tried: `contradicts` judges each step.
use event_index::Indexed;
use rapid_text::{Op, OutOfMemory};
use std::alloc::Global;

// An event of a thread under a key: a variable, a lock, or the event that it reads.
#[derive(Clone, Copy, PartialEq, Eq, PartialOrd, Ord)]
pub(crate) struct Spot {
    key: u32,
    thread: u32,
    place: u32,
    event: u32,
}

/// The lists of a trace, made once for all requests.
#[derive(Drop)]
pub struct Tables {
    pub(crate) writes: Vec<Spot>,
    // Acquires that are no inner ones of a nest.
    pub(crate) acquires: Vec<Spot>,
    // Those of them whose section has no end.
    pub(crate) endless: Vec<u32>,
    // The key is the write that the read sees.
    pub(crate) readers: Vec<Spot>,
    // Reads that see no write, by their variable.
    pub(crate) initial: Vec<Spot>,
}

impl Tables {
    /// Makes the lists of a trace.
    pub fn of(alloc: Global, indexed: &Indexed) -> Result<Tables, OutOfMemory> {
        let mut tables = Tables {
            writes: Vec::new(alloc),
            acquires: Vec::new(alloc),
            endless: Vec::new(alloc),
            readers: Vec::new(alloc),
            initial: Vec::new(alloc),
        };
        let mut free_after = Vec::new(alloc);
        for event in 0..indexed.len() {
            tables.add(indexed, event, &mut free_after)?;
        }
        tables.writes.sort_unstable();
        tables.acquires.sort_unstable();
        tables.readers.sort_unstable();
        tables.initial.sort_unstable();
        Ok(tables)
    }

    // Lists the event. `free_after` has, for each lock, the end of its last outer section.
    fn add(
        &mut self,
        indexed: &Indexed,
        event: u32,
        free_after: &mut Vec<u32>,
    ) -> Result<(), OutOfMemory> {
        let Some(found) = indexed.get(event) else {
            return Ok(());
        };
        match found.op {
            Op::Write(variable) => self.writes.push(spot_of(indexed, variable, event))?,
            Op::Read(variable) => match writer_of(indexed, event) {
                Some(writer) => self.readers.push(spot_of(indexed, writer, event))?,
                None => self.initial.push(spot_of(indexed, variable, event))?,
            },
            Op::Acquire(lock) => self.add_acquire(indexed, event, lock, free_after)?,
            _ => {}
        }
        Ok(())
    }

    // Lists an acquire, if it begins a section of the lock that is in no other one.
    fn add_acquire(
        &mut self,
        indexed: &Indexed,
        event: u32,
        lock: u32,
        free_after: &mut Vec<u32>,
    ) -> Result<(), OutOfMemory> {
        for _ in free_after.len()..lock as usize + 1 {
            free_after.push(0)?;
        }
        let end = end_of(indexed, event);
        if let Some(free) = free_after.get_mut(lock as usize) {
            if *free > event {
                return Ok(());
            }
            *free = end.unwrap_or(u32::MAX);
        }
        if end.is_none() {
            self.endless.push(event)?;
        }
        self.acquires.push(spot_of(indexed, lock, event))?;
        Ok(())
    }
}

fn spot_of(indexed: &Indexed, key: u32, event: u32) -> Spot {
    Spot {
        key,
        thread: thread_of(indexed, event),
        place: place_of(indexed, event),
        event,
    }
}

// How many of the list's spots come before this place of the thread.
fn count_before(spots: &[Spot], key: u32, thread: u32, place: u32) -> usize {
    let bound = Spot {
        key,
        thread,
        place,
        event: 0,
    };
    spots.partition_point(|spot| *spot < bound)
}

fn event_if(spot: Option<&Spot>, key: u32, thread: u32) -> Option<u32> {
    let spot = spot?;
    if spot.key == key && spot.thread == thread {
        Some(spot.event)
    } else {
        None
    }
}

// The last event under the key among the first `count` ones of the thread.
pub(crate) fn last_below(spots: &[Spot], key: u32, thread: u32, count: u32) -> Option<u32> {
    let at = count_before(spots, key, thread, count);
    event_if(spots.get(at.checked_sub(1)?), key, thread)
}

// The events under the key among the first `count` ones of the thread.
pub(crate) fn those_below<'a>(spots: &'a [Spot], key: u32, thread: u32, count: u32) -> &'a [Spot] {
    let from = count_before(spots, key, thread, 0);
    let to = count_before(spots, key, thread, count);
    match spots.get(from..to) {
        Some(part) => part,
        None => &[],
    }
}

pub(crate) fn event_of(spot: &Spot) -> u32 {
    spot.event
}

// The place of the event in its thread, 0 if there is no such event.
pub(crate) fn place_of(indexed: &Indexed, event: u32) -> u32 {
    if event < indexed.len() {
        indexed.place(event)
    } else {
        0
    }
}

// The thread of the event, 0 if there is no such event.
pub(crate) fn thread_of(indexed: &Indexed, event: u32) -> u32 {
    match indexed.get(event) {
        Some(found) => found.thread,
        None => 0,
    }
}

// The event at this place of the thread.
pub(crate) fn event_at(indexed: &Indexed, thread: u32, place: u32) -> Option<u32> {
    if thread >= indexed.threads() {
        return None;
    }
    indexed.thread_events(thread).get(place as usize).copied()
}

// The write that the read sees.
pub(crate) fn writer_of(indexed: &Indexed, event: u32) -> Option<u32> {
    if event < indexed.len() {
        indexed.last_writer(event)
    } else {
        None
    }
}

// The end of the section that the event begins.
pub(crate) fn end_of(indexed: &Indexed, event: u32) -> Option<u32> {
    if event < indexed.len() {
        indexed.section(event)
    } else {
        None
    }
}

// The event before this one in its thread, or the fork of the thread.
pub(crate) fn base_of(indexed: &Indexed, event: u32) -> Option<u32> {
    if event < indexed.len() {
        indexed.base(event)
    } else {
        None
    }
}
