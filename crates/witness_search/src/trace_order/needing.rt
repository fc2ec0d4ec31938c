//! What each event of a list waits for, by positions in the list. Nothing is proved about it: a checked call judges
//! the order that is made from it.
use event_index::Indexed;
use rapid_text::{Op, OutOfMemory};
use std::alloc::Global;
use std::mem;

/// The last positions of a list that later events may wait for.
#[derive(Drop)]
struct Latest {
    // the last write of each variable
    writes: Vec<Option<u32>>,
    // the reads of each variable since its last write
    reads: Vec<Vec<u32>>,
    // the last release of each lock
    releases: Vec<Option<u32>>,
    // the last event of each thread
    ends: Vec<Option<u32>>,
    // the fork of each thread
    forks: Vec<Option<u32>>,
}

/// Adds `count` empty lists.
pub(crate) fn add_lists(
    alloc: Global,
    lists: &mut Vec<Vec<u32>>,
    count: u32,
) -> Result<(), OutOfMemory> {
    for _list in 0..count {
        lists.push(Vec::new(alloc))?;
    }
    Ok(())
}

/// The position at this index, or None.
fn place_at(places: &[Option<u32>], number: u32) -> Option<u32> {
    places.get(number as usize).copied().flatten()
}

/// Sets the position at this index.
fn keep(places: &mut Vec<Option<u32>>, number: u32, place: u32) {
    if let Some(kept) = places.get_mut(number as usize) {
        *kept = Some(place);
    }
}

/// Appends the position, if there is one.
fn append(needs: &mut Vec<u32>, place: Option<u32>) -> Result<(), OutOfMemory> {
    if let Some(place) = place {
        needs.push(place)?;
    }
    Ok(())
}

impl Latest {
    fn new(alloc: Global, indexed: &Indexed) -> Result<Latest, OutOfMemory> {
        let mut latest = Latest {
            writes: Vec::new(alloc),
            reads: Vec::new(alloc),
            releases: Vec::new(alloc),
            ends: Vec::new(alloc),
            forks: Vec::new(alloc),
        };
        match latest.make_room(alloc, indexed) {
            Ok(()) => Ok(latest),
            Err(refused) => Err(refused),
        }
    }

    /// Makes an empty entry for each variable, lock and thread of the trace.
    fn make_room(&mut self, alloc: Global, indexed: &Indexed) -> Result<(), OutOfMemory> {
        let raw = indexed.trace().raw();
        self.writes.resize(raw.variables() as usize, None)?;
        add_lists(alloc, &mut self.reads, raw.variables())?;
        self.releases.resize(raw.locks() as usize, None)?;
        self.ends.resize(raw.threads() as usize, None)?;
        self.forks.resize(raw.threads() as usize, None)?;
        Ok(())
    }

    /// Removes the reads of the variable since its last write, and returns them.
    fn take_reads(&mut self, alloc: Global, variable: u32) -> Vec<u32> {
        match self.reads.get_mut(variable as usize) {
            Some(reads) => mem::replace(reads, Vec::new(alloc)),
            None => Vec::new(alloc),
        }
    }

    /// Adds a read of the variable.
    fn keep_read(&mut self, variable: u32, place: u32) -> Result<(), OutOfMemory> {
        if let Some(reads) = self.reads.get_mut(variable as usize) {
            reads.push(place)?;
        }
        Ok(())
    }

    /// What an event with this operation waits for; the first one is last. Every event of a thread waits for the
    /// fork, which comes before the thread's first event anyway.
    fn needs_of(&mut self, alloc: Global, thread: u32, op: Op) -> Result<Vec<u32>, OutOfMemory> {
        let mut needs = match op {
            Op::Write(variable) => self.take_reads(alloc, variable),
            _ => Vec::new(alloc),
        };
        match self.complete(&mut needs, thread, op) {
            Ok(()) => Ok(needs),
            Err(refused) => Err(refused),
        }
    }

    /// Adds what the event waits for, except for the reads, which are there already.
    fn complete(&self, needs: &mut Vec<u32>, thread: u32, op: Op) -> Result<(), OutOfMemory> {
        match op {
            Op::Read(variable) | Op::Write(variable) => {
                append(needs, place_at(&self.writes, variable))?;
            }
            Op::Acquire(lock) => append(needs, place_at(&self.releases, lock))?,
            Op::Join(other) => {
                let end = place_at(&self.ends, other);
                append(needs, end.or(place_at(&self.forks, other)))?;
            }
            Op::Release(_) | Op::Fork(_) => {}
        }
        needs.reverse();
        append(needs, place_at(&self.forks, thread))
    }

    /// Goes over the list, and adds what the event at each position waits for.
    fn add_needs(
        &mut self,
        alloc: Global,
        indexed: &Indexed,
        list: &[u32],
        all: &mut Vec<Vec<u32>>,
    ) -> Result<(), OutOfMemory> {
        let raw = indexed.trace().raw();
        let mut place = 0u32;
        for event in list {
            if *event < raw.len() {
                let found = raw.event(*event);
                all.push(self.needs_of(alloc, found.thread, found.op)?)?;
                self.note(found.thread, found.op, place)?;
            }
            place = place.saturating_add(1);
        }
        Ok(())
    }

    /// Keeps the positions that later events may wait for.
    fn note(&mut self, thread: u32, op: Op, place: u32) -> Result<(), OutOfMemory> {
        keep(&mut self.ends, thread, place);
        match op {
            Op::Write(variable) => keep(&mut self.writes, variable, place),
            Op::Read(variable) => self.keep_read(variable, place)?,
            Op::Release(lock) => keep(&mut self.releases, lock, place),
            Op::Fork(other) => keep(&mut self.forks, other, place),
            Op::Acquire(_) | Op::Join(_) => {}
        }
        Ok(())
    }
}

/// For each position of the list, the positions that its event waits for; the first one is last. An event waits for
/// the fork of its thread. A read waits for its writer; a write for the write before it and the reads since then. An
/// acquire waits for the last release of the lock. A join waits for the last event of the thread, or its fork.
/// Printed schedules use it, and nothing is proved about it.
pub fn needs_of(
    alloc: Global,
    indexed: &Indexed,
    list: &[u32],
) -> Result<Vec<Vec<u32>>, OutOfMemory> {
    let mut all = Vec::new(alloc);
    match add_needs(alloc, indexed, list, &mut all) {
        Ok(()) => Ok(all),
        Err(refused) => Err(refused),
    }
}

/// Adds what each position of the list waits for.
pub(crate) fn add_needs(
    alloc: Global,
    indexed: &Indexed,
    list: &[u32],
    all: &mut Vec<Vec<u32>>,
) -> Result<(), OutOfMemory> {
    let mut latest = Latest::new(alloc, indexed)?;
    latest.add_needs(alloc, indexed, list, all)
}
