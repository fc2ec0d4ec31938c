//! For each lock and thread, the acquires whose thread did not hold the lock before.
ghost use Rattle.std.specs.Prelude.{◌≡◌, ◌<◌, ◌+◌, ◌-◌, length, true, false, AllPairs, IfOk, OnOk, Some};
ghost use Rattle.rapid_text.specs.declared.event.Op.TheVariants.{Acquire};
ghost use Rattle.event_index.specs.Events.{op_at, thread_at};
ghost use Rattle.must_order.specs.Sections.{is_outer};
ghost use Rattle.witness_search.specs.trace_order.Acquires.{IsOneOf, AreTakenUpTo, AreTaken, AreShared};
ghost use Rattle.witness_search.specs.trace_order.Rows.{AreLanesBefore, AreLanesAfter, AreAcquiresBefore, AreTakenAfter, AreTakenBefore};

use crate::trace_order::closing::lock_of;
use crate::trace_order::reaching::reaches_of;
use crate::trace_order::writing::writes_of;
use event_index::Indexed;
use rapid_text::OutOfMemory;
use std::alloc::Global;
use std::marker::Model;
use std::snapshot::Snapshot;

/// Tables from which lists in order are computed: for each lock and thread the acquires whose thread did not hold the
/// lock before, the writes of each variable, and how far sections reach. Memory follows the number of events.
#[derive(Drop)]
pub struct Acquires {
    trace: Snapshot<Indexed>,
    // For each lock its lanes, in rising order of their threads.
    pub(crate) by_lock: Vec<Vec<Lane>>,
    // The locks that have more than one lane.
    pub(crate) shared: Vec<u32>,
    // For each variable its writes, in the order of the trace.
    pub(crate) writes: Vec<Vec<u32>>,
    // For each event, the last of the event and the ends of all sections that its thread began up to it.
    pub(crate) reach: Vec<u32>,
}

/// The acquires of one lock by one thread that did not hold it before, in the order of the trace.
#[derive(Drop)]
pub(crate) struct Lane {
    pub(crate) thread: u32,
    pub(crate) events: Vec<u32>,
}

impl Model for Acquires {
    ghost use Rattle.rapid_text.specs.Recording.{Recording};

    ghost Value = { Recording };

    ghost use Rattle.witness_search.specs.trace_order.Acquires.{AreAcquires};

    ghost view = { λ s. s.trace.value };

    ghost invariant = { AreAcquires };
}

impl Acquires {
    /// Makes the tables in one pass over the events. They keep their trace for proofs alone, and do not borrow the
    /// index.
    pub fn new(alloc: Global, indexed: &Indexed) -> Result<Acquires, OutOfMemory>
        ensures ok { IfOk result (λ acquires. acquires ≡ indexed.now) }
    {
        let by_lock = lanes_of(alloc, indexed)?;
        let shared = shared_of(alloc, by_lock.as_slice(), indexed.locks())?;
        let writes = writes_of(alloc, indexed)?;
        let reach = reaches_of(alloc, indexed)?;
        Ok(Acquires {
            trace: Snapshot::of(indexed),
            by_lock,
            shared,
            writes,
            reach,
        })
    }
}

// The lanes of each lock.
fn lanes_of(alloc: Global, indexed: &Indexed) -> Result<Vec<Vec<Lane>>, OutOfMemory>
    ensures { IfOk result (λ made. AreTaken indexed.now made.items) }
{
    let mut by_lock = no_lanes(alloc, indexed)?;
    for thread in 0..indexed.threads() {
        add_thread(alloc, &mut by_lock, indexed, thread)?;
    }
    Ok(by_lock)
}

fn no_lanes(alloc: Global, indexed: &Indexed) -> Result<Vec<Vec<Lane>>, OutOfMemory>
    ensures { IfOk result (λ made. AreTakenUpTo indexed.now 0 0 made.items) }
{
    let mut by_lock = Vec::new(alloc);
    for _lock in 0..indexed.locks() {
        by_lock.push(Vec::new(alloc))?;
    }
    Ok(by_lock)
}

// Adds the acquires of the thread.
fn add_thread(
    alloc: Global,
    by_lock: &mut Vec<Vec<Lane>>,
    indexed: &Indexed,
    thread: u32,
) -> Result<(), OutOfMemory>
    requires thread { thread < length indexed.now.threads }
    requires known { AreTakenUpTo indexed.now thread 0 by_lock.old.items }
    ensures { OnOk result (AreTakenUpTo indexed.now (thread + 1) 0 by_lock.new.items) }
{
    let events = indexed.thread_events(thread);
    for place in 0..events.len() {
        add_event(alloc, by_lock, indexed, thread, events[place])?;
    }
    Ok(())
}

// Adds the event, if it is an acquire whose thread did not hold the lock before.
fn add_event(
    alloc: Global,
    by_lock: &mut Vec<Vec<Lane>>,
    indexed: &Indexed,
    thread: u32,
    event: u32,
) -> Result<(), OutOfMemory>
    requires event { event < length indexed.now.events }
    requires of { thread_at indexed.now.events event ≡ Some thread }
    requires thread { thread < length indexed.now.threads }
    requires known { AreTakenBefore indexed.now thread event by_lock.old.items }
    ensures { OnOk result (AreTakenAfter indexed.now thread event by_lock.new.items) }
{
    if let Some(lock) = lock_of(indexed, event) {
        add_acquire(
            alloc,
            &mut by_lock[lock as usize],
            indexed,
            thread,
            event,
            lock,
        )?;
    }
    Ok(())
}

// Adds the acquire to the lane of its thread, which is the last lane or a new one.
fn add_acquire(
    alloc: Global,
    lanes: &mut Vec<Lane>,
    indexed: &Indexed,
    thread: u32,
    event: u32,
    lock: u32,
) -> Result<(), OutOfMemory>
    requires event { event < length indexed.now.events }
    requires of { thread_at indexed.now.events event ≡ Some thread }
    requires acquires { op_at indexed.now.events event ≡ Some (Acquire lock) }
    requires named { thread < length indexed.now.threads }
    requires known { AreLanesBefore indexed.now lock thread event lanes.old.items }
    ensures { OnOk result (AreLanesAfter indexed.now lock thread event lanes.new.items) }
{
    let at = lane_for(alloc, lanes, indexed, thread, event, lock)?;
    if is_free(lanes[at].events.as_slice(), indexed, thread, event, lock) {
        lanes[at].events.push(event)?;
    }
    Ok(())
}

// The index of the thread's lane. If there is none, the function adds one.
fn lane_for(
    alloc: Global,
    lanes: &mut Vec<Lane>,
    indexed: &Indexed,
    thread: u32,
    event: u32,
    lock: u32,
) -> Result<usize, OutOfMemory>
    requires named { thread < length indexed.now.threads }
    requires known { AreLanesBefore indexed.now lock thread event lanes.old.items }
    ensures known { OnOk result (AreLanesBefore indexed.now lock thread event lanes.new.items) }
    ensures last { IfOk result (λ at. at + 1 ≡ length lanes.new.items) }
    ensures thread { IfOk result (λ at. IsOneOf lanes.new.items at thread) }
{
    let count = lanes.len();
    if is_last_of(lanes.as_slice(), thread) {
        return Ok(count - 1);
    }
    let events = Vec::new(alloc);
    lanes.push(Lane { thread, events })?;
    Ok(count)
}

// Whether the last lane is that of the thread.
fn is_last_of(lanes: &[Lane], thread: u32) -> bool
    ensures some { result ≡ true → 0 < length lanes.now }
    ensures last { result ≡ true → IsOneOf lanes.now (length lanes.now - 1) thread }
    ensures other { result ≡ false → 0 < length lanes.now → ¬ IsOneOf lanes.now (length lanes.now - 1) thread }
{
    if lanes.is_empty() {
        return false;
    }
    lanes[lanes.len() - 1].thread == thread
}

// Whether the thread of the acquire did not hold the lock before, judged by its earlier outermost acquires.
fn is_free(events: &[u32], indexed: &Indexed, thread: u32, event: u32, lock: u32) -> bool
    requires event { event < length indexed.now.events }
    requires of { thread_at indexed.now.events event ≡ Some thread }
    requires acquires { op_at indexed.now.events event ≡ Some (Acquire lock) }
    requires rising { AllPairs (λ x y. x < y) events.now }
    requires members { AreAcquiresBefore indexed.now.events lock thread event events.now }
    ensures { result ≡ is_outer indexed.now.events lock event }
{
    let _len = indexed.len();
    let count = events.len();
    if count == 0 {
        return true;
    }
    match indexed.section(events[count - 1]) {
        None => false,
        Some(end) => end < event,
    }
}

// The locks that have more than one lane.
fn shared_of(alloc: Global, by_lock: &[Vec<Lane>], locks: u32) -> Result<Vec<u32>, OutOfMemory>
    requires len { length by_lock.now ≡ locks }
    ensures { IfOk result (λ made. AreShared by_lock.now made.items) }
{
    let mut shared = Vec::new(alloc);
    for lock in 0..locks {
        if by_lock[lock as usize].len() > 1 {
            shared.push(lock)?;
        }
    }
    Ok(shared)
}
