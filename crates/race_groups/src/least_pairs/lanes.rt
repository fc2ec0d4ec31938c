//! The accesses of one variable, by thread and kind of access.
ghost use Rattle.std.specs.Prelude.{◌≡◌, ◌≢◌, ℕ, ◌+◌, [], ◌∷◌, ◌<◌, ◌≤◌, true, length, Contains, IfOk, IfSome, OnOk, None, Some, slice_get, slice_index};
ghost use Rattle.event_index.specs.Relations.{is_access};
ghost use Rattle.race_groups.specs.least_pairs.Lanes.{AreAccesses, IsInLanes, IsLater, IsRising, access_op, AreAllAccesses};
ghost use Rattle.race_groups.specs.least_pairs.Making.{AreBegun, AreBunchesGrown, AreLanesGrown, IsBunchOf, IsEventAdded, IsLaneOf, IsOfBunch};
ghost use Rattle.race_groups.specs.least_pairs.Pairs.{is_access_at};
ghost use Rattle.rapid_text.specs.Appended.{Appended};

use crate::Classes;
use crate::least_pairs::reach::reach;
use crate::least_pairs::uses::is_writing;
use event_index::Indexed;
use indexmap::IndexMap;
use rapid_text::{Op, OutOfMemory, TextKeyed};
use std::alloc::Global;

/// The events of one lane that are of one class, in the order of the trace.
#[derive(Drop)]
pub(crate) struct Bunch {
    /// The number of the class.
    pub(crate) class: u32,
    pub(crate) events: Vec<u32>,
}

/// The reads of one variable by one thread, or its writes, in the order of the trace.
#[derive(Drop)]
pub(crate) struct Lane {
    pub(crate) thread: u32,
    pub(crate) is_writing: bool,
    /// No event of the lane has a greater index among those of its thread.
    pub(crate) last: u32,
    /// The events.
    pub(crate) events: Vec<u32>,
    /// The index of each event among those of its thread.
    pub(crate) places: Vec<u32>,
    /// The events by class.
    pub(crate) bunches: Vec<Bunch>,
}

/// An access, with its index among those of its thread and its class.
#[derive(Clone, Copy)]
pub(crate) struct Access {
    pub(crate) event: u32,
    pub(crate) place: u32,
    pub(crate) class: u32,
}

/// An access, and the last access before it in its lane and of its class.
#[derive(Clone, Copy)]
pub(crate) struct Later {
    pub(crate) variable: u32,
    pub(crate) event: u32,
    pub(crate) thread: u32,
    pub(crate) is_writing: bool,
    pub(crate) previous: Option<u32>,
}

/// The accesses of one variable up to some event.
#[derive(Drop)]
pub(crate) struct Lanes {
    pub(crate) list: Vec<Lane>,
    // The index of the lane of a thread, for its reads and for its writes. It is compared with the lane before it is
    // used.
    index: IndexMap<(u32, u32), usize>,
    // The same for a lane and a class.
    bunches: Index,
}

type Index = IndexMap<(usize, u32), usize, TextKeyed>;

/// For each variable its accesses, in the order of the trace.
pub(crate) fn accesses_of(alloc: Global, indexed: &Indexed) -> Result<Vec<Vec<u32>>, OutOfMemory>
    ensures len { IfOk result (λ accesses. length accesses.items ≡ length indexed.now.variables) }
    ensures accesses { IfOk result (λ accesses. AreAllAccesses indexed.now accesses.items) }
{
    let mut accesses = Vec::with_capacity(alloc, indexed.variables() as usize)?;
    for _variable in 0..indexed.variables() {
        accesses.push(Vec::new(alloc))?;
    }
    for event in 0..indexed.len() {
        add_access(&mut accesses, indexed, event)?;
    }
    Ok(accesses)
}

// Adds the event to the accesses of its variable, if it is one.
fn add_access(
    accesses: &mut Vec<Vec<u32>>,
    indexed: &Indexed,
    event: u32,
) -> Result<(), OutOfMemory>
    requires event { event < length indexed.now.events }
    requires len { length accesses.old.items ≡ length indexed.now.variables }
    requires accesses { AreAccesses indexed.now.events event accesses.old.items }
    ensures len { OnOk result (length accesses.new.items ≡ length accesses.old.items) }
    ensures accesses { OnOk result (AreAccesses indexed.now.events (event + 1) accesses.new.items) }
{
    let found = indexed.event(event);
    let Some((variable, _)) = access_of(found.op) else {
        return Ok(());
    };
    accesses[variable as usize].push(event)?;
    Ok(())
}

/// The variable that the operation accesses, and whether it writes it; or None.
pub(crate) fn access_of(op: Op) -> Option<(u32, bool)>
    ensures some { IfSome result (λ a. op ≡ access_op a.1 a.0) }
    ensures none { result ≡ None → (x : ℕ) → is_access x op ≢ true }
{
    match op {
        Op::Read(variable) => Some((variable, false)),
        Op::Write(variable) => Some((variable, true)),
        Op::Acquire(_) | Op::Release(_) | Op::Fork(_) | Op::Join(_) => None,
    }
}

impl Lanes {
    /// No accesses.
    pub(crate) fn new(alloc: Global, classes: &Classes) -> Lanes
        ensures { result.list.items ≡ [] }
    {
        Lanes {
            list: Vec::new(alloc),
            index: IndexMap::new(alloc),
            bunches: IndexMap::with_hasher(alloc, *classes.lists.hasher()),
        }
    }

    /// Adds the next access of the variable.
    pub(crate) fn note(
        &mut self,
        alloc: Global,
        indexed: &Indexed,
        classes: &Classes,
        variable: u32,
        event: u32,
    ) -> Result<Later, OutOfMemory>
        requires numbers { length classes.now.numbers.items ≡ length indexed.now.events }
        requires event { event < length indexed.now.events }
        requires access { is_access_at indexed.now.events variable event ≡ true }
        requires lanes { AreBegun indexed.now.events classes.now.numbers.items variable event self.old.list.items }
        ensures lanes { OnOk result (AreBegun indexed.now.events classes.now.numbers.items variable (event + 1) self.new.list.items) }
        ensures noted { OnOk result (IsInLanes self.new.list.items event) }
        ensures kept { OnOk result ((e : ℕ) → IsInLanes self.old.list.items e → IsInLanes self.new.list.items e) }
        ensures later { IfOk result (λ later. IsLater indexed.now.events classes.now.numbers.items later) }
        ensures event { IfOk result (λ later. later.event ≡ event) }
        ensures variable { IfOk result (λ later. later.variable ≡ variable) }
    {
        let found = indexed.event(event);
        let writing = is_writing(found.op, variable);
        let number = lane_number(
            alloc,
            &mut self.list,
            &mut self.index,
            found.thread,
            writing,
        )?;
        let access = Access {
            event,
            place: indexed.place(event),
            class: classes.numbers[event as usize],
        };
        let previous = self.list[number].add(alloc, &mut self.bunches, number, access)?;
        Ok(Later {
            variable,
            event,
            thread: found.thread,
            is_writing: writing,
            previous,
        })
    }
}

// The number of the thread's lane. If it is new, the function appends it.
fn lane_number(
    alloc: Global,
    lanes: &mut Vec<Lane>,
    index: &mut IndexMap<(u32, u32), usize>,
    thread: u32,
    is_writing: bool,
) -> Result<usize, OutOfMemory>
    ensures found { IfOk result (λ number. IsLaneOf lanes.new.items number thread is_writing) }
    ensures grown { OnOk result (AreLanesGrown lanes.old.items lanes.new.items) }
{
    let key = (thread, u32::from(is_writing));
    if let Some(number) = index.get(&key) {
        if is_of(lanes.as_slice(), *number, thread, is_writing) {
            return Ok(*number);
        }
    }
    let number = lanes.len();
    lanes.push(Lane::new(alloc, thread, is_writing))?;
    index.insert(key, number)?;
    Ok(number)
}

// The number of the class's bunch. If it is new, the function appends it.
fn bunch_number(
    alloc: Global,
    index: &mut Index,
    bunches: &mut Vec<Bunch>,
    lane: usize,
    class: u32,
) -> Result<usize, OutOfMemory>
    ensures found { IfOk result (λ number. IsBunchOf bunches.new.items number class) }
    ensures grown { OnOk result (AreBunchesGrown class bunches.old.items bunches.new.items) }
{
    if let Some(number) = index.get(&(lane, class)) {
        if is_class(bunches.as_slice(), *number, class) {
            return Ok(*number);
        }
    }
    let number = bunches.len();
    bunches.push(Bunch {
        class,
        events: Vec::new(alloc),
    })?;
    index.insert((lane, class), number)?;
    Ok(number)
}

// Whether there is such a bunch, and it is of this class.
fn is_class(bunches: &[Bunch], number: usize, class: u32) -> bool
    ensures { result ≡ true → IsBunchOf bunches.now number class }
{
    match bunches.get(number) {
        Some(found) => found.class == class,
        None => false,
    }
}

// Whether there is such a lane, and it is of this thread and kind of access.
fn is_of(lanes: &[Lane], number: usize, thread: u32, is_writing: bool) -> bool
    ensures { result ≡ true → IsLaneOf lanes.now number thread is_writing }
{
    match lanes.get(number) {
        Some(lane) => lane.thread == thread && lane.is_writing == is_writing,
        None => false,
    }
}

impl Lane {
    // A lane without events.
    fn new(alloc: Global, thread: u32, is_writing: bool) -> Lane
        ensures thread { result.thread ≡ thread }
        ensures is_writing { result.is_writing ≡ is_writing }
        ensures events { result.events.items ≡ [] }
        ensures places { result.places.items ≡ [] }
        ensures bunches { result.bunches.items ≡ [] }
    {
        Lane {
            thread,
            is_writing,
            last: 0,
            events: Vec::new(alloc),
            places: Vec::new(alloc),
            bunches: Vec::new(alloc),
        }
    }

    // Adds an access to lane `number`, and returns the last access before it of its class.
    fn add(
        &mut self,
        alloc: Global,
        index: &mut Index,
        number: usize,
        access: Access,
    ) -> Result<Option<u32>, OutOfMemory>
        ensures added { OnOk result (IsEventAdded access self.old self.new) }
        ensures previous { IfOk result (λ previous. IfSome previous (IsOfBunch self.old.bunches.items access.class)) }
    {
        let at = bunch_number(alloc, index, &mut self.bunches, number, access.class)?;
        let previous = self.bunches[at].put(access.event)?;
        self.events.push(access.event)?;
        self.places.push(access.place)?;
        self.last = self.last.max(access.place);
        Ok(previous)
    }
}

impl Bunch {
    // Adds an event, and returns the last one before it.
    fn put(&mut self, event: u32) -> Result<Option<u32>, OutOfMemory>
        ensures class { OnOk result (self.new.class ≡ self.old.class) }
        ensures events { Appended result self.old.events self.new.events (event ∷ []) }
        ensures last { IfOk result (λ last. IfSome last (Contains self.old.events.items)) }
    {
        let last = self.events.as_slice().last().copied();
        self.events.push(event)?;
        Ok(last)
    }

    /// The first event that is not earlier than `from`, or None.
    pub(crate) fn first(&self, from: u32) -> Option<u32>
        requires rising { IsRising self.now.events.items }
        ensures some { IfSome result (λ e. Contains self.now.events.items e × (from ≤ e)) }
        ensures least { (e : ℕ) → Contains self.now.events.items e → from ≤ e → (f : ℕ) × (result ≡ Some f) × (f ≤ e) }
    {
        let at = reach(self.events.as_slice(), self.events.len(), from);
        self.events.as_slice().get(at).copied()
    }
}
