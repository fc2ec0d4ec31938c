//! Puts the events of a list in an order with fewer runs. A checked call judges each proposed order.
ghost use Rattle.std.specs.Prelude.{◌≡◌, ◌↔◌, IsPermutation, IsTrue, IfOk, Ok, true};
ghost use Rattle.schedule.specs.Reordering.{IsCorrectReordering};
ghost use Rattle.schedule.specs.Shows.{Shows};

use crate::trace_order::needing::{add_lists, add_needs};
use event_index::{EventList, Indexed};
use rapid_text::OutOfMemory;
use schedule::{ListRefusal, Schedule};
use std::alloc::Global;

/// An order in progress. Positions are those of the list that is put in order.
#[derive(Drop)]
struct Ordering {
    // for each position, the positions that have to come before it; the next one is last
    needs: Vec<Vec<u32>>,
    // for each position its thread
    threads: Vec<u32>,
    // for each thread its positions that are left; the next one is last
    left: Vec<Vec<u32>>,
    // for each position whether its event has been taken
    taken: Vec<bool>,
    // the positions to work towards; the nearest is last
    aims: Vec<u32>,
    // the events that have been taken
    order: Vec<u32>,
}

/// The events of the list, each as often, in an order that is a correct reordering and shows the pair. If the
/// function finds an order with fewer runs of one thread, it returns that one; otherwise it returns the list.
pub fn fewer_runs(
    alloc: Global,
    indexed: &Indexed,
    list: &[u32],
    first: u32,
    second: u32,
) -> Result<EventList, OutOfMemory>
    requires reordering { IsCorrectReordering indexed.now.events list.now }
    requires shows { Shows indexed.now.events list.now first second }
    ensures same { IfOk result (IsPermutation list.now) }
    ensures reordering { IfOk result (IsCorrectReordering indexed.now.events) }
    ensures shows { IfOk result (λ order. Shows indexed.now.events order first second) }
{
    let order = propose(alloc, indexed, list, first, second)?;
    if is_order_of(alloc, indexed, list, order.as_slice(), first, second)? {
        return Ok(EventList::from(order));
    }
    EventList::of(alloc, list)
}

/// Whether the order has the events of the list, each as often, is a correct reordering, and shows the pair.
fn is_order_of(
    alloc: Global,
    indexed: &Indexed,
    list: &[u32],
    order: &[u32],
    first: u32,
    second: u32,
) -> Result<bool, OutOfMemory>
    ensures same { result ≡ Ok true → IsPermutation list.now order.now }
    ensures reordering { result ≡ Ok true → IsCorrectReordering indexed.now.events order.now }
    ensures shows { result ≡ Ok true → Shows indexed.now.events order.now first second }
{
    if !does_show(alloc, indexed, order, first, second)? {
        return Ok(false);
    }
    have_same_events(alloc, list, order)
}

/// Whether the list is a correct reordering that shows the pair.
fn does_show(
    alloc: Global,
    indexed: &Indexed,
    list: &[u32],
    first: u32,
    second: u32,
) -> Result<bool, OutOfMemory>
    ensures reordering { result ≡ Ok true → IsCorrectReordering indexed.now.events list.now }
    ensures shows { result ≡ Ok true → Shows indexed.now.events list.now first second }
{
    match Schedule::from_list(alloc, indexed, list) {
        Ok(schedule) => Ok(schedule.shows(indexed, first, second)),
        Err(ListRefusal::OutOfMemory) => Err(OutOfMemory),
        Err(
            ListRefusal::NotReordering {
                position: _,
                cause: _,
            },
        ) => Ok(false),
    }
}

/// Whether the two lists have the same events, each as often.
fn have_same_events(alloc: Global, one: &[u32], other: &[u32]) -> Result<bool, OutOfMemory>
    ensures { result ≡ Ok true → IsPermutation one.now other.now }
{
    let left = sorted(alloc, one)?;
    let right = sorted(alloc, other)?;
    if are_equal(left.as_slice(), right.as_slice()) {
        return Ok(true);
    }
    Ok(false)
}

fn are_equal(one: &[u32], other: &[u32]) -> bool
    ensures { IsTrue result ↔ (one.now ≡ other.now) }
{
    one == other
}

/// A copy of the list in rising order.
fn sorted(alloc: Global, list: &[u32]) -> Result<Vec<u32>, OutOfMemory>
    ensures { IfOk result (λ made. IsPermutation list.now made.items) }
{
    let mut made = Vec::from_slice(alloc, list)?;
    made.sort_unstable();
    Ok(made)
}

/// An order of the list's events. The thread of the first event's base runs up to it, and then that of the second's
/// base. If an event waits for another event, that one's thread runs up to it first. The remaining events follow.
fn propose(
    alloc: Global,
    indexed: &Indexed,
    list: &[u32],
    first: u32,
    second: u32,
) -> Result<Vec<u32>, OutOfMemory> {
    let mut ordering = Ordering {
        needs: Vec::new(alloc),
        threads: Vec::new(alloc),
        left: Vec::new(alloc),
        taken: Vec::new(alloc),
        aims: Vec::new(alloc),
        order: Vec::new(alloc),
    };
    match ordering.put(alloc, indexed, list, first, second) {
        Ok(()) => Ok(ordering.order),
        Err(refused) => Err(refused),
    }
}

impl Ordering {
    /// Puts the list in order. The fields are empty before.
    fn put(
        &mut self,
        alloc: Global,
        indexed: &Indexed,
        list: &[u32],
        first: u32,
        second: u32,
    ) -> Result<(), OutOfMemory> {
        self.begin(alloc, indexed, list)?;
        self.aim_at_base(indexed, list, second)?;
        self.aim_at_base(indexed, list, first)?;
        // each event, each need and each aim is a step or two
        for _step in 0..list.len().saturating_mul(16) {
            let Some(aim) = self.aims.last().copied() else {
                break;
            };
            self.step(list, aim)?;
        }
        self.take_rest(list)
    }

    /// Fills the fields before any event is taken.
    fn begin(&mut self, alloc: Global, indexed: &Indexed, list: &[u32]) -> Result<(), OutOfMemory> {
        add_needs(alloc, indexed, list, &mut self.needs)?;
        add_lists(alloc, &mut self.left, indexed.threads())?;
        self.add_places(indexed, list)?;
        for places in self.left.iter_mut() {
            places.reverse();
        }
        self.taken.resize(list.len(), false)?;
        Ok(())
    }

    /// Adds the positions of the list to those that are left.
    fn add_places(&mut self, indexed: &Indexed, list: &[u32]) -> Result<(), OutOfMemory> {
        let raw = indexed.trace().raw();
        let mut place = 0u32;
        for event in list {
            if *event < raw.len() {
                let thread = raw.event(*event).thread;
                self.threads.push(thread)?;
                if let Some(places) = self.left.get_mut(thread as usize) {
                    places.push(place)?;
                }
            }
            place = place.saturating_add(1);
        }
        Ok(())
    }

    /// Makes the base of the event the next aim.
    fn aim_at_base(
        &mut self,
        indexed: &Indexed,
        list: &[u32],
        event: u32,
    ) -> Result<(), OutOfMemory> {
        if event >= indexed.len() {
            return Ok(());
        }
        let Some(base) = indexed.base(event) else {
            return Ok(());
        };
        let mut place = 0u32;
        for other in list {
            if *other == base {
                self.aims.push(place)?;
            }
            place = place.saturating_add(1);
        }
        Ok(())
    }

    fn is_taken(&self, place: u32) -> bool {
        self.taken.get(place as usize).copied().unwrap_or(true)
    }

    /// The next position of the aim's thread.
    fn next_towards(&self, aim: u32) -> Option<u32> {
        let thread = self.threads.get(aim as usize).copied()?;
        self.left.get(thread as usize)?.last().copied()
    }

    /// What the position waits for first.
    fn need_of(&self, place: u32) -> Option<u32> {
        self.needs.get(place as usize)?.last().copied()
    }

    /// Takes a step towards the aim.
    fn step(&mut self, list: &[u32], aim: u32) -> Result<(), OutOfMemory> {
        let next = self.next_towards(aim);
        let Some(place) = next.filter(|_| !self.is_taken(aim)) else {
            let _ = self.aims.pop();
            return Ok(());
        };
        match self.need_of(place) {
            None => self.take(list, place),
            Some(need) => self.meet(place, need),
        }
    }

    /// Handles a need of the position: drops it if it is taken, and otherwise makes it an aim.
    fn meet(&mut self, place: u32, need: u32) -> Result<(), OutOfMemory> {
        if !self.is_taken(need) {
            self.aims.push(need)?;
            return Ok(());
        }
        if let Some(needs) = self.needs.get_mut(place as usize) {
            let _ = needs.pop();
        }
        Ok(())
    }

    /// Takes the event at the position, which is the next of its thread.
    fn take(&mut self, list: &[u32], place: u32) -> Result<(), OutOfMemory> {
        if let Some(event) = list.get(place as usize) {
            self.order.push(*event)?;
        }
        if let Some(taken) = self.taken.get_mut(place as usize) {
            *taken = true;
        }
        let Some(thread) = self.threads.get(place as usize).copied() else {
            return Ok(());
        };
        if let Some(places) = self.left.get_mut(thread as usize) {
            let _ = places.pop();
        }
        Ok(())
    }

    /// Takes the remaining events.
    fn take_rest(&mut self, list: &[u32]) -> Result<(), OutOfMemory> {
        let mut place = 0u32;
        for event in list {
            if !self.is_taken(place) {
                self.order.push(*event)?;
            }
            place = place.saturating_add(1);
        }
        Ok(())
    }
}
