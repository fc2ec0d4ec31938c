//! The classes of a trace's events.
ghost use Rattle.std.specs.Prelude.{◌≡◌, ◌+◌, ◌++◌, ◌∷◌, ◌⊎◌, [], ◌<◌, ◌≤◌, ℕ, true, false, IfOk, OnOk, All, Some, None, IfSome, length, slice_get, slice_index};
ghost use Rattle.event_index.specs.Relations.{is_access};
ghost use Rattle.race_groups.specs.Building.{AreNumbered, AreMembersBelow, IsGrown, IsNumberedUpTo};
ghost use Rattle.race_groups.specs.ClassTables.{AreFewClasses, HaveClasses, HaveLocks, HaveMembers};
ghost use Rattle.race_groups.specs.Classes.{AreMembers};
ghost use Rattle.race_groups.specs.Holding.{AreHeld, AreKnown};
ghost use Rattle.race_groups.specs.Takers.{AreTakersOf};

use crate::class::{Class, LockLists};
use crate::class_keys::{ClassKeys, class_number};
use crate::grouping::{Regrouped, grouped};
use crate::holding::{begin, note};
use crate::listing::{Holds, Listing};
use crate::takers::takers_of;
use event_index::Indexed;
use indexmap::IndexSet;
use rapid_text::{Op, OutOfMemory};
use std::alloc::Global;

/// The classes of a trace, and the class of each event.
#[derive(Drop)]
pub struct Classes {
    /// The number of each event's class.
    pub numbers: Vec<u32>,
    /// The classes.
    pub infos: Vec<Class>,
    /// For each variable, the classes that access it.
    pub members: Vec<Vec<u32>>,
    /// The lists of locks to which the classes refer.
    pub lists: LockLists,
}

impl Classes {
    /// The classes of all events. `places` has the number of each event's place. Fails if memory runs out.
    pub fn of(alloc: Global, indexed: &Indexed, places: &[u32]) -> Result<Classes, OutOfMemory>
        requires places { length places.now ≡ length indexed.now.events }
        ensures classes { IfOk result (HaveClasses indexed.now.events (slice_index places.now)) }
        ensures few { IfOk result AreFewClasses }
        ensures members { IfOk result HaveMembers }
        // The locks of a class are held by the threads of its accesses before them. The list has each such lock that
        // more than one thread acquires.
        ensures locks { IfOk result (HaveLocks indexed.now.events) }
    {
        let _len = indexed.len();
        let takers = takers_of(alloc, indexed)?;
        let numbering = numbering_of(alloc, indexed, places, takers.as_slice())?;
        let Numbering {
            numbers,
            infos,
            lists,
            ..
        } = numbering;
        let members = members_of(alloc, indexed, infos.as_slice())?;
        let made = grouped(
            alloc,
            numbers.as_slice(),
            infos.as_slice(),
            members.as_slice(),
        )?;
        match made {
            Some(made) => made.with_members(alloc, indexed, places, lists),
            None => Ok(Classes {
                numbers,
                infos,
                members,
                lists,
            }),
        }
    }
}

impl Regrouped {
    // The classes, with the classes that access each variable.
    fn with_members(
        self,
        alloc: Global,
        indexed: &Indexed,
        _places: &[u32],
        lists: LockLists,
    ) -> Result<Classes, OutOfMemory>
        requires numbered { AreNumbered indexed.now.events (slice_index _places.now) (length indexed.now.events)
            self.numbers.items self.infos.items lists.keys }
        ensures classes { IfOk result (HaveClasses indexed.now.events (slice_index _places.now)) }
        ensures few { IfOk result AreFewClasses }
        ensures members { IfOk result HaveMembers }
        ensures locks { IfOk result (HaveLocks indexed.now.events) }
    {
        let _len = indexed.len();
        let Regrouped { numbers, infos } = self;
        let members = members_of(alloc, indexed, infos.as_slice())?;
        Ok(Classes {
            numbers,
            infos,
            members,
            lists,
        })
    }
}

/// The classes of the events so far.
#[derive(Drop)]
struct Numbering {
    keys: ClassKeys,
    numbers: Vec<u32>,
    infos: Vec<Class>,
    lists: LockLists,
    listing: Listing,
}

// Computes the classes of all events.
fn numbering_of(
    alloc: Global,
    indexed: &Indexed,
    places: &[u32],
    takers: &[u32],
) -> Result<Numbering, OutOfMemory>
    requires places { length places.now ≡ length indexed.now.events }
    requires takers { AreTakersOf indexed.now takers.now }
    ensures { IfOk result (IsNumberedUpTo indexed.now places.now (length indexed.now.events)) }
{
    let mut numbering = Numbering::new(alloc, indexed, places)?;
    let mut held = begin(alloc, indexed)?;
    for event in 0..indexed.len() {
        let holds = Holds {
            indexed,
            takers,
            held: held.as_slice(),
        };
        numbering.add(holds, places, event)?;
        note(&mut held, indexed, event)?;
    }
    Ok(numbering)
}

impl Numbering {
    // No event has a number yet.
    fn new(alloc: Global, indexed: &Indexed, places: &[u32]) -> Result<Numbering, OutOfMemory>
        ensures known { IfOk result (λ made. AreKnown indexed.now.events 0 made.lists.keys made.listing.known.items) }
        ensures threads { IfOk result (λ made. length made.listing.known.items ≡ length indexed.now.threads) }
        ensures numbered { IfOk result (IsNumberedUpTo indexed.now places.now 0) }
    {
        let keyed = indexed.trace().raw().keyed();
        let keys = ClassKeys::new(alloc, places, keyed)?;
        let listing = Listing::new(alloc, indexed)?;
        Ok(Numbering {
            keys,
            numbers: Vec::with_capacity(alloc, indexed.len() as usize)?,
            infos: Vec::new(alloc),
            lists: IndexSet::with_hasher(alloc, keyed),
            listing,
        })
    }

    // Adds the next event.
    fn add(&mut self, holds: Holds<'_>, places: &[u32], event: u32) -> Result<(), OutOfMemory>
        requires event { event < length holds.indexed.now.events }
        requires places { length places.now ≡ length holds.indexed.now.events }
        requires takers { AreTakersOf holds.indexed.now holds.takers.now }
        requires held { AreHeld holds.indexed.now.events event holds.held.now }
        requires len { length holds.held.now ≡ length holds.indexed.now.threads }
        requires known { AreKnown holds.indexed.now.events event self.old.lists.keys self.old.listing.known.items }
        requires threads { length self.old.listing.known.items ≡ length holds.indexed.now.threads }
        requires numbered { IsNumberedUpTo holds.indexed.now places.now event self.old }
        ensures numbered { OnOk result (IsNumberedUpTo holds.entry.indexed.now places.now (event + 1) self.new) }
        ensures known { OnOk result (AreKnown holds.entry.indexed.now.events (event + 1) self.new.lists.keys
            self.new.listing.known.items) }
        ensures threads { OnOk result (length self.new.listing.known.items ≡ length self.old.listing.known.items) }
    {
        let _len = holds.indexed.len();
        let held = self.listing.number(&mut self.lists, holds, event)?;
        let class = Class {
            place: places[event as usize],
            op: holds.indexed.event(event).op,
            held,
        };
        let number = class_number(&mut self.keys, &mut self.infos, class)?;
        self.numbers.push(number)?;
        Ok(())
    }
}

/// Whether the class is at this index.
pub(crate) fn is_at(infos: &[Class], at: usize, class: Class) -> bool
    ensures within { result ≡ true → at < length infos.now }
    ensures found { result ≡ true → slice_get infos.now at ≡ Some class }
{
    match infos.get(at) {
        Some(info) => is_same(*info, class),
        None => false,
    }
}

fn is_same(first: Class, second: Class) -> bool
    ensures { result ≡ true → first ≡ second }
{
    first.place == second.place && first.held == second.held && is_same_op(first.op, second.op)
}

fn is_same_op(first: Op, second: Op) -> bool
    ensures { result ≡ true → first ≡ second }
{
    match (first, second) {
        (Op::Read(x), Op::Read(y)) => x == y,
        (Op::Write(x), Op::Write(y)) => x == y,
        (Op::Acquire(x), Op::Acquire(y)) => x == y,
        (Op::Release(x), Op::Release(y)) => x == y,
        (Op::Fork(x), Op::Fork(y)) => x == y,
        (Op::Join(x), Op::Join(y)) => x == y,
        _ => false,
    }
}

// For each variable, the classes that access it.
fn members_of(
    alloc: Global,
    indexed: &Indexed,
    infos: &[Class],
) -> Result<Vec<Vec<u32>>, OutOfMemory>
    requires few { length infos.now ≤ 1048576 }
    requires named { (x : ℕ) → All (λ i. is_access x i.op ≡ true → x < length indexed.now.variables) infos.now }
    ensures { IfOk result (λ members. AreMembers infos.now members.items) }
{
    let mut members = Vec::with_capacity(alloc, indexed.variables() as usize)?;
    for _variable in 0..indexed.variables() {
        members.push(Vec::new(alloc))?;
    }
    for class in 0..infos.len() {
        add_member(&mut members, infos, class)?;
    }
    Ok(members)
}

// Adds the class to those of its variable, if it has one.
fn add_member(members: &mut Vec<Vec<u32>>, infos: &[Class], class: usize) -> Result<(), OutOfMemory>
    requires class { class < length infos.now }
    requires few { length infos.now ≤ 1048576 }
    requires named { (x : ℕ) → All (λ i. is_access x i.op ≡ true → x < length members.old.items) infos.now }
    requires members { AreMembersBelow infos.now class members.old.items }
    ensures members { OnOk result (AreMembersBelow infos.now (class + 1) members.new.items) }
    ensures len { OnOk result (length members.new.items ≡ length members.old.items) }
{
    let Some(variable) = variable_of(infos[class].op) else {
        return Ok(());
    };
    members[variable as usize].push(class as u32)?;
    Ok(())
}

/// The variable that the operation accesses, where it does.
pub(crate) fn variable_of(op: Op) -> Option<u32>
    ensures some { IfSome result (λ x. is_access x op ≡ true) }
    ensures one { IfSome result (λ x. (y : ℕ) → is_access y op ≡ true → y ≡ x) }
    ensures none { result ≡ None → (x : ℕ) → is_access x op ≡ false }
{
    match op {
        Op::Read(variable) | Op::Write(variable) => Some(variable),
        Op::Acquire(_) | Op::Release(_) | Op::Fork(_) | Op::Join(_) => None,
    }
}
