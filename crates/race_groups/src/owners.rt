//! Finds the classes whose events are all of one thread. No event is in a pair with an event of its thread.
ghost use Rattle.std.specs.Prelude.{◌≡◌, ◌+◌, ◌<◌, length, All, IfOk, IfSome, slice_index};
ghost use Rattle.race_groups.specs.Owners.{AreOwnersBelow, AreClassOwners};

use crate::classes::Classes;
use event_index::Indexed;
use rapid_text::OutOfMemory;
use std::alloc::Global;

/// For each class the thread that has all its events; if more than one has some, the number of threads.
pub(crate) fn owners_of(
    alloc: Global,
    indexed: &Indexed,
    classes: &Classes,
) -> Result<Vec<u32>, OutOfMemory>
    requires numbers { length classes.now.numbers.items ≡ length indexed.now.events }
    requires classes { All (λ c. c < length classes.now.infos.items) classes.now.numbers.items }
    ensures { IfOk result (λ owners. AreClassOwners indexed.now classes.now owners.items) }
{
    let numbers = classes.numbers.as_slice();
    let many = indexed.threads();
    let mut owners = vec![in alloc; many; classes.infos.as_slice().len()]?;
    for event in 0..indexed.len() {
        owners[numbers[event as usize] as usize] = indexed.event(event).thread;
    }
    for event in 0..indexed.len() {
        part(owners.as_mut_slice(), numbers, indexed, many, event);
    }
    Ok(owners)
}

// Marks the class of the event as shared if another thread has it.
fn part(owners: &mut [u32], numbers: &[u32], indexed: &Indexed, many: u32, event: u32)
    requires numbers { length numbers.now ≡ length indexed.now.events }
    requires classes { All (λ c. c < length owners.old) numbers.now }
    requires many { many ≡ length indexed.now.threads }
    requires event { event < length indexed.now.events }
    requires owners { AreOwnersBelow indexed.now.events (length indexed.now.threads) numbers.now event owners.old }
    ensures owners { AreOwnersBelow indexed.now.events (length indexed.now.threads) numbers.now (event + 1) owners.new }
    ensures len { length owners.new ≡ length owners.old }
{
    let class = numbers[event as usize] as usize;
    if owners[class] != indexed.event(event).thread {
        owners[class] = many;
    }
}

/// The owner of the class.
pub(crate) fn owner_of(owners: &[u32], class: u32) -> u32
    ensures { result ≡ slice_index owners.now class }
{
    match owners.get(class as usize) {
        Some(owner) => *owner,
        None => 0,
    }
}

/// The thread that has all events of the class. None if more than one thread has some.
pub(crate) fn only_owner(owners: &[u32], class: u32, threads: u32) -> Option<u32>
    ensures some { IfSome result (λ owner. (owner ≡ slice_index owners.now class) × (owner < threads)) }
{
    let owner = owner_of(owners, class);
    if owner < threads { Some(owner) } else { None }
}
