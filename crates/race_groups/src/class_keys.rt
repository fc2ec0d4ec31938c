//! Numbers the classes. The class of most events is known already, so a guess comes before the table.
ghost use Rattle.std.specs.Prelude.{◌≡◌, ◌<◌, ℕ, IfOk, OnOk, Some, length, slice_get};
ghost use Rattle.race_groups.specs.Building.{AreClassesGrown};

use crate::class::Class;
use crate::classes::is_at;
use indexmap::IndexSet;
use rapid_text::{Op, OutOfMemory, TextKeyed};
use std::alloc::Global;

// The most guesses, a megabyte.
const MOST: usize = 262_144;

// The key of a class: its place and its locks, the kind of operation, and its operand.
type Key = ((u32, u32), (u32, u32));

/// The keys of the known classes, and the numbers that were found last. A guess counts only if its class has the wanted
/// key, so a wrong guess costs a look-up and nothing else.
#[derive(Drop)]
pub(crate) struct ClassKeys {
    keys: IndexSet<Key, TextKeyed>,
    guesses: Vec<u32>,
    // The number of places.
    width: usize,
}

impl ClassKeys {
    /// No class is known yet. `places` has the number of each event's place, and `keyed` has the key of the trace.
    pub(crate) fn new(
        alloc: Global,
        places: &[u32],
        keyed: TextKeyed,
    ) -> Result<ClassKeys, OutOfMemory> {
        let size = places.len().min(MOST);
        Ok(ClassKeys {
            keys: IndexSet::with_hasher(alloc, keyed),
            guesses: vec![in alloc; 0u32; size]?,
            width: width_of(places),
        })
    }

    // The slot in which the number of the class may be noted.
    fn slot(&self, class: Class) -> usize {
        let (what, to) = word_of(class.op);
        let kind = (to as usize)
            .wrapping_mul(2)
            .wrapping_add(what as usize % 2);
        let locks = (class.held as usize).wrapping_add(what as usize / 2);
        kind.wrapping_mul(self.width)
            .wrapping_add(class.place as usize)
            .wrapping_add(locks.wrapping_mul(SPREAD))
            % self.guesses.len().max(1)
    }

    // The number in a slot.
    fn guess(&self, slot: usize) -> usize {
        match self.guesses.as_slice().get(slot) {
            Some(number) => *number as usize,
            None => 0,
        }
    }

    // Notes a number in a slot.
    fn note(&mut self, slot: usize, number: u32) {
        if let Some(noted) = self.guesses.as_mut_slice().get_mut(slot) {
            *noted = number;
        }
    }
}

// Classes that differ in their locks alone get different slots.
const SPREAD: usize = 40_503;

// The number of places: one more than the greatest number of a place.
fn width_of(places: &[u32]) -> usize {
    let last = places.iter().copied().max().unwrap_or(0);
    (last as usize).saturating_add(1)
}

/// The number of the class. If it is new, the function appends it.
pub(crate) fn class_number(
    keys: &mut ClassKeys,
    infos: &mut Vec<Class>,
    class: Class,
) -> Result<u32, OutOfMemory>
    requires few { length infos.old.items < 1048576 }
    ensures found { IfOk result (λ n. slice_get infos.new.items n ≡ Some class) }
    ensures grown { OnOk result (AreClassesGrown class infos.old.items infos.new.items) }
{
    let slot = keys.slot(class);
    let guess = keys.guess(slot);
    if is_at(infos.as_slice(), guess, class) {
        return Ok(guess as u32);
    }
    let number = looked_up(&mut keys.keys, infos, class)?;
    keys.note(slot, number);
    Ok(number)
}

// The same by the table, without a guess.
fn looked_up(
    keys: &mut IndexSet<Key, TextKeyed>,
    infos: &mut Vec<Class>,
    class: Class,
) -> Result<u32, OutOfMemory>
    requires few { length infos.old.items < 1048576 }
    ensures found { IfOk result (λ n. slice_get infos.new.items n ≡ Some class) }
    ensures grown { OnOk result (AreClassesGrown class infos.old.items infos.new.items) }
{
    let key = key_of(class);
    if let Some(at) = keys.get_index_of(&key) {
        if is_at(infos.as_slice(), at, class) {
            return Ok(at as u32);
        }
    }
    let at = infos.len() as u32;
    infos.push(class)?;
    keys.insert(key)?;
    Ok(at)
}

fn key_of(class: Class) -> Key {
    ((class.place, class.held), word_of(class.op))
}

// The kind of the operation, and its operand.
fn word_of(op: Op) -> (u32, u32) {
    match op {
        Op::Read(variable) => (0, variable),
        Op::Write(variable) => (1, variable),
        Op::Acquire(lock) => (2, lock),
        Op::Release(lock) => (3, lock),
        Op::Fork(thread) => (4, thread),
        Op::Join(thread) => (5, thread),
    }
}
