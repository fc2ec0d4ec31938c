//! Rows under their ages: the youngest in a vector, and the older ones in a tree.
ghost use Rattle.std.specs.Prelude.{◌≡◌, ◌<◌, ◌++◌, [], ℕ, List, None, Some, IfErr, IfNone, IfSome, IsOk, OnErr, OnOk, false, length, option_copied, option_map, slice_get, true, vec_len, ◌+◌};
ghost use Rattle.std.specs.BTreeMap.{get_by, insert_entry, is_at};
ghost use Rattle.std.specs.Map.{lookup, remove_entry, values_of};
ghost use Rattle.std.specs.Ordering.{nat_cmp};
ghost use Rattle.moves.specs.Inverses.{wants_memory};
ghost use Rattle.moves.specs.Rows.{names_of};
ghost use Rattle.moves.specs.Rising.{CanStep, EndsBelow, IsPlaceOf, IsStepped, Rises};

use crate::inverse::{Step, turn_schedule};
use crate::lists::Names;
use crate::name::Name;
use crate::row::Row;
use event_index::Indexed;
use rapid_text::OutOfMemory;
use std::alloc::Global;
use std::collections::BTreeMap;
use std::marker::Model;

// How many of the youngest rows are in the vector, at most.
const YOUNG: usize = 64;

/// A name and its row.
pub(crate) type Held = (Name, Row);

/// Rows under their ages. Most calls write a row that was made lately, and a new row is nearly always younger than all
/// others. So the youngest are in a vector, at whose end a row comes and goes in few steps. Contracts see the ages,
/// names and rows, by rising age.
#[derive(Drop)]
pub(crate) struct Rising {
    // the rows that are older than the young ones
    older: BTreeMap<u128, Held>,
    young: Vec<(u128, Held)>,
}

impl Model for Rising {
    ghost use Rattle.std.specs.Prelude.{◌++◌};
    ghost use Rattle.moves.specs.Rising.{Entries};

    ghost Value = { Entries };

    ghost view = { λ r. r.older.entries ++ r.young.items };
}

impl Rising {
    /// No rows. It takes no memory yet: `alloc` is kept for later.
    pub(crate) fn new(alloc: Global) -> Rising
        ensures { result ≡ [] }
    {
        Rising {
            older: BTreeMap::new(alloc),
            young: Vec::new(alloc),
        }
    }

    /// The number of rows.
    pub(crate) fn len(&self) -> usize
        ensures { result ≡ length self.now }
    {
        self.older.len() + self.young.len()
    }

    /// The name and the row at this index, by rising age.
    pub(crate) fn at(&self, at: usize) -> &Held
        requires { at < length self.now }
        ensures { option_map (λ e. e.1) (slice_get self.now at) ≡ Some result.now }
    {
        let older = self.older.len();
        if at < older {
            return self.older.values().nth(at).unwrap();
        }
        &self.young[at - older].1
    }

    /// Appends the names, by rising age.
    pub(crate) fn append_names(&self, names: &mut Names) -> Result<(), OutOfMemory>
        ensures { OnOk result (names.new ≡ names.old ++ names_of (values_of self.now)) }
    {
        append_older(&self.older, names)?;
        append_young(&self.young, names)
    }

    /// The name and the row under this age.
    pub(crate) fn get(&self, age: u128) -> Option<&Held>
        requires { Rises self.now }
        ensures { option_copied result ≡ lookup (is_at (nat_cmp age)) self.now }
    {
        match place_of(&self.young, age) {
            Some(at) => Some(&self.young[at].1),
            None => self.older.get(&age),
        }
    }

    /// Adds a name and its row under an age that no row has. If memory runs out, returns them.
    pub(crate) fn insert(&mut self, age: u128, held: Held) -> Result<(), Held>
        requires rises { Rises self.old }
        requires new { lookup (is_at (nat_cmp age)) self.old ≡ None }
        ensures ok { OnOk result (self.new ≡ insert_entry nat_cmp self.old age held) }
        ensures err { OnErr result (self.new ≡ self.old) }
        ensures back { IfErr result (λ h. h ≡ held) }
    {
        if self.young.len() < YOUNG && self.ends_below(age) {
            return self.push(age, held);
        }
        match settle(&mut self.older, &mut self.young) {
            Ok(()) => put_older(&mut self.older, age, held),
            Err(_) => Err(held),
        }
    }

    /// Removes the name and the row under this age.
    pub(crate) fn remove(&mut self, age: u128) -> Option<Held>
        requires rises { Rises self.old }
        ensures value { result ≡ lookup (is_at (nat_cmp age)) self.old }
        ensures entries { self.new ≡ remove_entry (is_at (nat_cmp age)) self.old }
    {
        match place_of(&self.young, age) {
            Some(at) => Some(self.young.remove(at).1),
            None => self.older.remove(&age),
        }
    }

    /// Takes a step of the schedule under this age and returns the step that leads back. If memory runs out, returns
    /// the step itself.
    pub(crate) fn turn(&mut self, age: u128, indexed: &Indexed, step: Step) -> Result<Step, Step>
        requires rises { Rises self.old }
        requires fits { CanStep indexed.now age step self.old }
        ensures stepped { IsStepped age step self.old self.new result }
        ensures returned { IfErr result (λ s. s ≡ step) }
        ensures succeeds { wants_memory step ≡ false → IsOk result }
    {
        match place_of(&self.young, age) {
            Some(at) => {
                let entry = &mut self.young[at];
                turn_schedule(&mut entry.1.1.schedule, indexed, step)
            },
            None => {
                let (_, row) = self.older.get_mut(&age).unwrap();
                turn_schedule(&mut row.schedule, indexed, step)
            },
        }
    }

    // True only if the age is above all others.
    fn ends_below(&self, age: u128) -> bool
        requires { Rises self.now }
        ensures { result ≡ true → EndsBelow self.now age }
    {
        match self.young.last() {
            Some(last) => last.0 < age,
            None => match self.older.last_key_value() {
                Some((last, _)) => *last < age,
                None => true,
            },
        }
    }

    // Appends a row whose age is above all others.
    fn push(&mut self, age: u128, held: Held) -> Result<(), Held>
        requires { EndsBelow self.old age }
        ensures ok { OnOk result (self.new ≡ insert_entry nat_cmp self.old age held) }
        ensures err { OnErr result (self.new ≡ self.old) }
        ensures back { IfErr result (λ h. h ≡ held) }
    {
        match self.young.push((age, held)) {
            Ok(()) => Ok(()),
            Err(failed) => Err(failed.value.1),
        }
    }
}

// Appends the names of the rows in the tree.
fn append_older(older: &BTreeMap<u128, Held>, names: &mut Names) -> Result<(), OutOfMemory>
    ensures { OnOk result (names.new ≡ names.old ++ names_of (values_of older.now.entries)) }
{
    for held in older.values() {
        names.push(held.0)?;
    }
    Ok(())
}

// Appends the names of the young rows.
fn append_young(young: &[(u128, Held)], names: &mut Names) -> Result<(), OutOfMemory>
    ensures { OnOk result (names.new ≡ names.old ++ names_of (values_of young.now)) }
{
    for entry in young {
        names.push(entry.1.0)?;
    }
    Ok(())
}

// The index of the row of this age among the young ones.
fn place_of(young: &[(u128, Held)], age: u128) -> Option<usize>
    requires { Rises young.now }
    ensures some { IfSome result (IsPlaceOf young.now age) }
    ensures none { IfNone result (lookup (is_at (nat_cmp age)) young.now ≡ None) }
{
    match young.binary_search_by_key(&age, |entry| entry.0) {
        Ok(at) => Some(at),
        Err(_) => None,
    }
}

// Moves all young rows into the tree, or the oldest of them if memory runs out.
fn settle(
    older: &mut BTreeMap<u128, Held>,
    young: &mut Vec<(u128, Held)>,
) -> Result<(), OutOfMemory>
    requires { Rises (older.old.entries ++ young.old.items) }
    ensures same { older.new.entries ++ young.new.items ≡ older.old.entries ++ young.old.items }
    ensures settled { OnOk result (young.new.items ≡ []) }
{
    for _ in 0..young.len() {
        settle_first(older, young)?;
    }
    Ok(())
}

// Moves the oldest young row into the tree.
fn settle_first(
    older: &mut BTreeMap<u128, Held>,
    young: &mut Vec<(u128, Held)>,
) -> Result<(), OutOfMemory>
    requires rises { Rises (older.old.entries ++ young.old.items) }
    requires some { 0 < vec_len young.old }
    ensures same { older.new.entries ++ young.new.items ≡ older.old.entries ++ young.old.items }
    ensures fewer { OnOk result (vec_len young.new + 1 ≡ vec_len young.old) }
{
    let (age, held) = young.remove(0);
    let Err(failed) = older.insert(age, held) else {
        return Ok(());
    };
    // its place is still free, so this cannot fail
    let _ = young.insert(0, failed.value);
    Err(OutOfMemory)
}

// Adds a name and its row under an age that the tree does not have. If memory runs out, returns them.
fn put_older(older: &mut BTreeMap<u128, Held>, age: u128, held: Held) -> Result<(), Held>
    ensures ok { OnOk result (older.new.entries ≡ insert_entry nat_cmp older.old.entries age held) }
    ensures err { OnErr result (older.new.entries ≡ older.old.entries) }
    ensures back { IfErr result (λ h. h ≡ held) }
{
    match older.insert(age, held) {
        Ok(_) => Ok(()),
        Err(failed) => Err(failed.value.1),
    }
}
