//! The entries that touch each name.
ghost use Rattle.std.specs.Prelude.{◌≡◌, ◌++◌, ◌∷◌, [], ℕ, All, ◌<◌, List, OnOk, OnErr, IfOk, IsOk, IfNone, IfSome, None, IsTrue, true, false, find, nat_eq, nat_lt, bytes_eq, if◌then◌else◌};
ghost use Rattle.std.specs.BTreeSet.{insert_key};
ghost use Rattle.std.specs.List.{list_any};
ghost use Rattle.std.specs.Map.{lookup};
ghost use Rattle.moves.specs.Commands.{touches};
ghost use Rattle.std.specs.Ordering.{nat_cmp};
ghost use Rattle.dependence.specs.Lists.{under, without, Placed, PlacedSome, Pushed, PushedAll, Removed, RemovedAll, Same, AllBelow, IsLeastAbove, IsReached};
ghost use Rattle.dependence.specs.Places.{HasAt};

use crate::numbers::Numbers;
use indexmap::IndexMap;
use moves::{Command, Guesses, Name};
use rapid_text::{OutOfMemory, TextKeyed};
use std::alloc::Global;
use std::marker::Model;
use std::slice;

type ByName = IndexMap<Name, Numbers, TextKeyed>;

/// The numbers of the log entries whose commands touch a name, for each name.
///
/// A name whose entries were all removed keeps its empty list. So a removal needs no memory and moves no other name.
/// The memory grows with the number of entries that were ever added.
#[derive(Drop)]
pub struct Touches {
    lists: ByName,
    // the guessed indexes of names among the lists
    guesses: Guesses,
    alloc: Global,
}

impl Model for Touches {
    ghost use Rattle.dependence.specs.Lists.{Lists};

    ghost Value = { Lists };

    ghost view = { λ t. t.lists.entries };
}

impl Touches {
    /// No entries under any name. It takes no memory yet: `alloc` is kept for later.
    pub fn empty(alloc: Global) -> Result<Touches, OutOfMemory>
        ensures ok { IfOk result (λ t. (x : List ℕ) → under t x ≡ []) }
        ensures succeeds { IsOk result }
    {
        Ok(Touches::keyed(alloc, TextKeyed::of(&[])))
    }

    /// The same. The caller gives the keyed hashers for the names.
    pub fn keyed(alloc: Global, hashers: TextKeyed) -> Touches
        ensures { (x : List ℕ) → under result x ≡ [] }
    {
        Touches {
            lists: IndexMap::with_hasher(alloc, hashers),
            guesses: Guesses::new(),
            alloc,
        }
    }

    // Adds the entry under the name, if it is not there yet.
    fn place_name(&mut self, entry: u64, name: Name) -> Result<(), OutOfMemory>
        requires { IsReached entry (under self.old name) }
        ensures ok { OnOk result ((x : List ℕ) → under self.new x ≡ (if bytes_eq x name then insert_key nat_cmp (under self.old x) entry else under self.old x)) }
        ensures err { OnErr result (Same self.old self.new) }
    {
        let guess = self.guesses.place(&name);
        if let Some(at) = place_of(&self.lists, guess, &name) {
            self.guesses.note(&name, guess, at);
            let (_, list) = self.lists.pair_mut(at);
            return list.place(entry);
        }
        let mut list = Numbers::empty(self.alloc);
        list.place(entry)?;
        let (at, _) = self.lists.insert_full(name, list)?;
        self.guesses.note(&name, guess, at);
        Ok(())
    }

    fn remove_name(&mut self, entry: u64, name: &Name)
        ensures taken { (x : List ℕ) → under self.new x ≡ (if bytes_eq x name.now then without entry (under self.old x) else under self.old x) }
        ensures gone { list_any (nat_eq entry) (under self.new name.now) ≡ false }
    {
        let guess = self.guesses.place(name);
        if let Some(at) = place_of(&self.lists, guess, name) {
            self.guesses.note(name, guess, at);
            let (_, list) = self.lists.pair_mut(at);
            list.remove(entry);
        }
    }

    // Adds the entry under each name that the command touches, if it is not there yet. If memory runs out, it may be
    // under some of them.
    fn place(&mut self, entry: u64, command: &Command) -> Result<(), OutOfMemory>
        requires { (x : List ℕ) → IsReached entry (under self.old x) }
        ensures ok { OnOk result (Placed entry command.now self.old self.new) }
        ensures err { OnErr result (PlacedSome entry command.now self.old self.new) }
    {
        let written = command.writes();
        let read = command.reads();
        self.place_name(entry, written)?;
        if read == written {
            return Ok(());
        }
        let Ok(()) = self.place_name(entry, read) else {
            return Err(OutOfMemory);
        };
        Ok(())
    }

    /// Adds the entry, once, under each name that one of the commands touches. If memory runs out, everything stays as
    /// it was.
    pub fn push_all(&mut self, entry: u64, commands: &[Command]) -> Result<(), OutOfMemory>
        requires { AllBelow entry self.old }
        ensures ok { OnOk result (PushedAll entry commands.now self.old self.new) }
        ensures err { OnErr result (Same self.old self.new) }
    {
        for command in commands {
            let Ok(()) = self.place(entry, command) else {
                self.remove_all(entry, commands);
                return Err(OutOfMemory);
            };
        }
        Ok(())
    }

    /// Removes the entry under each name that one of the commands touches.
    pub fn remove_all(&mut self, entry: u64, commands: &[Command])
        ensures { RemovedAll entry commands.now self.old self.new }
    {
        for command in commands {
            self.remove(entry, command);
        }
    }

    /// Adds the entry under each name that the command touches. If memory runs out, everything stays as it was.
    pub fn push(&mut self, entry: u64, command: &Command) -> Result<(), OutOfMemory>
        requires { AllBelow entry self.old }
        ensures ok { OnOk result (Pushed entry command.now self.old self.new) }
        ensures err { OnErr result (Same self.old self.new) }
    {
        self.push_all(entry, slice::from_ref(command))
    }

    /// Removes the entry under each name that the command touches.
    pub fn remove(&mut self, entry: u64, command: &Command)
        ensures removed { Removed entry command.now self.old self.new }
        ensures gone { (x : List ℕ) → touches command.now x ≡ true
            → list_any (nat_eq entry) (under self.new x) ≡ false }
    {
        let written = command.writes();
        let read = command.reads();
        self.remove_name(entry, &written);
        if read != written {
            self.remove_name(entry, &read);
        }
    }

    /// The least number above this one under the name.
    pub fn first_after(&self, entry: u64, name: &Name) -> Option<u64>
        ensures least { IsLeastAbove entry (under self.now name.now) result }
        ensures first { result ≡ find (λ k. nat_lt entry k) (under self.now name.now) }
    {
        let at = place_of(&self.lists, self.guesses.place(name), name)?;
        let (_, list) = self.lists.get_index(at)?;
        list.first_after(entry)
    }
}

/// Whether the list of the name is at this index.
fn is_at(lists: &ByName, at: usize, name: &Name) -> bool
    ensures { IsTrue result → HasAt lists.now.entries at name.now }
{
    match lists.get_index(at) {
        Some((key, _)) => key == name,
        None => false,
    }
}

/// The index of the name's list. If the guess is right, the name is not hashed.
fn place_of(lists: &ByName, guess: usize, name: &Name) -> Option<usize>
    ensures none { IfNone result (lookup (bytes_eq name.now) lists.now.entries ≡ None) }
    ensures some { IfSome result (λ at. HasAt lists.now.entries at name.now) }
{
    if is_at(lists, guess, name) {
        return Some(guess);
    }
    let (at, _, _) = lists.get_full(name)?;
    Some(at)
}
