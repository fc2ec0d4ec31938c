//! A rising list of entry numbers.
ghost use Rattle.std.specs.Prelude.{◌≡◌, ◌<◌, ◌++◌, ◌∷◌, [], All, OnOk, OnErr, IfOk, IsTrue, Some, ◌↔◌, false, find, nat_eq, nat_lt, slice_get};
ghost use Rattle.std.specs.List.{list_any};
ghost use Rattle.dependence.specs.Rising.{Rises};
ghost use Rattle.std.specs.BTreeSet.{insert_key};
ghost use Rattle.std.specs.Ordering.{nat_cmp};
ghost use Rattle.dependence.specs.Lists.{without, last_of, IsLeastAbove, IsReached};

use rapid_text::OutOfMemory;
use std::alloc::Global;
use std::collections::BTreeSet;
use std::marker::Model;
use std::ops::Bound;

/// How many numbers a removal may move: a list of at most this length needs no tree.
const MOVED_AT_MOST: usize = 512;

/// Entry numbers, each once, in rising order.
///
/// A push appends a number to a vector. If a number is removed from a long vector, but not from its end, all numbers
/// first move into a tree. So each number moves there at most once, and only in a log with such a removal.
#[derive(Drop)]
pub(crate) struct Numbers {
    // the lesser numbers
    settled: BTreeSet<u64>,
    // the greater ones
    tail: Vec<u64>,
}

impl Model for Numbers {
    ghost use Rattle.std.specs.Prelude.{◌++◌, List, ℕ};
    ghost use Rattle.dependence.specs.Rising.{Rises};

    ghost Value = { List ℕ };

    ghost view = { λ n. n.settled.keys ++ n.tail.items };

    ghost invariant = { λ n. Rises (n.settled.keys ++ n.tail.items) };
}

impl Numbers {
    pub(crate) fn empty(alloc: Global) -> Numbers
        ensures { result ≡ [] }
    {
        Numbers {
            settled: BTreeSet::new(alloc),
            tail: Vec::new(alloc),
        }
    }

    pub(crate) fn push(&mut self, entry: u64) -> Result<(), OutOfMemory>
        requires { All (λ k. k < entry) self.old }
        ensures ok { OnOk result (self.new ≡ self.old ++ entry ∷ []) }
        ensures err { OnErr result (self.new ≡ self.old) }
    {
        self.tail.push(entry)?;
        Ok(())
    }

    // Appends the number, if it is not there yet.
    pub(crate) fn place(&mut self, entry: u64) -> Result<(), OutOfMemory>
        requires { IsReached entry self.old }
        ensures ok { OnOk result (self.new ≡ insert_key nat_cmp self.old entry) }
        ensures err { OnErr result (self.new ≡ self.old) }
    {
        if self.ends_in(entry) {
            return Ok(());
        }
        self.push(entry)
    }

    fn ends_in(&self, entry: u64) -> bool
        ensures { IsTrue result ↔ (last_of self.now ≡ Some entry) }
    {
        self.last() == Some(entry)
    }

    pub(crate) fn remove(&mut self, entry: u64)
        ensures taken { self.new ≡ without entry self.old }
        ensures gone { list_any (nat_eq entry) self.new ≡ false }
    {
        if self.tail.len() > MOVED_AT_MOST && !self.ends_in(entry) {
            self.settle_all();
        }
        self.take(entry);
    }

    // Moves the numbers of the vector into the tree, until memory runs out.
    fn settle_all(&mut self)
        ensures { self.new ≡ self.old }
    {
        settle(&mut self.settled, &mut self.tail);
    }

    fn take(&mut self, entry: u64)
        ensures taken { self.new ≡ without entry self.old }
        ensures gone { list_any (nat_eq entry) self.new ≡ false }
    {
        take_settled(&mut self.settled, entry);
        take_out(&mut self.tail, entry);
    }

    pub(crate) fn contains(&self, entry: u64) -> bool
        ensures { result ≡ list_any (nat_eq entry) self.now }
    {
        is_settled(&self.settled, entry) || is_among(&self.tail, entry)
    }

    pub(crate) fn last(&self) -> Option<u64>
        ensures { result ≡ last_of self.now }
    {
        match self.tail.last() {
            Some(last) => Some(*last),
            None => self.settled.last().copied(),
        }
    }

    pub(crate) fn first_after(&self, entry: u64) -> Option<u64>
        ensures least { IsLeastAbove entry self.now result }
        ensures first { result ≡ find (λ k. nat_lt entry k) self.now }
    {
        match first_settled(&self.settled, entry) {
            Some(first) => Some(first),
            None => first_above(&self.tail, entry),
        }
    }
}

// Moves the numbers of the vector, which are above those of the tree, into the tree. If memory runs out, the rest stay.
fn settle(settled: &mut BTreeSet<u64>, tail: &mut Vec<u64>)
    requires { Rises (settled.old.keys ++ tail.old.items) }
    ensures { settled.new.keys ++ tail.new.items ≡ settled.old.keys ++ tail.old.items }
{
    let mut moved = 0;
    for number in tail.iter() {
        let Ok(_) = settled.insert(*number) else {
            break;
        };
        moved += 1;
    }
    tail.rotate_left(moved);
    tail.truncate(tail.len() - moved);
}

// Removes the number from a rising vector.
fn take_out(numbers: &mut Vec<u64>, entry: u64)
    requires { Rises numbers.old.items }
    ensures { numbers.new.items ≡ without entry numbers.old.items }
{
    match numbers.binary_search(&entry) {
        Ok(at) => {
            numbers.remove(at);
        }
        Err(_) => {}
    }
}

// Removes the number from the tree.
fn take_settled(numbers: &mut BTreeSet<u64>, entry: u64)
    ensures { numbers.new.keys ≡ without entry numbers.old.keys }
{
    numbers.remove(&entry);
}

// Whether the number is in the tree.
fn is_settled(numbers: &BTreeSet<u64>, entry: u64) -> bool
    ensures { result ≡ list_any (nat_eq entry) numbers.now.keys }
{
    numbers.contains(&entry)
}

// Whether the number is in a rising list.
#[tactic(auto, using(crate::proofs::NumberLemmas::searched_any))]
fn is_among(numbers: &[u64], entry: u64) -> bool
    requires { Rises numbers.now }
    ensures { result ≡ list_any (nat_eq entry) numbers.now }
{
    numbers.binary_search(&entry).is_ok()
}

// The first number of the tree above this one.
fn first_settled(numbers: &BTreeSet<u64>, entry: u64) -> Option<u64>
    ensures { result ≡ find (λ k. nat_lt entry k) numbers.now.keys }
{
    let mut above = numbers.range((Bound::Excluded(entry), Bound::Unbounded));
    above.next().copied()
}

// The first number of a rising list above this one.
fn first_above(numbers: &[u64], entry: u64) -> Option<u64>
    requires { Rises numbers.now }
    ensures { result ≡ find (λ k. nat_lt entry k) numbers.now }
{
    match numbers.binary_search(&entry) {
        Ok(at) => number_at(numbers, at + 1),
        Err(at) => number_at(numbers, at),
    }
}

fn number_at(numbers: &[u64], at: usize) -> Option<u64>
    ensures { result ≡ slice_get numbers.now at }
{
    numbers.get(at).copied()
}
