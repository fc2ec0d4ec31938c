//! The rows of a workspace by birth, and each name's birth beside them.
ghost use Rattle.std.specs.Prelude.{◌≡◌, ◌<◌, [], true, false, OnOk, OnErr, IsOk, IfOk, IfErr, IfSome, IfNone, Some, None, is_some, length, slice_get, take, option_map, ◌+◌};
ghost use Rattle.std.specs.Map.{remove_entry};
ghost use Rattle.std.specs.Str.{bytes_eq};
ghost use Rattle.moves.specs.declared.row.Row.{Row as RowValue};
ghost use Rattle.moves.specs.Rows.{row_of, put_in, names_of, IsListing, IsFree, IsOfTrace, Below};
ghost use Rattle.moves.specs.Applied.{IsAt, IsApplied};
ghost use Rattle.moves.specs.Boards.{IsBoardOf};
ghost use Rattle.moves.specs.Inverses.{CanTurn, IsTurned, Fits, wants_memory, is_change};

mod births;

use crate::birth::Birth;
use crate::board::Board;
use crate::command::Command;
use crate::guesses::Guesses;
use crate::inverse::{Inverse, Step};
use crate::judged::{copy_of, judge};
use crate::lists::Names;
use crate::name::Name;
use crate::refusal::MoveRefusal;
use crate::rising::Rising;
use crate::row::Row;
use births::{Births, birth_noted, birth_of, take_birth};
use event_index::Indexed;
use indexmap::IndexMap;
use rapid_text::{OutOfMemory, TextKeyed};
use schedule::Schedule;
use std::alloc::Global;
use std::marker::Model;

/// The rows by name. Contracts see it as the list of names and rows, by rising birth.
#[derive(Drop)]
pub(crate) struct Listing {
    births: Births,
    // the guessed indexes of names among the births
    guesses: Guesses,
    rows: Rising,
}

impl Model for Listing {
    ghost use Rattle.std.specs.Map.{values_of};
    ghost use Rattle.moves.specs.Rows.{Rows};
    ghost use Rattle.moves.specs.Births.{IsHeld};

    ghost Value = { Rows };

    ghost view = { λ l. values_of l.rows };

    ghost invariant = { λ l. IsHeld l.births.entries l.rows };
}

impl Listing {
    /// No rows. It takes no memory yet: `alloc` is kept for later.
    pub(crate) fn new(alloc: Global, hashers: TextKeyed) -> Listing
        ensures { result ≡ [] }
    {
        Listing {
            births: IndexMap::with_hasher(alloc, hashers),
            guesses: Guesses::new(),
            rows: Rising::new(alloc),
        }
    }

    /// The number of rows.
    pub(crate) fn len(&self) -> usize
        ensures len { result ≡ length self.now }
        ensures listing { IsListing self.now }
    {
        self.rows.len()
    }

    /// The name and the row at this index, by rising birth.
    pub(crate) fn row_at(&self, at: usize) -> (Name, &Row)
        requires { at < length self.now }
        ensures { slice_get self.now at ≡ Some (result.0, result.1.now) }
    {
        let (name, row) = self.rows.at(at);
        (*name, row)
    }

    /// The same, with the fact that the row is of the trace of the tables.
    fn row_of_trace_at(&self, indexed: &Indexed, at: usize) -> (Name, &Row)
        requires of_trace { IsOfTrace indexed.now self.now }
        requires at { at < length self.now }
        ensures row { slice_get self.now at ≡ Some (result.0, result.1.now) }
        ensures trace { result.1.now.schedule.trace ≡ indexed.now }
        ensures new { row_of (take at self.now) result.0 ≡ None }
        ensures free { IsFree (take at self.now) result.0 (Some result.1.now) }
        ensures end { put_in result.0 result.1.now (take at self.now) ≡ take (at + 1) self.now }
    {
        let _ = indexed;
        let _ = self.len();
        let (name, row) = self.row_at(at);
        (name, row)
    }

    /// The names, by rising birth.
    pub(crate) fn names(&self, alloc: Global) -> Result<Names, OutOfMemory>
        ensures { IfOk result (λ names. names ≡ names_of self.now) }
    {
        let mut names = Names::new(alloc);
        self.rows.append_names(&mut names)?;
        Ok(names)
    }

    /// A separate listing with the same rows.
    pub(crate) fn copied(&self, alloc: Global, indexed: &Indexed) -> Result<Listing, OutOfMemory>
        requires { IsOfTrace indexed.now self.now }
        ensures { IfOk result (λ copy. copy ≡ self.now) }
    {
        let mut copy = Listing::new(alloc, *self.births.hasher());
        for at in 0..self.len() {
            let (name, row) = self.row_of_trace_at(indexed, at);
            copy.put_copy(alloc, indexed, name, row)?;
        }
        Ok(copy)
    }

    // Appends a copy of a row.
    fn put_copy(
        &mut self,
        alloc: Global,
        indexed: &Indexed,
        name: Name,
        row: &Row,
    ) -> Result<(), OutOfMemory>
        requires of_trace { row.now.schedule.trace ≡ indexed.now }
        requires fresh { row_of self.old name ≡ None }
        requires free { IsFree self.old name (Some row.now) }
        ensures { OnOk result (self.new ≡ put_in name row.now self.old) }
    {
        let row = copy_of_row(row, alloc, indexed)?;
        match self.put(name, row) {
            Ok(()) => Ok(()),
            Err(_) => Err(OutOfMemory),
        }
    }

    /// Whether the name has a row.
    pub(crate) fn contains(&self, name: &Name) -> bool
        ensures { result ≡ is_some (row_of self.now name.now) }
    {
        self.births.contains_key(name)
    }

    /// The same, and quicker if the name has a row.
    pub(crate) fn has(&self, name: &Name) -> bool
        ensures { result ≡ is_some (row_of self.now name.now) }
    {
        self.find(name).is_some()
    }

    /// The birth of a name's row.
    pub(crate) fn find(&self, name: &Name) -> Option<Birth>
        ensures none { IfNone result (row_of self.now name.now ≡ None) }
        ensures some { IfSome result (λ birth. IsAt self.now birth name.now) }
    {
        let birth = birth_of(&self.births, self.guesses.place(name), name)?;
        Some(birth)
    }

    /// The schedule of this name.
    pub(crate) fn get(&self, name: &Name) -> Option<&Schedule>
        ensures none { IfNone result (row_of self.now name.now ≡ None) }
        ensures some { IfSome result
            (λ s. option_map (λ (r : RowValue). r.schedule) (row_of self.now name.now) ≡ Some s.now) }
    {
        let birth = self.find(name)?;
        let (_, row) = self.rows.get(birth.age())?;
        Some(&row.schedule)
    }

    /// The same, with the fact that the schedule is of the trace of the tables.
    pub(crate) fn schedule_of(&self, indexed: &Indexed, name: &Name) -> Option<&Schedule>
        requires { IsOfTrace indexed.now self.now }
        ensures none { IfNone result (row_of self.now name.now ≡ None) }
        ensures some { IfSome result
            (λ s. option_map (λ (r : RowValue). r.schedule) (row_of self.now name.now) ≡ Some s.now) }
        ensures trace { IfSome result (λ s. s.now.trace ≡ indexed.now) }
    {
        let _ = indexed;
        let schedule = self.get(name)?;
        Some(schedule)
    }

    /// Adds a row at its place by birth. If memory runs out, returns it.
    pub(crate) fn put(&mut self, name: Name, row: Row) -> Result<(), Row>
        requires fresh { row_of self.old name ≡ None }
        requires free { IsFree self.old name (Some row) }
        ensures ok { OnOk result (self.new ≡ put_in name row self.old) }
        ensures err { OnErr result (self.new ≡ self.old) }
        ensures back { IfErr result (λ r. r ≡ row) }
    {
        // reserves room for the name first, so that nothing has to be removed again
        let Ok(()) = self.births.reserve(1) else {
            return Err(row);
        };
        let birth = row.birth;
        match self.rows.insert(birth.age(), (name, row)) {
            Ok(()) => {
                self.guesses.note(&name, usize::MAX, self.births.len());
                let _ = self.births.insert(name, birth);
                Ok(())
            },
            Err((_, row)) => Err(row),
        }
    }

    /// Removes the row of a name and returns it.
    pub(crate) fn take(&mut self, name: &Name) -> Option<Row>
        ensures row { result ≡ row_of self.old name.now }
        ensures rows { self.new ≡ remove_entry (bytes_eq name.now) self.old }
        ensures gone { row_of self.new name.now ≡ None }
        ensures unchanged { IfNone result (self.new ≡ self.old) }
    {
        let birth = take_birth(&mut self.births, self.guesses.place(name), name)?;
        let (_, row) = self.rows.remove(birth.age()).unwrap();
        Some(row)
    }

    /// Applies the command, and returns what takes it back.
    pub(crate) fn apply(
        &mut self,
        alloc: Global,
        indexed: &Indexed,
        board: &Board,
        birth: Birth,
        command: &Command,
    ) -> Result<Inverse, MoveRefusal>
        requires listing { IsListing self.old }
        requires of_trace { IsOfTrace indexed.now self.old }
        requires board { IsBoardOf indexed.now board.now }
        requires late { Below birth self.old }
        ensures { IsApplied indexed.now board.now birth command.now self.old self.new result }
    {
        let judged = judge(self, indexed, board, command)?;
        let Ok(step) = judged.step(alloc, indexed, birth) else {
            return Err(MoveRefusal::OutOfMemory);
        };
        let name = command.writes();
        let Ok(step) = self.turn(indexed, &name, step) else {
            return Err(MoveRefusal::OutOfMemory);
        };
        Ok(Inverse { name, step })
    }

    /// Takes one step of the row of this name, and returns the step that leads back. If memory runs out, returns the
    /// step itself.
    pub(crate) fn turn(&mut self, indexed: &Indexed, name: &Name, step: Step) -> Result<Step, Step>
        requires listing { IsListing self.old }
        requires of_trace { IsOfTrace indexed.now self.old }
        requires fits { CanTurn name.now step self.old }
        ensures ok { OnOk result (IsTurned name.now step self.old self.new) }
        ensures back { IfOk result (λ back. Fits back (row_of self.old name.now) (row_of self.new name.now)) }
        ensures err { OnErr result (self.new ≡ self.old) }
        ensures returned { IfErr result (λ s. s ≡ step) }
        ensures succeeds { wants_memory step ≡ false → IsOk result }
    {
        match step {
            Step::Comes(row) => match self.put(*name, row) {
                Ok(()) => Ok(Step::Goes),
                Err(row) => Err(Step::Comes(row)),
            },
            Step::Goes => {
                let Some(row) = self.take(name) else {
                    return Err(Step::Goes);
                };
                let _events = row.schedule.events();
                Ok(Step::Comes(row))
            },
            other => self.change(indexed, name, other),
        }
    }

    /// The same for a step that keeps the row.
    fn change(&mut self, indexed: &Indexed, name: &Name, step: Step) -> Result<Step, Step>
        requires listing { IsListing self.old }
        requires of_trace { IsOfTrace indexed.now self.old }
        requires fits { CanTurn name.now step self.old }
        requires stays { is_change step ≡ true }
        ensures ok { OnOk result (IsTurned name.now step self.old self.new) }
        ensures back { IfOk result (λ back. Fits back (row_of self.old name.now) (row_of self.new name.now)) }
        ensures err { OnErr result (self.new ≡ self.old) }
        ensures returned { IfErr result (λ s. s ≡ step) }
        ensures succeeds { wants_memory step ≡ false → IsOk result }
    {
        let Some(birth) = birth_noted(&self.births, &mut self.guesses, name) else {
            return Err(step);
        };
        self.rows.turn(birth.age(), indexed, step)
    }
}

/// A separate row with the same birth and events.
pub(crate) fn copy_of_row(row: &Row, alloc: Global, indexed: &Indexed) -> Result<Row, OutOfMemory>
    requires { row.now.schedule.trace ≡ indexed.now }
    ensures { IfOk result (λ copy. copy ≡ row.now) }
{
    let schedule = copy_of(&row.schedule, alloc, indexed)?;
    Ok(Row {
        birth: row.birth,
        schedule,
    })
}
