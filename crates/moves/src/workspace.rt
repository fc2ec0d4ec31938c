//! The workspace: named schedules, in the order in which they were made.
ghost use Rattle.std.specs.Prelude.{◌≡◌, ◌+◌, ◌<◌, ℕ, [], length, slice_get, option_map, Some, None, false, Ok, Err, OnOk, OnErr, IsOk, IfOk, IfErr, IfSome, IfNone};
ghost use Rattle.moves.specs.declared.row.Row.{Row as RowValue};
ghost use Rattle.moves.specs.Rows.{Rows, row_of, IsListing, IsOfTrace, Below, names_of};
ghost use Rattle.moves.specs.Boards.{IsBoardOf};
ghost use Rattle.moves.specs.Inverses.{CanTurn, IsTurned, IsStepOf, IsStepBelow, wants_memory};
ghost use Rattle.moves.specs.Applied.{IsApplied, IsChecked, TakesBack};
ghost use Rattle.moves.specs.Ages.{age};
ghost use Rattle.moves.specs.Ready.{MayRun};
ghost use Rattle.moves.specs.Batches.{IsAppliedAll, TakesAllBack, CanTurnAll, IsTurnedAll, AreOfTrace, AreBelow};

mod apart;

use crate::batch::{self, BatchRefusal, Inverses};
use crate::birth::Birth;
use crate::board::Board;
use crate::command::Command;
use crate::inverse::Inverse;
use crate::judged::judge;
use crate::listing::Listing;
use crate::lists::Names;
use crate::name::Name;
use crate::refusal::MoveRefusal;
use event_index::Indexed;
use rapid_text::{OutOfMemory, TextKeyed};
use schedule::Schedule;
use std::alloc::Global;
use std::marker::Model;

/// Named schedules of one trace. Contracts see it as the list of names and rows, by rising birth.
#[derive(Drop)]
pub struct Workspace {
    alloc: Global,
    rows: Listing,
}

impl Model for Workspace {
    ghost use Rattle.moves.specs.Rows.{Rows, IsListing};

    ghost Value = { Rows };

    ghost view = { λ w. w.rows };

    ghost invariant = { λ w. IsListing w.rows };
}

impl Workspace {
    /// The workspace with no schedule. It takes no memory yet: `alloc` is kept for later.
    pub fn empty(alloc: Global) -> Result<Workspace, OutOfMemory>
        ensures ok { IfOk result (λ w. w ≡ []) }
        ensures succeeds { IsOk result }
    {
        Ok(Workspace::keyed(alloc, TextKeyed::of(b"")))
    }

    /// The same. The caller gives the keyed hashers for the names.
    pub fn keyed(alloc: Global, hashers: TextKeyed) -> Workspace
        ensures { result ≡ [] }
    {
        Workspace {
            alloc,
            rows: Listing::new(alloc, hashers),
        }
    }

    /// The number of schedules.
    pub fn len(&self) -> usize
        ensures len { result ≡ length self.now }
        // Names differ, and births rise.
        ensures listing { IsListing self.now }
    {
        self.rows.len()
    }

    /// The name, the birth and the schedule at this index, by rising birth.
    pub fn row(&self, at: usize) -> (Name, Birth, &Schedule)
        requires { at < length self.now }
        ensures { slice_get self.now at
            ≡ Some (result.0, record { birth = result.1; schedule = result.2.now }) }
    {
        let (name, row) = self.rows.row_at(at);
        (name, row.birth, &row.schedule)
    }

    /// The schedule of this name.
    pub fn get(&self, name: &Name) -> Option<&Schedule>
        ensures none { IfNone result (row_of self.now name.now ≡ None) }
        ensures some { IfSome result
            (λ s. option_map (λ (r : RowValue). r.schedule) (row_of self.now name.now) ≡ Some s.now) }
    {
        self.rows.get(name)
    }

    /// The names, by rising birth.
    pub fn names(&self, alloc: Global) -> Result<Names, OutOfMemory>
        ensures { IfOk result (λ names. names ≡ names_of self.now) }
    {
        self.rows.names(alloc)
    }

    /// Whether the command would be accepted, or its first refusal. Takes no memory.
    pub fn check(
        &self,
        indexed: &Indexed,
        board: &Board,
        command: &Command,
    ) -> Result<(), MoveRefusal>
        requires { IsOfTrace indexed.now self.now }
        ensures { (n : ℕ) → IsChecked indexed.now board.now n command.now self.now result }
    {
        match judge(&self.rows, indexed, board, command) {
            Ok(_) => Ok(()),
            Err(why) => Err(why),
        }
    }

    /// Applies the command, and returns what takes it back. A row that it makes has this birth.
    pub fn apply(
        &mut self,
        indexed: &Indexed,
        board: &Board,
        birth: Birth,
        command: &Command,
    ) -> Result<Inverse, MoveRefusal>
        requires of_trace { IsOfTrace indexed.now self.old }
        requires board { IsBoardOf indexed.now board.now }
        requires late { Below birth self.old }
        ensures applied { IsApplied indexed.now board.now birth command.now self.old self.new result }
        // Taken back at once, the inverse restores the rows.
        ensures back { IfOk result (λ inverse. TakesBack inverse self.new self.old) }
        // What the next call requires.
        ensures of_trace { IsOfTrace indexed.now self.new }
        ensures late { Below (birth + 1) self.new }
        ensures step_of_trace { IfOk result (λ inverse. IsStepOf indexed.now inverse.step) }
        ensures step_late { IfOk result (λ inverse. IsStepBelow birth inverse.step) }
    {
        self.rows.apply(self.alloc, indexed, board, birth, command)
    }

    /// Takes back a command whose written name still has what the command left there. Other rows may have changed, come
    /// or gone since.
    pub fn take_back(
        &mut self,
        indexed: &Indexed,
        inverse: Inverse,
    ) -> Result<(), (Inverse, OutOfMemory)>
        requires of_trace { IsOfTrace indexed.now self.old }
        requires step { IsStepOf indexed.now inverse.step }
        requires fits { CanTurn inverse.name inverse.step self.old }
        ensures ok { OnOk result (IsTurned inverse.name inverse.step self.old self.new) }
        ensures err { OnErr result (self.new ≡ self.old) }
        ensures back { IfErr result (λ refused. refused.0 ≡ inverse) }
        // It fails only if the step adds a row or appends an event.
        ensures succeeds { wants_memory inverse.step ≡ false → IsOk result }
        // What the next call requires. A row that is added may be as late as its birth says.
        ensures of_trace { IsOfTrace indexed.now self.new }
        ensures late { (n : ℕ) → Below n self.old → IsStepBelow n inverse.step → Below n self.new }
    {
        let name = inverse.name;
        let Err(step) = self.rows.turn(indexed, &name, inverse.step) else {
            return Ok(());
        };
        Err((Inverse { name, step }, OutOfMemory))
    }

    /// Applies all of the commands, one after another, or none. A row that a command makes has this entry and the index
    /// of the command as its birth.
    pub fn apply_all(
        &mut self,
        indexed: &Indexed,
        board: &Board,
        entry: u64,
        commands: &[Command],
    ) -> Result<Inverses, BatchRefusal>
        requires of_trace { IsOfTrace indexed.now self.old }
        requires board { IsBoardOf indexed.now board.now }
        requires late { Below (age entry 0) self.old }
        requires few { length commands.now < 4294967296 }
        ensures applied { IsAppliedAll indexed.now board.now (age entry 0) commands.now self.old self.new result }
        // Taken back at once, the inverses restore the rows.
        ensures back { IfOk result (λ inverses. TakesAllBack inverses self.new self.old) }
        // What the next call requires.
        ensures of_trace { IsOfTrace indexed.now self.new }
        ensures late { Below (age (entry + 1) 0) self.new }
        ensures steps_of_trace { IfOk result (λ inverses. AreOfTrace indexed.now inverses) }
        ensures steps_late { IfOk result (λ inverses. AreBelow (age (entry + 1) 0) inverses) }
    {
        let _ = self.len();
        self.run_all(indexed, board, entry, commands)
    }

    // Runs a batch in place if no memory is needed to take back all commands but the last. Then a refusal can always
    // take back the commands before it. Runs any other batch on a copy, which then replaces the rows.
    fn run_all(
        &mut self,
        indexed: &Indexed,
        board: &Board,
        entry: u64,
        commands: &[Command],
    ) -> Result<Inverses, BatchRefusal>
        requires { MayRun indexed.now board.now entry commands.now self.old }
        ensures { IsAppliedAll indexed.now board.now (age entry 0) commands.now self.old self.new result }
    {
        let Ok(items) = Vec::with_capacity(self.alloc, commands.len()) else {
            return Err(BatchRefusal::OutOfMemory);
        };
        if batch::builds_up(commands) {
            return batch::run_here(self, items, indexed, board, entry, commands);
        }
        self.run_apart(items, indexed, board, entry, commands)
    }

    /// Takes back all of a batch, the last command first, or nothing. Each written name still has what the batch left
    /// there. Other rows may have changed, come or gone since.
    pub fn take_back_all(
        &mut self,
        indexed: &Indexed,
        inverses: Inverses,
    ) -> Result<(), (Inverses, OutOfMemory)>
        requires of_trace { IsOfTrace indexed.now self.old }
        requires steps { AreOfTrace indexed.now inverses }
        requires fits { CanTurnAll inverses self.old }
        ensures ok { OnOk result (IsTurnedAll inverses self.old self.new) }
        ensures err { OnErr result (self.new ≡ self.old) }
        ensures back { IfErr result (λ refused. refused.0 ≡ inverses) }
        // What the next call requires.
        ensures of_trace { IsOfTrace indexed.now self.new }
        ensures late { (n : ℕ) → Below n self.old → AreBelow n inverses → Below n self.new }
    {
        self.turn_all(indexed, inverses)
    }

    // Works in place if only the first step taken may need memory, otherwise on a copy.
    fn turn_all(
        &mut self,
        indexed: &Indexed,
        mut inverses: Inverses,
    ) -> Result<(), (Inverses, OutOfMemory)>
        requires of_trace { IsOfTrace indexed.now self.old }
        requires steps { AreOfTrace indexed.now inverses }
        requires fits { CanTurnAll inverses self.old }
        ensures ok { OnOk result (IsTurnedAll inverses self.old self.new) }
        ensures err { OnErr result (self.new ≡ self.old) }
        ensures back { IfErr result (λ refused. refused.0 ≡ inverses) }
    {
        let Some(last) = inverses.items.pop() else {
            return Ok(());
        };
        if !batch::are_spare(&inverses.items) {
            inverses.items.push_reserved(last);
            return self.turn_apart(indexed, inverses);
        }
        let Err((last, why)) = self.take_back(indexed, last) else {
            batch::unwind(self, indexed, inverses.items);
            return Ok(());
        };
        inverses.items.push_reserved(last);
        Err((inverses, why))
    }
}
