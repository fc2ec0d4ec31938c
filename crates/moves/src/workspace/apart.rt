//! Batches that are applied, or taken back, on a copy of the rows.
ghost use Rattle.std.specs.Prelude.{◌≡◌, ◌+◌, ◌≤◌, [], length, vec_len, vec_capacity, Ok, Err, OnOk, OnErr, IfOk, IfErr};
ghost use Rattle.moves.specs.Rows.{IsOfTrace};
ghost use Rattle.moves.specs.Ages.{age};
ghost use Rattle.moves.specs.Ready.{MayRun};
ghost use Rattle.moves.specs.Batches.{IsAppliedAll, CanTurnAll, IsTurnedAll, AreOfTrace};

use super::Workspace;
use crate::batch::{self, BatchRefusal, Inverses};
use crate::board::Board;
use crate::command::Command;
use crate::inverse::Inverse;
use event_index::Indexed;
use rapid_text::OutOfMemory;
use std::mem;

impl Workspace {
    // Runs a batch on a copy, which then replaces the rows.
    pub(super) fn run_apart(
        &mut self,
        mut items: Vec<Inverse>,
        indexed: &Indexed,
        board: &Board,
        entry: u64,
        commands: &[Command],
    ) -> Result<Inverses, BatchRefusal>
        requires ready { MayRun indexed.now board.now entry commands.now self.old }
        requires none { items.items ≡ [] }
        requires room { vec_len items + length commands.now ≤ vec_capacity items }
        ensures { IsAppliedAll indexed.now board.now (age entry 0) commands.now self.old self.new result }
    {
        match self.run_on_copy(&mut items, indexed, board, entry, commands) {
            Ok(()) => Ok(Inverses { items }),
            Err(why) => {
                drop(items);
                Err(why)
            }
        }
    }

    // Runs a batch on a copy and fills `items`, which has room for an inverse of each command.
    fn run_on_copy(
        &mut self,
        items: &mut Vec<Inverse>,
        indexed: &Indexed,
        board: &Board,
        entry: u64,
        commands: &[Command],
    ) -> Result<(), BatchRefusal>
        requires ready { MayRun indexed.now board.now entry commands.now self.old }
        requires none { items.old.items ≡ [] }
        requires room { vec_len items.old + length commands.now ≤ vec_capacity items.old }
        ensures ok { OnOk result
            (IsAppliedAll indexed.now board.now (age entry 0) commands.now self.old self.new (Ok items.new.items)) }
        ensures err { IfErr result
            (λ why. IsAppliedAll indexed.now board.now (age entry 0) commands.now self.old self.new (Err why)) }
    {
        let Ok(mut copy) = self.copied(indexed) else {
            return Err(BatchRefusal::OutOfMemory);
        };
        match batch::run(&mut copy, items, indexed, board, entry, commands) {
            Ok(()) => {
                drop(mem::replace(self, copy));
                Ok(())
            }
            Err(why) => {
                drop(copy);
                Err(why)
            }
        }
    }

    // Takes a batch back on a copy, which then replaces the rows.
    pub(super) fn turn_apart(
        &mut self,
        indexed: &Indexed,
        inverses: Inverses,
    ) -> Result<(), (Inverses, OutOfMemory)>
        requires of_trace { IsOfTrace indexed.now self.old }
        requires steps { AreOfTrace indexed.now inverses }
        requires fits { CanTurnAll inverses self.old }
        ensures ok { OnOk result (IsTurnedAll inverses self.old self.new) }
        ensures err { OnErr result (self.new ≡ self.old) }
        ensures back { IfErr result (λ refused. refused.0 ≡ inverses) }
    {
        match self.turn_on_copy(indexed, &inverses.items) {
            Ok(()) => {
                drop(inverses);
                Ok(())
            }
            Err(why) => Err((inverses, why)),
        }
    }

    // Takes the steps on a copy. It borrows them, so that the caller can return them if memory runs out.
    fn turn_on_copy(&mut self, indexed: &Indexed, inverses: &[Inverse]) -> Result<(), OutOfMemory>
        requires of_trace { IsOfTrace indexed.now self.old }
        requires steps { AreOfTrace indexed.now inverses.now }
        requires fits { CanTurnAll inverses.now self.old }
        ensures ok { OnOk result (IsTurnedAll inverses.now self.old self.new) }
        ensures err { OnErr result (self.new ≡ self.old) }
    {
        let mut copy = self.copied(indexed)?;
        match batch::turn_back(&mut copy, self.alloc, indexed, inverses) {
            Ok(()) => {
                drop(mem::replace(self, copy));
                Ok(())
            }
            Err(_) => {
                drop(copy);
                Err(OutOfMemory)
            }
        }
    }

    // A separate workspace with the same rows.
    fn copied(&self, indexed: &Indexed) -> Result<Workspace, OutOfMemory>
        requires { IsOfTrace indexed.now self.now }
        ensures { IfOk result (λ copy. copy ≡ self.now) }
    {
        let rows = self.rows.copied(self.alloc, indexed)?;
        Ok(Workspace {
            alloc: self.alloc,
            rows,
        })
    }
}
