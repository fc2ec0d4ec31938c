//! Rows that accepted commands change, as `Counted` sees them.
ghost use Rattle.std.specs.Prelude.{◌≡◌, ◌<◌, ◌+◌, ℕ, false, length, IsOk, OnOk, OnErr, IfOk, IfErr};
ghost use Rattle.moves.specs.Applied.{IsApplied, TakesBack};
ghost use Rattle.moves.specs.Batches.{IsAppliedAll, TakesAllBack, AreOfTrace, AreBelow, CanTurnAll, IsTurnedAll};
ghost use Rattle.moves.specs.Boards.{IsBoardOf};
ghost use Rattle.moves.specs.Inverses.{IsStepOf, IsStepBelow, CanTurn, IsTurned, wants_memory};
ghost use Rattle.moves.specs.Rows.{Rows, Below, IsOfTrace};
ghost use Rattle.moves.specs.Ages.{age};

use event_index::Indexed;
use moves::{BatchRefusal, Birth, Board, Command, Inverse, Inverses, MoveRefusal, Workspace};
use rapid_text::OutOfMemory;

/// Rows that accepted commands change. Each method repeats the workspace's clauses, and adds `changed`, a relation of
/// which nothing else is known. No clause adds two changes up. So code over any `Changing` can prove how often it
/// changed the rows only if it made exactly that many changes.
pub(crate) trait Changing {
    /// The rows.
    ghost rows: { Self → Rows };

    /// This number of commands, applied or taken back, led from the first rows to the second.
    ghost changed: { ℕ → Self → Self → Type 0 };

    /// Without a call there is no change.
    ghost unchanged: { (w : Self) → changed 0 w w };

    /// Applies the command: one change, or none.
    fn enact(
        &mut self,
        indexed: &Indexed,
        board: &Board,
        birth: Birth,
        command: &Command,
    ) -> Result<Inverse, MoveRefusal>
        requires of_trace { IsOfTrace indexed.now (rows self.old) }
        requires board { IsBoardOf indexed.now board.now }
        requires late { Below birth (rows self.old) }
        ensures applied { IsApplied indexed.now board.now birth command.now (rows self.old) (rows self.new) result }
        ensures back { IfOk result (λ inverse. TakesBack inverse (rows self.new) (rows self.old)) }
        ensures of_trace { IsOfTrace indexed.now (rows self.new) }
        ensures late { Below (birth + 1) (rows self.new) }
        ensures step_of_trace { IfOk result (λ inverse. IsStepOf indexed.now inverse.step) }
        ensures step_late { IfOk result (λ inverse. IsStepBelow birth inverse.step) }
        ensures changed { OnOk result (changed 1 self.old self.new) }
        ensures unchanged { OnErr result (changed 0 self.old self.new) };

    /// Applies all of the commands, a change for each, or none.
    fn enact_all(
        &mut self,
        indexed: &Indexed,
        board: &Board,
        entry: u64,
        commands: &[Command],
    ) -> Result<Inverses, BatchRefusal>
        requires of_trace { IsOfTrace indexed.now (rows self.old) }
        requires board { IsBoardOf indexed.now board.now }
        requires late { Below (age entry 0) (rows self.old) }
        requires few { length commands.now < 4294967296 }
        ensures applied { IsAppliedAll indexed.now board.now (age entry 0) commands.now (rows self.old) (rows self.new)
            result }
        ensures back { IfOk result (λ inverses. TakesAllBack inverses (rows self.new) (rows self.old)) }
        ensures of_trace { IsOfTrace indexed.now (rows self.new) }
        ensures late { Below (age (entry + 1) 0) (rows self.new) }
        ensures steps_of_trace { IfOk result (λ inverses. AreOfTrace indexed.now inverses) }
        ensures steps_late { IfOk result (λ inverses. AreBelow (age (entry + 1) 0) inverses) }
        ensures changed { OnOk result (changed (length commands.now) self.old self.new) }
        ensures unchanged { OnErr result (changed 0 self.old self.new) };

    /// Takes a command back: one change, or none.
    fn revoke(&mut self, indexed: &Indexed, inverse: Inverse) -> Result<(), (Inverse, OutOfMemory)>
        requires of_trace { IsOfTrace indexed.now (rows self.old) }
        requires step { IsStepOf indexed.now inverse.step }
        requires fits { CanTurn inverse.name inverse.step (rows self.old) }
        ensures ok { OnOk result (IsTurned inverse.name inverse.step (rows self.old) (rows self.new)) }
        ensures err { OnErr result (rows self.new ≡ rows self.old) }
        ensures back { IfErr result (λ refused. refused.0 ≡ inverse) }
        ensures succeeds { wants_memory inverse.step ≡ false → IsOk result }
        ensures of_trace { IsOfTrace indexed.now (rows self.new) }
        ensures late { (n : ℕ) → Below n (rows self.old) → IsStepBelow n inverse.step → Below n (rows self.new) }
        ensures changed { OnOk result (changed 1 self.old self.new) }
        ensures unchanged { OnErr result (changed 0 self.old self.new) };

    /// Takes all of a batch back, a change for each command, or nothing.
    fn revoke_all(
        &mut self,
        indexed: &Indexed,
        inverses: Inverses,
    ) -> Result<(), (Inverses, OutOfMemory)>
        requires of_trace { IsOfTrace indexed.now (rows self.old) }
        requires steps { AreOfTrace indexed.now inverses }
        requires fits { CanTurnAll inverses (rows self.old) }
        ensures ok { OnOk result (IsTurnedAll inverses (rows self.old) (rows self.new)) }
        ensures err { OnErr result (rows self.new ≡ rows self.old) }
        ensures back { IfErr result (λ refused. refused.0 ≡ inverses) }
        ensures of_trace { IsOfTrace indexed.now (rows self.new) }
        ensures late { (n : ℕ) → Below n (rows self.old) → AreBelow n inverses → Below n (rows self.new) }
        ensures changed { OnOk result (changed (length inverses) self.old self.new) }
        ensures unchanged { OnErr result (changed 0 self.old self.new) };
}

impl Changing for Workspace {
    ghost use Rattle.std.specs.Prelude.{⊤};

    ghost rows = { λ w. w };

    ghost changed = { λ n w v. ⊤ };

    ghost unchanged = { λ w. tt };

    fn enact(
        &mut self,
        indexed: &Indexed,
        board: &Board,
        birth: Birth,
        command: &Command,
    ) -> Result<Inverse, MoveRefusal> {
        self.apply(indexed, board, birth, command)
    }

    fn enact_all(
        &mut self,
        indexed: &Indexed,
        board: &Board,
        entry: u64,
        commands: &[Command],
    ) -> Result<Inverses, BatchRefusal> {
        self.apply_all(indexed, board, entry, commands)
    }

    fn revoke(
        &mut self,
        indexed: &Indexed,
        inverse: Inverse,
    ) -> Result<(), (Inverse, OutOfMemory)> {
        self.take_back(indexed, inverse)
    }

    fn revoke_all(
        &mut self,
        indexed: &Indexed,
        inverses: Inverses,
    ) -> Result<(), (Inverses, OutOfMemory)> {
        self.take_back_all(indexed, inverses)
    }
}
