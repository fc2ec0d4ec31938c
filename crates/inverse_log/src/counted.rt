//! The rows of a bench, and how often they were changed.
ghost use Rattle.std.specs.Prelude.{◌≡◌, ◌<◌, ◌≤◌, ◌+◌, length, OnOk, OnErr, IfOk, IfErr};
ghost use Rattle.moves.specs.Ages.{age};
ghost use Rattle.moves.specs.Applied.{IsApplied};
ghost use Rattle.moves.specs.Batches.{IsAppliedAll, AreOfTrace, CanTurnAll};
ghost use Rattle.moves.specs.Boards.{IsBoardOf};
ghost use Rattle.moves.specs.Inverses.{IsStepOf};
ghost use Rattle.moves.specs.Rows.{Below, IsOfTrace};
ghost use Rattle.inverse_log.specs.Steps.{IsTakenBack, inverses_of};

use crate::changing::Changing;
use crate::kept::Held;
use event_index::Indexed;
use moves::{BatchRefusal, Birth, Board, Command, Inverse, Inverses, MoveRefusal};

/// A workspace with the count of its changes. The two are a type of their own, and the workspace may be any `Changing`.
/// So each change of a row is counted once, even one that is changed back.
#[derive(Drop)]
pub(crate) struct Counted<W: Changing> {
    rows: W,
    edits: u64,
}

impl<W: Changing> Counted<W> {
    /// The workspace with no change counted.
    pub(crate) fn new(rows: W) -> Counted<W>
        ensures rows { result.rows ≡ rows }
        ensures edits { result.edits ≡ 0 }
    {
        Counted { rows, edits: 0 }
    }

    /// The workspace.
    pub(crate) fn workspace(&self) -> &W
        ensures { result.now ≡ self.now.rows }
    {
        &self.rows
    }

    /// How often it was changed.
    pub(crate) fn edits(&self) -> u64
        ensures { result ≡ self.now.edits }
    {
        self.edits
    }

    /// Applies the command of this entry, and counts the change.
    pub(crate) fn apply(
        &mut self,
        indexed: &Indexed,
        board: &Board,
        entry: u64,
        command: &Command,
    ) -> Result<Inverse, MoveRefusal>
        requires of_trace { IsOfTrace indexed.now (W.rows self.old.rows) }
        requires board { IsBoardOf indexed.now board.now }
        requires late { Below (age entry 0) (W.rows self.old.rows) }
        requires few { self.old.edits < 64000000 }
        ensures applied { IsApplied indexed.now board.now (age entry 0) command.now (W.rows self.old.rows)
            (W.rows self.new.rows) result }
        ensures step { IfOk result (λ inverse. IsStepOf indexed.now inverse.step) }
        ensures counted { OnOk result (self.new.edits ≡ self.old.edits + 1) }
        ensures same { OnErr result (self.new.edits ≡ self.old.edits) }
        // As many changes as the count says.
        ensures changed { OnOk result (W.changed 1 self.old.rows self.new.rows) }
        ensures unchanged { OnErr result (W.changed 0 self.old.rows self.new.rows) }
    {
        let birth = Birth::new(entry, 0);
        let inverse = self.rows.enact(indexed, board, birth, command)?;
        self.edits += 1;
        Ok(inverse)
    }

    /// Applies the commands of this entry, all or none, and counts a change for each.
    pub(crate) fn apply_all(
        &mut self,
        indexed: &Indexed,
        board: &Board,
        entry: u64,
        commands: &[Command],
    ) -> Result<Inverses, BatchRefusal>
        requires of_trace { IsOfTrace indexed.now (W.rows self.old.rows) }
        requires board { IsBoardOf indexed.now board.now }
        requires late { Below (age entry 0) (W.rows self.old.rows) }
        requires few { self.old.edits < 64000000 }
        requires short { length commands.now ≤ 64 }
        ensures applied { IsAppliedAll indexed.now board.now (age entry 0) commands.now (W.rows self.old.rows)
            (W.rows self.new.rows) result }
        ensures steps { IfOk result (λ inverses. AreOfTrace indexed.now inverses) }
        ensures counted { OnOk result (self.new.edits ≡ self.old.edits + length commands.now) }
        ensures same { OnErr result (self.new.edits ≡ self.old.edits) }
        ensures changed { OnOk result (W.changed (length commands.now) self.old.rows self.new.rows) }
        ensures unchanged { OnErr result (W.changed 0 self.old.rows self.new.rows) }
    {
        let inverses = self.rows.enact_all(indexed, board, entry, commands)?;
        self.edits += commands.len() as u64;
        Ok(inverses)
    }

    /// Takes commands back, all or none, by what is kept for them, and counts a change for each. If memory runs out,
    /// returns what is kept.
    pub(crate) fn take_back(
        &mut self,
        indexed: &Indexed,
        commands: &[Command],
        held: Held,
    ) -> Result<(), Held>
        requires of_trace { IsOfTrace indexed.now (W.rows self.old.rows) }
        requires steps { AreOfTrace indexed.now (inverses_of held commands.now) }
        requires fits { CanTurnAll (inverses_of held commands.now) (W.rows self.old.rows) }
        requires few { self.old.edits < 64000000 }
        requires short { length commands.now ≤ 64 }
        requires whole { length (inverses_of held commands.now) ≡ length commands.now }
        ensures ok { OnOk result (IsTakenBack held commands.now (W.rows self.old.rows) (W.rows self.new.rows)) }
        ensures err { OnErr result (W.rows self.new.rows ≡ W.rows self.old.rows) }
        ensures back { IfErr result (λ back. back ≡ held) }
        ensures counted { OnOk result (self.new.edits ≡ self.old.edits + length commands.now) }
        ensures same { OnErr result (self.new.edits ≡ self.old.edits) }
        ensures changed { OnOk result (W.changed (length commands.now) self.old.rows self.new.rows) }
        ensures unchanged { OnErr result (W.changed 0 self.old.rows self.new.rows) }
    {
        turn_back(&mut self.rows, indexed, commands, held)?;
        self.edits += commands.len() as u64;
        Ok(())
    }
}

/// Takes commands back: a single one in place.
fn turn_back<W: Changing>(
    rows: &mut W,
    indexed: &Indexed,
    commands: &[Command],
    held: Held,
) -> Result<(), Held>
    requires of_trace { IsOfTrace indexed.now (W.rows rows.old) }
    requires steps { AreOfTrace indexed.now (inverses_of held commands.now) }
    requires fits { CanTurnAll (inverses_of held commands.now) (W.rows rows.old) }
    ensures ok { OnOk result (IsTakenBack held commands.now (W.rows rows.old) (W.rows rows.new)) }
    ensures err { OnErr result (W.rows rows.new ≡ W.rows rows.old) }
    ensures back { IfErr result (λ back. back ≡ held) }
    ensures changed { OnOk result (W.changed (length (inverses_of held commands.now)) rows.old rows.new) }
    ensures unchanged { OnErr result (W.changed 0 rows.old rows.new) }
{
    match held {
        Held::Nothing => Ok(()),
        Held::One(step) => {
            let Some((command, _)) = commands.split_first() else {
                return Ok(());
            };
            let name = command.writes();
            match rows.revoke(indexed, Inverse { name, step }) {
                Ok(()) => Ok(()),
                Err((inverse, _)) => Err(Held::One(inverse.step)),
            }
        }
        Held::Many(inverses) => match rows.revoke_all(indexed, inverses) {
            Ok(()) => Ok(()),
            Err((inverses, _)) => Err(Held::Many(inverses)),
        },
    }
}
