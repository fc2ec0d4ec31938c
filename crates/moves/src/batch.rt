//! Batches: commands of which all or none are applied, and what takes them back.
ghost use Rattle.std.specs.Prelude.{◌≡◌, ◌+◌, ◌<◌, ◌≤◌, ℕ, true, [], length, take, vec_len, vec_capacity, IfOk, OnOk};
ghost use Rattle.std.specs.List.{list_all};
ghost use Rattle.moves.specs.Ready.{MayRun};
ghost use Rattle.moves.specs.Rows.{IsOfTrace, Below};
ghost use Rattle.moves.specs.Ages.{age};
ghost use Rattle.moves.specs.Spares.{builds, spares_memory, is_spare};
ghost use Rattle.moves.specs.Inverses.{IsStepOf};
ghost use Rattle.moves.specs.Batches.{IsRun, IsAppliedAll, refused_as, CanTurnAll, IsTurnedAll, AreOfTrace};

use crate::birth::Birth;
use crate::board::Board;
use crate::command::Command;
use crate::inverse::{Inverse, Step};
use crate::judged::copy_of;
use crate::listing::copy_of_row;
use crate::refusal::MoveRefusal;
use crate::workspace::Workspace;
use event_index::Indexed;
use rapid_text::OutOfMemory;
use std::alloc::Global;
use std::marker::Model;

/// Why a batch is refused.
#[derive(Clone, Copy, PartialEq, Eq, Debug)]
pub enum BatchRefusal {
    /// 70: a command of the batch is refused.
    InBatch {
        /// Its index among the commands, from 0.
        place: u32,
        /// Why it is refused.
        cause: MoveRefusal,
    },
    /// 49: out of memory.
    OutOfMemory,
}

/// What takes the commands of a batch back: an inverse for each, in the order of the commands. Contracts see it as
/// that list.
#[derive(Drop)]
pub struct Inverses {
    pub(crate) items: Vec<Inverse>,
}

impl Model for Inverses {
    ghost use Rattle.std.specs.Prelude.{List};
    ghost use Rattle.moves.specs.declared.inverse.Inverse.{Inverse};

    ghost Value = { List Inverse };

    ghost view = { λ i. i.items.items };
}

/// Applies the commands one after another, up to the first refused one.
pub(crate) fn run(
    rows: &mut Workspace,
    inverses: &mut Vec<Inverse>,
    indexed: &Indexed,
    board: &Board,
    entry: u64,
    commands: &[Command],
) -> Result<(), BatchRefusal>
    requires ready { MayRun indexed.now board.now entry commands.now rows.old }
    requires none { inverses.old.items ≡ [] }
    requires room { vec_len inverses.old + length commands.now ≤ vec_capacity inverses.old }
    ensures run { IsRun indexed.now board.now (age entry 0) commands.now rows.old rows.new inverses.new.items result }
    ensures of_trace { IsOfTrace indexed.now rows.new }
    ensures late { Below (age entry 0 + length commands.now) rows.new }
{
    let mut place: u32 = 0;
    for command in commands {
        match rows.apply(indexed, board, Birth::new(entry, place), command) {
            Ok(inverse) => inverses.push_reserved(inverse),
            Err(cause) => return Err(refused(place, cause)),
        }
        place += 1;
    }
    Ok(())
}

/// The refusal of the command at this index.
fn refused(place: u32, cause: MoveRefusal) -> BatchRefusal
    ensures { result ≡ refused_as place cause }
{
    match cause {
        MoveRefusal::OutOfMemory => BatchRefusal::OutOfMemory,
        cause => BatchRefusal::InBatch { place, cause },
    }
}

/// Applies all of the commands in place, or none. Taking back the commands before a refusal needs no memory.
pub(crate) fn run_here(
    rows: &mut Workspace,
    mut done: Vec<Inverse>,
    indexed: &Indexed,
    board: &Board,
    entry: u64,
    commands: &[Command],
) -> Result<Inverses, BatchRefusal>
    requires ready { MayRun indexed.now board.now entry commands.now rows.old }
    requires none { done.items ≡ [] }
    requires room { vec_len done + length commands.now ≤ vec_capacity done }
    requires builds { (k : ℕ) → k < length commands.now → list_all builds (take k commands.now) ≡ true }
    ensures { IsAppliedAll indexed.now board.now (age entry 0) commands.now rows.old rows.new result }
{
    let Err(why) = run(rows, &mut done, indexed, board, entry, commands) else {
        return Ok(Inverses { items: done });
    };
    unwind(rows, indexed, done);
    Err(why)
}

/// Whether no memory is needed to take back all commands but the last.
pub(crate) fn builds_up(commands: &[Command]) -> bool
    ensures { result ≡ true → (k : ℕ) → k < length commands.now → list_all builds (take k commands.now) ≡ true }
{
    match commands.split_last() {
        None => true,
        Some((last, earlier)) => {
            let _ = last;
            all_build(earlier)
        },
    }
}

fn all_build(commands: &[Command]) -> bool
    ensures { result ≡ list_all builds commands.now }
{
    commands.iter().all(|command| builds(command))
}

fn builds(command: &Command) -> bool
    ensures { result ≡ builds command.now }
{
    match *command {
        Command::Fresh { name: _ } => true,
        Command::Add { name: _, event: _ } => true,
        Command::Back { name: _ } => false,
        Command::Swap { name: _, at: _ } => true,
        Command::Branch {
            name: _,
            length: _,
            to: _,
        } => true,
        Command::Drop { name: _ } => false,
        Command::Adopt {
            name: _,
            proposal: _,
        } => false,
    }
}

/// Whether none of the steps needs memory.
pub(crate) fn are_spare(inverses: &[Inverse]) -> bool
    ensures { result ≡ list_all is_spare inverses.now }
{
    inverses.iter().all(|inverse| spares_memory(&inverse.step))
}

fn spares_memory(step: &Step) -> bool
    ensures { result ≡ spares_memory step.now }
{
    match step {
        Step::Comes(_) => false,
        Step::Gains(_) => false,
        Step::Goes => true,
        Step::Was(_) => true,
        Step::Loses => true,
        Step::Exchanges(_) => true,
    }
}

/// Takes the commands back in place, the last first. No step needs memory.
pub(crate) fn unwind(rows: &mut Workspace, indexed: &Indexed, mut inverses: Vec<Inverse>)
    requires of_trace { IsOfTrace indexed.now rows.old }
    requires inverses { AreOfTrace indexed.now inverses.items }
    requires fits { CanTurnAll inverses.items rows.old }
    requires spare { list_all is_spare inverses.items ≡ true }
    ensures { IsTurnedAll inverses.items rows.old rows.new }
{
    let Some(inverse) = inverses.pop() else {
        return;
    };
    let _ = rows.take_back(indexed, inverse);
    unwind(rows, indexed, inverses);
}

/// Takes the commands back, the last first, by copies of the steps.
pub(crate) fn turn_back(
    rows: &mut Workspace,
    alloc: Global,
    indexed: &Indexed,
    inverses: &[Inverse],
) -> Result<(), OutOfMemory>
    requires of_trace { IsOfTrace indexed.now rows.old }
    requires inverses { AreOfTrace indexed.now inverses.now }
    requires fits { CanTurnAll inverses.now rows.old }
    ensures { OnOk result (IsTurnedAll inverses.now rows.old rows.new) }
{
    let Some((last, earlier)) = inverses.split_last() else {
        return Ok(());
    };
    let inverse = copied(last, alloc, indexed)?;
    let Ok(()) = rows.take_back(indexed, inverse) else {
        return Err(OutOfMemory);
    };
    turn_back(rows, alloc, indexed, earlier)
}

/// A separate copy of an inverse.
fn copied(inverse: &Inverse, alloc: Global, indexed: &Indexed) -> Result<Inverse, OutOfMemory>
    requires { IsStepOf indexed.now inverse.now.step }
    ensures { IfOk result (λ copy. copy ≡ inverse.now) }
{
    let step = copied_step(&inverse.step, alloc, indexed)?;
    Ok(Inverse {
        name: inverse.name,
        step,
    })
}

fn copied_step(step: &Step, alloc: Global, indexed: &Indexed) -> Result<Step, OutOfMemory>
    requires { IsStepOf indexed.now step.now }
    ensures { IfOk result (λ copy. copy ≡ step.now) }
{
    match step {
        Step::Goes => Ok(Step::Goes),
        Step::Comes(row) => Ok(Step::Comes(copy_of_row(row, alloc, indexed)?)),
        Step::Was(schedule) => Ok(Step::Was(copy_of(schedule, alloc, indexed)?)),
        Step::Loses => Ok(Step::Loses),
        Step::Gains(event) => Ok(Step::Gains(*event)),
        Step::Exchanges(place) => Ok(Step::Exchanges(*place)),
    }
}
