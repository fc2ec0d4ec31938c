//! Whether a command is refused, found out without memory; and the step that an accepted command takes.
ghost use Rattle.std.specs.Prelude.{◌≡◌, IfOk, take};
ghost use Rattle.moves.specs.Boards.{IsBoardOf};
ghost use Rattle.moves.specs.Judged.{IsJudged, IsSourceOf, step_of};
ghost use Rattle.moves.specs.Rows.{IsOfTrace};

use crate::birth::Birth;
use crate::board::Board;
use crate::command::Command;
use crate::inverse::Step;
use crate::listing::Listing;
use crate::name::Name;
use crate::refusal::MoveRefusal;
use crate::row::Row;
use event_index::Indexed;
use rapid_text::OutOfMemory;
use schedule::Schedule;
use std::alloc::Global;

/// What an accepted command does to the row that it writes. It borrows what is to be copied, because a command is
/// judged without memory.
#[derive(Clone, Copy)]
pub(crate) enum Judged<'a> {
    /// A row with no events is added.
    Opens,
    /// A row with the first events of this schedule is added.
    Copies(&'a Schedule, u32),
    /// A copy of this schedule replaces the row's own.
    Adopts(&'a Schedule),
    /// The row is removed.
    Goes,
    /// The last event is removed.
    Loses,
    /// This event is appended.
    Gains(u32),
    /// The events at this index and the next are exchanged.
    Exchanges(u32),
}

impl<'a> Judged<'a> {
    /// The step, with memory for what it copies. A row that it adds has this birth.
    pub(crate) fn step(
        self,
        alloc: Global,
        indexed: &Indexed,
        birth: Birth,
    ) -> Result<Step, OutOfMemory>
        requires { IsSourceOf indexed.now self }
        ensures { IfOk result (λ step. step ≡ step_of indexed.now birth self.entry) }
    {
        match self {
            Judged::Opens => {
                let schedule = Schedule::empty(alloc, indexed)?;
                Ok(Step::Comes(Row { birth, schedule }))
            },
            Judged::Copies(source, len) => {
                let schedule = first_of(source, alloc, indexed, len)?;
                Ok(Step::Comes(Row { birth, schedule }))
            },
            Judged::Adopts(proposed) => Ok(Step::Was(copy_of(proposed, alloc, indexed)?)),
            Judged::Goes => Ok(Step::Goes),
            Judged::Loses => Ok(Step::Loses),
            Judged::Gains(event) => Ok(Step::Gains(event)),
            Judged::Exchanges(place) => Ok(Step::Exchanges(place)),
        }
    }
}

/// A schedule with the first events of this one.
fn first_of(
    schedule: &Schedule,
    alloc: Global,
    indexed: &Indexed,
    len: u32,
) -> Result<Schedule, OutOfMemory>
    requires { schedule.now.trace ≡ indexed.now }
    ensures trace { IfOk result (λ copy. copy.trace ≡ indexed.now) }
    ensures events { IfOk result (λ copy. copy.events ≡ take len schedule.now.events) }
{
    let Ok(copy) = schedule.prefix(alloc, indexed, len) else {
        return Err(OutOfMemory);
    };
    Ok(copy)
}

/// A schedule with the same events.
pub(crate) fn copy_of(
    schedule: &Schedule,
    alloc: Global,
    indexed: &Indexed,
) -> Result<Schedule, OutOfMemory>
    requires { schedule.now.trace ≡ indexed.now }
    ensures trace { IfOk result (λ copy. copy.trace ≡ indexed.now) }
    ensures events { IfOk result (λ copy. copy.events ≡ schedule.now.events) }
{
    let len = schedule.events().len() as u32;
    let Ok(copy) = schedule.prefix(alloc, indexed, len) else {
        return Err(OutOfMemory);
    };
    Ok(copy)
}

/// What the command does, or its first refusal.
pub(crate) fn judge<'a>(
    rows: &'a Listing,
    indexed: &Indexed,
    board: &'a Board,
    command: &Command,
) -> Result<Judged<'a>, MoveRefusal>
    requires { IsOfTrace indexed.now rows.now }
    ensures judged { IsJudged indexed.now board.now command.now rows.now result }
    ensures source { IsBoardOf indexed.now board.now → IfOk result (λ j. IsSourceOf indexed.now j) }
{
    match command {
        Command::Fresh { name } => fresh(rows, indexed, board, name),
        Command::Add { name, event } => add(rows, indexed, board, name, *event),
        Command::Back { name } => back(rows, indexed, board, name),
        Command::Swap { name, at } => swap(rows, indexed, board, name, *at),
        Command::Branch { name, length, to } => branch(rows, indexed, board, name, *length, to),
        Command::Drop { name } => drop_row(rows, indexed, board, name),
        Command::Adopt { name, proposal } => adopt(rows, indexed, board, name, *proposal),
    }
}

fn fresh<'a>(
    rows: &'a Listing,
    indexed: &Indexed,
    board: &'a Board,
    name: &Name,
) -> Result<Judged<'a>, MoveRefusal>
    requires { IsOfTrace indexed.now rows.now }
    ensures judged { IsJudged indexed.now board.now (Command.Fresh name.now) rows.now result }
    ensures source { IfOk result (λ j. IsSourceOf indexed.now j) }
{
    let _ = indexed;
    let _ = board;
    if rows.contains(name) {
        return Err(MoveRefusal::NameTaken);
    }
    Ok(Judged::Opens)
}

fn add<'a>(
    rows: &'a Listing,
    indexed: &Indexed,
    board: &'a Board,
    name: &Name,
    event: u32,
) -> Result<Judged<'a>, MoveRefusal>
    requires { IsOfTrace indexed.now rows.now }
    ensures judged { IsJudged indexed.now board.now (Command.Add name.now event) rows.now result }
    ensures source { IfOk result (λ j. IsSourceOf indexed.now j) }
{
    let _ = board;
    let Some(schedule) = rows.schedule_of(indexed, name) else {
        return Err(MoveRefusal::NoSuchSchedule);
    };
    let Err(cause) = schedule.enabled(indexed, event) else {
        return Ok(Judged::Gains(event));
    };
    Err(MoveRefusal::Disabled(cause))
}

fn back<'a>(
    rows: &'a Listing,
    indexed: &Indexed,
    board: &'a Board,
    name: &Name,
) -> Result<Judged<'a>, MoveRefusal>
    requires { IsOfTrace indexed.now rows.now }
    ensures judged { IsJudged indexed.now board.now (Command.Back name.now) rows.now result }
    ensures source { IfOk result (λ j. IsSourceOf indexed.now j) }
{
    let _ = board;
    let Some(schedule) = rows.schedule_of(indexed, name) else {
        return Err(MoveRefusal::NoSuchSchedule);
    };
    if schedule.events().len() == 0 {
        return Err(MoveRefusal::NothingToRetract);
    }
    Ok(Judged::Loses)
}

fn swap<'a>(
    rows: &'a Listing,
    indexed: &Indexed,
    board: &'a Board,
    name: &Name,
    at: u32,
) -> Result<Judged<'a>, MoveRefusal>
    requires { IsOfTrace indexed.now rows.now }
    ensures judged { IsJudged indexed.now board.now (Command.Swap name.now at) rows.now result }
    ensures source { IfOk result (λ j. IsSourceOf indexed.now j) }
{
    let _ = board;
    let Some(schedule) = rows.schedule_of(indexed, name) else {
        return Err(MoveRefusal::NoSuchSchedule);
    };
    let Err(cause) = schedule.exchangeable(indexed, at) else {
        return Ok(Judged::Exchanges(at));
    };
    Err(MoveRefusal::Swap(cause))
}

fn branch<'a>(
    rows: &'a Listing,
    indexed: &Indexed,
    board: &'a Board,
    name: &Name,
    len: u32,
    to: &Name,
) -> Result<Judged<'a>, MoveRefusal>
    requires { IsOfTrace indexed.now rows.now }
    ensures judged { IsJudged indexed.now board.now (Command.Branch name.now len to.now) rows.now result }
    ensures source { IfOk result (λ j. IsSourceOf indexed.now j) }
{
    let _ = board;
    let Some(source) = rows.schedule_of(indexed, name) else {
        return Err(MoveRefusal::NoSuchSchedule);
    };
    if rows.contains(to) {
        return Err(MoveRefusal::NameTaken);
    }
    if len as usize > source.events().len() {
        return Err(MoveRefusal::TooShort);
    }
    Ok(Judged::Copies(source, len))
}

fn drop_row<'a>(
    rows: &'a Listing,
    indexed: &Indexed,
    board: &'a Board,
    name: &Name,
) -> Result<Judged<'a>, MoveRefusal>
    requires { IsOfTrace indexed.now rows.now }
    ensures judged { IsJudged indexed.now board.now (Command.Drop name.now) rows.now result }
    ensures source { IfOk result (λ j. IsSourceOf indexed.now j) }
{
    let _ = indexed;
    let _ = board;
    if !rows.has(name) {
        return Err(MoveRefusal::NoSuchSchedule);
    }
    Ok(Judged::Goes)
}

fn adopt<'a>(
    rows: &'a Listing,
    indexed: &Indexed,
    board: &'a Board,
    name: &Name,
    proposal: u32,
) -> Result<Judged<'a>, MoveRefusal>
    requires { IsOfTrace indexed.now rows.now }
    ensures judged { IsJudged indexed.now board.now (Command.Adopt name.now proposal) rows.now result }
    ensures source { IsBoardOf indexed.now board.now → IfOk result (λ j. IsSourceOf indexed.now j) }
{
    if !rows.has(name) {
        return Err(MoveRefusal::NoSuchSchedule);
    }
    if proposal as usize >= board.len() {
        return Err(MoveRefusal::NoSuchProposal);
    }
    let (_, _, schedule) = board.get(proposal as usize);
    Ok(Judged::Adopts(schedule))
}
