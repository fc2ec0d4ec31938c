//! What no clause says of refused memory: that a command, a batch, a proposal and a step back are made if memory
//! suffices. If memory ran out, the rows and the board are as they were, and what came back fits them still.
ghost use Rattle.std.specs.Prelude.{◌≡◌, ◌+◌, ◌<◌, [], length, IfSome};
ghost use Rattle.moves.specs.Ages.{age};
ghost use Rattle.moves.specs.Batches.{CanTurnAll, AreOfTrace};
ghost use Rattle.moves.specs.Boards.{IsBoardOf};
ghost use Rattle.moves.specs.Inverses.{CanTurn, IsStepOf};
ghost use Rattle.moves.specs.Rows.{IsOfTrace, Below};

use crate::workspace::fixtures::{indexed_again, name_of};
use event_index::Indexed;
use moves::{
    BatchRefusal, Birth, Board, Command, Commands, Inverse, Inverses, MoveRefusal, Name, Names,
    Workspace,
};
use schedule::Schedule;
use std::alloc::Global;

// Whether each of the commands makes the schedule of the name at its place.
fn are_fresh(commands: &[Command], names: &[Name]) -> bool {
    let mut are_right = commands.len() == names.len();
    for at in 0..commands.len() {
        are_right = are_right
            && match commands[at] {
                Command::Fresh { name } => names.get(at) == Some(&name),
                _ => false,
            };
    }
    are_right
}

// Whether a list keeps the items that are pushed to it, each at a second call where memory was wanting at the first.
fn are_names_kept(alloc: Global, wanted: &[Name]) -> bool {
    let mut names = Names::new(alloc);
    let mut are_taken = true;
    for name in wanted {
        are_taken = are_taken && (names.push(*name).is_ok() || names.push(*name).is_ok());
    }
    are_taken && names.items() == wanted
}

fn are_commands_kept(alloc: Global, wanted: &[Command], names: &[Name]) -> bool {
    let mut commands = Commands::new(alloc);
    let mut are_taken = true;
    for command in wanted {
        are_taken = are_taken
            && (commands.push(*command).is_ok() || commands.push(*command).is_ok());
    }
    are_taken && are_fresh(commands.items(), names)
}

fn are_lists_kept(alloc: Global) -> Option<bool> {
    let one = name_of(b'A')?;
    let two = name_of(b'B')?;
    let names = [one, two, one, two, one];
    let commands = [
        Command::Fresh { name: one },
        Command::Fresh { name: two },
        Command::Fresh { name: one },
        Command::Fresh { name: two },
        Command::Fresh { name: one },
    ];
    Some(
        are_names_kept(alloc, names.as_slice())
            && are_commands_kept(alloc, commands.as_slice(), names.as_slice()),
    )
}

#[test]
fn memory_lists_of_names_and_commands_keep_what_they_have(rt: HostRuntime) {
    assert_eq!(rt; are_lists_kept(rt.alloc()), Some(true));
}

// Whether the names of the rows are these, told at a second call where memory was wanting at the first.
fn are_named(rows: &Workspace, alloc: Global, wanted: &[Name]) -> bool {
    match rows.names(alloc) {
        Ok(names) => names.items() == wanted,
        Err(_) => match rows.names(alloc) {
            Ok(names) => names.items() == wanted,
            Err(_) => false,
        },
    }
}

// Whether the schedule of this name has these events.
fn has_events(rows: &Workspace, name: &Name, wanted: &[u32]) -> bool {
    match rows.get(name) {
        Some(schedule) => schedule.events() == wanted,
        None => false,
    }
}

// Applies the command; where memory was wanting, once more, to the same number of rows.
fn applied_again(
    rows: &mut Workspace,
    indexed: &Indexed,
    board: &Board,
    birth: Birth,
    command: &Command,
) -> Option<Inverse>
    requires of_trace { IsOfTrace indexed.now rows.old }
    requires board { IsBoardOf indexed.now board.now }
    requires late { Below birth rows.old }
    ensures of_trace { IsOfTrace indexed.now rows.new }
    ensures late { Below (birth + 1) rows.new }
    ensures back { IfSome result (λ inverse. CanTurn inverse.name inverse.step rows.new) }
    ensures step { IfSome result (λ inverse. IsStepOf indexed.now inverse.step) }
{
    let before = rows.len();
    let wanted = match rows.apply(indexed, board, birth, command) {
        Ok(inverse) => return Some(inverse),
        Err(why) => why == MoveRefusal::OutOfMemory && rows.len() == before,
    };
    match rows.apply(indexed, board, birth, command) {
        Ok(inverse) => if wanted { Some(inverse) } else { None },
        Err(_) => None,
    }
}

// Takes the command back; where memory was wanting, once more, with what came back.
fn taken_back_again(rows: &mut Workspace, indexed: &Indexed, inverse: Inverse) -> bool
    requires of_trace { IsOfTrace indexed.now rows.old }
    requires step { IsStepOf indexed.now inverse.step }
    requires fits { CanTurn inverse.name inverse.step rows.old }
{
    let before = rows.len();
    match rows.take_back(indexed, inverse) {
        Ok(()) => true,
        Err((inverse, _)) => {
            let is_left = rows.len() == before;
            match rows.take_back(indexed, inverse) {
                Ok(()) => is_left,
                Err(_) => false,
            }
        }
    }
}

// Whether the command is applied.
fn is_applied(
    rows: &mut Workspace,
    indexed: &Indexed,
    board: &Board,
    birth: Birth,
    command: &Command,
) -> bool
    requires of_trace { IsOfTrace indexed.now rows.old }
    requires board { IsBoardOf indexed.now board.now }
    requires late { Below birth rows.old }
    ensures of_trace { IsOfTrace indexed.now rows.new }
    ensures late { Below (birth + 1) rows.new }
{
    match applied_again(rows, indexed, board, birth, command) {
        Some(_) => true,
        None => false,
    }
}

// Whether these are the rows' names, and each name's schedule has these events.
fn are_rows(
    rows: &Workspace,
    alloc: Global,
    one: Name,
    ones: &[u32],
    two: Name,
    twos: &[u32],
) -> bool {
    are_named(rows, alloc, &[one, two])
        && has_events(rows, &one, ones)
        && has_events(rows, &two, twos)
}

// Makes the schedule of the first name, with one event, and that of the second one from it.
fn are_made(rows: &mut Workspace, indexed: &Indexed, board: &Board, one: Name, two: Name) -> bool
    requires board { IsBoardOf indexed.now board.now }
    requires empty { rows.old ≡ [] }
    ensures of_trace { IsOfTrace indexed.now rows.new }
    ensures late { Below (age 0 3) rows.new }
{
    let fresh = Command::Fresh { name: one };
    let add = Command::Add {
        name: one,
        event: 3,
    };
    let branch = Command::Branch {
        name: one,
        length: 1,
        to: two,
    };
    let is_fresh = is_applied(rows, indexed, board, Birth::new(0, 0), &fresh);
    let is_added = is_applied(rows, indexed, board, Birth::new(0, 1), &add);
    let is_branched = is_applied(rows, indexed, board, Birth::new(0, 2), &branch);
    is_fresh && is_added && is_branched
}

// Whether the first name's schedule is dropped, and is back once that is taken back.
fn is_drop_taken_back(
    rows: &mut Workspace,
    indexed: &Indexed,
    board: &Board,
    alloc: Global,
    one: Name,
    two: Name,
) -> bool
    requires of_trace { IsOfTrace indexed.now rows.old }
    requires board { IsBoardOf indexed.now board.now }
    requires late { Below (age 0 3) rows.old }
{
    let command = Command::Drop { name: one };
    match applied_again(rows, indexed, board, Birth::new(0, 3), &command) {
        Some(inverse) => {
            let is_dropped = are_named(rows, alloc, &[two]);
            taken_back_again(rows, indexed, inverse) && is_dropped
        }
        None => false,
    }
}

// Whether each command is applied, and the drop of a schedule is taken back.
fn is_dropped_and_back(
    rows: &mut Workspace,
    indexed: &Indexed,
    board: &Board,
    alloc: Global,
    one: Name,
    two: Name,
) -> bool
    requires board { IsBoardOf indexed.now board.now }
    requires empty { rows.old ≡ [] }
{
    let is_made = are_made(rows, indexed, board, one, two);
    let is_back = is_drop_taken_back(rows, indexed, board, alloc, one, two);
    is_made && is_back && are_rows(rows, alloc, one, &[3], two, &[3])
}

// The same of a batch.
fn all_applied_again(
    rows: &mut Workspace,
    indexed: &Indexed,
    board: &Board,
    entry: u64,
    commands: &[Command],
) -> Option<Inverses>
    requires of_trace { IsOfTrace indexed.now rows.old }
    requires board { IsBoardOf indexed.now board.now }
    requires late { Below (age entry 0) rows.old }
    requires few { length commands.now < 4294967296 }
    ensures of_trace { IsOfTrace indexed.now rows.new }
    ensures late { Below (age (entry + 1) 0) rows.new }
    ensures back { IfSome result (λ inverses. CanTurnAll inverses rows.new) }
    ensures steps { IfSome result (λ inverses. AreOfTrace indexed.now inverses) }
{
    let before = rows.len();
    let wanted = match rows.apply_all(indexed, board, entry, commands) {
        Ok(inverses) => return Some(inverses),
        Err(why) => why == BatchRefusal::OutOfMemory && rows.len() == before,
    };
    match rows.apply_all(indexed, board, entry, commands) {
        Ok(inverses) => if wanted { Some(inverses) } else { None },
        Err(_) => None,
    }
}

fn all_taken_back_again(rows: &mut Workspace, indexed: &Indexed, inverses: Inverses) -> bool
    requires of_trace { IsOfTrace indexed.now rows.old }
    requires steps { AreOfTrace indexed.now inverses }
    requires fits { CanTurnAll inverses rows.old }
{
    let before = rows.len();
    match rows.take_back_all(indexed, inverses) {
        Ok(()) => true,
        Err((inverses, _)) => {
            let is_left = rows.len() == before;
            match rows.take_back_all(indexed, inverses) {
                Ok(()) => is_left,
                Err(_) => false,
            }
        }
    }
}

// Whether the first batch is applied.
fn is_batch_applied(
    rows: &mut Workspace,
    indexed: &Indexed,
    board: &Board,
    commands: &[Command],
) -> bool
    requires of_trace { IsOfTrace indexed.now rows.old }
    requires board { IsBoardOf indexed.now board.now }
    requires late { Below (age 0 0) rows.old }
    requires few { length commands.now < 4294967296 }
    ensures of_trace { IsOfTrace indexed.now rows.new }
    ensures late { Below (age 1 0) rows.new }
{
    match all_applied_again(rows, indexed, board, 0, commands) {
        Some(_) => true,
        None => false,
    }
}

fn is_batch_taken_back(
    rows: &mut Workspace,
    indexed: &Indexed,
    board: &Board,
    alloc: Global,
    one: Name,
    two: Name,
) -> bool
    requires of_trace { IsOfTrace indexed.now rows.old }
    requires board { IsBoardOf indexed.now board.now }
    requires late { Below (age 1 0) rows.old }
{
    let changed = [
        Command::Drop { name: one },
        Command::Add {
            name: two,
            event: 0,
        },
        Command::Fresh { name: one },
    ];
    match all_applied_again(rows, indexed, board, 1, changed.as_slice()) {
        Some(inverses) => {
            let is_changed = are_named(rows, alloc, &[two, one]) && has_events(rows, &two, &[0]);
            all_taken_back_again(rows, indexed, inverses) && is_changed
        }
        None => false,
    }
}

// Whether two batches are applied, and the second one is taken back.
fn are_dropped_and_back(
    rows: &mut Workspace,
    indexed: &Indexed,
    board: &Board,
    alloc: Global,
    one: Name,
    two: Name,
) -> bool
    requires board { IsBoardOf indexed.now board.now }
    requires empty { rows.old ≡ [] }
{
    let made = [
        Command::Fresh { name: one },
        Command::Add {
            name: one,
            event: 3,
        },
        Command::Fresh { name: two },
    ];
    let is_made = is_batch_applied(rows, indexed, board, made.as_slice());
    let is_back = is_batch_taken_back(rows, indexed, board, alloc, one, two);
    is_made && is_back && are_rows(rows, alloc, one, &[3], two, &[])
}

// The schedule of the events; None if memory ran out.
fn listed(alloc: Global, indexed: &Indexed, events: &[u32]) -> Option<Schedule>
    ensures { IfSome result (λ s. s.trace ≡ indexed.now) }
{
    match Schedule::from_list(alloc, indexed, events) {
        Ok(schedule) => Some(schedule),
        Err(_) => None,
    }
}

fn listed_again(alloc: Global, indexed: &Indexed, events: &[u32]) -> Option<Schedule>
    ensures { IfSome result (λ s. s.trace ≡ indexed.now) }
{
    match listed(alloc, indexed, events) {
        Some(schedule) => Some(schedule),
        None => listed(alloc, indexed, events),
    }
}

// Puts the schedule on the board; where memory was wanting, once more, with the schedule that came back.
fn is_put_up_again(board: &mut Board, indexed: &Indexed, schedule: Schedule) -> bool
    requires { schedule.trace ≡ indexed.now }
{
    if !schedule.shows(indexed, 0, 5) {
        return false;
    }
    match board.push(0, 5, schedule) {
        Ok(()) => true,
        Err((schedule, _)) => {
            let is_left = board.len() == 0;
            match board.push(0, 5, schedule) {
                Ok(()) => is_left,
                Err(_) => false,
            }
        }
    }
}

fn is_first_on_the_board(board: &Board) -> bool {
    if board.len() != 1 {
        return false;
    }
    let (first, second, schedule) = board.get(0);
    first == 0 && second == 5 && schedule.events() == [3, 4].as_slice()
}

fn is_on_the_board(alloc: Global, indexed: &Indexed, board: &mut Board) -> bool {
    match listed_again(alloc, indexed, &[3, 4]) {
        Some(schedule) => {
            is_put_up_again(board, indexed, schedule) && is_first_on_the_board(board)
        }
        None => false,
    }
}

// The questions on the trace of one lock.
#[derive(Clone, Copy)]
enum Question {
    Drop,
    Batch,
    Proposal,
}

// From here down each function owns one thing, and hands it on: how it is dropped is proved once.
fn is_right_in(
    alloc: Global,
    indexed: &Indexed,
    board: &mut Board,
    rows: &mut Workspace,
    question: Question,
) -> bool
    requires board { board.old ≡ [] }
    requires rows { rows.old ≡ [] }
{
    match (question, name_of(b'A'), name_of(b'B')) {
        (Question::Drop, Some(one), Some(two)) => {
            is_dropped_and_back(rows, indexed, board, alloc, one, two)
        }
        (Question::Batch, Some(one), Some(two)) => {
            are_dropped_and_back(rows, indexed, board, alloc, one, two)
        }
        (Question::Proposal, _, _) => is_on_the_board(alloc, indexed, board),
        _ => false,
    }
}

fn is_right_with(alloc: Global, indexed: &Indexed, board: &mut Board, question: Question) -> bool
    requires { board.old ≡ [] }
{
    match Workspace::empty(alloc) {
        Ok(mut rows) => is_right_in(alloc, indexed, board, &mut rows, question),
        Err(_) => false,
    }
}

fn is_right_on(alloc: Global, indexed: &Indexed, question: Question) -> bool {
    let mut board = Board::empty(alloc);
    is_right_with(alloc, indexed, &mut board, question)
}

// What is large is dropped by `drop`, of which it has been proved how it drops what is of any type.
fn is_right(alloc: Global, question: Question) -> bool {
    match indexed_again(alloc) {
        Some(indexed) => {
            let is_right = is_right_on(alloc, &indexed, question);
            drop(indexed);
            is_right
        }
        None => false,
    }
}

#[test]
fn memory_a_drop_is_taken_back(rt: HostRuntime) {
    assert!(rt; is_right(rt.alloc(), Question::Drop));
}

#[test]
fn memory_a_batch_is_taken_back_whole(rt: HostRuntime) {
    assert!(rt; is_right(rt.alloc(), Question::Batch));
}

#[test]
fn memory_a_proposal_is_put_on_the_board(rt: HostRuntime) {
    assert!(rt; is_right(rt.alloc(), Question::Proposal));
}
