//! What the log promises for every list of calls by any clients. Each function here does nothing: its contract is a law
//! of the definitions. `specs/Headline.antt` has the statements of the laws.
ghost use Rattle.inverse_log.specs.Headline.{RowsAreTheFold, UndoIsRefusedExactly, UndoAtIsRefusedExactly, UndoAtOfLatestIsUndo, UndoDirectlyRestores, UndoOfTheLastRestores, ProposalsAreJudgedExactly, OneClientIsNeverBlocked, LongerBoardsAcceptTheSame, EditsCountChanges};

/// After every legal log the workspace is what the commands of the live entries make of the empty one, in their order.
/// Each schedule is a correct reordering of the trace. So is each proposal, which shows its pair.
pub fn rows_are_the_fold()
    ensures { RowsAreTheFold }
{}

/// An undo is refused exactly if a later live command touches a name that the entry to take back wrote.
pub fn undo_is_refused_exactly()
    ensures { UndoIsRefusedExactly }
{}

/// An undo by number is refused exactly if a later live command touches a name that the entry to take back wrote. It
/// does not matter when that entry was made.
pub fn undo_at_is_refused_exactly()
    ensures { UndoAtIsRefusedExactly }
{}

/// An undo by the number of the client's latest live entry is the undo without a number.
pub fn undo_at_of_latest_is_undo()
    ensures { UndoAtOfLatestIsUndo }
{}

/// An undo directly after a command or a batch restores the workspace exactly.
pub fn undo_directly_restores()
    ensures { UndoDirectlyRestores }
{}

/// A log that ends with an undo of the entry before it has the schedules of the log before both.
pub fn undo_of_the_last_restores()
    ensures { UndoOfTheLastRestores }
{}

/// A proposal is put on the board exactly if its list is a correct reordering that shows its pair. Otherwise it is
/// refused.
pub fn proposals_are_judged_exactly()
    ensures { ProposalsAreJudgedExactly }
{}

/// If all entries of the log are one client's, its undo is never refused for a later command.
pub fn one_client_is_never_blocked()
    ensures { OneClientIsNeverBlocked }
{}

/// A command that was accepted stays accepted when the board grows.
pub fn longer_boards_accept_the_same()
    ensures { LongerBoardsAcceptTheSame }
{}

/// The count of changes grows by one for each command that was applied or taken back, and not otherwise.
pub fn edits_count_changes()
    ensures { EditsCountChanges }
{}
