//! Laws about the lines of a log. Each function here does nothing: its contract is a law that follows from the
//! definitions. `specs/Laws.antt` states the laws.
ghost use Rattle.kept_session.specs.Laws.{LinesAreScript, ReplayLeavesLog};

/// The lines of a log, as `log` prints them, are a script, and the calls of this script give the log.
pub fn lines_are_script()
    ensures { LinesAreScript }
{}

/// A replay of that script on the trace makes these calls.
pub fn replay_leaves_log()
    ensures { ReplayLeavesLog }
{}
