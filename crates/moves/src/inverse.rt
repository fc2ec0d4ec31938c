//! One step of one row: what a command does to the row that it writes, and what takes it back.
ghost use Rattle.std.specs.Prelude.{◌≡◌, ◌≢◌, false, None, Some, OnErr, IsOk, IfOk, IfErr};
ghost use Rattle.moves.specs.Inverses.{stepped, wants_memory};
ghost use Rattle.schedule.specs.Reordering.{IsCorrectReordering};

use crate::name::Name;
use crate::row::Row;
use event_index::Indexed;
use schedule::Schedule;
use std::mem;

/// One step of one row. Only a step that adds a row or replaces a schedule has a list, which it owns. Applying a
/// command takes a step, and so does taking it back.
#[derive(Drop)]
pub enum Step {
    /// The row is removed.
    Goes,
    /// This row is added, at its place by birth.
    Comes(Row),
    /// This schedule replaces the row's own.
    Was(Schedule),
    /// The last event is removed.
    Loses,
    /// This event is appended.
    Gains(u32),
    /// The events at this index and the next are exchanged.
    Exchanges(u32),
}

/// What takes a command back: the name that it wrote, and one step back of that name's row.
#[derive(Drop)]
pub struct Inverse {
    /// The name.
    pub name: Name,
    /// The step back.
    pub step: Step,
}

/// Takes a step of a schedule and returns the step that leads back. If memory runs out, returns the step itself.
pub(crate) fn turn_schedule(
    schedule: &mut Schedule,
    indexed: &Indexed,
    step: Step,
) -> Result<Step, Step>
    requires trace { schedule.old.trace ≡ indexed.now }
    requires fits { stepped step schedule.old ≢ None }
    ensures ok { IfOk result (λ back. stepped step schedule.old ≡ Some schedule.new) }
    ensures back { IfOk result (λ back. stepped back schedule.new ≡ Some schedule.old) }
    ensures err { OnErr result (schedule.new ≡ schedule.old) }
    ensures returned { IfErr result (λ s. s ≡ step) }
    ensures succeeds { wants_memory step ≡ false → IsOk result }
    ensures reordering { IsCorrectReordering schedule.old.trace.events schedule.old.events }
{
    // the last event may be appended again, because the whole list is a correct reordering
    let _events = schedule.events();
    match step {
        Step::Was(other) => Ok(Step::Was(mem::replace(schedule, other))),
        Step::Loses => match schedule.retract(indexed) {
            Some(event) => Ok(Step::Gains(event)),
            None => Err(Step::Loses),
        },
        Step::Gains(event) => match schedule.extend(indexed, event) {
            Ok(()) => Ok(Step::Loses),
            Err(_) => Err(Step::Gains(event)),
        },
        Step::Exchanges(place) => match schedule.swap(indexed, place) {
            Ok(()) => Ok(Step::Exchanges(place)),
            Err(_) => Err(Step::Exchanges(place)),
        },
        other => Err(other),
    }
}
