//! Whether a proposed list is put on the board.
ghost use Rattle.inverse_log.specs.Kept.{IsJudged};

use crate::refusal::Refusal;
use event_index::Indexed;
use schedule::{ListRefusal, Schedule};
use std::alloc::Global;

/// The schedule of the proposed list, if it is a correct reordering that shows the pair. Otherwise the refusal has the
/// first index at which the list is no correct reordering, or says that it does not show the pair.
#[tactic(auto, using(crate::proofs::OtherLemmas::shown_as))]
pub(crate) fn judge(
    alloc: Global,
    indexed: &Indexed,
    first: u32,
    second: u32,
    events: &[u32],
) -> Result<Schedule, Refusal>
    ensures { IsJudged indexed.now first second events.now result }
{
    let schedule = match Schedule::from_list(alloc, indexed, events) {
        Ok(schedule) => schedule,
        Err(ListRefusal::NotReordering { position, cause: _ }) => {
            return Err(Refusal::NotReordering { position });
        }
        Err(ListRefusal::OutOfMemory) => return Err(Refusal::OutOfMemory),
    };
    if !schedule.shows(indexed, first, second) {
        return Err(Refusal::NotShown);
    }
    Ok(schedule)
}
