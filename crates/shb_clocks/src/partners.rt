//! Marks the events that may have a partner: a later event that makes a candidate with them. It starts from the end
//! of the trace.
ghost use Rattle.std.specs.Prelude.{◌≡◌, IfOk};
ghost use Rattle.shb_clocks.specs.Partners.{AreMarks};

use crate::ahead::Ahead;
use crate::clocks::Clocks;
use event_index::Indexed;
use rapid_text::OutOfMemory;
use std::alloc::Global;

/// For each event, whether it may have a partner. An event with the mark `false` has none.
pub(crate) fn marks_of(
    alloc: Global,
    clocks: &Clocks,
    indexed: &Indexed,
) -> Result<Vec<bool>, OutOfMemory>
    requires trace { clocks.now ≡ indexed.now }
    ensures { IfOk result (λ marks. AreMarks indexed.now.events 0 marks.items) }
{
    let len = indexed.len();
    let mut ahead = Ahead::new(alloc, indexed)?;
    let mut marks = vec![in alloc; false; len as usize]?;
    for done in 0..len {
        let event = len - 1 - done;
        marks[event as usize] = ahead.pass(clocks, indexed, event);
    }
    Ok(marks)
}
