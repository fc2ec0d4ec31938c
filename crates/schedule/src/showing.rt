//! Whether an event could come next after a list of events, regardless of its operation.
ghost use Rattle.std.specs.Prelude.{◌≡◌, ◌↔◌, IsTrue};
ghost use Rattle.schedule.specs.Reordering.{IsCorrectReordering};
ghost use Rattle.schedule.specs.Tables.{AreTables};
ghost use Rattle.schedule.specs.Shows.{IsReady, is_ready};

use crate::reads::{is_forked, is_next};
use crate::tables::Tables;
use event_index::Indexed;

/// Whether the event is ready: it is not in the list, but all earlier events of its thread are, and the thread's
/// fork.
pub(crate) fn is_ready(indexed: &Indexed, tables: &Tables, events: &[u32], event: u32) -> bool
    requires tables { AreTables indexed.now.events events.now tables.now }
    requires reordering { IsCorrectReordering indexed.now.events events.now }
    ensures test { result ≡ is_ready indexed.now.events events.now event }
    ensures ready { IsTrue result ↔ IsReady indexed.now.events events.now event }
{
    let Some(found) = indexed.get(event) else {
        return false;
    };
    is_next(indexed, tables, events, found.thread, event)
        && is_forked(indexed, tables, events, found.thread)
}
