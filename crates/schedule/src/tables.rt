//! The tables that a schedule keeps beside its list, so that few calls go over the list.
ghost use Rattle.std.specs.Prelude.{ℕ, List, [], ◌∷◌, ◌++◌, OnOk, OnErr, IfOk};
ghost use Rattle.rapid_text.specs.declared.event.Event.{Event};
ghost use Rattle.schedule.specs.Reordering.{IsCorrectReordering, IsEnabled};
ghost use Rattle.schedule.specs.Tables.{AreTables};

use crate::counts::{ThreadCount, count_down, count_up, make_room};
use crate::latest::{shadow_of, step, step_back};
use crate::latest_table::LatestTable;
use event_index::Indexed;
use std::alloc::{AllocError, Global};

/// The tables of a list of events.
#[derive(Drop)]
pub(crate) struct Tables {
    // The number of events of each thread in the list. A thread without an event may have an entry, if it had an
    // event before.
    pub(crate) counts: Vec<ThreadCount>,
    // The latest event of each variable and lock that the list sets.
    pub(crate) latest: LatestTable,
    // For each index of the list, the event that the event there shadows.
    pub(crate) shadows: Vec<Option<u32>>,
}

/// The tables of the empty list, with room for `len` events. Fails if memory runs out.
pub(crate) fn tables_with_room(
    alloc: Global,
    indexed: &Indexed,
    len: usize,
) -> Result<Tables, AllocError>
    ensures { IfOk result (AreTables indexed.now.events []) }
{
    let Ok(shadows) = Vec::with_capacity(alloc, len) else {
        return Err(AllocError);
    };
    let _ = indexed;
    Ok(Tables {
        counts: Vec::new(alloc),
        latest: LatestTable::new(alloc),
        shadows,
    })
}

/// Updates the tables of a list for this event after it.
pub(crate) fn note(
    tables: &mut Tables,
    indexed: &Indexed,
    events: &[u32],
    event: u32,
) -> Result<(), AllocError>
    requires enabled { IsEnabled indexed.now.events events.now event }
    requires tables { AreTables indexed.now.events events.now tables.old }
    ensures ok { OnOk result (AreTables indexed.now.events (events.now ++ event ∷ []) tables.new) }
    ensures err { OnErr result (AreTables indexed.now.events events.now tables.new) }
{
    let _ = events;
    let found = indexed.event(event);
    let Ok(at) = make_room(&mut tables.counts, found.thread) else {
        return Err(AllocError);
    };
    let shadow = shadow_of(&tables.latest, found.op);
    let Ok(()) = tables.shadows.push(shadow) else {
        return Err(AllocError);
    };
    let Ok(()) = step(&mut tables.latest, found.op, event) else {
        let _ = tables.shadows.pop();
        return Err(AllocError);
    };
    count_up(&mut tables.counts, found.thread, at);
    Ok(())
}

/// Updates the tables of a list and this event after it, back to those of the list. It needs no memory.
pub(crate) fn forget(tables: &mut Tables, indexed: &Indexed, events: &[u32], event: u32)
    requires enabled { IsEnabled indexed.now.events events.now event }
    requires tables { AreTables indexed.now.events (events.now ++ event ∷ []) tables.old }
    ensures { AreTables indexed.now.events events.now tables.new }
{
    let _ = events;
    let found = indexed.event(event);
    let Some(shadow) = tables.shadows.pop() else {
        return;
    };
    step_back(&mut tables.latest, found.op, shadow);
    count_down(&mut tables.counts, found.thread);
}

/// Frees memory that the table of latest events has reserved and does not use. The entries stay.
pub(crate) fn trim(tables: &mut Tables)
    ensures { (T : List Event) (P : List ℕ) → AreTables T P tables.old → AreTables T P tables.new }
{
    tables.latest.trim();
}

/// A copy of the tables, without room for more events. Fails if memory runs out.
pub(crate) fn copied(alloc: Global, tables: &Tables) -> Result<Box<Tables>, AllocError>
    ensures { (T : List Event) (P : List ℕ) → AreTables T P tables.now
        → IfOk result (λ copy. AreTables T P copy.value) }
{
    let copy = Tables {
        counts: Vec::from_slice(alloc, &tables.counts)?,
        latest: tables.latest.copied(alloc)?,
        shadows: Vec::from_slice(alloc, &tables.shadows)?,
    };
    let Ok(copy) = Box::new(alloc, copy) else {
        return Err(AllocError);
    };
    Ok(copy)
}

/// The tables of a list, without room for more events. Fails if memory runs out.
pub(crate) fn tables_of(
    alloc: Global,
    indexed: &Indexed,
    events: &[u32],
) -> Result<Box<Tables>, AllocError>
    requires { IsCorrectReordering indexed.now.events events.now }
    ensures { IfOk result (λ tables. AreTables indexed.now.events events.now tables.value) }
{
    let Ok(mut tables) = tables_with_room(alloc, indexed, events.len()) else {
        return Err(AllocError);
    };
    for at in 0..events.len() {
        let Ok(()) = note(&mut tables, indexed, &events[..at], events[at]) else {
            return Err(AllocError);
        };
    }
    trim(&mut tables);
    let Ok(tables) = Box::new(alloc, tables) else {
        return Err(AllocError);
    };
    Ok(tables)
}
