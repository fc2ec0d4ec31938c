//! The writes of each variable.
ghost use Rattle.std.specs.Prelude.{◌≡◌, ◌≢◌, ◌<◌, ◌+◌, ℕ, length, IfOk, OnOk, IfSome, None, Some};
ghost use Rattle.event_index.specs.Events.{op_at};
ghost use Rattle.event_index.specs.Lookups.{last_write};
ghost use Rattle.rapid_text.specs.declared.event.Op.TheVariants.{Write};
ghost use Rattle.witness_search.specs.trace_order.Tables.{AreWritesOf, AreWritesUpTo};
ghost use Rattle.witness_search.specs.trace_order.Rows.{counted_in};

use crate::trace_order::listing::is_counted;
use event_index::Indexed;
use rapid_text::{Op, OutOfMemory};
use std::alloc::Global;

/// The writes of each variable, in the order of the trace.
pub(crate) fn writes_of(alloc: Global, indexed: &Indexed) -> Result<Vec<Vec<u32>>, OutOfMemory>
    ensures { IfOk result (λ made. AreWritesUpTo indexed.now (length indexed.now.events) made.items) }
{
    let mut writes = no_writes(alloc, indexed)?;
    for event in 0..indexed.len() {
        add_event(&mut writes, indexed, event)?;
    }
    Ok(writes)
}

fn no_writes(alloc: Global, indexed: &Indexed) -> Result<Vec<Vec<u32>>, OutOfMemory>
    ensures { IfOk result (λ made. AreWritesUpTo indexed.now 0 made.items) }
{
    let mut writes = Vec::new(alloc);
    for _variable in 0..indexed.variables() {
        writes.push(Vec::new(alloc))?;
    }
    Ok(writes)
}

// Adds the event, if it is a write.
fn add_event(writes: &mut Vec<Vec<u32>>, indexed: &Indexed, event: u32) -> Result<(), OutOfMemory>
    requires event { event < length indexed.now.events }
    requires known { AreWritesUpTo indexed.now event writes.old.items }
    ensures { OnOk result (AreWritesUpTo indexed.now (event + 1) writes.new.items) }
{
    if let Some(variable) = written_by(indexed, event) {
        writes[variable as usize].push(event)?;
    }
    Ok(())
}

/// The variable that the event writes, or None.
pub(crate) fn written_by(indexed: &Indexed, event: u32) -> Option<u32>
    requires event { event < length indexed.now.events }
    ensures writes { IfSome result (λ x. op_at indexed.now.events event ≡ Some (Write x)) }
    ensures named { IfSome result (λ x. x < length indexed.now.variables) }
    ensures none { result ≡ None → (x : ℕ) → op_at indexed.now.events event ≢ Some (Write x) }
{
    match indexed.event(event).op {
        Op::Write(variable) => Some(variable),
        Op::Read(_) => None,
        Op::Acquire(_) => None,
        Op::Release(_) => None,
        Op::Fork(_) => None,
        Op::Join(_) => None,
    }
}

/// The last of the variable's writes that the row counts, or None.
pub(crate) fn last_counted(
    writes: &[u32],
    indexed: &Indexed,
    row: &[u32],
    variable: u32,
) -> Option<u32>
    requires writes { AreWritesOf indexed.now.events (length indexed.now.events) variable writes.now }
    requires len { length row.now ≡ length indexed.now.threads }
    ensures { result ≡ last_write indexed.now.events variable (counted_in indexed.now row.now) }
{
    let mut at = writes.len();
    while at > 0 {
        at -= 1;
        if is_counted(row, indexed, writes[at]) {
            return Some(writes[at]);
        }
    }
    None
}
