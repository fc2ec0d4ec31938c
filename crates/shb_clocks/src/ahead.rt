//! The accesses that follow an event: each variable's next write and its rivals, found from the end of the trace
//! backwards.
ghost use Rattle.std.specs.Prelude.{◌≡◌, ◌+◌, ◌<◌, length, IfOk, Some, false};
ghost use Rattle.rapid_text.specs.declared.event.Op.TheVariants.{Read};
ghost use Rattle.event_index.specs.Events.{op_at};
ghost use Rattle.shb_clocks.specs.Partners.{IsWithoutPartner, AreAhead, LooksAhead};

use crate::clocks::Clocks;
use crate::rivals::Rivals;
use event_index::Indexed;
use rapid_text::{Op, OutOfMemory};
use std::alloc::Global;

/// For each variable its first write from some event on, and its rivals. A rival is a later access that this write is
/// apart from (`IsApart`); or an earlier read that is apart from the write that it sees.
#[derive(Drop)]
pub(crate) struct Ahead {
    // If no write follows, the entry is the number of events.
    pub(crate) next_writes: Vec<u32>,
    pub(crate) rivals: Vec<Rivals>,
}

impl Ahead {
    /// The state at the end of the trace, where no event follows. Fails if memory runs out.
    pub(crate) fn new(alloc: Global, indexed: &Indexed) -> Result<Ahead, OutOfMemory>
        ensures { IfOk result (AreAhead indexed.now (length indexed.now.events)) }
    {
        let variables = indexed.variables() as usize;
        Ok(Ahead {
            next_writes: vec![in alloc; indexed.len(); variables]?,
            rivals: vec![in alloc; Rivals::Nowhere; variables]?,
        })
    }

    /// Whether the event may have a partner. Afterwards the event itself counts as one that follows.
    pub(crate) fn pass(&mut self, clocks: &Clocks, indexed: &Indexed, event: u32) -> bool
        requires trace { clocks.now ≡ indexed.now }
        requires event { event < length indexed.now.events }
        requires ahead { AreAhead indexed.now (event + 1) self.old }
        ensures ahead { AreAhead indexed.now event self.new }
        ensures none { result ≡ false → IsWithoutPartner indexed.now.events event }
    {
        match indexed.event(event).op {
            Op::Read(variable) => {
                let rivals = self.seen_by(clocks, indexed, event, variable);
                self.note_read(clocks, indexed, event, variable);
                rivals.are_any()
            }
            Op::Write(variable) => {
                let rivals = self.seen_by(clocks, indexed, event, variable);
                self.next_writes[variable as usize] = event;
                self.rivals[variable as usize] = rivals;
                rivals.are_any()
            }
            Op::Acquire(_) | Op::Release(_) | Op::Fork(_) | Op::Join(_) => false,
        }
    }

    // The next write and the rivals of the variable, as far as the access is apart from them.
    fn seen_by(&self, clocks: &Clocks, indexed: &Indexed, event: u32, variable: u32) -> Rivals
        requires trace { clocks.now ≡ indexed.now }
        requires event { event < length indexed.now.events }
        requires variable { variable < length indexed.now.variables }
        requires ahead { AreAhead indexed.now (event + 1) self.now }
        ensures { LooksAhead indexed.now.events event variable self.now.next_writes.items self.now.rivals.items result }
    {
        let rivals = self.rivals[variable as usize].narrowed(clocks, indexed, event);
        let next = self.next_writes[variable as usize];
        if next < indexed.len() && clocks.is_apart(indexed, event, next) {
            rivals.with_event(indexed, next)
        } else {
            rivals
        }
    }

    // A read that is apart from the write that it sees becomes a rival.
    fn note_read(&mut self, clocks: &Clocks, indexed: &Indexed, event: u32, variable: u32)
        requires trace { clocks.now ≡ indexed.now }
        requires event { event < length indexed.now.events }
        requires variable { variable < length indexed.now.variables }
        requires read { op_at indexed.now.events event ≡ Some (Read variable) }
        requires ahead { AreAhead indexed.now (event + 1) self.old }
        ensures ahead { AreAhead indexed.now event self.new }
    {
        if let Some(writer) = indexed.last_writer(event) {
            if clocks.is_apart(indexed, writer, event) {
                let rivals = self.rivals[variable as usize];
                self.rivals[variable as usize] = rivals.with_event(indexed, event);
            }
        }
    }
}
