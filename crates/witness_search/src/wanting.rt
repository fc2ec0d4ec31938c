//! The events that a search wants in its schedule.
ghost use Rattle.std.specs.Prelude.{◌≡◌, ◌<◌, length, IfOk, OnOk, IfSome, Some};
ghost use Rattle.witness_search.specs.Searches.{partner_of, IsSought, AreFound, Adds, TellWanted};

use event_index::Indexed;
use rapid_text::{Op, OutOfMemory};
use std::alloc::Global;

// The events that were found, each once.
#[derive(Drop)]
pub(crate) struct Wanted {
    // In the order in which they were found.
    pub(crate) events: Vec<u32>,
    // For each event of the trace, whether it was found.
    pub(crate) marks: Vec<bool>,
}

/// For each event, whether it is wanted for the pair. It takes a step for each wanted event, and for each event that
/// this one requires.
pub(crate) fn wanted_for(
    alloc: Global,
    indexed: &Indexed,
    first: u32,
    second: u32,
) -> Result<Vec<bool>, OutOfMemory>
    requires first { first < length indexed.now.events }
    requires second { second < length indexed.now.events }
    ensures { IfOk result (λ marks. TellWanted indexed.now.events first second marks.items) }
{
    let mut wanted = Wanted {
        events: Vec::new(alloc),
        marks: vec![in alloc; false; indexed.len() as usize]?,
    };
    wanted.take_in(indexed.base(first))?;
    wanted.take_in(indexed.base(second))?;
    let mut at = 0;
    while at < wanted.events.len() {
        let event = wanted.events[at];
        wanted.take_in_sought(indexed, event)?;
        at += 1;
    }
    Ok(wanted.marks)
}

impl Wanted {
    // Adds the event, if there is one and it was not found before.
    fn take_in(&mut self, event: Option<u32>) -> Result<(), OutOfMemory>
        requires found { AreFound self.old.events.items self.old.marks.items }
        requires within { IfSome event (λ e. e < length self.old.marks.items) }
        ensures len { OnOk result (length self.new.marks.items ≡ length self.old.marks.items) }
        ensures found { OnOk result (AreFound self.new.events.items self.new.marks.items) }
        ensures adds { OnOk result (Adds (λ e. event ≡ Some e) self.old.events.items self.new.events.items) }
    {
        let Some(event) = event else {
            return Ok(());
        };
        if self.marks[event as usize] {
            return Ok(());
        }
        self.events.push(event)?;
        self.marks[event as usize] = true;
        Ok(())
    }

    // Adds the events that this one requires directly.
    fn take_in_sought(&mut self, indexed: &Indexed, event: u32) -> Result<(), OutOfMemory>
        requires event { event < length indexed.now.events }
        requires len { length self.old.marks.items ≡ length indexed.now.events }
        requires found { AreFound self.old.events.items self.old.marks.items }
        ensures len { OnOk result (length self.new.marks.items ≡ length self.old.marks.items) }
        ensures found { OnOk result (AreFound self.new.events.items self.new.marks.items) }
        ensures adds { OnOk result
            (Adds (IsSought indexed.now.events event) self.old.events.items self.new.events.items) }
    {
        self.take_in(indexed.base(event))?;
        self.take_in(partner_of(indexed, event))?;
        Ok(())
    }
}

// The event that this one requires because of what it does. A read requires the write that it sees, and an acquire
// the release that ends its section. A join requires the last event of the thread, or else its fork. That event and
// the bases before it require the thread's other events and its fork.
fn partner_of(indexed: &Indexed, event: u32) -> Option<u32>
    requires { event < length indexed.now.events }
    ensures partner { result ≡ partner_of indexed.now.events event }
    ensures within { IfSome result (λ e. e < length indexed.now.events) }
{
    match indexed.event(event).op {
        Op::Read(_) => indexed.last_writer(event),
        Op::Acquire(_) => indexed.section(event),
        Op::Join(thread) => {
            let last = indexed.thread_events(thread).last().copied();
            last.or(indexed.fork_of(thread))
        },
        Op::Write(_) | Op::Release(_) | Op::Fork(_) => None,
    }
}
