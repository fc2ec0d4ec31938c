//! The joins that the rule of sections needed, in the order in which they were made.
ghost use Rattle.std.specs.Prelude.{◌≡◌, ◌<◌, ◌+◌, IfOk, OnOk};
ghost use Rattle.must_order.specs.Joins.{AreJoinsOf, IsLedBy, AreLed, AddsJoin};
ghost use Rattle.must_order.specs.MustBefore.{EndsFirst};

use event_index::Indexed;
use rapid_text::OutOfMemory;
use std::alloc::Global;

/// The row of a release was joined to the row of an event, since the section of the acquire has to end before the
/// event.
#[derive(Clone, Copy)]
pub(crate) struct Join {
    pub(crate) event: u32,
    pub(crate) acquire: u32,
    pub(crate) release: u32,
}

/// All joins. For each event, `starts` has the index of its first join; its joins end at the start of the next event.
#[derive(Drop)]
pub(crate) struct Joins {
    pub(crate) list: Vec<Join>,
    pub(crate) starts: Vec<usize>,
}

impl Joins {
    /// The state before the first event. Fails if memory runs out.
    pub(crate) fn new(alloc: Global, indexed: &Indexed) -> Result<Joins, OutOfMemory>
        ensures { IfOk result (λ joins. AreJoinsOf indexed.now.events 0 joins) }
    {
        let mut starts = Vec::with_capacity(alloc, indexed.len() as usize + 1)?;
        starts.push(0)?;
        Ok(Joins {
            list: Vec::new(alloc),
            starts,
        })
    }

    /// Adds a join of the event. Fails if memory runs out.
    pub(crate) fn add(
        &mut self,
        indexed: &Indexed,
        event: u32,
        acquire: u32,
        release: u32,
    ) -> Result<(), OutOfMemory>
        requires known { AreJoinsOf indexed.now.events event self.old }
        requires ends { EndsFirst indexed.now.events acquire release event }
        requires earlier { release < event }
        requires led { IsLedBy indexed.now.events self.old acquire event }
        ensures known { OnOk result (AreJoinsOf indexed.now.events event self.new) }
        ensures starts { OnOk result (self.new.starts.items ≡ self.old.starts.items) }
        ensures list { OnOk result (AddsJoin self.old self.new event acquire release) }
    {
        self.list.push(Join {
            event,
            acquire,
            release,
        })?;
        Ok(())
    }

    /// Ends the joins of the event. Fails if memory runs out.
    pub(crate) fn end(&mut self, indexed: &Indexed, event: u32) -> Result<(), OutOfMemory>
        requires known { AreJoinsOf indexed.now.events event self.old }
        requires led { AreLed indexed.now.events self.old event }
        ensures { OnOk result (AreJoinsOf indexed.now.events (event + 1) self.new) }
    {
        self.starts.push(self.list.len())?;
        Ok(())
    }
}
