//! Calls that look at the workspace and change nothing.
ghost use Rattle.std.specs.Prelude.{◌≡◌, ◌<◌, ℕ, Some, None, Ok, Err, IfSome, IfNone};
ghost use Rattle.inverse_log.specs.declared.call.Call.{Call};
ghost use Rattle.inverse_log.specs.Answer.{Called, no_schedule, show_answer};

use crate::bench::Bench;
use crate::races::shown_pairs;
use crate::refusal::Refusal;
use crate::reply::Reply;
use event_index::EventList;
use moves::{MoveRefusal, Name};

impl Bench {
    /// The events of this schedule, as a call `Show` answers them. It borrows them, so it takes no memory.
    pub fn shown(&self, name: &Name) -> Option<&[u32]>
        ensures none { (c : ℕ) → IfNone result (show_answer self.now c name.now ≡ no_schedule) }
        ensures some { (c : ℕ) → IfSome result (λ es. show_answer self.now c name.now ≡ Ok (Reply.Shown es.now)) }
    {
        match self.rows.workspace().get(name) {
            Some(schedule) => Some(schedule.events()),
            None => None,
        }
    }

    /// Answers a call `Show`.
    pub(crate) fn show(&self, client: u32, name: &Name) -> Result<Reply, Refusal>
        ensures { Called self.now.trace self.now.log client (Call.Show name.now) result self.now.log }
    {
        let _ = client;
        let Some(events) = self.shown(name) else {
            return Err(Refusal::Move(MoveRefusal::NoSuchSchedule));
        };
        let Ok(events) = EventList::of(self.alloc, events) else {
            return Err(Refusal::OutOfMemory);
        };
        Ok(Reply::Shown(events))
    }

    /// Answers a call `List`.
    pub(crate) fn list(&self, client: u32) -> Result<Reply, Refusal>
        ensures { Called self.now.trace self.now.log client Call.List result self.now.log }
    {
        let _ = client;
        let Ok(names) = self.rows.workspace().names(self.alloc) else {
            return Err(Refusal::OutOfMemory);
        };
        Ok(Reply::Listing(names))
    }

    /// Answers a call `Races`.
    pub(crate) fn races(&self, client: u32, name: &Name) -> Result<Reply, Refusal>
        ensures { Called self.now.trace self.now.log client (Call.Races name.now) result self.now.log }
    {
        let _ = client;
        let Some(schedule) = self.rows.workspace().get(name) else {
            return Err(Refusal::Move(MoveRefusal::NoSuchSchedule));
        };
        let Ok(pairs) = shown_pairs(self.alloc, &self.indexed, schedule) else {
            return Err(Refusal::OutOfMemory);
        };
        Ok(Reply::Shows(pairs))
    }
}
