//! Proposals: lists of events, each of which shows its pair.
ghost use Rattle.std.specs.Prelude.{◌≡◌, ◌<◌, ◌≤◌, ◌++◌, ◌∷◌, [], length, Ok, Err, OnOk, OnErr, IfOk};
ghost use Rattle.dependence.specs.Limits.{client_limit};
ghost use Rattle.inverse_log.specs.declared.call.Call.{Call};
ghost use Rattle.inverse_log.specs.Answer.{Called};
ghost use Rattle.inverse_log.specs.Kept.{IsJudged};
ghost use Rattle.inverse_log.specs.Limits.{entry_limit};
ghost use Rattle.inverse_log.specs.Log.{board_of};

use crate::bench::{Bench, MAX_ENTRIES};
use crate::entry::Entry;
use crate::parts::{add_entry, add_nothing, make_room};
use crate::proposals::judge;
use crate::refusal::Refusal;
use crate::reply::Reply;
use event_index::EventList;
use rapid_text::OutOfMemory;
use schedule::Schedule;

impl Bench {
    /// Posts a list of events that shows its pair.
    pub(crate) fn propose(
        &mut self,
        client: u32,
        first: u32,
        second: u32,
        events: &[u32],
    ) -> Result<Reply, Refusal>
        requires low { 1 ≤ client }
        requires high { client ≤ client_limit }
        ensures trace { self.new.trace ≡ self.old.trace }
        ensures call { Called self.old.trace self.old.log client (Call.Propose first second events.now) result self.new.log }
    {
        let number = self.log.len() as u64;
        if number >= MAX_ENTRIES {
            return Err(Refusal::LogFull);
        }
        let schedule = match judge(self.alloc, &self.indexed, first, second, events) {
            Ok(schedule) => schedule,
            Err(why) => return Err(why),
        };
        match self.put_proposal(client, first, second, events, schedule) {
            Ok(proposal) => Ok(Reply::Proposed { number, proposal }),
            Err(_) => Err(Refusal::OutOfMemory),
        }
    }

    // Puts a list that shows its pair on the board, and returns its number there. The log has room for its entry.
    fn put_proposal(
        &mut self,
        client: u32,
        first: u32,
        second: u32,
        events: &[u32],
        schedule: Schedule,
    ) -> Result<u64, OutOfMemory>
        requires low { 1 ≤ client }
        requires high { client ≤ client_limit }
        requires room { length self.old.log < entry_limit }
        requires judged { IsJudged self.old.trace first second events.now (Ok schedule) }
        ensures trace { self.new.trace ≡ self.old.trace }
        ensures number { IfOk result (λ proposal. proposal ≡ length (board_of self.old.trace self.old.log)) }
        ensures ok { OnOk result (self.new.log ≡ self.old.log ++ Entry.Proposed client first second events.now ∷ []) }
        ensures err { OnErr result (self.new.log ≡ self.old.log) }
    {
        let Ok(()) = make_room(self.alloc, &mut self.log, &mut self.steps, &mut self.spare) else {
            return Err(OutOfMemory);
        };
        let Ok(events) = EventList::of(self.alloc, events) else {
            return Err(OutOfMemory);
        };
        let proposal = self.board.len() as u64;
        let Ok(()) = self.board.push(first, second, schedule) else {
            return Err(OutOfMemory);
        };
        add_nothing(&mut self.steps);
        add_entry(
            &mut self.log,
            Entry::Proposed {
                client,
                first,
                second,
                events,
            },
        );
        Ok(proposal)
    }
}
