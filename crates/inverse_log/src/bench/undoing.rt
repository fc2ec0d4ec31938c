//! Undos: which entry an undo takes back, and what blocks it.
ghost use Rattle.std.specs.Prelude.{◌≡◌, ◌<◌, ◌≤◌, ◌++◌, ◌∷◌, [], length, Some, None, Ok, Err, OnOk, OnErr};
ghost use Rattle.dependence.specs.Limits.{client_limit};
ghost use Rattle.inverse_log.specs.declared.call.Call.{Call};
ghost use Rattle.inverse_log.specs.Answer.{Called, IsLegal};
ghost use Rattle.inverse_log.specs.Kept.{IsLive, live_there, IsUnblocked, IsUndone};
ghost use Rattle.inverse_log.specs.Limits.{entry_limit};
ghost use Rattle.inverse_log.specs.Log.{blocker_of};
ghost use Rattle.inverse_log.specs.Steps.{single_at};

use crate::bench::{Bench, MAX_ENTRIES};
use crate::entry::Entry;
use crate::parts::{
    add_entry, add_nothing, commands_at, first_blocker, is_own, leave, make_room, put_back,
    single_at, take_out,
};
use crate::refusal::Refusal;
use crate::reply::Reply;
use moves::Command;
use rapid_text::OutOfMemory;

impl Bench {
    /// Takes back the client's latest live entry.
    pub(crate) fn undo(&mut self, client: u32) -> Result<Reply, Refusal>
        requires low { 1 ≤ client }
        requires high { client ≤ client_limit }
        ensures trace { self.new.trace ≡ self.old.trace }
        ensures call { Called self.old.trace self.old.log client Call.Undo result self.new.log }
    {
        let number = self.log.len() as u64;
        if number >= MAX_ENTRIES {
            return Err(Refusal::LogFull);
        }
        let Some(entry) = self.clients.last(client) else {
            return Err(Refusal::NothingToUndo);
        };
        self.undo_live(client, entry)
    }

    /// Takes back this live entry. It must be the client's.
    pub(crate) fn undo_at(&mut self, client: u32, entry: u64) -> Result<Reply, Refusal>
        requires low { 1 ≤ client }
        requires high { client ≤ client_limit }
        ensures trace { self.new.trace ≡ self.old.trace }
        ensures call { Called self.old.trace self.old.log client (Call.UndoAt entry) result self.new.log }
    {
        let number = self.log.len() as u64;
        if number >= MAX_ENTRIES {
            return Err(Refusal::LogFull);
        }
        if entry >= number {
            return Err(Refusal::NoSuchEntry);
        }
        if !is_own(&self.log, client, entry) {
            return Err(Refusal::NotOwn);
        }
        if !self.clients.contains(client, entry) {
            return Err(Refusal::NotLive);
        }
        self.undo_live(client, entry)
    }

    // Takes back a client's live entry, or returns the refusal that names what blocks it.
    fn undo_live(&mut self, client: u32, entry: u64) -> Result<Reply, Refusal>
        requires client { client ≤ client_limit }
        requires room { length self.old.log < entry_limit }
        requires live { IsLive self.old.log (live_there self.old.log client entry) }
        requires legal { blocker_of self.old.log (live_there self.old.log client entry) ≡ None
            → IsLegal self.old.trace (self.old.log ++ Entry.Undid client entry ∷ []) }
        ensures trace { self.new.trace ≡ self.old.trace }
        ensures undone { IsUndone self.old.log client (live_there self.old.log client entry) result self.new.log }
    {
        let number = self.log.len() as u64;
        let single = single_at(&self.log, entry);
        let commands = commands_at(&self.log, entry, &single);
        if let Some(rests) = first_blocker(&self.touches, entry, commands) {
            return Err(Refusal::RestsOn {
                entry: rests.0,
                name: rests.1,
            });
        }
        let Ok(()) = self.take_back(client, entry, &single) else {
            return Err(Refusal::OutOfMemory);
        };
        Ok(Reply::Undone { number, entry })
    }

    // Takes back a client's live entry that nothing blocks. `single` is its command, if it did a single one.
    fn take_back(
        &mut self,
        client: u32,
        entry: u64,
        single: &Option<Command>,
    ) -> Result<(), OutOfMemory>
        requires client { client ≤ client_limit }
        requires single { single.now ≡ single_at self.old.log entry }
        requires room { length self.old.log < entry_limit }
        requires free { IsUnblocked self.old.log (live_there self.old.log client entry) }
        requires legal { IsLegal self.old.trace (self.old.log ++ Entry.Undid client entry ∷ []) }
        ensures trace { self.new.trace ≡ self.old.trace }
        ensures ok { OnOk result (self.new.log ≡ self.old.log ++ Entry.Undid client entry ∷ []) }
        ensures err { OnErr result (self.new.log ≡ self.old.log) }
    {
        let Ok(()) = make_room(self.alloc, &mut self.log, &mut self.steps, &mut self.spare) else {
            return Err(OutOfMemory);
        };
        let held = take_out(&mut self.steps, entry);
        let commands = commands_at(&self.log, entry, single);
        let Err(held) = self.rows.take_back(&self.indexed, commands, held) else {
            leave(
                &mut self.touches,
                &mut self.clients,
                client,
                commands,
                entry,
            );
            add_nothing(&mut self.steps);
            add_entry(&mut self.log, Entry::Undid { client, entry });
            return Ok(());
        };
        put_back(&mut self.steps, &mut self.spare, entry, held);
        Err(OutOfMemory)
    }
}
