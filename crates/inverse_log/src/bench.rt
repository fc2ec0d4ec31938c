//! The bench: a workspace and its board, and the log of what clients did to them.
ghost use Rattle.std.specs.Prelude.{◌≡◌, ◌<◌, ◌≤◌, ◌++◌, ◌∷◌, [], All, length, slice_get, Some, None, true, Ok, Err, OnOk, OnErr, IfOk, IfErr};
ghost use Rattle.dependence.specs.Limits.{client_limit};
ghost use Rattle.std.specs.Arc.{arc_value};
ghost use Rattle.inverse_log.specs.Answer.{Called, IsLegal, is_batch};
ghost use Rattle.inverse_log.specs.Headline.{IsFoldOfLive, IsSound};
ghost use Rattle.inverse_log.specs.Limits.{entry_limit};
ghost use Rattle.inverse_log.specs.Log.{board_of, edits_of};
ghost use Rattle.inverse_log.specs.Steps.{single_at};

use crate::call::Call;
use crate::compact::CompactCommand;
use crate::counted::Counted;
use crate::entry::Entry;
use crate::kept::{Held, Kept, Spare};
use crate::parts::{add_entry, add_held, enter, is_batch, leave, make_room, refused};
use crate::refusal::Refusal;
use crate::reply::Reply;
use dependence::{Clients, Touches};
use event_index::Indexed;
use moves::{Board, Command, Commands, Workspace};
use rapid_text::{OutOfMemory, TextKeyed};
use std::alloc::Global;
use std::marker::Model;
use std::slice;
use std::sync::Arc;

mod asking;
mod proposing;
mod undoing;

/// The most entries of a log.
const MAX_ENTRIES: u64 = 1_000_000;

/// A workspace that clients 1 to 32 change by commands, and its log. Contracts see its trace and its log, which
/// determine all else.
#[derive(Drop)]
pub struct Bench {
    alloc: Global,
    indexed: Arc<Indexed, Global>,
    rows: Counted<Workspace>,
    board: Board,
    log: Vec<Entry>,
    // for each entry what takes it back, if it did commands and was not undone
    steps: Vec<Kept>,
    // the box for the next inverse that needs one
    spare: Spare,
    touches: Touches,
    clients: Clients,
}

impl Model for Bench {
    ghost use Rattle.std.specs.Arc.{arc_value};
    ghost use Rattle.inverse_log.specs.Log.{Benched};
    ghost use Rattle.inverse_log.specs.Kept.{IsBench};

    ghost Value = { Benched };

    ghost view = { λ b. record { trace = arc_value b.indexed; log = b.log.items } };

    ghost invariant = { λ b.
        IsBench (arc_value b.indexed) b.log.items b.rows.rows b.board b.steps.items b.touches b.clients b.rows.edits };
}

impl Bench {
    /// The bench of this trace, with no schedule, no proposal and an empty log. The hashers of the trace's own text
    /// find the names of schedules.
    pub fn new(
        alloc: Global,
        indexed: Arc<Indexed, Global>,
    ) -> Result<Bench, (Arc<Indexed, Global>, OutOfMemory)>
        ensures trace { IfOk result (λ b. b.trace ≡ arc_value indexed) }
        ensures log { IfOk result (λ b. b.log ≡ []) }
        ensures returned { IfErr result (λ refused. arc_value refused.0 ≡ arc_value indexed) }
    {
        let hashers = indexed.trace().raw().keyed();
        Bench::keyed(alloc, indexed, hashers)
    }

    /// The same. The caller gives the keyed hashers for the names of schedules.
    pub fn keyed(
        alloc: Global,
        indexed: Arc<Indexed, Global>,
        hashers: TextKeyed,
    ) -> Result<Bench, (Arc<Indexed, Global>, OutOfMemory)>
        ensures trace { IfOk result (λ b. b.trace ≡ arc_value indexed) }
        ensures log { IfOk result (λ b. b.log ≡ []) }
        ensures returned { IfErr result (λ refused. arc_value refused.0 ≡ arc_value indexed) }
    {
        let _ = indexed.len();
        let Ok(clients) = Clients::empty(alloc) else {
            return Err((indexed, OutOfMemory));
        };
        Ok(Bench {
            alloc,
            indexed,
            rows: Counted::new(Workspace::keyed(alloc, hashers)),
            board: Board::empty(alloc),
            log: Vec::new(alloc),
            steps: Vec::new(alloc),
            spare: None,
            touches: Touches::keyed(alloc, hashers),
            clients,
        })
    }

    /// The number of entries of the log.
    pub fn log_len(&self) -> u64
        ensures len { result ≡ length self.now.log }
        // Calls of clients 1 to 32 built the log from the empty one.
        ensures legal { IsLegal self.now.trace self.now.log }
    {
        self.log.len() as u64
    }

    /// The entry of this number.
    pub fn entry(&self, number: u64) -> &Entry
        requires { number < length self.now.log }
        ensures { slice_get self.now.log number ≡ Some result.now }
    {
        &self.log[number as usize]
    }

    /// The trace.
    pub fn indexed(&self) -> &Indexed
        ensures { result.now ≡ self.now.trace }
    {
        &self.indexed
    }

    /// How often a row was changed, added, removed or replaced: once for each command that was applied, and once for
    /// each that was taken back.
    pub fn edits(&self) -> u64
        ensures { result ≡ edits_of self.now.log }
    {
        self.rows.edits()
    }

    /// The workspace: what the commands of the live entries make of the empty one, in their order.
    pub fn workspace(&self) -> &Workspace
        ensures { IsFoldOfLive self.now.trace self.now.log result.now }
    {
        self.rows.workspace()
    }

    /// The proposals, in the order in which they came.
    pub fn board(&self) -> &Board
        ensures board { result.now ≡ board_of self.now.trace self.now.log }
        ensures sound { All (IsSound self.now.trace) result.now }
    {
        &self.board
    }

    /// Makes a client's call.
    pub fn call(&mut self, client: u32, call: &Call) -> Result<Reply, Refusal>
        requires low { 1 ≤ client }
        requires high { client ≤ client_limit }
        ensures trace { self.new.trace ≡ self.old.trace }
        ensures call { Called self.old.trace self.old.log client call.now result self.new.log }
    {
        match call {
            Call::Do(command) => self.perform(client, command),
            Call::Batch(commands) => self.perform_all(client, commands.items()),
            Call::Undo => self.undo(client),
            Call::UndoAt { entry } => self.undo_at(client, *entry),
            Call::Propose {
                first,
                second,
                events,
            } => self.propose(client, *first, *second, events.items()),
            Call::Show(name) => self.show(client, name),
            Call::List => self.list(client),
            Call::Races(name) => self.races(client, name),
        }
    }

    fn perform(&mut self, client: u32, command: &Command) -> Result<Reply, Refusal>
        requires low { 1 ≤ client }
        requires high { client ≤ client_limit }
        ensures trace { self.new.trace ≡ self.old.trace }
        ensures call { Called self.old.trace self.old.log client (Call.Do command.now) result self.new.log }
    {
        let number = self.log.len() as u64;
        if number >= MAX_ENTRIES {
            return Err(Refusal::LogFull);
        }
        if let Err(why) = self
            .rows
            .workspace()
            .check(&self.indexed, &self.board, command)
        {
            return Err(Refusal::Move(why));
        }
        match self.put(client, command) {
            Ok(()) => Ok(Reply::Done(number)),
            Err(_) => Err(Refusal::OutOfMemory),
        }
    }

    // Applies a command that is not refused. The log has room for its entry.
    fn put(&mut self, client: u32, command: &Command) -> Result<(), OutOfMemory>
        requires client { client ≤ client_limit }
        requires room { length self.old.log < entry_limit }
        requires legal { IsLegal self.old.trace (self.old.log ++ Entry.Did client command.now ∷ []) }
        ensures trace { self.new.trace ≡ self.old.trace }
        ensures ok { OnOk result (self.new.log ≡ self.old.log ++ Entry.Did client command.now ∷ []) }
        ensures err { OnErr result (self.new.log ≡ self.old.log) }
    {
        let number = self.log.len() as u64;
        let Ok(()) = make_room(self.alloc, &mut self.log, &mut self.steps, &mut self.spare) else {
            return Err(OutOfMemory);
        };
        let Ok(compact) = CompactCommand::of(self.alloc, command) else {
            return Err(OutOfMemory);
        };
        let commands = slice::from_ref(command);
        let Ok(()) = enter(
            &mut self.touches,
            &mut self.clients,
            client,
            commands,
            number,
        ) else {
            return Err(OutOfMemory);
        };
        let Ok(inverse) = self.rows.apply(&self.indexed, &self.board, number, command) else {
            leave(
                &mut self.touches,
                &mut self.clients,
                client,
                commands,
                number,
            );
            return Err(OutOfMemory);
        };
        add_held(&mut self.steps, &mut self.spare, Held::One(inverse.step));
        add_entry(
            &mut self.log,
            Entry::Did {
                client,
                command: compact,
            },
        );
        Ok(())
    }

    fn perform_all(&mut self, client: u32, commands: &[Command]) -> Result<Reply, Refusal>
        requires low { 1 ≤ client }
        requires high { client ≤ client_limit }
        ensures trace { self.new.trace ≡ self.old.trace }
        ensures call { Called self.old.trace self.old.log client (Call.Batch commands.now) result self.new.log }
    {
        let number = self.log.len() as u64;
        if number >= MAX_ENTRIES {
            return Err(Refusal::LogFull);
        }
        if !is_batch(commands) {
            return Err(Refusal::BadBatch);
        }
        match Commands::of(self.alloc, commands) {
            Ok(kept) => self.put_batch(client, kept),
            Err(_) => Err(Refusal::OutOfMemory),
        }
    }

    // Applies the commands of a batch of 1 to 64. The log has room for its entry.
    fn put_batch(&mut self, client: u32, kept: Commands) -> Result<Reply, Refusal>
        requires low { 1 ≤ client }
        requires high { client ≤ client_limit }
        requires room { length self.old.log < entry_limit }
        requires sizes { is_batch kept ≡ true }
        ensures trace { self.new.trace ≡ self.old.trace }
        ensures call { Called self.old.trace self.old.log client (Call.Batch kept) result self.new.log }
    {
        let number = self.log.len() as u64;
        let commands = kept.items();
        let Ok(()) = make_room(self.alloc, &mut self.log, &mut self.steps, &mut self.spare) else {
            return Err(Refusal::OutOfMemory);
        };
        let Ok(()) = enter(
            &mut self.touches,
            &mut self.clients,
            client,
            commands,
            number,
        ) else {
            return Err(Refusal::OutOfMemory);
        };
        let inverses = match self
            .rows
            .apply_all(&self.indexed, &self.board, number, commands)
        {
            Ok(inverses) => inverses,
            Err(why) => {
                leave(
                    &mut self.touches,
                    &mut self.clients,
                    client,
                    commands,
                    number,
                );
                return Err(refused(why));
            }
        };
        add_held(&mut self.steps, &mut self.spare, Held::Many(inverses));
        add_entry(
            &mut self.log,
            Entry::Batch {
                client,
                commands: kept,
            },
        );
        Ok(Reply::Done(number))
    }
}
