//! Calls of several clients on one bench.
ghost use Rattle.std.specs.Prelude.{◌≡◌, ◌≤◌, ◌<◌, ◌+◌, ◌++◌, ◌∷◌, [], All, length, Ok, Err, fold, Some};
ghost use Rattle.dependence.specs.Limits.{client_limit};
ghost use Rattle.moves.specs.Rows.{Rows};
ghost use Rattle.inverse_log.specs.Answer.{IsLegal, answer_of};
ghost use Rattle.inverse_log.specs.Headline.{IsFoldOfLive, IsSound};
ghost use Rattle.inverse_log.specs.Log.{rows_of, board_of};
ghost use Rattle.inverse_log.specs.declared.entry.Entry.TheVariants.{Did};
ghost use Rattle.outside.specs.headline.History.{IsClient, Follows};
ghost use Rattle.inverse_log.specs.Limits.{entry_limit};

use inverse_log::headline::{rows_are_the_fold, undo_directly_restores};
use inverse_log::{Bench, Call, Refusal, Reply};
use moves::Command;

/// A call and its client.
#[derive(Drop)]
pub struct Asked {
    /// The client's number, 1 to 32.
    pub client: u32,
    /// The call.
    pub call: Call,
}

/// Makes the calls, one after another, by any clients.
pub fn make_all(bench: &mut Bench, asked: &[Asked])
    requires clients { All IsClient asked.now }
    ensures trace { bench.new.trace ≡ bench.old.trace }
    ensures follows { Follows bench.old.trace bench.old.log asked.now bench.new.log }
    ensures legal { IsLegal bench.new.trace bench.new.log }
    ensures rows { IsFoldOfLive bench.new.trace bench.new.log (rows_of bench.new.trace bench.new.log) }
    ensures board { All (IsSound bench.new.trace) (board_of bench.new.trace bench.new.log) }
{
    for one in asked {
        let _ = bench.call(one.client, &one.call);
    }
    let _ = bench.log_len();
    let _ = bench.indexed().len();
    rows_are_the_fold();
}

/// How a command and its undo ended.
#[derive(Clone, Copy)]
pub enum Outcome {
    /// The command was refused.
    Refused,
    /// The command was applied and not taken back.
    Stays,
    /// The command was applied and taken back.
    Restored,
}

/// Applies a command and takes it back at once.
pub fn do_and_undo(bench: &mut Bench, client: u32, command: Command) -> Outcome
    requires low { 1 ≤ client }
    requires high { client ≤ client_limit }
    requires room { length bench.old.log + 1 < entry_limit }
    ensures trace { bench.new.trace ≡ bench.old.trace }
    ensures refused { result ≡ Outcome.Refused → bench.new ≡ bench.old }
    // any rows of the log after both are those of the log before
    ensures restored { result ≡ Outcome.Restored → (W V : Rows)
        → IsFoldOfLive bench.old.trace bench.old.log W → IsFoldOfLive bench.new.trace bench.new.log V → W ≡ V }
    ensures stays { result ≡ Outcome.Stays → bench.new.log ≡ bench.old.log ++ Did client command ∷ [] }
{
    let _ = bench.log_len();
    undo_directly_restores();
    match bench.call(client, &Call::Do(command)) {
        Err(_) => Outcome::Refused,
        Ok(_) => match bench.call(client, &Call::Undo) {
            Err(_) => Outcome::Stays,
            Ok(_) => Outcome::Restored,
        },
    }
}
