//! Reads batches: commands with a separator between two.
ghost use Rattle.std.specs.Prelude.{◌≡◌, ◌⊎◌, Err, map};
ghost use Rattle.std.specs.List.{list_any, slice_split};
ghost use Rattle.script_language.specs.Arguments.{is_one, are_two, are_three, are_arguments};
ghost use Rattle.script_language.specs.LineWords.{is_separator};
ghost use Rattle.script_language.specs.Scripts.{command_reading, is_bad_word, parts_reading, batch_reading};
ghost use Rattle.script_language.specs.declared.refusal.ScriptCause.TheVariants.{OutOfMemory};

use crate::calls::read_command;
use crate::lines::Words;
use crate::quick_batch::quick_commands;
use crate::refusal::ScriptCause;
use crate::verb::{CommandVerb, Verb, verb_with};
use inverse_log::Call;
use moves::Commands;
use std::alloc::Global;

/// Whether this is one word.
fn is_one(words: &mut Words<'_>) -> bool
    ensures { result ≡ is_one words.old }
{
    words.next().is_some() && words.next().is_none()
}

/// Whether these are two words.
fn are_two(words: &mut Words<'_>) -> bool
    ensures { result ≡ are_two words.old }
{
    words.next().is_some() && is_one(words)
}

/// Whether these are three words.
fn are_three(words: &mut Words<'_>) -> bool
    ensures { result ≡ are_three words.old }
{
    words.next().is_some() && are_two(words)
}

/// Whether these are as many words as a command of this kind has arguments.
fn are_arguments(verb: CommandVerb, words: &mut Words<'_>) -> bool
    ensures { result ≡ are_arguments verb words.old }
{
    match verb {
        CommandVerb::New | CommandVerb::Back | CommandVerb::Drop => is_one(words),
        CommandVerb::Add | CommandVerb::Swap | CommandVerb::Adopt => are_two(words),
        CommandVerb::Branch => are_three(words),
    }
}

/// Whether no command has this word, or this word with this many arguments. Does not read the arguments.
fn is_bad_command(words: &mut Words<'_>) -> bool
    ensures { result ≡ is_bad_word (command_reading words.old) }
{
    let Some(word) = words.next() else {
        return true;
    };
    match verb_with(word) {
        Some(Verb::Do(verb)) => !are_arguments(verb, words),
        _ => true,
    }
}

/// Whether one of the parts between separators is not a command with its arguments.
fn has_bad_word(words: Words<'_>) -> bool
    ensures { result ≡ list_any is_bad_word (map command_reading (slice_split is_separator words.entry)) }
{
    let mut left = Some(words);
    while let Some(words) = left.take() {
        if is_bad_command(&mut words.before_separator()) {
            return true;
        }
        left = words.behind_separator();
    }
    false
}

/// The commands between separators.
fn read_commands(alloc: Global, words: Words<'_>) -> Result<Commands, ScriptCause>
    ensures { (result ≡ Err OutOfMemory) ⊎ (result ≡ parts_reading words.entry) }
{
    let mut commands = Commands::new(alloc);
    let mut left = Some(words);
    while let Some(words) = left.take() {
        let command = read_command(&mut words.before_separator())?;
        if commands.push(command).is_err() {
            return Err(ScriptCause::OutOfMemory);
        }
        left = words.behind_separator();
    }
    Ok(commands)
}

/// Reads the commands of a batch. Checks the word and the number of arguments of each command before it reads any
/// arguments. Reads a batch without faults in one pass.
#[tactic(auto, using(crate::proofs::QuickBatchLemmas::batch_at_once))]
pub(crate) fn read_batch(alloc: Global, words: &mut Words<'_>) -> Result<Call, ScriptCause>
    ensures { (result ≡ Err OutOfMemory) ⊎ (result ≡ batch_reading words.old) }
{
    if let Some(commands) = quick_commands(alloc, words.again()) {
        return Ok(Call::Batch(commands));
    }
    if has_bad_word(words.again()) {
        return Err(ScriptCause::BadWord);
    }
    let commands = read_commands(alloc, words.again())?;
    Ok(Call::Batch(commands))
}
