//! Reads a batch without faults: it splits each of its words off only once.
ghost use Rattle.std.specs.Prelude.{◌≡◌, ◌∷◌, [], IfSome, Ok};
ghost use Rattle.std.specs.List.{slice_split};
ghost use Rattle.script_language.specs.LineWords.{is_separator};
ghost use Rattle.script_language.specs.QuickBatch.{parts_behind, Parts, Pushes};
ghost use Rattle.script_language.specs.Scripts.{one_name_reading, name_and_number_reading, branch_reading, command_arguments_reading, parts_reading};

use crate::calls::{read_name, read_number};
use crate::lines::{Words, is_separator};
use crate::verb::{CommandVerb, Verb, verb_with};
use moves::{Command, Commands, Name};
use std::alloc::Global;

/// Whether a separator comes next, and so more commands; false at the end of the batch. Returns None if another word
/// comes next.
#[tactic(auto, using(crate::proofs::QuickBatchLemmas::ends_here, crate::proofs::QuickBatchLemmas::ends_more))]
fn has_more(words: &mut Words<'_>) -> Option<bool>
    ensures { IfSome result (λ more. slice_split is_separator words.old ≡ [] ∷ parts_behind more words.new) }
{
    match words.next() {
        None => Some(false),
        Some(word) => is_separator(word).then_some(true),
    }
}

/// A name alone, and whether there are more commands.
#[tactic(auto, using(crate::proofs::QuickBatchLemmas::one_part))]
fn one_name(words: &mut Words<'_>) -> Option<(Name, bool)>
    ensures { IfSome result (λ read. Parts one_name_reading words.old read.0 read.1 words.new) }
{
    let word = words.next()?;
    let more = has_more(words)?;
    match read_name(word) {
        Ok(name) => Some((name, more)),
        Err(_) => None,
    }
}

/// A name and a number, and whether there are more commands.
#[tactic(auto, using(crate::proofs::QuickBatchLemmas::two_parts))]
fn name_and_number(words: &mut Words<'_>) -> Option<((Name, u32), bool)>
    ensures { IfSome result (λ read. Parts name_and_number_reading words.old read.0 read.1 words.new) }
{
    let first = words.next()?;
    let second = words.next()?;
    let more = has_more(words)?;
    match (read_name(first), read_number(second)) {
        (Ok(name), Ok(number)) => Some(((name, number), more)),
        _ => None,
    }
}

/// The arguments of a `branch`, and whether there are more commands.
#[tactic(auto, using(crate::proofs::QuickBatchLemmas::three_parts))]
fn branch(words: &mut Words<'_>) -> Option<(Command, bool)>
    ensures { IfSome result (λ read. Parts branch_reading words.old read.0 read.1 words.new) }
{
    let first = words.next()?;
    let second = words.next()?;
    let third = words.next()?;
    let more = has_more(words)?;
    match (read_name(first), read_number(second), read_name(third)) {
        (Ok(name), Ok(length), Ok(to)) => Some((Command::Branch { name, length, to }, more)),
        _ => None,
    }
}

/// A command with its arguments, and whether there are more commands.
#[tactic(auto, using(crate::proofs::QuickBatchLemmas::parts_then))]
fn arguments(verb: CommandVerb, words: &mut Words<'_>) -> Option<(Command, bool)>
    ensures { IfSome result (λ read. Parts (command_arguments_reading verb) words.old read.0 read.1 words.new) }
{
    match verb {
        CommandVerb::New => {
            let (name, more) = one_name(words)?;
            Some((Command::Fresh { name }, more))
        }
        CommandVerb::Add => {
            let ((name, event), more) = name_and_number(words)?;
            Some((Command::Add { name, event }, more))
        }
        CommandVerb::Back => {
            let (name, more) = one_name(words)?;
            Some((Command::Back { name }, more))
        }
        CommandVerb::Swap => {
            let ((name, at), more) = name_and_number(words)?;
            Some((Command::Swap { name, at }, more))
        }
        CommandVerb::Branch => branch(words),
        CommandVerb::Drop => {
            let (name, more) = one_name(words)?;
            Some((Command::Drop { name }, more))
        }
        CommandVerb::Adopt => {
            let ((name, proposal), more) = name_and_number(words)?;
            Some((Command::Adopt { name, proposal }, more))
        }
    }
}

/// Adds the next command, if it has no fault. Returns whether there are more commands.
#[tactic(auto, using(crate::proofs::QuickBatchLemmas::parts_of_command))]
fn push_next(commands: &mut Commands, words: &mut Words<'_>) -> Option<bool>
    ensures { IfSome result (λ more. Pushes words.old commands.old more words.new commands.new) }
{
    let word = words.next()?;
    let Some(Verb::Do(verb)) = verb_with(word) else {
        return None;
    };
    let (command, more) = arguments(verb, words)?;
    if commands.push(command).is_err() {
        return None;
    }
    Some(more)
}

/// The commands between separators. Returns None if one has a fault, or if memory runs out.
#[tactic(auto, using(crate::proofs::QuickBatchLemmas::pushed_on, crate::proofs::QuickBatchLemmas::pushed_fewer, crate::proofs::QuickBatchLemmas::pushed_all))]
pub(crate) fn quick_commands(alloc: Global, words: Words<'_>) -> Option<Commands>
    ensures { IfSome result (λ commands. parts_reading words.entry ≡ Ok commands) }
{
    let mut left = words;
    let mut commands = Commands::new(alloc);
    let mut has_more = true;
    while has_more {
        has_more = push_next(&mut commands, &mut left)?;
    }
    Some(commands)
}
