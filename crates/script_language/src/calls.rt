//! Reads the call in a script line.
ghost use Rattle.std.specs.Prelude.{◌≡◌, ◌⊎◌, ◌≤◌, ℕ, IfOk, Ok, Err, Some};
ghost use Rattle.dependence.specs.Limits.{client_limit};
ghost use Rattle.rapid_text.specs.Appended.{IfFound};
ghost use Rattle.script_language.specs.Scripts.{name_reading, number_reading, numbers_reading, nothing_reading, one_name_reading, name_and_number_reading, branch_reading, command_arguments_reading, command_with, command_reading, batch_reading, undo_reading, propose_reading, arguments_reading, call_reading, client_reading, words_reading, script_line_reading};
ghost use Rattle.script_language.specs.declared.refusal.ScriptCause.TheVariants.{OutOfMemory};

use crate::batches::read_batch;
use crate::lines::Words;
use crate::number::number;
use crate::refusal::ScriptCause;
use crate::verb::{CommandVerb, Verb, verb_with};
use event_index::EventList;
use inverse_log::Call;
use moves::{Command, Name};
use rapid_text::trim;
use std::alloc::Global;

/// The most bytes of a script line, without the blanks at its ends.
pub(crate) const MAX_SCRIPT_LINE: usize = 65_536;

/// The most clients; they are numbered from 1.
const MAX_CLIENT: u32 = 32;

/// The word as a name.
pub(crate) fn read_name(word: &[u8]) -> Result<Name, ScriptCause>
    ensures { result ≡ name_reading word.now }
{
    match Name::new(word) {
        Ok(name) => Ok(name),
        Err(_) => Err(ScriptCause::BadName),
    }
}

/// The word as a number.
pub(crate) fn read_number(word: &[u8]) -> Result<u32, ScriptCause>
    ensures { result ≡ number_reading word.now }
{
    number(word).ok_or(ScriptCause::BadNumber)
}

/// Reads all words as numbers.
fn read_numbers(alloc: Global, words: &mut Words<'_>) -> Result<EventList, ScriptCause>
    ensures { (result ≡ Err OutOfMemory) ⊎ (result ≡ numbers_reading words.old) }
{
    let mut numbers = EventList::new(alloc);
    while let Some(word) = words.next() {
        let number = read_number(word)?;
        if numbers.push(number).is_err() {
            return Err(ScriptCause::OutOfMemory);
        }
    }
    Ok(numbers)
}

/// Fails if a word is left.
pub(crate) fn read_nothing(words: &mut Words<'_>) -> Result<(), ScriptCause>
    ensures { result ≡ nothing_reading words.old }
{
    match words.next() {
        Some(_) => Err(ScriptCause::BadWord),
        None => Ok(()),
    }
}

/// A name alone.
pub(crate) fn read_one_name(words: &mut Words<'_>) -> Result<Name, ScriptCause>
    ensures { result ≡ one_name_reading words.old }
{
    let name = words.next().ok_or(ScriptCause::BadWord)?;
    read_nothing(words)?;
    read_name(name)
}

/// A name and a number.
pub(crate) fn read_name_and_number(words: &mut Words<'_>) -> Result<(Name, u32), ScriptCause>
    ensures { result ≡ name_and_number_reading words.old }
{
    let Some(name) = words.next() else {
        return Err(ScriptCause::BadWord);
    };
    let Some(number) = words.next() else {
        return Err(ScriptCause::BadWord);
    };
    read_nothing(words)?;
    let name = read_name(name)?;
    let number = read_number(number)?;
    Ok((name, number))
}

/// The arguments of `branch`.
fn read_branch(words: &mut Words<'_>) -> Result<Command, ScriptCause>
    ensures { result ≡ branch_reading words.old }
{
    let Some(name) = words.next() else {
        return Err(ScriptCause::BadWord);
    };
    let Some(length) = words.next() else {
        return Err(ScriptCause::BadWord);
    };
    let Some(to) = words.next() else {
        return Err(ScriptCause::BadWord);
    };
    read_nothing(words)?;
    let name = read_name(name)?;
    let length = read_number(length)?;
    let to = read_name(to)?;
    Ok(Command::Branch { name, length, to })
}

/// The arguments of a command of this kind.
fn read_command_arguments(verb: CommandVerb, words: &mut Words<'_>) -> Result<Command, ScriptCause>
    ensures { result ≡ command_arguments_reading verb words.old }
{
    match verb {
        CommandVerb::New => {
            let name = read_one_name(words)?;
            Ok(Command::Fresh { name })
        }
        CommandVerb::Add => {
            let (name, event) = read_name_and_number(words)?;
            Ok(Command::Add { name, event })
        }
        CommandVerb::Back => {
            let name = read_one_name(words)?;
            Ok(Command::Back { name })
        }
        CommandVerb::Swap => {
            let (name, at) = read_name_and_number(words)?;
            Ok(Command::Swap { name, at })
        }
        CommandVerb::Branch => read_branch(words),
        CommandVerb::Drop => {
            let name = read_one_name(words)?;
            Ok(Command::Drop { name })
        }
        CommandVerb::Adopt => {
            let (name, proposal) = read_name_and_number(words)?;
            Ok(Command::Adopt { name, proposal })
        }
    }
}

/// A command with its word.
pub(crate) fn read_command(words: &mut Words<'_>) -> Result<Command, ScriptCause>
    ensures { result ≡ command_reading words.old }
{
    let Some(word) = words.next() else {
        return Err(ScriptCause::BadWord);
    };
    match verb_with(word) {
        Some(Verb::Do(verb)) => read_command_arguments(verb, words),
        _ => Err(ScriptCause::BadWord),
    }
}

/// The argument of `undo`, if it has one: the number of an entry.
fn read_undo(words: &mut Words<'_>) -> Result<Call, ScriptCause>
    ensures { result ≡ undo_reading words.old }
{
    let Some(entry) = words.next() else {
        return Ok(Call::Undo);
    };
    read_nothing(words)?;
    let entry = read_number(entry)?;
    Ok(Call::UndoAt {
        entry: u64::from(entry),
    })
}

/// The arguments of `propose`.
fn read_propose(alloc: Global, words: &mut Words<'_>) -> Result<Call, ScriptCause>
    ensures { (result ≡ Err OutOfMemory) ⊎ (result ≡ propose_reading words.old) }
{
    let Some(first) = words.next() else {
        return Err(ScriptCause::BadWord);
    };
    let Some(second) = words.next() else {
        return Err(ScriptCause::BadWord);
    };
    let first = read_number(first)?;
    let second = read_number(second)?;
    let events = read_numbers(alloc, words)?;
    Ok(Call::Propose {
        first,
        second,
        events,
    })
}

/// The arguments of a call of this kind.
fn read_arguments(alloc: Global, verb: Verb, words: &mut Words<'_>) -> Result<Call, ScriptCause>
    ensures { (result ≡ Err OutOfMemory) ⊎ (result ≡ arguments_reading (Some verb) words.old) }
{
    match verb {
        Verb::Do(verb) => Ok(Call::Do(read_command_arguments(verb, words)?)),
        Verb::Batch => read_batch(alloc, words),
        Verb::Undo => read_undo(words),
        Verb::Propose => read_propose(alloc, words),
        Verb::Show => Ok(Call::Show(read_one_name(words)?)),
        Verb::List => {
            read_nothing(words)?;
            Ok(Call::List)
        }
        Verb::Races => Ok(Call::Races(read_one_name(words)?)),
    }
}

/// Reads what follows the client's number.
fn read_call(alloc: Global, words: &mut Words<'_>) -> Result<Call, ScriptCause>
    ensures { (result ≡ Err OutOfMemory) ⊎ (result ≡ call_reading words.old) }
{
    let word = words.next().ok_or(ScriptCause::BadWord)?;
    let verb = verb_with(word).ok_or(ScriptCause::BadWord)?;
    read_arguments(alloc, verb, words)
}

/// The word as a client's number.
pub(crate) fn read_client(word: &[u8]) -> Result<u32, ScriptCause>
    ensures reading { result ≡ client_reading word.now }
    ensures within { IfOk result (λ client. (1 ≤ client) × (client ≤ client_limit)) }
{
    match number(word) {
        Some(client) if 1 <= client && client <= MAX_CLIENT => Ok(client),
        _ => Err(ScriptCause::BadClient),
    }
}

/// Reads a line: a client's number and a call.
fn read_words(alloc: Global, words: &mut Words<'_>) -> Result<(u32, Call), ScriptCause>
    ensures reading { (result ≡ Err OutOfMemory) ⊎ (result ≡ words_reading words.old) }
    ensures client { IfOk result (λ pair. (1 ≤ pair.0) × (pair.0 ≤ client_limit)) }
{
    let word = words.next().ok_or(ScriptCause::BadClient)?;
    let client = read_client(word)?;
    let call = read_call(alloc, words)?;
    Ok((client, call))
}

/// Returns the client and the call of a line; None if the line is empty. Fails with the line's first fault, or with
/// `OutOfMemory`.
pub fn read_line(alloc: Global, raw: &[u8]) -> Result<Option<(u32, Call)>, ScriptCause>
    ensures reading { (result ≡ Err OutOfMemory) ⊎ (result ≡ script_line_reading raw.now) }
    ensures client { IfFound result (λ pair. (1 ≤ pair.0) × (pair.0 ≤ client_limit)) }
{
    let line = trim(raw);
    if line.is_empty() {
        return Ok(None);
    }
    if line.len() > MAX_SCRIPT_LINE {
        return Err(ScriptCause::LineTooLong);
    }
    let asked = read_words(alloc, &mut Words::of(line))?;
    Ok(Some(asked))
}
