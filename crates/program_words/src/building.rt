//! Builds the program and its commands for `clap`, from the table, one argument at a time.

use crate::commands::{COMMANDS, CommandName, words_of};
use crate::program::{NAME, VERSION, program_words};
use crate::task::Limits;
use crate::words::{Kind, Word, Words};
use clap::builder::ValueParser;
use clap::{Arg, ArgAction, Command};
use std::alloc::{AllocError, Global};

/// What help prints for a number.
const NUMBER: &str = "N";

/// An option with a number.
fn numbered<'a>(arg: Arg<'a>, least: u32, most: u32) -> Arg<'a> {
    arg.value_name(NUMBER)
        .value_parser(ValueParser::signed(i64::from(least), i64::from(most)))
}

/// An option with its value, if it has one.
fn flag<'a>(arg: Arg<'a>, kind: Kind, limits: Limits) -> Arg<'a> {
    match kind {
        Kind::Text(name) | Kind::Texts(name) => arg.value_name(name),
        Kind::Number {
            least,
            most,
            default,
        } => {
            let arg = numbered(arg, least, limits.most(most));
            match default {
                Some(default) => arg.default_value(default),
                None => arg,
            }
        }
        Kind::Optional {
            least,
            most,
            missing,
        } => numbered(arg, least, limits.most(most))
            .num_args(0..=1)
            .require_equals(true)
            .default_missing_value(missing),
        _ => arg,
    }
}

/// What `clap` does with an argument of this kind.
fn action_of(kind: Kind) -> ArgAction {
    match kind {
        Kind::Flag(_) => ArgAction::SetTrue,
        Kind::SeveralNeeded | Kind::Texts(_) => ArgAction::Append,
        _ => ArgAction::Set,
    }
}

/// The flags that an argument of this kind conflicts with.
fn others_of(kind: Kind) -> &'static [&'static str] {
    match kind {
        Kind::Flag(others) => others,
        _ => &[],
    }
}

/// An argument of a command.
fn argument<'a>(alloc: Global, word: &Word, limits: Limits) -> Result<Arg<'a>, AllocError> {
    let arg = Arg::new(alloc, word.name)
        .help(word.help.unwrap_or(""))
        .hide(word.help.is_none())
        .action(action_of(word.kind));
    let arg = match word.kind {
        Kind::Needed => arg.required(true),
        Kind::SeveralNeeded => arg.required(true).num_args(1..),
        _ => flag(arg.long(word.name), word.kind, limits),
    };
    arg.conflicts_with_all(others_of(word.kind))
}

/// A command with one more argument.
fn with_word<'a>(
    alloc: Global,
    command: Command<'a>,
    word: &Word,
    limits: Limits,
) -> Result<Command<'a>, AllocError> {
    match argument(alloc, word, limits) {
        Ok(arg) => command.arg(arg),
        Err(error) => Err(error),
    }
}

/// A command, or the program itself, without its arguments.
fn titled<'a>(alloc: Global, words: &Words) -> Command<'a> {
    Command::new(alloc, words.name)
        .about(words.about)
        .after_help(words.example)
}

/// A command with its arguments.
fn command<'a>(alloc: Global, words: &Words, limits: Limits) -> Result<Command<'a>, AllocError> {
    let mut command = titled(alloc, words);
    for word in words.words {
        command = with_word(alloc, command, word, limits)?;
    }
    Ok(command)
}

/// The program without commands.
fn program<'a>(alloc: Global) -> Result<Command<'a>, AllocError> {
    titled(alloc, &program_words())
        .version(VERSION)
        .bin_name(NAME)
}

/// The program with one more command.
fn with_command<'a>(
    alloc: Global,
    program: Command<'a>,
    words: &Words,
    limits: Limits,
) -> Result<Command<'a>, AllocError> {
    match command(alloc, words, limits) {
        Ok(command) => program.subcommand(command),
        Err(error) => Err(error),
    }
}

/// The program with its commands.
pub(crate) fn words_taken<'a>(alloc: Global, limits: Limits) -> Result<Command<'a>, AllocError> {
    let mut taken = program(alloc)?;
    for command in COMMANDS {
        taken = with_command(alloc, taken, &words_of(command), limits)?;
    }
    Ok(taken)
}

/// A command alone. Its usage begins with the program's name.
fn lone<'a>(alloc: Global, words: &Words, limits: Limits) -> Result<Command<'a>, AllocError> {
    let name = words.name;
    let called = format!(in alloc; "{NAME} {name}")?;
    match command(alloc, words, limits) {
        Ok(command) => command.bin_name(called.as_str()),
        Err(error) => Err(error),
    }
}

/// This command alone; the program with its commands, if none is named.
pub(crate) fn lone_or_all<'a>(
    alloc: Global,
    name: Option<CommandName>,
    limits: Limits,
) -> Result<Command<'a>, AllocError> {
    match name {
        Some(name) => lone(alloc, &words_of(name), limits),
        None => words_taken(alloc, limits),
    }
}
