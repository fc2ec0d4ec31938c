//! The text to print if the arguments name no task: help, or why they are refused.

use crate::building::lone_or_all;
use crate::commands::CommandName;
use crate::task::Limits;
use clap::error::{Error, ErrorKind};
use std::alloc::{AllocError, Global};

/// What to print instead of doing a task.
#[derive(Drop)]
pub enum Told {
    /// Help or the version, as the arguments requested: a text for standard output.
    Help(String),
    /// Why the arguments are refused: a text for standard error.
    Refusal(String),
    /// Out of memory while reading the arguments.
    OutOfMemory,
}

/// The text that `clap` has for an error.
pub(crate) fn told_of(alloc: Global, error: &Error) -> Told {
    if error.kind() == ErrorKind::OutOfMemory {
        return Told::OutOfMemory;
    }
    match format!(in alloc; "{error}") {
        Ok(text) => {
            if error.use_stderr() {
                Told::Refusal(text)
            } else {
                Told::Help(text)
            }
        }
        Err(_) => Told::OutOfMemory,
    }
}

/// A refusal that `clap` itself does not make, in its form: with the usage of this command, or of the program if no
/// command is named.
fn refusal_of(
    alloc: Global,
    limits: Limits,
    command: Option<CommandName>,
    text: &str,
) -> Result<Error, AllocError> {
    match lone_or_all(alloc, command, limits) {
        Ok(mut words) => words.error(ErrorKind::InvalidValue, text),
        Err(error) => Err(error),
    }
}

/// The refusal of words for this reason, which name this command, or none.
pub(crate) fn refused(
    alloc: Global,
    limits: Limits,
    command: Option<CommandName>,
    text: &str,
) -> Told {
    match refusal_of(alloc, limits, command, text) {
        Ok(error) => told_of(alloc, &error),
        Err(_) => Told::OutOfMemory,
    }
}

/// The refusal of arguments that are not text. They never reach `task_of`.
pub fn no_text(alloc: Global, limits: Limits) -> Told {
    refused(alloc, limits, None, "the words are no text")
}
