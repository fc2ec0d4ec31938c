//! Reads the arguments of the commands that run scripts.
ghost use Rattle.std.specs.Prelude.{◌≤◌, IfOk};
ghost use Rattle.program_words.specs.Tasks.{IsWithin};

use crate::reading::word;
use crate::task::{Limits, SessionTask, Task, ThreadsTask};
use crate::values::{STANDARD, Unread, check_inputs, number, share_input};
use clap::ArgMatches;
use std::alloc::{AllocError, Global};

/// The task that the arguments of `replay` name.
pub(crate) fn replay<'a>(given: &ArgMatches<'a>, limits: Limits) -> Result<Task<'a>, Unread>
    ensures { IfOk result (IsWithin limits) }
{
    let trace = word(given, "TRACE");
    let script = word(given, "SCRIPT");
    check_inputs(&[trace], &[script])?;
    Ok(Task::Replay(trace, script))
}

/// The task that the arguments of `session` name.
pub(crate) fn session<'a>(given: &ArgMatches<'a>, limits: Limits) -> Result<Task<'a>, Unread>
    ensures { IfOk result (IsWithin limits) }
{
    let client = match given.get_str("client") {
        Some(word) => Some(number(
            word,
            1,
            limits.clients,
            "`--client` takes a number in decimal digits",
        )?),
        None => None,
    };
    let trace = word(given, "TRACE");
    let log = word(given, "LOG");
    if share_input(&[STANDARD], &[trace, log]) {
        return Err(Unread::Refused("`-` is standard input, which holds the lines of the session"));
    }
    Ok(Task::Session(SessionTask { trace, log, client }))
}

/// The paths that `threads` was given, that of the trace first.
fn paths<'a>(alloc: Global, given: &ArgMatches<'a>) -> Result<Vec<&'a str>, AllocError> {
    let mut paths = Vec::from_slice(alloc, &[word(given, "TRACE")])?;
    paths.extend_from_slice(given.get_strs("SCRIPT").unwrap_or(&[]))?;
    Ok(paths)
}

/// The number of workers of `threads`. Refuses paths that do not go together.
fn workers(given: &ArgMatches<'_>, limits: Limits) -> Result<u32, Unread>
    ensures { IfOk result (λ n. n ≤ limits.workers) }
{
    let workers = number(
        word(given, "workers"),
        0,
        limits.workers,
        "`--workers` takes a number in decimal digits",
    )?;
    check_inputs(
        given.get_strs("SCRIPT").unwrap_or(&[]),
        &[word(given, "TRACE")],
    )?;
    Ok(workers)
}

/// The task that the arguments of `threads` name.
pub(crate) fn threads<'a>(
    alloc: Global,
    given: &ArgMatches<'a>,
    limits: Limits,
) -> Result<Task<'a>, Unread>
    ensures { IfOk result (IsWithin limits) }
{
    let workers = workers(given, limits)?;
    let room = match given.get_str("room") {
        Some(word) => word.parse::<u32>().ok(),
        None => None,
    };
    let paths = paths(alloc, given)?;
    if paths.len() < 2 {
        return Err(Unread::Refused("there is no script"));
    }
    Ok(Task::Threads(ThreadsTask {
        paths,
        workers,
        room,
    }))
}
