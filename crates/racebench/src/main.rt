//! The program. It replays scripts, runs several at the same time, and answers sessions. It prints what a trace holds,
//! its races and its windows, explains a pair of its events, and merges reports.
#![tactic(auto)]

ghost use Rattle.program_words.specs.Tasks.{IsWithin};

mod code_names;
mod coding;
mod cutting;
mod deadlocking;
mod doing;
mod ends;
mod failing;
mod file_notes;
mod finding_files;
mod folders;
mod front;
mod input;
mod judging_windows;
mod kept;
mod leaving;
mod likeness;
mod line_notes;
mod lines;
mod listing;
mod log_notes;
mod logging;
mod marked;
mod merging;
mod missing;
mod notes;
mod numbering;
mod output;
mod pair_notes;
mod pieces;
mod place_notes;
mod printing_windows;
mod progress;
mod quoted;
mod seen;
mod sessions;
mod telling;
mod telling_paths;
mod telling_sessions;
mod telling_triage;
mod telling_words;
mod today;
mod trace_notes;
mod triaging;
mod triaging_windows;
mod windows;
mod write_notes;

use crate::cutting::cut_of_file;
use crate::deadlocking::deadlocks_in_file;
use crate::doing::{
    explain_in_file, info_of_file, replay_files, replay_input, threads_on_files, uses_in_file,
    witness_in_file,
};
use crate::merging::merge_files;
use crate::sessions::{log_of_file, session_on_files};
use crate::telling_words::{EMPTY_TEXT, tell_refusal, tell_words};
use crate::triaging::triage_file;
use crate::triaging_windows::triage_windows;
use calls::triage::MAX_TRIES;
use calls::{MAX_SCRIPTS, MAX_WORKERS};
use program_words::{Limits, Task, Told, no_text, task_of};
use rapid_text::MAX_EVENTS;
use std::io;
use std::process::ExitCode;
use std::sync::Wait;
use std::thread::Threads;

/// The limits of the arguments. There is one client more than scripts: the one that proposes what workers find.
pub(crate) const LIMITS: Limits = Limits {
    clients: MAX_SCRIPTS as u32 + 1,
    workers: MAX_WORKERS,
    tries: MAX_TRIES,
    events: MAX_EVENTS as u32,
};

/// The arguments of the program, with its own name first.
fn read_words(rt: &HostRuntime) -> Result<Vec<String>, Told> {
    match std::env::args(rt) {
        Ok(words) => match words.collect(rt.alloc()) {
            Ok(words) => Ok(words),
            Err(_) => Err(Told::OutOfMemory),
        },
        Err(error) => match error.kind() {
            io::ErrorKind::OutOfMemory => Err(Told::OutOfMemory),
            _ => Err(no_text(rt.alloc(), LIMITS)),
        },
    }
}

/// Does the task. `starts` starts threads; it is a separate parameter, since only `main` gets it.
fn work<R: Threads + Wait + Sync + Clone + Send + Drop + 'static>(
    rt: &HostRuntime,
    starts: &R,
    task: &Task<'_>,
) -> ExitCode
    requires { IsWithin LIMITS task.now }
{
    match task {
        Task::Joint => replay_input(rt),
        Task::Info(trace) => info_of_file(rt, trace),
        Task::Replay(trace, script) => replay_files(rt, trace, script),
        Task::Session(task) => session_on_files(rt, task.trace, task.log, task.client),
        Task::Log(log) => log_of_file(rt, log),
        Task::Threads(task) => threads_on_files(rt, starts, task),
        Task::Triage(task) => match task.windows {
            Some(most) => triage_windows(rt, starts, task, most),
            None => triage_file(rt, starts, task),
        },
        Task::Deadlocks(task) => deadlocks_in_file(rt, task),
        Task::Explain(pair, all) => explain_in_file(rt, pair, *all),
        Task::Witness(pair, form) => witness_in_file(rt, pair, *form),
        Task::Uses(pair) => uses_in_file(rt, pair),
        Task::Cut(task) => cut_of_file(rt, task),
        Task::Merge(task) => merge_files(rt, task),
    }
}

/// Whether one of the texts is empty.
fn has_empty(texts: &[&str]) -> bool {
    texts.iter().any(|text| text.is_empty())
}

/// Whether the task would leave blocks out by an empty text. Each block mentions it, so all would be left out, or none.
fn filters_by_nothing(task: &Task<'_>) -> bool {
    match task {
        Task::Triage(task) => has_empty(&task.only) || has_empty(&task.hide),
        Task::Deadlocks(task) => has_empty(&task.only) || has_empty(&task.hide),
        Task::Merge(task) => has_empty(&task.only) || has_empty(&task.hide),
        _ => false,
    }
}

/// Does the task, unless it would leave blocks out by an empty text.
fn work_checked<R: Threads + Wait + Sync + Clone + Send + Drop + 'static>(
    rt: &HostRuntime,
    starts: &R,
    task: &Task<'_>,
    words: &[String],
) -> ExitCode
    requires { IsWithin LIMITS task.now }
{
    if filters_by_nothing(task) {
        return tell_refusal(rt, EMPTY_TEXT, words);
    }
    work(rt, starts, task)
}

/// Reads the arguments, and does the task that they name.
fn work_on_words<R: Threads + Wait + Sync + Clone + Send + Drop + 'static>(
    rt: &HostRuntime,
    starts: &R,
    words: &[String],
) -> ExitCode {
    match task_of(rt.alloc(), words, LIMITS) {
        Ok(task) => work_checked(rt, starts, &task, words),
        Err(told) => tell_words(rt, &told, words),
    }
}

fn main(rt: HostRuntime) -> ExitCode {
    match read_words(&rt) {
        Ok(words) => work_on_words(&rt, &rt, words.as_slice()),
        Err(told) => tell_words(&rt, &told, &[]),
    }
}
