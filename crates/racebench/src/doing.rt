//! What the program does for each of its commands: opens the inputs, makes the call, flushes the writer, and returns
//! the exit status.
ghost use Rattle.std.specs.Prelude.{◌≡◌, ◌<◌, ◌≤◌, All, false, vec_len};

use crate::input::{Input, Watched, input_at, inputs_at};
use crate::marked::{say_marked, tell_mark};
use crate::notes::are_wanted;
use crate::telling::{say, tell_files, tell_joint, tell_pair, tell_replay, tell_uses};
use calls::pair::{Form, Name, explain, uses, witness};
use calls::{
    BEST_ROOM, BenchFault, MAX_SCRIPTS, Running, info, replay, replay_joint, threads_with_room,
};
use client_scripts::{FromWrite, ReplayFault};
use program_words::{Named, PairTask, ScheduleForm, ThreadsTask};
use std::io;
use std::io::IsTerminal;
use std::process::ExitCode;
use std::sync::Wait;
use std::thread::Threads;

/// Flushes the writer, and returns the exit status.
pub(crate) fn finish<W: io::Write>(rt: &HostRuntime, writer: &mut FromWrite<W>) -> ExitCode {
    match writer.flush() {
        Ok(()) => ExitCode::SUCCESS,
        Err(_) => tell_replay(rt, ReplayFault::Write),
    }
}

/// Flushes the writer after a trace was read, and returns the exit status. If the trace begins with a byte order mark,
/// a note says so.
fn finish_read<W: io::Write>(
    rt: &HostRuntime,
    writer: &mut FromWrite<W>,
    input: &Input,
    path: &str,
) -> ExitCode {
    match writer.flush() {
        Ok(()) => {
            tell_mark(rt, input, path);
            ExitCode::SUCCESS
        }
        Err(_) => tell_replay(rt, ReplayFault::Write),
    }
}

/// The note before a terminal is read. Else it would look as if the program did nothing.
const READING: &[u8] =
    b"note: type a trace, a line `---` and a script, or see `racebench --help`\n";

/// If standard input is a terminal, a note says what is read there.
fn note_terminal(rt: &HostRuntime) {
    if rt.stdin().is_terminal() && are_wanted(rt) {
        say(rt, READING);
    }
}

/// Replays the joint text on standard input. If it has no line `---`, a note says that the script is missing.
pub(crate) fn replay_input(rt: &HostRuntime) -> ExitCode {
    note_terminal(rt);
    match Watched::new(rt.alloc(), rt.reader()) {
        Ok(mut input) => replay_watched(rt, &mut input),
        Err(_) => tell_replay(rt, ReplayFault::OutOfMemory),
    }
}

/// Replays the joint text that this input gives.
fn replay_watched<R: io::Read + Drop>(rt: &HostRuntime, input: &mut Watched<R>) -> ExitCode
    requires { input.old.reader.1 ≡ false }
{
    let mut writer = FromWrite::new(io::writer(rt));
    match replay_joint(rt.alloc(), input, &mut writer) {
        Ok(_) => match writer.flush() {
            Ok(()) => {
                note_watched(rt, input);
                ExitCode::SUCCESS
            }
            Err(_) => tell_replay(rt, ReplayFault::Write),
        },
        Err(fault) => tell_joint(rt, fault, &input.kept, input.is_whole),
    }
}

/// Writes notes on a replayed joint text: that it has no script, or begins with a byte order mark.
fn note_watched<R: io::Read + Drop>(rt: &HostRuntime, input: &Watched<R>) {
    if !input.has_divider() && are_wanted(rt) {
        say(rt, b"note: there is no line `---`, so there is no script\n");
    }
    if input.has_mark() {
        say_marked(rt, "-");
    }
}

/// Prints what the trace in a file holds.
pub(crate) fn info_of_file(rt: &HostRuntime, trace: &str) -> ExitCode {
    let mut writer = FromWrite::new(io::writer(rt));
    let mut input = input_at(rt, trace);
    match info(rt.alloc(), &mut input, &mut writer) {
        Ok(()) => finish_read(rt, &mut writer, &input, trace),
        Err(fault) => tell_files(rt, fault, &[trace]),
    }
}

/// The name of an event or location, in the type that the calls take.
pub(crate) fn name_of(named: Named<'_>) -> Name<'_> {
    match named {
        Named::Event(number) => Name::Event(number),
        Named::Place(word) => Name::Place(word.as_bytes()),
    }
}

/// Explains a pair of events of the trace in a file.
pub(crate) fn explain_in_file(rt: &HostRuntime, pair: &PairTask<'_>, all: bool) -> ExitCode {
    let mut writer = FromWrite::new(io::writer(rt));
    let mut input = input_at(rt, pair.trace);
    let (one, other) = (name_of(pair.one), name_of(pair.other));
    match explain(rt.alloc(), &mut input, one, other, all, &mut writer) {
        Ok(()) => finish_read(rt, &mut writer, &input, pair.trace),
        Err(fault) => tell_pair(rt, fault, pair),
    }
}

/// The form of a schedule, in the type that the call takes.
fn form_of(form: ScheduleForm) -> Form {
    match form {
        ScheduleForm::Events => Form::Events,
        ScheduleForm::Script => Form::Script,
        ScheduleForm::Trace => Form::Trace,
        ScheduleForm::Svg => Form::Svg,
    }
}

/// Prints the schedule that shows a pair of events of the trace in a file.
pub(crate) fn witness_in_file(
    rt: &HostRuntime,
    pair: &PairTask<'_>,
    form: ScheduleForm,
) -> ExitCode {
    let mut writer = FromWrite::new(io::writer(rt));
    let mut input = input_at(rt, pair.trace);
    let form = form_of(form);
    let (one, other) = (name_of(pair.one), name_of(pair.other));
    match witness(rt.alloc(), &mut input, one, other, form, &mut writer) {
        Ok(()) => finish_read(rt, &mut writer, &input, pair.trace),
        Err(fault) => tell_pair(rt, fault, pair),
    }
}

/// Lists the accesses of the variables of a race of the trace in a file.
pub(crate) fn uses_in_file(rt: &HostRuntime, pair: &PairTask<'_>) -> ExitCode {
    let mut writer = FromWrite::new(io::writer(rt));
    let mut input = input_at(rt, pair.trace);
    let (one, other) = (name_of(pair.one), name_of(pair.other));
    match uses(rt.alloc(), &mut input, one, other, &mut writer) {
        Ok(()) => finish_read(rt, &mut writer, &input, pair.trace),
        Err(fault) => tell_uses(rt, fault, pair),
    }
}

/// Replays the script in one file on the trace in another.
pub(crate) fn replay_files(rt: &HostRuntime, trace: &str, script: &str) -> ExitCode {
    let mut writer = FromWrite::new(io::writer(rt));
    let mut trace_file = input_at(rt, trace);
    let mut script_file = input_at(rt, script);
    match replay(rt.alloc(), &mut trace_file, &mut script_file, &mut writer) {
        Ok(_) => finish_read(rt, &mut writer, &trace_file, trace),
        Err(fault) => tell_files(rt, BenchFault::from(fault), &[trace, script]),
    }
}

/// Runs the scripts that these inputs give on a trace.
fn run_scripts<R: Threads + Wait + Sync + Clone + Send + Drop + 'static>(
    rt: &HostRuntime,
    starts: &R,
    trace: &mut Input,
    scripts: Vec<Input>,
    task: &ThreadsTask<'_>,
) -> ExitCode
    requires trace { trace.old.failed ≡ false }
    requires scripts { All (λ input. input.failed ≡ false) scripts.items }
    requires some { 0 < vec_len scripts }
    requires workers { task.now.workers ≤ 16 }
{
    let mut writer = FromWrite::new(io::writer(rt));
    let running = Running {
        workers: task.workers,
        room: task.room.unwrap_or(BEST_ROOM),
    };
    match threads_with_room(starts, rt.alloc(), trace, scripts, running, &mut writer) {
        Ok(()) => {
            let path = task.paths.first().unwrap_or(&"");
            finish_read(rt, &mut writer, trace, path)
        }
        Err(fault) => tell_files(rt, fault, &task.paths),
    }
}

/// Runs the scripts in files on the trace in another file, each script in a separate thread if one can be started. If
/// there are too many scripts, they are refused before a file is opened.
pub(crate) fn threads_on_files<R: Threads + Wait + Sync + Clone + Send + Drop + 'static>(
    rt: &HostRuntime,
    starts: &R,
    task: &ThreadsTask<'_>,
) -> ExitCode
    requires scripts { 1 < vec_len task.now.paths }
    requires workers { task.now.workers ≤ 16 }
{
    let scripts = &task.paths[1..];
    if scripts.len() > MAX_SCRIPTS {
        return tell_files(rt, BenchFault::TooManyScripts, &task.paths);
    }
    let mut trace = input_at(rt, task.paths[0]);
    match inputs_at(rt, scripts) {
        Ok(inputs) => run_scripts(rt, starts, &mut trace, inputs, task),
        Err(_) => tell_replay(rt, ReplayFault::OutOfMemory),
    }
}
