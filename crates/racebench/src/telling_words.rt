//! What the program prints instead of doing a task: help, or why the arguments are refused.

use crate::LIMITS;
use crate::cutting::print_text;
use crate::file_notes::is_plain;
use crate::lines::{behind_line, first_line};
use crate::notes::{append_named, are_wanted};
use crate::pieces::before;
use crate::telling::{REFUSED, say, tell_replay};
use client_scripts::ReplayFault;
use memchr::memmem::find;
use program_words::{Told, task_of};
use rapid_text::OutOfMemory;
use std::alloc::Global;
use std::process::ExitCode;

/// The note on refused arguments that name no command.
const HELP: &[u8] =
    b"note: `racebench help` lists the commands, and `racebench help COMMAND` the options of one\n";

/// The note on a file in the place of a command, after the file's name.
const FILE: &[u8] =
    b" is a file, not a command: `racebench triage FILE` lists the races of a trace";

/// How the line of a refusal begins that proposes other arguments.
const TIP: &[u8] = b"  tip: ";

/// How a proposal goes on that is of no use: that an option is a value.
const AS_VALUE: &[u8] = b"to pass '";

/// The note on a request for the version.
const VERSION: &[u8] = b"note: `racebench --version` prints the version\n";

/// The note on more than one trace.
const ONE_TRACE: &[u8] =
    b"note: each call reads one trace; `racebench merge` makes one report of the `--json` reports of many\n";

/// The note on a missing trace.
const NO_TRACE: &[u8] = b"note: for the path `-` standard input is read\n";

/// The commands that read one trace, and take no other file as an argument.
const OF_ONE_TRACE: [&str; 3] = ["triage", "cut", "info"];

/// Why an empty text is refused: each block mentions it.
pub(crate) const EMPTY_TEXT: &[u8] =
    b"error: `--only` and `--hide` take a text that is not empty\n\nFor more information, try '--help'.\n";

/// How the line of a help text begins that has the usage.
const USAGE: &[u8] = b"Usage: ";

/// The usage in the help of a command or in a refusal; None if the text has no such line.
fn usage_in(text: &[u8]) -> Option<&[u8]> {
    let mut rest = text;
    'lines: for _ in 0..text.len() {
        let line = first_line(rest, true)?;
        if let Some(usage) = line.strip_prefix(USAGE) {
            return Some(usage);
        }
        rest = behind_line(rest)?;
    }
    None
}

/// The arguments that request the help of this command, after the program's name.
fn words_for_help(alloc: Global, command: &str) -> Result<Vec<String>, OutOfMemory> {
    let mut words = Vec::new(alloc);
    for word in ["racebench", "help", command] {
        words.push(String::from_str(alloc, word)?)?;
    }
    Ok(words)
}

/// The help of this command; None if there is no such command.
fn help_of(alloc: Global, command: &str) -> Result<Option<String>, OutOfMemory> {
    let words = words_for_help(alloc, command)?;
    let told = task_of(alloc, words.as_slice(), LIMITS);
    match told {
        Err(Told::Help(text)) => Ok(Some(text)),
        Err(Told::OutOfMemory) => Err(OutOfMemory),
        _ => Ok(None),
    }
}

/// Appends the notes on refused arguments of this command: its usage, unless the refusal has it, and where its help is.
fn append_usage(
    out: &mut Vec<u8>,
    refusal: &[u8],
    command: &str,
    help: &[u8],
) -> Result<(), OutOfMemory> {
    match usage_in(help) {
        Some(usage) if usage_in(refusal) != Some(usage) => {
            out.extend_from_slice(b"note: it is written `")?;
            out.extend_from_slice(usage)?;
            out.extend_from_slice(b"`\n")?;
        }
        _ => {}
    }
    out.extend_from_slice(b"note: `racebench help ")?;
    out.extend_from_slice(command.as_bytes())?;
    out.extend_from_slice(b"` describes its arguments\n")?;
    Ok(())
}

/// Appends the notes on refused arguments that begin with this word, which is no command.
fn append_commands(rt: &HostRuntime, out: &mut Vec<u8>, word: &str) -> Result<(), OutOfMemory> {
    if is_plain(rt, word) {
        append_named(out, word, FILE)?;
    }
    Ok(out.extend_from_slice(HELP)?)
}

/// Whether one of the arguments requests the version.
fn asks_version(words: &[String]) -> bool {
    words.iter().any(|word| word.as_str() == "version"
        || word.as_str() == "--version"
        || word.as_str() == "-V")
}

/// Appends the notes on what the refused arguments mean: the version, several traces, or standard input.
fn append_meaning(
    out: &mut Vec<u8>,
    refusal: &[u8],
    command: &str,
    words: &[String],
) -> Result<(), OutOfMemory> {
    if asks_version(words) {
        out.extend_from_slice(VERSION)?;
    } else if refusal.starts_with(b"error: the following required arguments")
        && find(refusal, b"  <TRACE>\n").is_some()
    {
        out.extend_from_slice(NO_TRACE)?;
    } else if OF_ONE_TRACE.contains(&command)
        && refusal.starts_with(b"error: unexpected argument '")
        && !refusal.starts_with(b"error: unexpected argument '-")
    {
        out.extend_from_slice(ONE_TRACE)?;
    }
    Ok(())
}

/// The first argument, of which the first is the program's name; empty for `help`.
fn command_of(words: &[String]) -> &str {
    match words.get(1) {
        Some(word) if word.as_str() != "help" => word.as_str(),
        _ => "",
    }
}

/// Whether the refusal's proposal in this line is of no use.
fn is_useless(rt: &HostRuntime, line: &[u8], words: &[String]) -> bool {
    match line.strip_prefix(TIP) {
        Some(tip) => {
            tip.starts_with(AS_VALUE)
                || command_of(words) == "version"
                || is_plain(rt, command_of(words))
        }
        None => false,
    }
}

/// Appends the refusal without a proposal that is of no use, and without the empty line after it.
fn append_useful(
    rt: &HostRuntime,
    out: &mut Vec<u8>,
    refusal: &[u8],
    words: &[String],
) -> Result<(), OutOfMemory> {
    let mut rest = refusal;
    'lines: for _ in 0..refusal.len() {
        let Some(line) = first_line(rest, true) else {
            return Ok(());
        };
        let behind = behind_line(rest).unwrap_or(b"");
        if is_useless(rt, line, words) {
            rest = behind.strip_prefix(b"\n").unwrap_or(behind);
        } else {
            out.extend_from_slice(before(rest, rest.len().saturating_sub(behind.len())))?;
            rest = behind;
        }
    }
    Ok(())
}

/// Appends the notes on refused arguments, of which the first is the program's name.
fn append_notes(
    rt: &HostRuntime,
    out: &mut Vec<u8>,
    refusal: &[u8],
    words: &[String],
) -> Result<(), OutOfMemory> {
    let command = command_of(words);
    append_meaning(out, refusal, command, words)?;
    match help_of(*out.allocator(), command)? {
        Some(help) => append_usage(out, refusal, command, help.as_bytes()),
        None => append_commands(rt, out, command),
    }
}

/// Reports why the arguments are refused, of which the first is the program's name. If memory runs out, the notes are
/// missing.
pub(crate) fn tell_refusal(rt: &HostRuntime, refusal: &[u8], words: &[String]) -> ExitCode {
    let mut useful = Vec::new(rt.alloc());
    match append_useful(rt, &mut useful, refusal, words) {
        Ok(()) => say(rt, useful.as_slice()),
        Err(_) => say(rt, refusal),
    }
    if are_wanted(rt) {
        let mut notes = Vec::new(rt.alloc());
        if append_notes(rt, &mut notes, refusal, words).is_ok() {
            say(rt, &notes);
        }
    }
    ExitCode::from(REFUSED)
}

/// Prints help, or reports why the arguments are refused, of which the first is the program's name.
pub(crate) fn tell_words(rt: &HostRuntime, told: &Told, words: &[String]) -> ExitCode {
    match told {
        Told::Help(text) => print_text(rt, text.as_bytes()),
        Told::Refusal(text) => tell_refusal(rt, text.as_bytes(), words),
        Told::OutOfMemory => tell_replay(rt, ReplayFault::OutOfMemory),
    }
}
