//! Notes: lines after the line of a fault that say more about it.

use crate::likeness::{Likeness, words_of};
use crate::lines::{
    before_gap, behind_divider, behind_line, command_of, first_line, first_word, line_of,
};
use crate::quoted::{append_name, append_path, append_quote, append_shown};
use crate::trace_notes::{append_rule_notes, append_text_notes};
use crate::write_notes::append_standard_note;
use client_scripts::{ReadCause, ReplayFault, ScriptCause, ScriptRefusal};
use program_words::{LISTED_BEHIND, overview};
use rapid_text::{OutOfMemory, trim};
use report::{Piece, append_pieces};
use std::env;
use std::io::IsTerminal;

/// The most bytes of a word that a note shows.
const MAX_SHOWN: usize = 40;

/// The environment variable that requests notes if it is 1, and forbids them if it is 0.
const ASKED_BY: &str = "RACEBENCH_NOTES";

/// The commands that write no notes unless standard error is a terminal. So does the program without arguments.
const QUIET: [&str; 3] = ["info", "replay", "threads"];

/// The names of standard input, standard output, and the script of a joint text in notes.
pub(crate) const STANDARD_INPUT: &str = "standard input";

pub(crate) const STANDARD_OUTPUT: &str = "standard output";

const SCRIPT: &str = "the script";

/// The note on a line of a script that does not begin with its client.
const CLIENT: &[u8] =
    b"note: a line begins with its client, a number from 1 to 32, as in `1 new A`\n";

/// Whether notes are wanted. If the environment variable `RACEBENCH_NOTES` is 1 or 0, it decides. Else they are wanted
/// on a terminal, and off a terminal except for some commands.
pub(crate) fn are_wanted(rt: &HostRuntime) -> bool {
    match env::var(rt, ASKED_BY) {
        Ok(value) if value.as_str() == "1" => true,
        Ok(value) if value.as_str() == "0" => false,
        _ => rt.stderr().is_terminal() || !is_quiet(rt),
    }
}

/// Whether the command writes no notes off a terminal.
fn is_quiet(rt: &HostRuntime) -> bool {
    match own_words(rt) {
        Some(words) => is_quiet_by(words.as_slice()),
        None => true,
    }
}

/// The arguments of the program, with its own name first; None if they are no text, or if memory runs out.
fn own_words(rt: &HostRuntime) -> Option<Vec<String>> {
    match env::args(rt) {
        Ok(words) => words.collect(rt.alloc()).ok(),
        Err(_) => None,
    }
}

/// The same, by the arguments, of which the first is the program's name.
fn is_quiet_by(words: &[String]) -> bool {
    match words.get(1) {
        Some(word) => QUIET.contains(&word.as_str()),
        None => true,
    }
}

/// How a line with this command word is written after the client, as help says it.
pub(crate) fn usage_of(command: &[u8]) -> Option<&'static [u8]> {
    let mut rest = overview().as_bytes();
    let mut is_listed = false;
    'lines: for _ in 0..rest.len() {
        let line = first_line(rest, true)?;
        if is_listed && first_word(trim(line)) == command {
            return Some(before_gap(trim(line)));
        }
        is_listed = is_listed || line == LISTED_BEHIND;
        rest = behind_line(rest)?;
    }
    None
}

/// Appends a note on an input: its name, and these words.
pub(crate) fn append_named(out: &mut Vec<u8>, name: &str, words: &[u8]) -> Result<(), OutOfMemory> {
    out.extend_from_slice(b"note: ")?;
    append_path(out, name)?;
    out.extend_from_slice(words)?;
    Ok(out.extend_from_slice(b"\n")?)
}

/// Appends a note that says what kind of file an input looks like, and then these words.
pub(crate) fn append_kind(
    out: &mut Vec<u8>,
    name: &str,
    likeness: Likeness,
    words: &[u8],
) -> Result<(), OutOfMemory> {
    append_about(out, name, words_of(likeness), words)
}

/// Appends a note on an input: its name, what it is, and these words.
pub(crate) fn append_about(
    out: &mut Vec<u8>,
    name: &str,
    what: &[u8],
    words: &[u8],
) -> Result<(), OutOfMemory> {
    out.extend_from_slice(b"note: ")?;
    append_name(out, name)?;
    out.extend_from_slice(what)?;
    out.extend_from_slice(words)?;
    Ok(out.extend_from_slice(b"\n")?)
}

/// Why an opened input was not read, in words.
pub(crate) fn unread_words(why: ReadCause) -> &'static [u8] {
    match why {
        ReadCause::TooLong => b" has more than 268,435,456 bytes",
        ReadCause::Device => b" cannot be read",
    }
}

/// Appends the note on how a line with this command word is written.
fn append_usage_note(out: &mut Vec<u8>, command: &[u8]) -> Result<(), OutOfMemory> {
    match usage_of(command) {
        Some(usage) => {
            out.extend_from_slice(b"note: it is written `")?;
            out.extend_from_slice(usage)?;
            out.extend_from_slice(b"`\n")?;
        }
        None => out.extend_from_slice(b"note: `racebench --help` lists the commands\n")?,
    }
    Ok(())
}

/// Appends the notes on a line that is refused for its command word, or for the number of its arguments.
pub(crate) fn append_word_notes(out: &mut Vec<u8>, line: &[u8]) -> Result<(), OutOfMemory> {
    let command = command_of(line);
    if command.is_empty() {
        out.extend_from_slice(b"note: there is no command after the client's number\n")?;
        return Ok(());
    }
    append_command_notes(out, command)
}

/// Appends the notes on the command word of a refused line: the word, and how a line with it is written.
pub(crate) fn append_command_notes(out: &mut Vec<u8>, command: &[u8]) -> Result<(), OutOfMemory> {
    let shown = command.len().min(MAX_SHOWN);
    if shown < command.len() {
        out.extend_from_slice(b"note: the command begins with `")?;
    } else {
        out.extend_from_slice(b"note: the command is `")?;
    }
    append_shown(out, &command[..shown])?;
    out.extend_from_slice(b"`\n")?;
    append_usage_note(out, command)
}

/// Appends the note on a line that is refused for the name of a schedule.
pub(crate) fn append_name_form(out: &mut Vec<u8>) -> Result<(), OutOfMemory> {
    out.extend_from_slice(b"note: a name is 1 to 64 ASCII letters, digits, `_`, `-` or `.`\n")?;
    Ok(())
}

/// Appends the note on a line of a script that does not begin with its client. `script` is the number of the script, if
/// there are several; the lines of each are of one client.
pub(crate) fn append_client_note(
    out: &mut Vec<u8>,
    script: Option<u32>,
) -> Result<(), OutOfMemory> {
    let Some(number) = script else {
        out.extend_from_slice(CLIENT)?;
        return Ok(());
    };
    let number = Piece::Number(u64::from(number));
    append_pieces(
        out,
        &[
            Piece::Words(b"note: each line of script "),
            number,
            Piece::Words(b" begins with its client, as in `"),
            number,
            Piece::Words(b" new A`\n"),
        ],
    )
}

/// Appends the notes on a refused line of a script: the line, and what is wrong with its command word or its name.
pub(crate) fn append_script_notes(
    out: &mut Vec<u8>,
    name: &str,
    text: &[u8],
    is_whole: bool,
    refusal: &ScriptRefusal,
) -> Result<(), OutOfMemory> {
    let Some(line) = line_of(text, is_whole, refusal.line) else {
        return Ok(());
    };
    append_quote(out, name, refusal.line, line)?;
    match refusal.why {
        ScriptCause::BadWord => append_word_notes(out, line),
        ScriptCause::BadName => append_name_form(out),
        _ => Ok(()),
    }
}

/// Appends the notes on a refused line of the script of a joint text.
fn append_joint_script_notes(
    out: &mut Vec<u8>,
    script: &[u8],
    is_whole: bool,
    refusal: &ScriptRefusal,
) -> Result<(), OutOfMemory> {
    append_script_notes(out, SCRIPT, script, is_whole, refusal)?;
    if refusal.why == ScriptCause::BadClient {
        append_client_note(out, None)?;
    }
    Ok(())
}

/// Appends the notes on a fault of a joint text. `text` has its first bytes.
pub(crate) fn append_joint_notes(
    rt: &HostRuntime,
    out: &mut Vec<u8>,
    text: &[u8],
    is_whole: bool,
    fault: &ReplayFault,
) -> Result<(), OutOfMemory> {
    match fault {
        ReplayFault::Read { input: _, why } => {
            append_named(out, STANDARD_INPUT, unread_words(*why))
        }
        ReplayFault::Text(refusal) => {
            append_text_notes(out, STANDARD_INPUT, text, is_whole, refusal)
        }
        ReplayFault::Rule(refusal) => {
            append_rule_notes(out, STANDARD_INPUT, text, is_whole, refusal.event)
        }
        ReplayFault::Write => append_standard_note(rt, out),
        ReplayFault::Script(refusal) => match behind_divider(text) {
            Some(script) => append_joint_script_notes(out, script, is_whole, refusal),
            None => Ok(()),
        },
        _ => Ok(()),
    }
}
