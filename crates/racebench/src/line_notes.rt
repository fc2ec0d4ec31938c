//! Notes on the lines of a session that are no calls: each line, and how it is written. They follow its answer.
ghost use Rattle.std.specs.Prelude.{◌≡◌};

use crate::lines::{first_line, first_word, line_of};
use crate::notes::{
    STANDARD_INPUT, append_command_notes, append_name_form, append_word_notes, are_wanted, usage_of,
};
use crate::numbering::number_at;
use crate::pieces::{before, from, lines_before};
use crate::quoted::append_quote;
use crate::telling::say;
use client_scripts::{Failed, Source};
use memchr::memrchr;
use rapid_text::{OutOfMemory, trim};
use std::alloc::Global;
use std::cell::RefCell;

/// The most bytes of lines that are kept. If a line is longer, there are no more notes.
const MAX_KEPT: usize = 1_048_576;

/// How the answer to a line begins that is no call. The line's number follows, and then the cause.
const ANSWER: &[u8] = b"line ";

/// What is between the line's number and the cause.
const BETWEEN: &[u8] = b": ";

/// The causes for which a note says more.
const BAD_WORD: u64 = 81;

const BAD_CLIENT: u64 = 83;

const BAD_NAME: u64 = 84;

const BAD_QUESTION: u64 = 87;

/// The note on a line that does not begin with its client.
const CLIENT: &[u8] =
    b"note: without `--client` a line begins with its client, a number from 1 to 32, as in `1 new A`\n";

/// The lines that were read last, and the part of a line after them.
#[derive(Drop)]
struct Lines {
    kept: Vec<u8>,
    /// The answers that were written since the last whole one: a write may end within an answer.
    answered: Vec<u8>,
    /// The number of the first line of `kept`, counted from 1.
    first: u64,
    /// Whether all these bytes could be kept.
    is_whole: bool,
}

impl Lines {
    // Takes the whole lines away. They were answered before more is read.
    fn drop_answered(&mut self, alloc: Global) {
        let Some(end) = memrchr(b'\n', self.kept.as_slice()) else {
            return;
        };
        let end = end.saturating_add(1);
        let lines = lines_before(self.kept.as_slice(), end);
        self.first = self.first.saturating_add(lines);
        match Vec::from_slice(alloc, from(self.kept.as_slice(), end)) {
            Ok(rest) => self.kept = rest,
            Err(_) => self.is_whole = false,
        }
    }

    // Keeps bytes that were read.
    fn keep(&mut self, bytes: &[u8]) {
        let room = MAX_KEPT.saturating_sub(self.kept.len());
        self.is_whole = self.is_whole
            && bytes.len() <= room
            && self.kept.extend_from_slice(bytes).is_ok();
    }

    // Takes in answers that were written.
    fn take_answers(&mut self, bytes: &[u8]) {
        self.is_whole = self.is_whole && self.answered.extend_from_slice(bytes).is_ok();
    }

    // Takes the whole answers away, after the notes on them.
    fn drop_told(&mut self, alloc: Global) {
        let Some(end) = memrchr(b'\n', self.answered.as_slice()) else {
            return;
        };
        match Vec::from_slice(alloc, from(self.answered.as_slice(), end.saturating_add(1))) {
            Ok(rest) => self.answered = rest,
            Err(_) => self.is_whole = false,
        }
    }

    // The line with this number, if it is kept.
    fn line(&self, number: u64) -> Option<&[u8]> {
        if !self.is_whole || number < self.first {
            return None;
        }
        let at = number.saturating_sub(self.first).saturating_add(1);
        line_of(self.kept.as_slice(), true, at)
    }
}

/// What the notes on a session's lines are made from.
#[derive(Drop)]
pub(crate) struct LineNotes<'a> {
    rt: &'a HostRuntime,
    /// The client of each line, if the lines do not begin with it.
    pub(crate) client: Option<u32>,
    is_wanted: bool,
    lines: RefCell<Lines>,
}

impl<'a> LineNotes<'a> {
    /// Notes on a session whose lines are calls of this client, or begin with their client. Nothing was read yet.
    pub(crate) fn new(rt: &'a HostRuntime, client: Option<u32>) -> LineNotes<'a> {
        LineNotes {
            rt,
            client,
            is_wanted: are_wanted(rt),
            lines: RefCell::new(Lines {
                kept: Vec::new(rt.alloc()),
                answered: Vec::new(rt.alloc()),
                first: 1,
                is_whole: true,
            }),
        }
    }

    // Keeps bytes that were read, if notes are wanted.
    fn hear(&self, bytes: &[u8]) {
        if !self.is_wanted {
            return;
        }
        if let Ok(mut guard) = self.lines.try_borrow_mut() {
            let lines = &mut *guard;
            lines.drop_answered(self.rt.alloc());
            lines.keep(bytes);
        }
    }

    /// Writes the notes on these answers, if notes are wanted. If memory runs out, notes are missing.
    pub(crate) fn tell(&self, answers: &[u8]) {
        if !self.is_wanted {
            return;
        }
        if let Ok(mut guard) = self.lines.try_borrow_mut() {
            let lines = &mut *guard;
            lines.take_answers(answers);
            let mut out = Vec::new(self.rt.alloc());
            if append_answers_notes(&mut out, lines, self.client).is_ok() {
                say(self.rt, &out);
            }
            lines.drop_told(self.rt.alloc());
        }
    }
}

/// Appends the notes on the whole answers that were written.
fn append_answers_notes(
    out: &mut Vec<u8>,
    lines: &Lines,
    client: Option<u32>,
) -> Result<(), OutOfMemory> {
    let mut rest = lines.answered.as_slice();
    'answers: for _ in 0..lines.answered.len() {
        let Some(answer) = first_line(rest, false) else {
            return Ok(());
        };
        if let Some(told) = answer.strip_prefix(ANSWER) {
            append_answer_notes(out, lines, client, told)?;
        }
        rest = from(rest, answer.len().saturating_add(1));
    }
    Ok(())
}

/// Appends the notes on one answer, of which the first word is cut off: `N: C WORDS`.
fn append_answer_notes(
    out: &mut Vec<u8>,
    lines: &Lines,
    client: Option<u32>,
    told: &[u8],
) -> Result<(), OutOfMemory> {
    let (number, behind) = number_at(told);
    let (cause, _) = number_at(from(behind, BETWEEN.len()));
    match lines.line(number) {
        Some(line) => {
            append_quote(out, STANDARD_INPUT, number, line)?;
            append_cause_note(out, client, trim(line), cause)
        }
        None => Ok(()),
    }
}

/// Appends the note on a line that is no call for this cause, if the note says more than the answer.
fn append_cause_note(
    out: &mut Vec<u8>,
    client: Option<u32>,
    line: &[u8],
    cause: u64,
) -> Result<(), OutOfMemory> {
    match cause {
        BAD_WORD => match client {
            Some(_) => append_client_notes(out, line),
            None => append_word_notes(out, line),
        },
        BAD_CLIENT => {
            out.extend_from_slice(CLIENT)?;
            Ok(())
        }
        BAD_NAME => append_name_form(out),
        BAD_QUESTION => {
            out.extend_from_slice(b"note: docs/FORMATS.md lists the questions\n")?;
            Ok(())
        }
        _ => Ok(()),
    }
}

/// Appends the notes on a line that is to begin with its command.
fn append_client_notes(out: &mut Vec<u8>, line: &[u8]) -> Result<(), OutOfMemory> {
    let command = first_word(line);
    let is_client = command.iter().all(|byte| byte.is_ascii_digit());
    let behind = trim(from(line, command.len()));
    if is_client && usage_of(first_word(behind)).is_some() {
        out.extend_from_slice(
            b"note: with `--client` a line begins with its command: leave the number out\n",
        )?;
        return Ok(());
    }
    append_command_notes(out, command)
}

/// A reader whose bytes are kept for notes.
#[derive(Drop)]
pub(crate) struct Heard<'a, S: Source> {
    reader: S,
    notes: &'a LineNotes<'a>,
}

impl<'a, S: Source> Heard<'a, S> {
    /// A reader of which nothing was read yet.
    pub(crate) fn new(reader: S, notes: &'a LineNotes<'a>) -> Heard<'a, S>
        ensures { result.reader ≡ reader }
    {
        Heard { reader, notes }
    }
}

impl<S: Source> Source for Heard<'_, S> {
    ghost rest = { λ s. S.rest s.reader };

    ghost has_failed = { λ s. S.has_failed s.reader };

    fn read(&mut self, buf: &mut [u8]) -> Result<usize, Failed> {
        match self.reader.read(buf) {
            Ok(count) => {
                self.notes.hear(before(buf, count));
                Ok(count)
            }
            Err(failed) => Err(failed),
        }
    }
}
