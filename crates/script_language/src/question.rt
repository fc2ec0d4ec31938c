//! Questions: lines whose first word is `?`. A session answers them, and they change nothing.
ghost use Rattle.std.specs.Prelude.{◌≡◌};
ghost use Rattle.script_language.specs.Questions.{question_word_of, one_number_reading, two_numbers_reading, part_reading, question_arguments, question_by, question_in, question_reading};

use crate::calls::{read_name, read_name_and_number, read_nothing, read_number, read_one_name};
use crate::lines::Words;
use crate::refusal::ScriptCause;
use moves::Name;

/// The question in a line.
#[derive(Clone, Copy)]
pub enum Question {
    /// `next NAME`: what each thread does next after a schedule.
    Next {
        /// The schedule.
        name: Name,
    },
    /// `witness A B`: a schedule that shows a pair of events.
    Witness {
        /// One of the two events.
        first: u32,
        /// The other event.
        second: u32,
    },
    /// `run NAME E`: how far the thread of an event can go on after a schedule, up to that event.
    Run {
        /// The schedule.
        name: Name,
        /// The event.
        event: u32,
    },
    /// `part NAME FROM COUNT`: some events of a schedule.
    Part {
        /// The schedule.
        name: Name,
        /// The first position, counted from 0.
        from: u32,
        /// The most events to return.
        count: u32,
    },
    /// `rows`: all schedules.
    Rows,
    /// `entry K`: an entry of the log.
    Entry {
        /// Its number.
        entry: u32,
    },
}

/// What kind of question a word asks.
#[derive(Clone, Copy, PartialEq, Eq, Debug)]
pub enum QuestionWord {
    /// `next`
    Next,
    /// `witness`
    Witness,
    /// `run`
    Run,
    /// `part`
    Part,
    /// `rows`
    Rows,
    /// `entry`
    Entry,
}

/// The kind of question with this word.
fn question_word_with(word: &[u8]) -> Option<QuestionWord>
    ensures { result ≡ question_word_of word.now }
{
    let kind = if word == b"next".as_slice() {
        QuestionWord::Next
    } else if word == b"witness".as_slice() {
        QuestionWord::Witness
    } else if word == b"run".as_slice() {
        QuestionWord::Run
    } else if word == b"part".as_slice() {
        QuestionWord::Part
    } else if word == b"rows".as_slice() {
        QuestionWord::Rows
    } else if word == b"entry".as_slice() {
        QuestionWord::Entry
    } else {
        return None;
    };
    Some(kind)
}

/// A number alone.
fn read_one_number(words: &mut Words<'_>) -> Result<u32, ScriptCause>
    ensures { result ≡ one_number_reading words.old }
{
    let number = words.next().ok_or(ScriptCause::BadWord)?;
    read_nothing(words)?;
    read_number(number)
}

/// Two numbers.
fn read_two_numbers(words: &mut Words<'_>) -> Result<(u32, u32), ScriptCause>
    ensures { result ≡ two_numbers_reading words.old }
{
    let Some(first) = words.next() else {
        return Err(ScriptCause::BadWord);
    };
    let Some(second) = words.next() else {
        return Err(ScriptCause::BadWord);
    };
    read_nothing(words)?;
    let first = read_number(first)?;
    let second = read_number(second)?;
    Ok((first, second))
}

/// The arguments of `part`.
fn read_part(words: &mut Words<'_>) -> Result<Question, ScriptCause>
    ensures { result ≡ part_reading words.old }
{
    let Some(name) = words.next() else {
        return Err(ScriptCause::BadWord);
    };
    let Some(from) = words.next() else {
        return Err(ScriptCause::BadWord);
    };
    let Some(count) = words.next() else {
        return Err(ScriptCause::BadWord);
    };
    read_nothing(words)?;
    let name = read_name(name)?;
    let from = read_number(from)?;
    let count = read_number(count)?;
    Ok(Question::Part { name, from, count })
}

/// The arguments of a question of this kind.
fn read_arguments(kind: QuestionWord, words: &mut Words<'_>) -> Result<Question, ScriptCause>
    ensures { result ≡ question_arguments kind words.old }
{
    match kind {
        QuestionWord::Next => {
            let name = read_one_name(words)?;
            Ok(Question::Next { name })
        }
        QuestionWord::Witness => {
            let (first, second) = read_two_numbers(words)?;
            Ok(Question::Witness { first, second })
        }
        QuestionWord::Run => {
            let (name, event) = read_name_and_number(words)?;
            Ok(Question::Run { name, event })
        }
        QuestionWord::Part => read_part(words),
        QuestionWord::Rows => {
            read_nothing(words)?;
            Ok(Question::Rows)
        }
        QuestionWord::Entry => {
            let entry = read_one_number(words)?;
            Ok(Question::Entry { entry })
        }
    }
}

/// Reads what follows `?`.
fn read_asked(words: &mut Words<'_>) -> Result<Question, ScriptCause>
    ensures { result ≡ question_by words.old }
{
    let word = words.next().ok_or(ScriptCause::BadWord)?;
    let kind = question_word_with(word).ok_or(ScriptCause::BadWord)?;
    read_arguments(kind, words)
}

/// The question in these words of a line. Returns None if the first word is not `?`.
fn read_words(words: &mut Words<'_>) -> Option<Result<Question, ScriptCause>>
    ensures { result ≡ question_in words.old }
{
    match words.next() {
        Some(word) if word == b"?".as_slice() => Some(read_asked(words)),
        _ => None,
    }
}

/// Returns the question in a line, or what is wrong with it. Returns None if the first word of the line is not `?`,
/// so that it is not a question.
pub fn read_question(line: &[u8]) -> Option<Result<Question, ScriptCause>>
    ensures { result ≡ question_reading line.now }
{
    read_words(&mut Words::of(line))
}
