//! Prints faults.
ghost use Rattle.std.specs.Prelude.{◌≡◌, OnErr};
ghost use Rattle.client_scripts.specs.FaultTexts.{fault_words, located_words, text_cause_words, rule_cause_words, script_cause_words};
ghost use Rattle.client_scripts.specs.Messages.{message_bytes, words_in};
ghost use Rattle.rapid_text.specs.Appended.{Appended};

use crate::fault::{ReadCause, ReplayFault};
use rapid_text::{OutOfMemory, TextCause};
use report::{Piece, append_pieces};
use script_language::ScriptCause;
use std::fmt;
use trace_rules::RuleCause;

/// A message in its parts: words alone, or words with a kind of place and its number.
#[derive(Clone, Copy)]
pub(crate) enum Message {
    /// Words alone.
    Plain(&'static str),
    /// The kind of place, its number, and words.
    At(&'static str, u64, &'static str),
}

impl fmt::Display for Message {
    fn fmt<W: fmt::Write>(&self, f: &mut fmt::Formatter<W>) -> fmt::Result {
        match self {
            Message::Plain(words) => write!(f, "{words}"),
            Message::At(place, number, words) => write!(f, "{place} {number}: {words}"),
        }
    }
}

/// The number and the text for what is wrong with a trace line. Returns None if memory ran out.
fn text_words(why: TextCause) -> Option<&'static str>
    ensures { words_in result ≡ text_cause_words why }
{
    match why {
        TextCause::NoBar => Some("1 no bar"),
        TextCause::BadParentheses => Some("2 bad parentheses"),
        TextCause::UnknownOperation => Some("3 unknown operation"),
        TextCause::EmptyName => Some("4 empty name"),
        TextCause::NameTooLong => Some("5 name too long"),
        TextCause::LineTooLong => Some("6 line too long"),
        TextCause::TooManyEvents => Some("7 too many events"),
        TextCause::TooManyNames => Some("8 too many names"),
        TextCause::OutOfMemory => None,
    }
}

/// The number and the text of the rule that an event breaks. Returns None if memory ran out.
fn rule_words(why: RuleCause) -> Option<&'static str>
    ensures { words_in result ≡ rule_cause_words why }
{
    match why {
        RuleCause::ReleaseNotHeld => Some("11 release not held"),
        RuleCause::AcquireHeld => Some("12 acquire held"),
        RuleCause::ForkTwice => Some("13 fork twice"),
        RuleCause::ForkLate => Some("14 fork late"),
        RuleCause::OwnThread => Some("15 own thread"),
        RuleCause::AfterJoin => Some("16 after join"),
        RuleCause::OutOfMemory => None,
    }
}

/// Returns the number and the text for what is wrong with a script line, such as `81 bad word`. Returns None if memory
/// ran out.
pub fn script_words(why: ScriptCause) -> Option<&'static str>
    ensures { words_in result ≡ script_cause_words why }
{
    match why {
        ScriptCause::BadWord => Some("81 bad word"),
        ScriptCause::BadNumber => Some("82 bad number"),
        ScriptCause::BadClient => Some("83 bad client"),
        ScriptCause::BadName => Some("84 bad name"),
        ScriptCause::LineTooLong => Some("85 line too long"),
        ScriptCause::OutOfMemory => None,
    }
}

/// The message for words at a place. Without words, the message is `out of memory`.
fn located(place: &'static str, number: u64, words: Option<&'static str>) -> Message
    ensures { message_bytes result ≡ located_words place.now number (words_in words.entry) }
{
    match words {
        Some(words) => Message::At(place, number, words),
        None => Message::Plain("out of memory"),
    }
}

/// The message of a fault.
pub(crate) fn message_of(fault: &ReplayFault) -> Message
    ensures { message_bytes result ≡ fault_words fault.now }
{
    match *fault {
        ReplayFault::Text(refusal) => located("trace line", refusal.line, text_words(refusal.why)),
        ReplayFault::Rule(refusal) => {
            located(
                "trace event",
                u64::from(refusal.event),
                rule_words(refusal.why),
            )
        }
        ReplayFault::Script(refusal) => {
            located("script line", refusal.line, script_words(refusal.why))
        }
        ReplayFault::Read { input: _, why } => match why {
            ReadCause::Device => Message::Plain("read failed"),
            ReadCause::TooLong => Message::Plain("input too long"),
        },
        ReplayFault::Write => Message::Plain("write failed"),
        ReplayFault::OutOfMemory => Message::Plain("out of memory"),
    }
}

/// Appends a message. If memory runs out, `out` stays as it was.
fn append_message(out: &mut Vec<u8>, message: Message) -> Result<(), OutOfMemory>
    ensures ok { Appended result out.old out.new (message_bytes message) }
    ensures err { OnErr result (out.new.items ≡ out.old.items) }
{
    match message {
        Message::Plain(words) => append_pieces(out, &[Piece::Words(words.as_bytes())]),
        Message::At(place, number, words) => append_pieces(
            out,
            &[
                Piece::Words(place.as_bytes()),
                Piece::Words(b" "),
                Piece::Number(number),
                Piece::Words(b": "),
                Piece::Words(words.as_bytes()),
            ],
        ),
    }
}

/// Appends the text of a fault, without a line feed. If memory runs out, `out` stays as it was.
pub fn fault_text(fault: &ReplayFault, out: &mut Vec<u8>) -> Result<(), OutOfMemory>
    ensures ok { Appended result out.old out.new (fault_words fault.now) }
    ensures err { OnErr result (out.new.items ≡ out.old.items) }
{
    append_message(out, message_of(fault))
}
