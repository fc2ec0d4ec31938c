//! Answers a question about an entry of the log.
ghost use Rattle.std.specs.Prelude.{◌≡◌, ◌<◌, length};
ghost use Rattle.inverse_log.specs.Log.{undoes};
ghost use Rattle.kept_session.specs.QuestionAnswers.{entry_answer, state_words, there_text, undo_of};
ghost use Rattle.rapid_text.specs.Appended.{Appended};

use inverse_log::{Bench, Entry, Refusal};
use rapid_text::OutOfMemory;
use report::{Piece, append_pieces};

/// Whether the entry is an undo of entry `number`.
fn undoes(entry: &Entry, number: u64) -> bool
    ensures { result ≡ undoes number entry.now }
{
    match entry {
        Entry::Undid { client: _, entry } => *entry == number,
        _ => false,
    }
}

/// The number of the undo that took the entry back, if there is one.
fn undo_of(bench: &Bench, number: u64) -> Option<u64>
    ensures { result ≡ undo_of bench.now.log number }
{
    for at in 0..bench.log_len() {
        if undoes(bench.entry(at), number) {
            return Some(at);
        }
    }
    None
}

/// Appends whether an undo took the entry back, and which undo.
fn append_state(out: &mut Vec<u8>, undo: Option<u64>) -> Result<(), OutOfMemory>
    ensures { Appended result out.old out.new (state_words undo) }
{
    match undo {
        None => append_pieces(out, &[Piece::Words(b" live ")]),
        Some(undo) => append_pieces(
            out,
            &[
                Piece::Words(b" undone "),
                Piece::Number(undo),
                Piece::Words(b" "),
            ],
        ),
    }
}

/// Appends the answer about an entry that the log has.
fn append_there(out: &mut Vec<u8>, bench: &Bench, number: u64) -> Result<(), OutOfMemory>
    requires { number < length bench.now.log }
    ensures { Appended result out.old out.new (there_text bench.now.log number) }
{
    append_pieces(
        out,
        &[
            Piece::Words(b"entry "),
            Piece::Number(bench.log_len()),
            Piece::Words(b" "),
            Piece::Number(number),
        ],
    )?;
    append_state(out, undo_of(bench, number))?;
    report::entry(bench, number, out)
}

/// Appends the answer about an entry, or that the log has no such entry.
pub(crate) fn append_entry(out: &mut Vec<u8>, bench: &Bench, number: u64) -> Result<(), OutOfMemory>
    ensures { Appended result out.old out.new (entry_answer bench.now number) }
{
    if number < bench.log_len() {
        append_there(out, bench, number)
    } else {
        report::refusal(bench.indexed(), &Refusal::NoSuchEntry, out)
    }
}
