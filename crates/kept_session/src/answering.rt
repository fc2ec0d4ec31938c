//! Answers lines: makes their calls, and collects the texts of the answers and the lines that the log gains.
ghost use Rattle.std.specs.Prelude.{◌≡◌, ◌≢◌, ℕ, ◌≤◌, IsTrue, OnOk, IfOk, IfSome};
ghost use Rattle.inverse_log.specs.declared.call.Call.TheVariants.{Undo, UndoAt};
ghost use Rattle.inverse_log.specs.declared.reply.Reply.TheVariants.{Undone};
ghost use Rattle.rapid_text.specs.Appended.{Appended, AppendedOne};
ghost use Rattle.script_language.specs.Scripts.{script_line_reading};
ghost use Rattle.script_language.specs.declared.refusal.ScriptCause.TheVariants.{OutOfMemory as NoMemory};
ghost use Rattle.rapid_text.specs.Reading.{is_line_feed};
ghost use Rattle.std.specs.List.{slice_split};
ghost use Rattle.kept_log.specs.Lines.{IsLine};
ghost use Rattle.kept_session.specs.Lines.{line_for};
ghost use Rattle.kept_session.specs.Sessions.{line_fault, question_fault, number_behind, IsAskedOf};
ghost use Rattle.kept_session.specs.Steps.{AddsCallLine, CallMade, LineAnswered, PieceAnswered, ReadingAnswered, ReadsAsCall};

use crate::asking::line_for;
use crate::questions::answer_question;
use client_scripts::script_words;
use inverse_log::{Bench, Call, Reply};
use kept_log::Block;
use rapid_text::OutOfMemory;
use report::{Piece, append_pieces};
use script_language::{Lines, Question, ScriptCause, read_line, read_question};
use std::alloc::Global;

/// The line of an undo with the number of its entry.
fn undo_line(alloc: Global, client: u32, entry: u64) -> Result<Vec<u8>, OutOfMemory>
    ensures { IfOk result (λ line. IsLine line.items) }
{
    let mut line = Vec::new(alloc);
    append_pieces(
        &mut line,
        &[
            Piece::Number(u64::from(client)),
            Piece::Words(b" undo "),
            Piece::Number(entry),
        ],
    )?;
    Ok(line)
}

/// Whether the call is an undo of this entry by its number.
fn is_undo(call: &Call, entry: u64) -> bool
    ensures { IsTrue result → call.now ≡ UndoAt entry }
{
    match call {
        Call::UndoAt { entry: number } => *number == entry,
        _ => false,
    }
}

/// Whether the line reads as an undo of this entry by this client.
fn reads_as_undo(alloc: Global, line: &[u8], client: u32, entry: u64) -> Result<bool, OutOfMemory>
    ensures { IfOk result (λ yes. IsTrue yes → ReadsAsCall client (UndoAt entry) line.now) }
{
    match read_line(alloc, line) {
        Ok(Some((reader, call))) => Ok(reader == client && is_undo(&call, entry)),
        Ok(None) => Ok(false),
        Err(ScriptCause::OutOfMemory) => Err(OutOfMemory),
        Err(_) => Ok(false),
    }
}

/// The entry that an undo without a number took back.
fn undone_entry(call: &Call, reply: &Reply) -> Option<u64>
    ensures { IfSome result (λ k. (call.now ≡ Undo) × (n : ℕ) × (reply.now ≡ Undone n k)) }
{
    match call {
        Call::Undo => match reply {
            Reply::Undone { number: _, entry } => Some(*entry),
            _ => None,
        },
        _ => None,
    }
}

/// Adds the line of a call that the log gained. For an undo it adds the line with the entry's number, so that a
/// reader sees which entry it took back.
fn keep_line(
    alloc: Global,
    client: u32,
    call: &Call,
    reply: &Reply,
    line: &[u8],
    block: &mut Block,
) -> Result<(), OutOfMemory>
    requires line { IsLine line.now }
    requires reads { ReadsAsCall client call.now line.now }
    ensures { OnOk result (AddsCallLine client call.now reply.now block.old block.new) }
{
    let Some(entry) = undone_entry(call, reply) else {
        block.push(line)?;
        return Ok(());
    };
    let numbered = undo_line(alloc, client, entry)?;
    if reads_as_undo(alloc, &numbered, client, entry)? {
        block.push(&numbered)?;
        return Ok(());
    }
    block.push(line)?;
    Ok(())
}

/// Makes a call and appends the line of its answer. If the log gained an entry, adds the call's line to the block.
fn make_call(
    bench: &mut Bench,
    client: u32,
    call: &Call,
    line: &[u8],
    block: &mut Block,
    out: &mut Vec<u8>,
) -> Result<(), OutOfMemory>
    requires low { 1 ≤ client }
    requires high { client ≤ 32 }
    requires line { IsLine line.now }
    requires reads { ReadsAsCall client call.now line.now }
    ensures trace { bench.new.trace ≡ bench.old.trace }
    ensures made { OnOk result (CallMade bench.old.trace client call.now bench.old.log bench.new.log out.old.items out.new.items block.old block.new) }
{
    let before = bench.log_len();
    match bench.call(client, call) {
        Ok(reply) => {
            report::reply(&reply, out)?;
            if bench.log_len() == before {
                return Ok(());
            }
            keep_line(*out.allocator(), client, call, &reply, line, block)?;
            Ok(())
        }
        Err(why) => {
            report::refusal(bench.indexed(), &why, out)?;
            Ok(())
        }
    }
}

/// Appends what is wrong with the line with this number.
fn append_fault(out: &mut Vec<u8>, number: u64, why: ScriptCause) -> Result<(), OutOfMemory>
    requires { why ≢ NoMemory }
    ensures { Appended result out.old out.new (line_fault number why) }
{
    match script_words(why) {
        Some(words) => append_pieces(
            out,
            &[
                Piece::Words(b"line "),
                Piece::Number(number),
                Piece::Words(b": "),
                Piece::Words(words.as_bytes()),
                Piece::Words(b"\n"),
            ],
        ),
        None => Err(OutOfMemory),
    }
}

/// Answers the line with this number, which is not a question.
fn answer_reading(
    bench: &mut Bench,
    client: Option<u32>,
    number: u64,
    raw: &[u8],
    block: &mut Block,
    out: &mut Vec<u8>,
) -> Result<(), OutOfMemory>
    requires line { IsLine raw.now }
    ensures trace { bench.new.trace ≡ bench.old.trace }
    ensures answered { OnOk result (ReadingAnswered bench.old.trace number (script_line_reading (line_for client raw.now)) bench.old.log bench.new.log
        out.old.items out.new.items block.old block.new) }
{
    let alloc = *out.allocator();
    let line = line_for(alloc, client, raw)?;
    match read_line(alloc, &line) {
        Ok(None) => Ok(()),
        Ok(Some((client, call))) => {
            make_call(bench, client, &call, &line, block, out)?;
            Ok(())
        }
        Err(ScriptCause::OutOfMemory) => Err(OutOfMemory),
        Err(why) => {
            append_fault(out, number, why)?;
            Ok(())
        }
    }
}

/// Appends that the question with this number has a fault.
fn append_faulty(out: &mut Vec<u8>, number: u64) -> Result<(), OutOfMemory>
    ensures { Appended result out.old out.new (question_fault number) }
{
    append_pieces(
        out,
        &[
            Piece::Words(b"line "),
            Piece::Number(number),
            Piece::Words(b": 87 bad question\n"),
        ],
    )
}

/// Answers the question with this number, or appends that it has a fault.
fn answer_asked(
    bench: &Bench,
    number: u64,
    asked: &Result<Question, ScriptCause>,
    out: &mut Vec<u8>,
) -> Result<(), OutOfMemory>
    ensures { AppendedOne result out.old out.new (IsAskedOf bench.now number asked.now) }
{
    match asked {
        Ok(question) => answer_question(bench, question, out),
        Err(_) => append_faulty(out, number),
    }
}

/// Answers the line with this number. A question adds nothing to the log.
fn answer_line(
    bench: &mut Bench,
    client: Option<u32>,
    number: u64,
    raw: &[u8],
    block: &mut Block,
    out: &mut Vec<u8>,
) -> Result<(), OutOfMemory>
    requires line { IsLine raw.now }
    ensures trace { bench.new.trace ≡ bench.old.trace }
    ensures answered { OnOk result (LineAnswered bench.old.trace client number raw.now bench.old.log bench.new.log
        out.old.items out.new.items block.old block.new) }
{
    match read_question(raw) {
        Some(asked) => answer_asked(bench, number, &asked, out),
        None => answer_reading(bench, client, number, raw, block, out),
    }
}

/// Answers the lines of a piece. `first` is the number of its first line. Returns the number of the line after the
/// piece.
pub(crate) fn answer_lines(
    bench: &mut Bench,
    client: Option<u32>,
    first: u64,
    piece: &[u8],
    block: &mut Block,
    out: &mut Vec<u8>,
) -> Result<u64, OutOfMemory>
    ensures trace { bench.new.trace ≡ bench.old.trace }
    ensures next { IfOk result (λ next. next ≡ number_behind first (slice_split is_line_feed piece.now)) }
    ensures answered { OnOk result (PieceAnswered bench.old.trace client first (slice_split is_line_feed piece.now) bench.old.log bench.new.log
        out.old.items out.new.items block.old block.new) }
{
    let mut number = first;
    let mut lines = Lines::of(piece);
    while let Some(raw) = lines.next() {
        answer_line(bench, client, number, raw, block, out)?;
        number = number.saturating_add(1);
    }
    Ok(number)
}
