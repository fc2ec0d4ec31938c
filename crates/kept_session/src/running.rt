//! Answers an input line by line, as it comes.
ghost use Rattle.std.specs.Io.KnownBytes.{IsAtEnd};
ghost use Rattle.std.specs.Prelude.{◌≡◌, ◌≢◌, ◌<◌, [], ◌∷◌, ◌++◌, false, true, length, None, Err, IfSome, IfErr, OnOk};
ghost use Rattle.client_scripts.specs.declared.fault.ReadCause.{ReadCause};
ghost use Rattle.client_scripts.specs.declared.fault.ReplayFault.TheVariants.{Read};
ghost use Rattle.kept_log.specs.Lines.{IsLine};
ghost use Rattle.kept_session.specs.Faults.{input_failed};
ghost use Rattle.kept_session.specs.Runs.{IsHaltedRun, IsWholeRun};
ghost use Rattle.kept_session.specs.Steps.{IsKeepFault, IsPieceHalted, IsPieceTaken, IsTurnWritten, number_beyond};
ghost use Rattle.kept_session.specs.Views.{trace_of};
ghost use Rattle.kept_session.specs.declared.fault.SessionFault.TheVariants.{Replay};
ghost use Rattle.rapid_text.specs.Appended.{Appended};

use crate::fault::{LINES_INPUT, SessionFault};
use crate::session::Session;
use client_scripts::{LIMIT, ReadCause, ReplayFault, Sink, Source, write_all};
use kept_log::Device;
use memchr::memrchr;
use std::alloc::Global;

/// How many bytes one read asks for.
const PIECE: usize = 65_536;

/// The fault if the input lines could not be read.
fn unread(why: ReadCause) -> SessionFault
    ensures { result ≡ Replay (Read 3 why) }
{
    SessionFault::Replay(ReplayFault::Read {
        input: LINES_INPUT,
        why,
    })
}

/// The part of a line that was read before its end came, and the number of the line.
#[derive(Drop)]
struct Pending {
    begun: Vec<u8>,
    number: u64,
}

/// Answers the lines in `pending`. Writes the answers after the lock is released.
fn answer_begun<D: Device + Drop, K: Sink>(
    alloc: Global,
    session: &mut Session<D>,
    client: Option<u32>,
    pending: &mut Pending,
    writer: &mut K,
) -> Result<(), SessionFault>
    requires in_step { session.old.is_in_step ≡ true }
    requires writer { K.has_failed writer.old ≡ false }
    ensures in_step { OnOk result (session.new.is_in_step ≡ true) }
    ensures trace { trace_of session.new.bench ≡ trace_of session.old.bench }
    ensures working { OnOk result (K.has_failed writer.new ≡ false) }
    ensures begun { OnOk result (pending.new.begun.items ≡ []) }
    ensures next { OnOk result (pending.new.number ≡ number_beyond pending.old) }
    ensures answered { OnOk result (IsTurnWritten D.Device K.Sink session.old.bench client pending.old session.old.log session.new.log writer.old writer.new) }
    ensures halted { IfErr result (IsPieceHalted D.Device K.Sink session.old.bench client pending.old.number pending.old.begun.items
        session.old.log session.new.log writer.old writer.new) }
    ensures lines_read { IfErr result (λ fault. (why : ReadCause) → fault ≢ Replay (Read 3 why)) }
{
    let mut out = Vec::new(alloc);
    pending.number = session.answer(alloc, client, pending.number, &pending.begun, &mut out)?;
    pending.begun.clear();
    match write_all(writer, &out) {
        Ok(()) => Ok(()),
        Err(_) => Err(SessionFault::from(ReplayFault::Write)),
    }
}

/// Keeps bytes of a line that has no end yet.
fn keep_begun(pending: &mut Pending, bytes: &[u8]) -> Result<(), SessionFault>
    ensures number { pending.new.number ≡ pending.old.number }
    ensures begun { Appended result pending.old.begun pending.new.begun bytes.now }
    ensures fault { IfErr result (IsKeepFault (pending.old.begun.items ++ bytes.now)) }
{
    if bytes.len() > LIMIT.saturating_sub(pending.begun.len()) {
        return Err(unread(ReadCause::TooLong));
    }
    pending.begun.extend_from_slice(bytes)?;
    Ok(())
}

/// The bytes before the last line feed, and the bytes after it. Returns None if there is no line feed.
fn cut_last_end(bytes: &[u8]) -> Option<(&[u8], &[u8])>
    ensures some { IfSome result (λ p. (bytes.now ≡ p.0.now ++ 10 ∷ p.1.now) × IsLine p.1.now) }
    ensures none { result ≡ None → IsLine bytes.now }
{
    let end = memrchr(b'\n', bytes)?;
    Some((&bytes[..end], &bytes[end + 1..]))
}

/// Takes in bytes. Answers whole lines at once; keeps the bytes after the last line feed until their line ends.
fn take_in<D: Device + Drop, K: Sink>(
    alloc: Global,
    session: &mut Session<D>,
    client: Option<u32>,
    pending: &mut Pending,
    bytes: &[u8],
    writer: &mut K,
) -> Result<(), SessionFault>
    requires in_step { session.old.is_in_step ≡ true }
    requires writer { K.has_failed writer.old ≡ false }
    requires begun { IsLine pending.old.begun.items }
    ensures in_step { OnOk result (session.new.is_in_step ≡ true) }
    ensures trace { trace_of session.new.bench ≡ trace_of session.old.bench }
    ensures working { OnOk result (K.has_failed writer.new ≡ false) }
    ensures begun { OnOk result (IsLine pending.new.begun.items) }
    ensures taken_in { OnOk result (IsPieceTaken D.Device K.Sink session.old.bench client pending.old pending.new bytes.now
        session.old.log session.new.log writer.old writer.new) }
    ensures halted { IfErr result (IsPieceHalted D.Device K.Sink session.old.bench client pending.old.number (pending.old.begun.items ++ bytes.now)
        session.old.log session.new.log writer.old writer.new) }
    ensures reader { IfErr result (λ fault. fault ≢ input_failed) }
{
    let Some((lines, rest)) = cut_last_end(bytes) else {
        return keep_begun(pending, bytes);
    };
    pending.begun.extend_from_slice(lines)?;
    answer_begun(alloc, session, client, pending, writer)?;
    keep_begun(pending, rest)
}

/// Answers the lines of the input as they come, using `piece` as the buffer.
fn run_pieces<D: Device + Drop, S: Source, K: Sink>(
    alloc: Global,
    session: &mut Session<D>,
    client: Option<u32>,
    reader: &mut S,
    piece: &mut [u8],
    writer: &mut K,
) -> Result<(), SessionFault>
    requires in_step { session.old.is_in_step ≡ true }
    requires writer { K.has_failed writer.old ≡ false }
    requires room { 0 < length piece.old }
    ensures in_step { OnOk result (session.new.is_in_step ≡ true) }
    ensures trace { trace_of session.new.bench ≡ trace_of session.old.bench }

    // Without a fault it ends only at the end of the input, and the reader has not failed during the call.
    ensures end { OnOk result (IsAtEnd (S.rest reader.new)) }
    ensures read { OnOk result (S.has_failed reader.new ≡ S.has_failed reader.old) }
    ensures device { IfErr result (λ fault. fault ≡ input_failed → S.has_failed reader.new ≡ true) }
    ensures read_failed { S.has_failed reader.old ≡ false → S.has_failed reader.new ≡ true → result ≡ Err input_failed }
    ensures answered { OnOk result (IsWholeRun D.Device S.Source K.Sink session.old.bench client session.old.log session.new.log
        reader.old reader.new writer.old writer.new) }
    ensures halted { IfErr result (IsHaltedRun D.Device S.Source K.Sink session.old.bench client session.old.log session.new.log
        reader.old reader.new writer.old writer.new) }
{
    let mut pending = Pending {
        begun: Vec::new(alloc),
        number: 1,
    };
    'reads: for _ in 0..u64::MAX {
        let count = match reader.read(piece) {
            Ok(count) => count,
            Err(_) => return Err(unread(ReadCause::Device)),
        };
        if count == 0 {
            if pending.begun.is_empty() {
                return Ok(());
            }
            return answer_begun(alloc, session, client, &mut pending, writer);
        }
        take_in(
            alloc,
            session,
            client,
            &mut pending,
            &piece[..count],
            writer,
        )?;
    }
    Err(unread(ReadCause::TooLong))
}

/// Answers each line of an input as it comes, until the input ends. The calls are made as `client`, or as the clients
/// that the lines name. The whole lines of one read are answered under one lock of the file. The answers are written
/// after the lock is released.
pub fn run_session<D: Device + Drop, S: Source, K: Sink>(
    alloc: Global,
    session: &mut Session<D>,
    client: Option<u32>,
    reader: &mut S,
    writer: &mut K,
) -> Result<(), SessionFault>
    requires in_step { session.old.is_in_step ≡ true }
    requires writer { K.has_failed writer.old ≡ false }
    ensures in_step { OnOk result (session.new.is_in_step ≡ true) }
    ensures trace { trace_of session.new.bench ≡ trace_of session.old.bench }

    // Without a fault it ends only at the end of the input, and the reader has not failed during the call.
    ensures end { OnOk result (IsAtEnd (S.rest reader.new)) }
    ensures read { OnOk result (S.has_failed reader.new ≡ S.has_failed reader.old) }

    // It reports a failed read exactly if a read failed, if none had failed before.
    ensures device { IfErr result (λ fault. fault ≡ input_failed → S.has_failed reader.new ≡ true) }
    ensures read_failed { S.has_failed reader.old ≡ false → S.has_failed reader.new ≡ true → result ≡ Err input_failed }

    // It answers each line that it read once and in order, in turns. It writes the answers in order, and nothing
    // else.
    ensures answered { OnOk result (IsWholeRun D.Device S.Source K.Sink session.old.bench client session.old.log session.new.log
        reader.old reader.new writer.old writer.new) }

    // After a fault this holds for the first lines. If the writer failed, a part of the answers of one more turn may
    // be written.
    ensures halted { IfErr result (IsHaltedRun D.Device S.Source K.Sink session.old.bench client session.old.log session.new.log
        reader.old reader.new writer.old writer.new) }
{
    let mut piece = vec![in alloc; 0u8; PIECE]?;
    run_pieces(alloc, session, client, reader, &mut piece, writer)
}
