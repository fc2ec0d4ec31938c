//! Prints the lines that count in the file of a log.
ghost use Rattle.std.specs.Prelude.{◌≡◌, ◌≢◌, true, false, flat_map, Err, IfErr, IfSome, OnOk};
ghost use Rattle.client_scripts.specs.Joint.{ended};
ghost use Rattle.client_scripts.specs.declared.fault.ReadCause.TheVariants.{Device as DeviceFailed, TooLong};
ghost use Rattle.client_scripts.specs.declared.fault.ReplayFault.TheVariants.{Read, Write};
ghost use Rattle.kept_log.specs.Lines.{kept_lines};
ghost use Rattle.kept_session.specs.Faults.{IsPrintFault};
ghost use Rattle.kept_session.specs.Heads.{IsHeadless, IsOverlong, PrintsLog, PrintsPart};
ghost use Rattle.kept_session.specs.declared.fault.SessionFault.TheVariants.{Replay, LogLine};
ghost use Rattle.rapid_text.specs.Appended.{Appended};

use crate::fault::{LOG_INPUT, SessionFault};
use crate::head::behind_head;
use client_scripts::{ReplayFault, Sink, Source, read_input, write_all};
use kept_log::first_line;
use rapid_text::OutOfMemory;
use std::alloc::Global;

/// Appends the lines that count in a text, as a script.
fn append_lines(out: &mut Vec<u8>, text: &[u8]) -> Result<(), OutOfMemory>
    ensures { Appended result out.old out.new (flat_map ended (kept_lines text.now)) }
{
    let mut rest = text;
    while let Some((line, others)) = first_line(rest) {
        out.extend_from_slice(line)?;
        out.push(b'\n')?;
        rest = others;
    }
    Ok(())
}

/// Reads the whole file of a log, and writes its lines that count, as a script. Fails with 101 for line 1 if the file
/// does not begin with a head.
pub fn print_log<S: Source, K: Sink>(
    alloc: Global,
    reader: &mut S,
    writer: &mut K,
) -> Result<(), SessionFault>
    requires reader { S.has_failed reader.old ≡ false }
    requires writer { K.has_failed writer.old ≡ false }

    // What it writes is the script of the lines that count after the head.
    ensures printed { OnOk result (PrintsLog (S.rest reader.old) (K.taken writer.old) (K.taken writer.new)) }
    ensures refused { result ≡ Err (LogLine 1) → IfSome (S.rest reader.old) IsHeadless }

    // It writes nothing before this script is made. If a write fails, it has written a beginning of the script.
    ensures unwritten { IfErr result (λ fault. fault ≢ Replay Write → K.taken writer.new ≡ K.taken writer.old) }
    ensures begun { result ≡ Err (Replay Write) → PrintsPart (S.rest reader.old) (K.taken writer.old)
        (K.taken writer.new) }

    // The fault is a failed read exactly if a read failed, and a failed write exactly if a write failed. There are no
    // other faults than those of `IsPrintFault`.
    ensures device { result ≡ Err (Replay (Read 2 DeviceFailed)) → S.has_failed reader.new ≡ true }
    ensures read_failed { S.has_failed reader.new ≡ true → result ≡ Err (Replay (Read 2 DeviceFailed)) }
    ensures write { result ≡ Err (Replay Write) → K.has_failed writer.new ≡ true }
    ensures write_failed { K.has_failed writer.new ≡ true → result ≡ Err (Replay Write) }
    ensures fault { IfErr result IsPrintFault }

    // It reports an input as too long only if it is.
    ensures too_long { result ≡ Err (Replay (Read 2 TooLong)) → IfSome (S.rest reader.old) IsOverlong }
{
    let bytes = read_input(alloc, reader, LOG_INPUT)?;
    let Some(text) = behind_head(&bytes) else {
        return Err(SessionFault::LogLine { line: 1 });
    };
    let mut out = Vec::new(alloc);
    append_lines(&mut out, text)?;
    if write_all(writer, &out).is_err() {
        return Err(SessionFault::from(ReplayFault::Write));
    }
    Ok(())
}
