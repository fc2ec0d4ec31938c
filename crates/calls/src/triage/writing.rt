//! Writes the text of a report.
ghost use Rattle.std.specs.Prelude.{◌≡◌, false, IfErr, OnErr, OnOk, is_err};
ghost use Rattle.std.specs.Io.KnownBytes.{Appends};
ghost use Rattle.client_scripts.specs.Replay.{AppendsPart};
ghost use Rattle.client_scripts.specs.declared.fault.ReplayFault.TheVariants.{Write};
ghost use Rattle.calls.specs.declared.triage.fault.TriageFault.TheVariants.{Replay};

use crate::triage::fault::TriageFault;
use client_scripts::{ReplayFault, Sink, write_all};

/// Writes the whole text. If a write fails, the writer has taken a beginning of it.
pub(crate) fn write_text<K: Sink>(writer: &mut K, text: &[u8]) -> Result<(), TriageFault>
    requires { K.has_failed writer.old ≡ false }
    ensures ok { OnOk result (Appends (K.taken writer.old) (K.taken writer.new) text.now) }
    ensures err { OnErr result (AppendsPart (K.taken writer.old) (K.taken writer.new) text.now) }
    ensures why { IfErr result (λ fault. fault ≡ Replay Write) }
    ensures failed { K.has_failed writer.new ≡ is_err result }
{
    match write_all(writer, text) {
        Ok(()) => Ok(()),
        Err(_) => Err(TriageFault::Replay(ReplayFault::Write)),
    }
}
