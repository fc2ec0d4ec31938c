//! Reads a trace, makes a text of it, and writes the text: what each call on one trace does.
ghost use Rattle.std.specs.Prelude.{◌≡◌, ◌≢◌, ℕ, false, true, is_err, Err, IfOk, IfErr, OnErr, OnOk};
ghost use Rattle.std.specs.Io.KnownBytes.{Appends};
ghost use Rattle.client_scripts.specs.Replay.{AppendsPart};
ghost use Rattle.client_scripts.specs.declared.fault.ReadCause.{ReadCause};
ghost use Rattle.client_scripts.specs.declared.fault.ReplayFault.TheVariants.{Write, Read};
ghost use Rattle.calls.specs.Printouts.{Answers, IsUnmade, IsWritten};
ghost use Rattle.calls.specs.declared.fault.BenchFault.TheVariants.{Replay};

use crate::fault::BenchFault;
use client_scripts::{ReplayFault, Sink, Source, read_trace, write_all};
use event_index::Indexed;
use std::alloc::Global;

/// A text that a call prints about a trace.
pub(crate) trait Printout {
    ghost use Rattle.std.specs.Prelude.{ℕ, List};
    ghost use Rattle.rapid_text.specs.Recording.{Recording};
    ghost use Rattle.calls.specs.declared.fault.BenchFault.{BenchFault};

    /// What must hold before the text is made.
    ghost can_print: { Self → Type 0 };

    /// Which texts are right for a trace.
    ghost prints: { Self → Recording → List ℕ → Type 0 };

    /// Which of the printout's own faults are right for a trace.
    ghost refuses: { Self → Recording → BenchFault → Type 0 };

    /// Makes the text for this trace.
    fn text(&self, alloc: Global, indexed: &Indexed) -> Result<Vec<u8>, BenchFault>
        requires can { can_print self.now }
        ensures text { IfOk result (λ text. prints self.now indexed.now text.items) }
        ensures fault { IfErr result (λ fault. IsUnmade (refuses self.now indexed.now) fault) };
}

/// Writes the whole text. If a write fails, the writer has taken a beginning of it.
pub(crate) fn write_text<K: Sink>(writer: &mut K, text: &[u8]) -> Result<(), ReplayFault>
    requires { K.has_failed writer.old ≡ false }
    ensures ok { OnOk result (Appends (K.taken writer.old) (K.taken writer.new) text.now) }
    ensures err { OnErr result (AppendsPart (K.taken writer.old) (K.taken writer.new) text.now) }
    ensures why { IfErr result (λ fault. fault ≡ Write) }
    ensures failed { K.has_failed writer.new ≡ is_err result }
{
    match write_all(writer, text) {
        Ok(()) => Ok(()),
        Err(_) => Err(ReplayFault::Write),
    }
}

/// Makes the text for a trace that was read, and writes it.
fn print_on<P: Printout, K: Sink>(
    alloc: Global,
    indexed: &Indexed,
    printout: &P,
    writer: &mut K,
) -> Result<(), BenchFault>
    requires can { P.can_print printout.now }
    requires writer { K.has_failed writer.old ≡ false }
    ensures written { IsWritten (P.prints printout.now indexed.now) (P.refuses printout.now indexed.now) (K.taken writer.old) (K.taken writer.new) result }
    ensures unread { (input : ℕ) (why : ReadCause) → result ≢ Err (Replay (Read input why)) }
    ensures write { result ≡ Err (Replay Write) → K.has_failed writer.new ≡ true }
    ensures write_failed { K.has_failed writer.new ≡ true → result ≡ Err (Replay Write) }
{
    match printout.text(alloc, indexed) {
        Ok(text) => Ok(write_text(writer, text.as_slice())?),
        Err(fault) => Err(fault),
    }
}

/// Reads a whole trace text and writes the printout of the trace. If a write fails, the writer has taken a beginning of
/// the text. At any other fault nothing is written.
pub(crate) fn print<P: Printout, S: Source, K: Sink>(
    alloc: Global,
    reader: &mut S,
    printout: &P,
    writer: &mut K,
) -> Result<(), BenchFault>
    requires can { P.can_print printout.now }
    requires reader { S.has_failed reader.old ≡ false }
    requires writer { K.has_failed writer.old ≡ false }
    ensures answers { Answers (P.prints printout.now) (P.refuses printout.now)
        (S.rest reader.old) (S.has_failed reader.new) (K.taken writer.old) (K.taken writer.new) (K.has_failed writer.new) result }
{
    match read_trace(alloc, reader) {
        Ok(indexed) => {
            let outcome = print_on(alloc, &indexed, printout, writer);
            drop(indexed);
            outcome
        }
        Err(fault) => Err(BenchFault::Replay(fault)),
    }
}
