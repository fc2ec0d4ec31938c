//! Lists the accesses of the variables of a race: reads the trace, makes the table, and writes it.
ghost use Rattle.std.specs.Prelude.{◌≡◌, ◌≢◌, ℕ, List, false, true, IfSome, IfOk, IfErr, Err};
ghost use Rattle.client_scripts.specs.declared.fault.ReadCause.{ReadCause};
ghost use Rattle.client_scripts.specs.declared.fault.ReadCause.TheVariants.{Device};
ghost use Rattle.client_scripts.specs.declared.fault.ReplayFault.TheVariants.{Write, Read};
ghost use Rattle.uses_report.specs.Between.{AreUsesTold};
ghost use Rattle.calls.specs.pair.Answers.{IsWritten};
ghost use Rattle.calls.specs.pair.Uses.{AreUsesAnswered, IsUnused};
ghost use Rattle.calls.specs.declared.pair.fault.PairFault.TheVariants.{Replay};

use crate::pair::fault::PairFault;
use crate::pair::writing::write_text;
use client_scripts::{Sink, Source, read_trace};
use event_index::Indexed;
use explain_report::places::Name;
use std::alloc::Global;
use uses_report::uses_between;

/// The text of the table for the names.
fn table_of(
    alloc: Global,
    indexed: &Indexed,
    one: Name<'_>,
    other: Name<'_>,
) -> Result<Vec<u8>, PairFault>
    ensures text { IfOk result (λ text. AreUsesTold indexed.now one.entry other.entry text.items) }
    ensures fault { IfErr result (IsUnused indexed.now one.entry other.entry) }
{
    match uses_between(alloc, indexed, one, other) {
        Ok(text) => Ok(text),
        Err(fault) => Err(PairFault::from(fault)),
    }
}

/// Writes the text of the table for the names.
fn write_table<K: Sink>(
    alloc: Global,
    indexed: &Indexed,
    one: Name<'_>,
    other: Name<'_>,
    writer: &mut K,
) -> Result<(), PairFault>
    requires { K.has_failed writer.old ≡ false }
    ensures written { IsWritten (λ r text. AreUsesTold r one.entry other.entry text) (λ r fault. IsUnused r one.entry other.entry fault)
        indexed.now (K.taken writer.old) (K.taken writer.new) result }
    ensures unread { (input : ℕ) (why : ReadCause) → result ≢ Err (Replay (Read input why)) }
    ensures failed { K.has_failed writer.new ≡ true → result ≡ Err (Replay Write) }
    ensures write { result ≡ Err (Replay Write) → K.has_failed writer.new ≡ true }
{
    let text = match table_of(alloc, indexed, one, other) {
        Ok(text) => text,
        Err(fault) => return Err(fault),
    };
    write_text(writer, text.as_slice())
}

/// Reads a whole trace text and lists all accesses of the variables of a race, by location and operation: how often, in
/// how many threads, under which locks, and whether they come before or after the accesses of the race. The variables
/// are those on which an access that the one name means conflicts with one that the other means. A number means all
/// events at the location of that event, and a word the accesses whose locations it fits best.
///
/// At the faults 91, 92, 94, 96, 98 and 116 nothing is written. At 95 the writer has taken a beginning of the text.
pub fn uses<S: Source, K: Sink>(
    alloc: Global,
    reader: &mut S,
    one: Name<'_>,
    other: Name<'_>,
    writer: &mut K,
) -> Result<(), PairFault>
    requires reader { S.has_failed reader.old ≡ false }
    requires writer { K.has_failed writer.old ≡ false }
    // The answer comes from a text. If the type of the reader shows its bytes, it is that text.
    ensures uses { (bytes : List ℕ)
        × IfSome (S.rest reader.old) (λ told. bytes ≡ told)
        × AreUsesAnswered bytes one.entry other.entry (K.taken writer.old) (K.taken writer.new) result }
    // There is one input, so no fault names a second.
    ensures input { (why : ReadCause) → result ≢ Err (Replay (Read 2 why)) }
    // The fault is a failed read exactly if a read failed, and a failed write exactly if a write failed.
    ensures device { result ≡ Err (Replay (Read 1 Device)) → S.has_failed reader.new ≡ true }
    ensures read_failed { S.has_failed reader.new ≡ true → result ≡ Err (Replay (Read 1 Device)) }
    ensures write { result ≡ Err (Replay Write) → K.has_failed writer.new ≡ true }
    ensures write_failed { K.has_failed writer.new ≡ true → result ≡ Err (Replay Write) }
{
    match read_trace(alloc, reader) {
        Ok(indexed) => {
            let outcome = write_table(alloc, &indexed, one, other, writer);
            drop(indexed);
            outcome
        }
        Err(fault) => Err(PairFault::Replay(fault)),
    }
}
