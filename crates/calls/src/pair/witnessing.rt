//! Prints the schedule that shows a pair, or two requests that wait for each other: reads the trace, finds the schedule, makes the text, and writes it.
ghost use Rattle.std.specs.Prelude.{◌≡◌, ◌≢◌, ◌<◌, ℕ, List, length, false, true, IfSome, IfOk, IfErr, Err};
ghost use Rattle.client_scripts.specs.declared.fault.ReadCause.{ReadCause};
ghost use Rattle.client_scripts.specs.declared.fault.ReadCause.TheVariants.{Device};
ghost use Rattle.client_scripts.specs.declared.fault.ReplayFault.TheVariants.{Write, Read};
ghost use Rattle.event_index.specs.Relations.{IsConflicting};
ghost use Rattle.calls.specs.pair.Named.{IsNamedPair};
ghost use Rattle.calls.specs.pair.Answers.{IsUnwitnessed, IsWitness, IsWitnessed, IsWritten, IsListed, IsUnlisted};
ghost use Rattle.calls.specs.declared.pair.fault.PairFault.TheVariants.{Replay};

use crate::pair::fault::PairFault;
use crate::pair::form::{Form, append_schedule};
use crate::pair::naming::named_pair;
use crate::pair::requests::witness_of_requests;
use crate::pair::writing::write_text;
use client_scripts::{Sink, Source, read_trace};
use event_index::{EventList, Indexed};
use explain_report::findings::{Finding, find};
use explain_report::places::Name;
use must_order::{Analysis, Kind};
use std::alloc::Global;

/// The schedule that shows a conflicting pair; `first` is the earlier event.
fn schedule_of(
    alloc: Global,
    analysis: &Analysis<'_>,
    first: u32,
    second: u32,
) -> Result<EventList, PairFault>
    requires first { first < length analysis.now.events }
    requires second { second < length analysis.now.events }
    requires conflict { IsConflicting analysis.now.events first second }
    ensures listed { IfOk result (IsListed analysis.now first second) }
    ensures unlisted { IfErr result (IsUnlisted analysis.now first second) }
{
    match find(alloc, analysis, first, second)? {
        Finding::Race { how: _, events } => Ok(events),
        Finding::Forced { chains: _ } => Err(PairFault::NotShown(Kind::Forced)),
        Finding::Guarded { lock: _ } => Err(PairFault::NotShown(Kind::Guarded)),
        Finding::Contradicted { steps: _ } => Err(PairFault::NotShown(Kind::Open)),
        Finding::Undecided { events: _ } => Err(PairFault::NotShown(Kind::Open)),
    }
}

/// The text of the schedule that shows this pair, which the two names mean.
fn witness_of_pair(
    alloc: Global,
    analysis: &Analysis<'_>,
    _one: Name<'_>,
    _other: Name<'_>,
    pair: (u32, u32),
    form: Form,
) -> Result<Vec<u8>, PairFault>
    requires named { IsNamedPair analysis.now _one _other pair.0 pair.1 }
    requires first { pair.0 < length analysis.now.events }
    requires second { pair.1 < length analysis.now.events }
    requires conflict { IsConflicting analysis.now.events pair.0 pair.1 }
    ensures text { IfOk result (λ text. IsWitness analysis.now _one.entry _other.entry form text.items) }
    ensures fault { IfErr result (IsUnwitnessed analysis.now _one.entry _other.entry) }
{
    let (first, second) = pair;
    let events = match schedule_of(alloc, analysis, first, second) {
        Ok(events) => events,
        Err(fault) => return Err(fault),
    };
    let mut text = Vec::new(alloc);
    append_schedule(&mut text, analysis, events.items(), first, second, form)?;
    Ok(text)
}

/// Computes the orders of the trace, and makes the text of the schedule that shows this pair.
fn witness_by_orders(
    alloc: Global,
    indexed: &Indexed,
    one: Name<'_>,
    other: Name<'_>,
    pair: (u32, u32),
    form: Form,
) -> Result<Vec<u8>, PairFault>
    requires named { IsNamedPair indexed.now one other pair.0 pair.1 }
    requires first { pair.0 < length indexed.now.events }
    requires second { pair.1 < length indexed.now.events }
    requires conflict { IsConflicting indexed.now.events pair.0 pair.1 }
    ensures text { IfOk result (λ text. IsWitness indexed.now one.entry other.entry form text.items) }
    ensures fault { IfErr result (IsUnwitnessed indexed.now one.entry other.entry) }
{
    match Analysis::new(alloc, indexed) {
        Ok(analysis) => witness_of_pair(alloc, &analysis, one, other, pair, form),
        Err(refused) => Err(PairFault::from(refused)),
    }
}

/// Finds the pair or the requests that the two names mean, and makes the text of the schedule that shows them.
fn witness_of(
    alloc: Global,
    indexed: &Indexed,
    one: Name<'_>,
    other: Name<'_>,
    form: Form,
) -> Result<Vec<u8>, PairFault>
    ensures text { IfOk result (λ text. IsWitness indexed.now one.entry other.entry form text.items) }
    ensures fault { IfErr result (IsUnwitnessed indexed.now one.entry other.entry) }
{
    match named_pair(alloc, indexed, one, other) {
        Ok(Some(pair)) => witness_by_orders(alloc, indexed, one, other, pair, form),
        Ok(None) => witness_of_requests(alloc, indexed, one, other, form),
        Err(refused) => Err(PairFault::from(refused)),
    }
}

/// Writes the text of the schedule that shows the pair that the two names mean.
fn write_witness<K: Sink>(
    alloc: Global,
    indexed: &Indexed,
    one: Name<'_>,
    other: Name<'_>,
    form: Form,
    writer: &mut K,
) -> Result<(), PairFault>
    requires { K.has_failed writer.old ≡ false }
    ensures written { IsWritten (λ r text. IsWitness r one.entry other.entry form text) (λ r fault. IsUnwitnessed r one.entry other.entry fault)
        indexed.now (K.taken writer.old) (K.taken writer.new) result }
    ensures unread { (input : ℕ) (why : ReadCause) → result ≢ Err (Replay (Read input why)) }
    ensures failed { K.has_failed writer.new ≡ true → result ≡ Err (Replay Write) }
    ensures write { result ≡ Err (Replay Write) → K.has_failed writer.new ≡ true }
{
    let text = match witness_of(alloc, indexed, one, other, form) {
        Ok(text) => text,
        Err(fault) => return Err(fault),
    };
    write_text(writer, text.as_slice())
}

/// Reads a whole trace text and writes a schedule that shows a pair, in this form. The two names mean the pair, in
/// either order (docs/FORMATS.md, "A pair by its locations"). The schedule is a correct reordering of the trace, and
/// after it both events are next in their threads. The numbers of two requests mean these, if they wait for each other.
///
/// At the faults 91, 92, 94, 96, 98 and 99 nothing is written. At 95 the writer has taken a beginning of the text.
pub fn witness<S: Source, K: Sink>(
    alloc: Global,
    reader: &mut S,
    one: Name<'_>,
    other: Name<'_>,
    form: Form,
    writer: &mut K,
) -> Result<(), PairFault>
    requires reader { S.has_failed reader.old ≡ false }
    requires writer { K.has_failed writer.old ≡ false }
    // The answer comes from a text. If the type of the reader shows its bytes, it is that text.
    ensures witnessed { (bytes : List ℕ)
        × IfSome (S.rest reader.old) (λ told. bytes ≡ told)
        × IsWitnessed bytes one.entry other.entry form (K.taken writer.old) (K.taken writer.new) result }
    // There is one input, so no fault names a second.
    ensures input { (why : ReadCause) → result ≢ Err (Replay (Read 2 why)) }
    // The fault is a failed read exactly if a read failed, and a failed write exactly if a write failed.
    ensures device { result ≡ Err (Replay (Read 1 Device)) → S.has_failed reader.new ≡ true }
    ensures read_failed { S.has_failed reader.new ≡ true → result ≡ Err (Replay (Read 1 Device)) }
    ensures write { result ≡ Err (Replay Write) → K.has_failed writer.new ≡ true }
    ensures write_failed { K.has_failed writer.new ≡ true → result ≡ Err (Replay Write) }
{
    match read_trace(alloc, reader) {
        Ok(indexed) => {
            let outcome = write_witness(alloc, &indexed, one, other, form, writer);
            drop(indexed);
            outcome
        }
        Err(fault) => Err(PairFault::Replay(fault)),
    }
}
