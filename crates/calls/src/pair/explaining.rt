//! Explains a pair: reads the trace, judges the pair, makes the text, and writes it.
ghost use Rattle.std.specs.Prelude.{◌≡◌, ◌≢◌, ◌<◌, ℕ, List, length, false, true, IfSome, IfOk, IfErr, Err};
ghost use Rattle.client_scripts.specs.declared.fault.ReadCause.{ReadCause};
ghost use Rattle.client_scripts.specs.declared.fault.ReadCause.TheVariants.{Device};
ghost use Rattle.client_scripts.specs.declared.fault.ReplayFault.TheVariants.{Write, Read};
ghost use Rattle.explain_report.specs.findings.Findings.{IsFinding, IsNeverShown};
ghost use Rattle.calls.specs.pair.Answers.{IsExplained, IsExplanation, IsFindingTold, IsPairTold, IsUnexplained, IsWritten};
ghost use Rattle.calls.specs.declared.pair.fault.PairFault.TheVariants.{Replay};
ghost use Rattle.rapid_text.specs.Appended.{AppendedOne};

use crate::pair::fault::PairFault;
use crate::pair::naming::named_pair;
use crate::pair::requests::explanation_of_requests;
use crate::pair::writing::write_text;
use client_scripts::{Sink, Source, read_trace};
use event_index::Indexed;
use explain_report::findings::{Finding, find};
use explain_report::places::Name;
use explain_report::{Verdict, explain_text};
use must_order::Analysis;
use rapid_text::OutOfMemory;
use std::alloc::Global;

/// Appends the text of a finding on the pair, whose earlier event comes first.
fn append_finding(
    text: &mut Vec<u8>,
    analysis: &Analysis<'_>,
    found: &Finding,
    pair: (u32, u32),
    all: bool,
) -> Result<(), OutOfMemory>
    ensures { AppendedOne result text.old text.new (IsFindingTold analysis.now found.now all pair.0 pair.1) }
{
    match found {
        Finding::Race { how, events } => {
            let verdict = Verdict::Race {
                how: *how,
                events: events.items(),
                all,
            };
            explain_text(analysis, &verdict, pair, text)?;
        }
        Finding::Forced { chains } => {
            let verdict = Verdict::Forced { chains };
            explain_text(analysis, &verdict, pair, text)?;
        }
        Finding::Guarded { lock } => {
            let verdict = Verdict::Guarded { lock: *lock };
            explain_text(analysis, &verdict, pair, text)?;
        }
        Finding::Contradicted { steps } => {
            let verdict = Verdict::Contradicted { steps };
            explain_text(analysis, &verdict, pair, text)?;
        }
        Finding::Undecided { events } => {
            let verdict = Verdict::Undecided { events };
            explain_text(analysis, &verdict, pair, text)?;
        }
    }
    Ok(())
}

/// Appends the text of a finding that is right for the pair.
fn append_found(
    text: &mut Vec<u8>,
    analysis: &Analysis<'_>,
    finding: &Finding,
    pair: (u32, u32),
    all: bool,
) -> Result<(), OutOfMemory>
    requires finding { IsFinding analysis.now pair.0 pair.1 finding.now }
    requires never { IsNeverShown analysis.now.events pair.0 pair.1 finding.now }
    ensures { AppendedOne result text.old text.new (IsPairTold analysis.now all pair.0 pair.1) }
{
    append_finding(text, analysis, finding, pair, all)?;
    Ok(())
}

/// Judges the pair by the orders of the trace, and appends the text.
fn append_explained(
    text: &mut Vec<u8>,
    analysis: &Analysis<'_>,
    pair: (u32, u32),
    all: bool,
) -> Result<(), OutOfMemory>
    requires first { pair.0 < length analysis.now.events }
    requires second { pair.1 < length analysis.now.events }
    ensures { AppendedOne result text.old text.new (IsPairTold analysis.now all pair.0 pair.1) }
{
    match find(*text.allocator(), analysis, pair.0, pair.1) {
        Ok(finding) => append_found(text, analysis, &finding, pair, all),
        Err(refused) => Err(refused),
    }
}

/// Computes the orders of the trace, judges the pair, and appends the text.
fn append_explanation(
    text: &mut Vec<u8>,
    indexed: &Indexed,
    pair: (u32, u32),
    all: bool,
) -> Result<(), OutOfMemory>
    requires first { pair.0 < length indexed.now.events }
    requires second { pair.1 < length indexed.now.events }
    ensures { AppendedOne result text.old text.new (IsPairTold indexed.now all pair.0 pair.1) }
{
    match Analysis::new(*text.allocator(), indexed) {
        Ok(analysis) => append_explained(text, &analysis, pair, all),
        Err(refused) => Err(refused),
    }
}

/// The text that explains the pair or the requests that the two names mean.
fn explanation_of(
    alloc: Global,
    indexed: &Indexed,
    one: Name<'_>,
    other: Name<'_>,
    all: bool,
) -> Result<Vec<u8>, PairFault>
    ensures text { IfOk result (λ text. IsExplanation indexed.now one.entry other.entry all text.items) }
    ensures fault { IfErr result (IsUnexplained indexed.now one.entry other.entry) }
{
    let pair = match named_pair(alloc, indexed, one, other)? {
        Some(pair) => pair,
        None => return explanation_of_requests(alloc, indexed, one, other, all),
    };
    let mut text = Vec::new(alloc);
    append_explanation(&mut text, indexed, pair, all)?;
    Ok(text)
}

/// Writes the text that explains the pair that the two names mean.
fn write_explanation<K: Sink>(
    alloc: Global,
    indexed: &Indexed,
    one: Name<'_>,
    other: Name<'_>,
    all: bool,
    writer: &mut K,
) -> Result<(), PairFault>
    requires { K.has_failed writer.old ≡ false }
    ensures written { IsWritten (λ r text. IsExplanation r one.entry other.entry all text) (λ r fault. IsUnexplained r one.entry other.entry fault)
        indexed.now (K.taken writer.old) (K.taken writer.new) result }
    ensures unread { (input : ℕ) (why : ReadCause) → result ≢ Err (Replay (Read input why)) }
    ensures failed { K.has_failed writer.new ≡ true → result ≡ Err (Replay Write) }
    ensures write { result ≡ Err (Replay Write) → K.has_failed writer.new ≡ true }
{
    let text = match explanation_of(alloc, indexed, one, other, all) {
        Ok(text) => text,
        Err(fault) => return Err(fault),
    };
    write_text(writer, text.as_slice())
}

/// Reads a whole trace text and explains the pair that two names mean, in either order. The text has a schedule that
/// shows the pair, run by run; or what keeps the two apart in every correct reordering; or that neither was found
/// (docs/FORMATS.md, "A pair of events"). The numbers of two requests mean these, if they wait for each other. If the
/// schedule has more than eleven runs, all but the last ten become one block, unless `all` is true.
///
/// At the faults 91, 92, 94, 96 and 98 nothing is written. At 95 the writer has taken a beginning of the text.
pub fn explain<S: Source, K: Sink>(
    alloc: Global,
    reader: &mut S,
    one: Name<'_>,
    other: Name<'_>,
    all: bool,
    writer: &mut K,
) -> Result<(), PairFault>
    requires reader { S.has_failed reader.old ≡ false }
    requires writer { K.has_failed writer.old ≡ false }
    // The answer comes from a text. If the type of the reader shows its bytes, it is that text.
    ensures explained { (bytes : List ℕ)
        × IfSome (S.rest reader.old) (λ told. bytes ≡ told)
        × IsExplained bytes one.entry other.entry all (K.taken writer.old) (K.taken writer.new) result }
    // There is one input, so no fault names a second.
    ensures input { (why : ReadCause) → result ≢ Err (Replay (Read 2 why)) }
    // The fault is a failed read exactly if a read failed, and a failed write exactly if a write failed.
    ensures device { result ≡ Err (Replay (Read 1 Device)) → S.has_failed reader.new ≡ true }
    ensures read_failed { S.has_failed reader.new ≡ true → result ≡ Err (Replay (Read 1 Device)) }
    ensures write { result ≡ Err (Replay Write) → K.has_failed writer.new ≡ true }
    ensures write_failed { K.has_failed writer.new ≡ true → result ≡ Err (Replay Write) }
{
    match read_trace(alloc, reader) {
        Ok(indexed) => {
            let outcome = write_explanation(alloc, &indexed, one, other, all, writer);
            drop(indexed);
            outcome
        }
        Err(fault) => Err(PairFault::Replay(fault)),
    }
}
