//! Lists the races of a trace by pairs of locations: reads the trace, finds the verdicts, makes the text, and writes
//! it.
ghost use Rattle.std.specs.Prelude.{◌≡◌, ◌≢◌, None, Err, IfErr, IfOk, IfSome, true, false};
ghost use Rattle.client_scripts.specs.declared.fault.ReadCause.TheVariants.{Device};
ghost use Rattle.client_scripts.specs.declared.fault.ReplayFault.TheVariants.{Read, Write};
ghost use Rattle.calls.specs.triage.Answers.{IsKnownRead, IsKnownUnread};
ghost use Rattle.calls.specs.triage.Listings.{IsReportWritten, IsTriagedFrom, IsTriagedOn};
ghost use Rattle.calls.specs.declared.triage.fault.TriageFault.TheVariants.{Replay};

use crate::triage::asked::{Asked, Crew, Hears};
use crate::triage::fault::TriageFault;
use crate::triage::texts::text_of;
use crate::triage::writing::write_text;
use client_scripts::{Sink, Source, read_input, read_trace};
use event_index::Indexed;
use race_triage::{Watch, has_block};
use std::alloc::Global;
use std::thread::Threads;

/// Reads a whole trace text and writes its report: the counts, and a block for each race, or the same in another form
/// (docs/FORMATS.md, "The races of a trace"). Races that the text `known` lists are left out. Returns how many races
/// were written.
///
/// At the faults 91, 92, 94, 96 and 100 nothing is written. At 95 the writer has taken a beginning of the text. The
/// trace is input 1 in faults, and `known` is input 2. `crew.watch` learns how far the work is.
pub fn triage<R: Threads + Sync, S: Source, L: Source + Drop, K: Sink, W: Watch + Hears + Sync>(
    crew: &Crew<'_, R, W>,
    alloc: Global,
    reader: &mut S,
    known: Option<L>,
    asked: Asked<'_>,
    writer: &mut K,
) -> Result<u64, TriageFault>
    requires reader { S.has_failed reader.old ≡ false }
    requires known { IfSome known (λ k. L.has_failed k ≡ false) }
    requires writer { K.has_failed writer.old ≡ false }
    // The report comes from a text of the trace and a text of known races. If the types of the readers show their
    // bytes, they are those texts. Exactly the pairs of locations that the second text names are known.
    ensures triaged { IsTriagedFrom (S.rest reader.old) L.rest known asked.entry (K.taken writer.old) (K.taken writer.new) result }
    // The fault is a failed write exactly if a write failed.
    ensures write { result ≡ Err (Replay Write) → K.has_failed writer.new ≡ true }
    ensures write_failed { K.has_failed writer.new ≡ true → result ≡ Err (Replay Write) }
    ensures read_failed { S.has_failed reader.new ≡ true → result ≡ Err (Replay (Read 1 Device)) }
    ensures device { result ≡ Err (Replay (Read 1 Device)) → S.has_failed reader.new ≡ true }
{
    match read_trace(alloc, reader) {
        Ok(indexed) => {
            crew.watch.read(indexed.len());
            triage_on(crew, alloc, &indexed, known, asked, writer)
        }
        Err(fault) => Err(TriageFault::Replay(fault)),
    }
}

/// Writes the report of a trace that was read already, as `triage` does.
///
/// At the faults 94, 96 and 100 nothing is written. At 95 the writer has taken a beginning of the text. In faults
/// `known` is input 2.
pub fn triage_on<R: Threads + Sync, L: Source + Drop, K: Sink, W: Watch + Hears + Sync>(
    crew: &Crew<'_, R, W>,
    alloc: Global,
    indexed: &Indexed,
    known: Option<L>,
    asked: Asked<'_>,
    writer: &mut K,
) -> Result<u64, TriageFault>
    requires known { IfSome known (λ k. L.has_failed k ≡ false) }
    requires writer { K.has_failed writer.old ≡ false }
    ensures triaged { IsTriagedOn indexed.now L.rest known asked.entry (K.taken writer.old) (K.taken writer.new) result }
    ensures write { result ≡ Err (Replay Write) → K.has_failed writer.new ≡ true }
    ensures write_failed { K.has_failed writer.new ≡ true → result ≡ Err (Replay Write) }
    ensures device { result ≢ Err (Replay (Read 1 Device)) }
{
    match read_known(alloc, known) {
        Ok(listed) => {
            tell_known(crew.watch, &listed);
            write_listing(crew, alloc, indexed, &listed, asked, writer)
        }
        Err(fault) => Err(fault),
    }
}

/// Reports to the watcher whether the text of known races has a block, if there is such a text.
fn tell_known<W: Watch>(watch: &W, listed: &Option<Vec<u8>>) {
    if let Some(text) = listed {
        watch.known(has_block(text.as_slice()));
    }
}

/// Finds the verdicts of the trace and writes the report. Returns how many races were written.
fn write_listing<R: Threads + Sync, K: Sink, W: Watch + Hears + Sync>(
    crew: &Crew<'_, R, W>,
    alloc: Global,
    indexed: &Indexed,
    listed: &Option<Vec<u8>>,
    asked: Asked<'_>,
    writer: &mut K,
) -> Result<u64, TriageFault>
    requires { K.has_failed writer.old ≡ false }
    ensures written { IsReportWritten indexed.now listed.now asked.entry (K.taken writer.old) (K.taken writer.new) result }
    ensures failed { K.has_failed writer.new ≡ true → result ≡ Err (Replay Write) }
    ensures write { result ≡ Err (Replay Write) → K.has_failed writer.new ≡ true }
{
    let (text, races) = match text_of(crew, alloc, indexed, listed, asked) {
        Ok(made) => made,
        Err(fault) => return Err(fault),
    };
    crew.watch.end();
    match write_text(writer, text.as_slice()) {
        Ok(()) => Ok(races),
        Err(fault) => Err(fault),
    }
}

/// Reads the text of known races, if there is one.
fn read_known<L: Source + Drop>(
    alloc: Global,
    known: Option<L>,
) -> Result<Option<Vec<u8>>, TriageFault>
    requires { IfSome known (λ k. L.has_failed k ≡ false) }
    ensures read { IfOk result (IsKnownRead L.rest known) }
    ensures unread { IfErr result (λ fault. IfSome known (λ k. IsKnownUnread (L.rest k) fault)) }
    ensures given { IfErr result (λ fault. known ≢ None) }
{
    let Some(mut source) = known else {
        return Ok(None);
    };
    match read_input(alloc, &mut source, 2) {
        Ok(text) => Ok(Some(text)),
        Err(fault) => Err(TriageFault::Replay(fault)),
    }
}
