//! Replays a script on a trace: reads both, makes the script's calls, and writes a line for each answer.
ghost use Rattle.std.specs.Prelude.{◌≡◌, ◌≢◌, ◌<◌, ◌≤◌, ℕ, [], length, true, false, is_err, is_ok, IfErr, IfOk, OnOk, OnErr, Ok, Err};
ghost use Rattle.std.specs.Io.KnownBytes.{Appends};
ghost use Rattle.inverse_log.specs.Answer.{log_after};
ghost use Rattle.client_scripts.specs.Replay.{AppendsPart, IsJointReplay, IsReplay, IsReplayOfTwo, IsShort, of_joint};
ghost use Rattle.client_scripts.specs.Steps.{HandsOn, IsReplayOn, IsRun, IsScriptRun, MakesCallOn, answer_line, answer_on};
ghost use Rattle.client_scripts.specs.declared.fault.ReadCause.{ReadCause};
ghost use Rattle.client_scripts.specs.declared.fault.ReadCause.TheVariants.{Device};
ghost use Rattle.client_scripts.specs.declared.fault.ReplayFault.TheVariants.{Write, Read};
ghost use Rattle.rapid_text.specs.Appended.{Appended};
ghost use Rattle.script_language.specs.Scripts.{IsScript};
ghost use Rattle.dependence.specs.Limits.{client_limit};

use crate::fault::{ReplayFault, Tally};
use crate::joint::parts_of;
use crate::loading::{load, read_input, read_trace};
use crate::sink::{Sink, write_all};
use crate::source::Source;
use event_index::Indexed;
use inverse_log::{Bench, Call, Refusal};
use rapid_text::{OutOfMemory, TextKeyed};
use script_language::{GivenCall, PlainCall, Script, read_script};
use std::alloc::Global;
use std::sync::Arc;

/// How many bytes of output are collected before they are written.
const FULL: usize = 65_536;

/// Makes a call and appends the line of its answer. Returns whether the answer is a reply. If the call shows a
/// schedule, prints its events in place, without a copy of the list.
fn make_plain(
    bench: &mut Bench,
    client: u32,
    call: &PlainCall<'_>,
    out: &mut Vec<u8>,
) -> Result<bool, OutOfMemory>
    requires low { 1 ≤ client }
    requires high { client ≤ client_limit }
    ensures trace { bench.new.trace ≡ bench.old.trace }
    ensures text { Appended result out.old out.new (answer_line bench.old client call.now) }
    ensures accepted { IfOk result (λ accepted. accepted ≡ is_ok (answer_on bench.old client call.now)) }
    ensures log { OnOk result (bench.new.log ≡ log_after bench.old.trace bench.old.log client call.now) }
{
    if let Some(name) = call.shown() {
        if let Some(events) = bench.shown(&name) {
            report::shown(events, out)?;
            return Ok(true);
        }
    }
    let made = call.made();
    let told = tell_answer(bench, client, &made, out);
    drop(made);
    told
}

/// The same, with the answer as a value.
fn tell_answer(
    bench: &mut Bench,
    client: u32,
    call: &Call,
    out: &mut Vec<u8>,
) -> Result<bool, OutOfMemory>
    requires low { 1 ≤ client }
    requires high { client ≤ client_limit }
    ensures trace { bench.new.trace ≡ bench.old.trace }
    ensures text { Appended result out.old out.new (answer_line bench.old client call.now) }
    ensures accepted { IfOk result (λ accepted. accepted ≡ is_ok (answer_on bench.old client call.now)) }
    ensures log { OnOk result (bench.new.log ≡ log_after bench.old.trace bench.old.log client call.now) }
{
    match bench.call(client, call) {
        Ok(reply) => {
            let told = report::reply(&reply, out);
            drop(reply);
            told?;
            Ok(true)
        }
        Err(Refusal::OutOfMemory) => Err(OutOfMemory),
        Err(why) => {
            report::refusal(bench.indexed(), &why, out)?;
            Ok(false)
        }
    }
}

/// Makes the script's call with this index and appends the line of its answer. Returns whether the answer is a reply.
fn make_call_at(
    bench: &mut Bench,
    script: &Script,
    at: usize,
    out: &mut Vec<u8>,
) -> Result<bool, OutOfMemory>
    requires { at < length script.now }
    ensures trace { bench.new.trace ≡ bench.old.trace }
    ensures made { IfOk result (MakesCallOn script.now at bench.old bench.new out.old.items out.new.items) }
{
    let client = script.client(at);
    match script.given(at) {
        GivenCall::Plain(call) => make_plain(bench, client, &call, out),
        GivenCall::Lent(call) => tell_answer(bench, client, call, out),
    }
}

/// Writes the kept bytes, and keeps none.
fn write_out<K: Sink>(writer: &mut K, kept: &mut Vec<u8>) -> Result<(), ReplayFault>
    requires { K.has_failed writer.old ≡ false }
    ensures ok { OnOk result (Appends (K.taken writer.old) (K.taken writer.new) kept.old.items) }
    ensures empty { OnOk result (kept.new.items ≡ []) }
    ensures err { OnErr result (AppendsPart (K.taken writer.old) (K.taken writer.new) kept.old.items) }
    ensures cause { IfErr result (λ fault. fault ≡ Write) }
    ensures failed { K.has_failed writer.new ≡ is_err result }
{
    write_all(writer, kept).ok().ok_or(ReplayFault::Write)?;
    kept.clear();
    Ok(())
}

/// Writes the kept bytes if there are at least 65,536.
fn write_if_full<K: Sink>(writer: &mut K, kept: &mut Vec<u8>) -> Result<(), ReplayFault>
    requires { K.has_failed writer.old ≡ false }
    ensures ok { OnOk result (HandsOn (K.taken writer.old) (K.taken writer.new) kept.old.items kept.new.items []) }
    ensures err { OnErr result (AppendsPart (K.taken writer.old) (K.taken writer.new) kept.old.items) }
    ensures cause { IfErr result (λ fault. fault ≡ Write) }
    ensures failed { K.has_failed writer.new ≡ is_err result }
{
    if kept.len() < FULL {
        return Ok(());
    }
    write_out(writer, kept)
}

/// Makes the calls of a script on a bench with an empty log, and writes a line for each answer. `kept` has the bytes
/// that are not written yet.
fn make_calls<K: Sink>(
    bench: &mut Bench,
    script: &Script,
    writer: &mut K,
    kept: &mut Vec<u8>,
) -> Result<Tally, ReplayFault>
    requires working { K.has_failed writer.old ≡ false }
    requires fresh { bench.old.log ≡ [] }
    requires none { kept.old.items ≡ [] }
    ensures run { IsRun bench.old.trace script.now (K.taken writer.old) (K.taken writer.new) result }
    ensures failed { K.has_failed writer.new ≡ true → result ≡ Err Write }
    ensures write { result ≡ Err Write → K.has_failed writer.new ≡ true }
{
    let mut accepted = 0;
    for at in 0..script.len() {
        let is_reply = make_call_at(bench, script, at, kept)?;
        accepted += u64::from(is_reply);
        write_if_full(writer, kept)?;
    }
    write_out(writer, kept)?;
    let calls = script.len() as u64;
    Ok(Tally {
        calls,
        accepted,
        refused: calls - accepted,
    })
}

/// Makes the calls of a script on a bench with an empty log, and writes a line for each answer.
fn run<K: Sink>(
    alloc: Global,
    bench: &mut Bench,
    script: &Script,
    writer: &mut K,
) -> Result<Tally, ReplayFault>
    requires working { K.has_failed writer.old ≡ false }
    requires fresh { bench.old.log ≡ [] }
    ensures run { IsRun bench.old.trace script.now (K.taken writer.old) (K.taken writer.new) result }
    ensures failed { K.has_failed writer.new ≡ true → result ≡ Err Write }
    ensures write { result ≡ Err Write → K.has_failed writer.new ≡ true }
{
    let mut kept = Vec::new(alloc);
    make_calls(bench, script, writer, &mut kept)
}

/// A bench for a trace. The key that hashes its schedules' names is made from this text.
fn open_bench(alloc: Global, indexed: Indexed, text: &[u8]) -> Result<Bench, OutOfMemory>
    ensures trace { IfOk result (λ bench. bench.trace ≡ indexed) }
    ensures log { IfOk result (λ bench. bench.log ≡ []) }
{
    match Arc::new(alloc, indexed).ok() {
        Some(shared) => Bench::keyed(alloc, shared, TextKeyed::of(text))
            .ok()
            .ok_or(OutOfMemory),
        None => Err(OutOfMemory),
    }
}

/// Makes the calls of a script on a trace. The script was read from this text.
fn replay_read<K: Sink>(
    alloc: Global,
    indexed: Indexed,
    text: &[u8],
    script: &Script,
    writer: &mut K,
) -> Result<Tally, ReplayFault>
    requires read { IsScript text.now (Ok script.now) }
    requires working { K.has_failed writer.old ≡ false }
    ensures run { IsScriptRun indexed text.now (K.taken writer.old) (K.taken writer.new) result }
    ensures failed { K.has_failed writer.new ≡ true → result ≡ Err Write }
    ensures write { result ≡ Err Write → K.has_failed writer.new ≡ true }
{
    match open_bench(alloc, indexed, text) {
        Ok(mut bench) => {
            let outcome = run(alloc, &mut bench, script, writer);
            drop(bench);
            outcome
        }
        Err(OutOfMemory) => Err(ReplayFault::OutOfMemory),
    }
}

/// Reads a script and makes its calls on a trace.
fn replay_script<K: Sink>(
    alloc: Global,
    indexed: Indexed,
    text: &[u8],
    writer: &mut K,
) -> Result<Tally, ReplayFault>
    requires { K.has_failed writer.old ≡ false }
    ensures run { IsScriptRun indexed text.now (K.taken writer.old) (K.taken writer.new) result }
    ensures failed { K.has_failed writer.new ≡ true → result ≡ Err Write }
    ensures write { result ≡ Err Write → K.has_failed writer.new ≡ true }
{
    match read_script(alloc, text) {
        Ok(script) => {
            let outcome = replay_read(alloc, indexed, text, &script, writer);
            drop(script);
            outcome
        }
        Err(refusal) => {
            drop(indexed);
            Err(ReplayFault::from(refusal))
        }
    }
}

/// Reads the whole script, and makes its calls on a trace.
fn replay_on<R: Source, K: Sink>(
    alloc: Global,
    indexed: Indexed,
    script: &mut R,
    writer: &mut K,
) -> Result<Tally, ReplayFault>
    requires script { R.has_failed script.old ≡ false }
    requires writer { K.has_failed writer.old ≡ false }
    ensures replay { IsReplayOn indexed (R.rest script.old) (K.taken writer.old) (K.taken writer.new) result }
    ensures input { (why : ReadCause) → result ≢ Err (Read 1 why) }
    ensures script_device { result ≡ Err (Read 2 Device) → R.has_failed script.new ≡ true }
    ensures script_failed { R.has_failed script.new ≡ true → result ≡ Err (Read 2 Device) }
    ensures write { result ≡ Err Write → K.has_failed writer.new ≡ true }
    ensures write_failed { K.has_failed writer.new ≡ true → result ≡ Err Write }
{
    match read_input(alloc, script, 2) {
        Ok(text) => replay_script(alloc, indexed, &text, writer),
        Err(fault) => {
            drop(indexed);
            Err(fault)
        }
    }
}

/// Reads a whole trace and a whole script. Then makes the script's calls on the trace, and writes a line for each
/// answer. The trace is input 1, and the script is input 2.
///
/// If the call fails with 91 to 94, it has written nothing. If it fails with 95 or 96, it may have written a
/// beginning of the text.
pub fn replay<S: Source, R: Source, K: Sink>(
    alloc: Global,
    trace: &mut S,
    script: &mut R,
    writer: &mut K,
) -> Result<Tally, ReplayFault>
    requires trace { S.has_failed trace.old ≡ false }
    requires script { R.has_failed script.old ≡ false }
    requires writer { K.has_failed writer.old ≡ false }
    // There are texts that give this result. If the readers' types show their bytes, the texts are those bytes.
    ensures replay { IsReplayOfTwo (S.rest trace.old) (R.rest script.old) (K.taken writer.old) (K.taken writer.new)
        result }
    // The fault is `Device` exactly if a read failed, and `Write` exactly if a write failed.
    ensures device { result ≡ Err (Read 1 Device) → S.has_failed trace.new ≡ true }
    ensures read_failed { S.has_failed trace.new ≡ true → result ≡ Err (Read 1 Device) }
    ensures script_device { result ≡ Err (Read 2 Device) → R.has_failed script.new ≡ true }
    ensures script_failed { R.has_failed script.new ≡ true → result ≡ Err (Read 2 Device) }
    ensures write { result ≡ Err Write → K.has_failed writer.new ≡ true }
    ensures write_failed { K.has_failed writer.new ≡ true → result ≡ Err Write }
{
    match read_trace(alloc, trace) {
        Ok(indexed) => replay_on(alloc, indexed, script, writer),
        Err(fault) => Err(fault),
    }
}

/// Replays a joint text.
fn replay_parts<K: Sink>(alloc: Global, text: &[u8], writer: &mut K) -> Result<Tally, ReplayFault>
    requires short { IsShort text.now }
    requires writer { K.has_failed writer.old ≡ false }
    ensures replay { IsReplay (of_joint text.now) (K.taken writer.old) (K.taken writer.new) result }
    ensures input { (input : ℕ) (why : ReadCause) → result ≢ Err (Read input why) }
    ensures write { result ≡ Err Write → K.has_failed writer.new ≡ true }
    ensures write_failed { K.has_failed writer.new ≡ true → result ≡ Err Write }
{
    let (trace, script) = parts_of(text);
    match load(alloc, trace) {
        Ok(indexed) => replay_script(alloc, indexed, script, writer),
        Err(fault) => Err(fault),
    }
}

/// The same for one input, which has a trace, a line `---` and a script. Without such a line the script is empty.
pub fn replay_joint<S: Source, K: Sink>(
    alloc: Global,
    reader: &mut S,
    writer: &mut K,
) -> Result<Tally, ReplayFault>
    requires reader { S.has_failed reader.old ≡ false }
    requires writer { K.has_failed writer.old ≡ false }
    // There is a text that gives this result. If the reader's type shows its bytes, the text is those bytes.
    ensures replay { IsJointReplay (S.rest reader.old) (K.taken writer.old) (K.taken writer.new) result }
    ensures input { (why : ReadCause) → result ≢ Err (Read 2 why) }
    ensures device { result ≡ Err (Read 1 Device) → S.has_failed reader.new ≡ true }
    ensures read_failed { S.has_failed reader.new ≡ true → result ≡ Err (Read 1 Device) }
    ensures write { result ≡ Err Write → K.has_failed writer.new ≡ true }
    ensures write_failed { K.has_failed writer.new ≡ true → result ≡ Err Write }
{
    match read_input(alloc, reader, 1) {
        Ok(text) => replay_parts(alloc, &text, writer),
        Err(fault) => Err(fault),
    }
}
