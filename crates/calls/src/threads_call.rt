//! Runs several scripts on one trace at the same time: reads all texts, runs the scripts, and writes the answers.
ghost use Rattle.std.specs.Prelude.{◌≡◌, ◌≢◌, ◌<◌, ◌≤◌, All, false, true, map, vec_len, IfErr, OnErr, OnOk, Err};
ghost use Rattle.std.specs.Io.KnownBytes.{Appends};
ghost use Rattle.client_scripts.specs.declared.fault.ReplayFault.TheVariants.{Write, Read};
ghost use Rattle.client_scripts.specs.declared.fault.ReadCause.TheVariants.{Device};
ghost use Rattle.calls.specs.Threads.{FailsToWrite, StopsRead, StopsRun, StopsScripts, WritesRun, WritesScripts, WritesTold};
ghost use Rattle.calls.specs.declared.fault.BenchFault.TheVariants.{Replay, TooManyScripts};

use crate::fault::BenchFault;
use crate::inputs::{MAX_SCRIPTS, Scripts, read_scripts};
use crate::printout::write_text;
use crate::seating::{Running, run_scripts};
use client_scripts::{Sink, Source, read_trace};
use event_index::Indexed;
use std::alloc::Global;
use std::sync::Wait;
use std::thread::Threads;
use workspace_lock::BEST_ROOM;

/// Reads a whole trace and whole scripts; script i is that of client i. Makes the calls of each script on the trace,
/// each script in a separate thread if one can be started. Then writes a line `client i` and the lines of the answers
/// for each script, and then the log. In faults the trace is input 1, and script i is input i + 1.
///
/// Nothing is written before all threads have ended. So nothing is written at any fault except 95. If a call runs out
/// of memory, its answer says so, and the script goes on.
pub fn threads_with_room<
    R: Threads + Wait + Sync + Clone + Send + Drop + 'static,
    S: Source,
    Q: Source + Drop,
    K: Sink,
>(
    rt: &R,
    alloc: Global,
    trace: &mut S,
    scripts: Vec<Q>,
    running: Running,
    writer: &mut K,
) -> Result<(), BenchFault>
    requires trace { S.has_failed trace.old ≡ false }
    requires scripts { All (λ q. Q.has_failed q ≡ false) scripts.items }
    requires some { 0 < vec_len scripts }
    requires workers { running.workers ≤ 16 }
    requires writer { K.has_failed writer.old ≡ false }
    // If no write fails, nothing is written at a fault. If a write fails, that is the fault.
    ensures unwritten { OnErr result (K.has_failed writer.new ≡ false → K.taken writer.new ≡ K.taken writer.old) }
    ensures write_failed { K.has_failed writer.new ≡ true → result ≡ Err (Replay Write) }
    // The fault is a failed read of the trace exactly if a read of the trace failed.
    ensures device { result ≡ Err (Replay (Read 1 Device)) → S.has_failed trace.new ≡ true }
    ensures read_failed { S.has_failed trace.new ≡ true → result ≡ Err (Replay (Read 1 Device)) }
    // What is written comes from a text. If the type of the trace's reader shows its bytes, it is that text.
    ensures told { OnOk result
        (WritesRun (S.rest trace.old) (map (λ q. Q.rest q) scripts.items) running.workers (K.taken writer.old) (K.taken writer.new)) }
    // Too many scripts come before all other faults. Next come the faults of the trace, and then that of the first
    // faulty script.
    ensures most { 31 < vec_len scripts → result ≡ Err TooManyScripts }
    ensures too_many { result ≡ Err TooManyScripts → 31 < vec_len scripts }
    ensures fault { IfErr result
        (StopsRun (S.rest trace.old) (map (λ q. Q.rest q) scripts.items) running.workers (K.has_failed writer.new)) }
{
    if scripts.len() > MAX_SCRIPTS {
        return Err(BenchFault::TooManyScripts);
    }
    match read_trace(alloc, trace) {
        Ok(indexed) => run_on(rt, alloc, indexed, scripts, running, writer),
        Err(fault) => Err(BenchFault::Replay(fault)),
    }
}

/// Reads the scripts, runs them on a trace, and writes the answers and the log.
fn run_on<R: Threads + Wait + Sync + Clone + Send + Drop + 'static, Q: Source + Drop, K: Sink>(
    rt: &R,
    alloc: Global,
    indexed: Indexed,
    scripts: Vec<Q>,
    running: Running,
    writer: &mut K,
) -> Result<(), BenchFault>
    requires scripts { All (λ q. Q.has_failed q ≡ false) scripts.items }
    requires some { (0 < vec_len scripts) × (vec_len scripts ≤ 31) }
    requires workers { running.workers ≤ 16 }
    requires writer { K.has_failed writer.old ≡ false }
    ensures unwritten { OnErr result (K.has_failed writer.new ≡ false → K.taken writer.new ≡ K.taken writer.old) }
    ensures write_failed { K.has_failed writer.new ≡ true → result ≡ Err (Replay Write) }
    ensures device { result ≢ Err (Replay (Read 1 Device)) }
    ensures told { OnOk result
        (WritesScripts indexed (map (λ q. Q.rest q) scripts.items) running.workers (K.taken writer.old) (K.taken writer.new)) }
    ensures few { result ≢ Err TooManyScripts }
    ensures fault { IfErr result
        (StopsScripts (K.has_failed writer.new) running.workers (map (λ q. Q.rest q) scripts.items)) }
{
    match read_scripts(alloc, scripts) {
        Ok(read) => run_read(rt, alloc, indexed, read, running, writer),
        Err(fault) => {
            drop(indexed);
            Err(fault)
        }
    }
}

/// Runs scripts that were read, and writes the answers and the log.
fn run_read<R: Threads + Wait + Sync + Clone + Send + Drop + 'static, K: Sink>(
    rt: &R,
    alloc: Global,
    indexed: Indexed,
    read: Scripts,
    running: Running,
    writer: &mut K,
) -> Result<(), BenchFault>
    requires some { (0 < vec_len read.scripts) × (vec_len read.scripts ≤ 31) }
    requires workers { running.workers ≤ 16 }
    requires writer { K.has_failed writer.old ≡ false }
    ensures unwritten { OnErr result (K.has_failed writer.new ≡ false → K.taken writer.new ≡ K.taken writer.old) }
    ensures write_failed { K.has_failed writer.new ≡ true → result ≡ Err (Replay Write) }
    ensures told { OnOk result
        (WritesTold indexed read.scripts.items running.workers (K.taken writer.old) (K.taken writer.new)) }
    ensures fault { IfErr result (StopsRead (K.has_failed writer.new) running.workers) }
{
    let names = read.keyed();
    match run_scripts(rt, alloc, indexed, names, read.scripts, running) {
        Ok(told) => write_told(&told, writer),
        Err(fault) => Err(fault),
    }
}

/// Writes the answers and the log.
fn write_told<K: Sink>(told: &[u8], writer: &mut K) -> Result<(), BenchFault>
    requires { K.has_failed writer.old ≡ false }
    ensures told { OnOk result (Appends (K.taken writer.old) (K.taken writer.new) told.now) }
    ensures write_failed { K.has_failed writer.new ≡ true → result ≡ Err (Replay Write) }
    ensures fault { IfErr result (FailsToWrite (K.has_failed writer.new)) }
{
    Ok(write_text(writer, told)?)
}

/// Runs scripts as `threads_with_room` does, with the fastest limit on seats that queue for a turn.
pub fn threads<
    R: Threads + Wait + Sync + Clone + Send + Drop + 'static,
    S: Source,
    Q: Source + Drop,
    K: Sink,
>(
    rt: &R,
    alloc: Global,
    trace: &mut S,
    scripts: Vec<Q>,
    workers: u32,
    writer: &mut K,
) -> Result<(), BenchFault>
    requires trace { S.has_failed trace.old ≡ false }
    requires scripts { All (λ q. Q.has_failed q ≡ false) scripts.items }
    requires some { 0 < vec_len scripts }
    requires workers { workers ≤ 16 }
    requires writer { K.has_failed writer.old ≡ false }
    ensures unwritten { OnErr result (K.has_failed writer.new ≡ false → K.taken writer.new ≡ K.taken writer.old) }
    ensures write_failed { K.has_failed writer.new ≡ true → result ≡ Err (Replay Write) }
    ensures device { result ≡ Err (Replay (Read 1 Device)) → S.has_failed trace.new ≡ true }
    ensures read_failed { S.has_failed trace.new ≡ true → result ≡ Err (Replay (Read 1 Device)) }
    ensures told { OnOk result
        (WritesRun (S.rest trace.old) (map (λ q. Q.rest q) scripts.items) workers (K.taken writer.old) (K.taken writer.new)) }
    ensures most { 31 < vec_len scripts → result ≡ Err TooManyScripts }
    ensures too_many { result ≡ Err TooManyScripts → 31 < vec_len scripts }
    ensures fault { IfErr result
        (StopsRun (S.rest trace.old) (map (λ q. Q.rest q) scripts.items) workers (K.has_failed writer.new)) }
{
    threads_with_room(rt, alloc, trace, scripts, fastest(workers), writer)
}

/// This number of workers, and the fastest limit on seats that queue for a turn.
fn fastest(workers: u32) -> Running
    ensures { result.workers ≡ workers }
{
    Running {
        workers,
        room: BEST_ROOM,
    }
}
