//! What no clause says of `info` and `threads`: that ample memory gives an answer. Texts and faults are those of docs/FORMATS.md.

ghost use Rattle.std.specs.Prelude.{◌≤◌};

use calls::{BenchFault, bench_fault_text, info, threads};
use client_scripts::{FromRead, FromWrite, ReadCause, ReplayFault, ScriptCause, ScriptRefusal};
use rapid_text::{TextCause, TextRefusal};
use std::alloc::Global;
use std::sync::Wait;
use std::thread::Threads;
use trace_rules::{RuleCause, RuleRefusal};

/// Two threads that write one variable after each took and let go one lock.
const ONE_LOCK: &[u8] =
    b"T1|w(x)|1\nT1|acq(l)|2\nT1|rel(l)|3\nT2|acq(l)|4\nT2|rel(l)|5\nT2|w(x)|6\n";

/// What is printed of two threads that write and read one variable and then both write another.
const TWO_PAIRS: &[u8] =
    b"events 4\nthreads 2\nvariables 2\nlocks 0\nthread 0 T1 2\nthread 1 T2 2\ncandidates 2\ncandidate 0 1 x\ncandidate 2 3 z\n";

/// Whether `info` answers this of a text, and has written just this.
fn info_gives(alloc: Global, text: &[u8], wanted: Result<(), BenchFault>, output: &[u8]) -> bool {
    let mut written = Vec::new(alloc);
    let answer = info(
        alloc,
        &mut FromRead::new(text),
        &mut FromWrite::new(&mut written),
    );
    answer == wanted && written.as_slice() == output
}

/// Whether `info` has written just this.
fn prints(alloc: Global, text: &[u8], wanted: &[u8]) -> bool {
    info_gives(alloc, text, Ok(()), wanted)
}

/// Whether `info` answers this fault, and has written nothing.
fn stops(alloc: Global, text: &[u8], wanted: ReplayFault) -> bool {
    info_gives(alloc, text, Err(BenchFault::Replay(wanted)), b"")
}

#[test]
fn what_a_trace_holds(rt: HostRuntime) {
    let nothing = b"events 0\nthreads 0\nvariables 0\nlocks 0\ncandidates 0\n";
    let no_candidate =
        b"events 6\nthreads 2\nvariables 1\nlocks 1\nthread 0 T1 3\nthread 1 T2 3\ncandidates 0\n";
    let two_pairs = b"T1|w(x)|1\nT2|r(x)|2\nT2|w(z)|3\nT1|w(z)|4\n";
    assert!(rt; prints(rt.alloc(), b"", nothing));
    assert!(rt; prints(rt.alloc(), ONE_LOCK, no_candidate));
    assert!(rt; prints(rt.alloc(), two_pairs, TWO_PAIRS));
    let no_bar = ReplayFault::Text(TextRefusal {
        line: 2,
        why: TextCause::NoBar,
    });
    let held = ReplayFault::Rule(RuleRefusal {
        event: 1,
        why: RuleCause::AcquireHeld,
    });
    assert!(rt; stops(rt.alloc(), b"T1|w(x)|1\n---\n1 new A\n", no_bar));
    assert!(rt; stops(rt.alloc(), b"T1|acq(l)|\nT2|acq(l)|", held));
}

/// What `threads` answers of one script on a trace, with `workers` workers; None if there is no memory for the script.
fn threads_of<R: Threads + Wait + Sync + Clone + Send + Drop + 'static>(
    rt: &R,
    alloc: Global,
    trace: &[u8],
    script: &[u8],
    workers: u32,
    written: &mut Vec<u8>,
) -> Option<Result<(), BenchFault>>
    requires { workers ≤ 16 }
{
    let mut scripts = Vec::new(alloc);
    match scripts.push(FromRead::new(script)) {
        Ok(()) => Some(threads(
            rt,
            alloc,
            &mut FromRead::new(trace),
            scripts,
            workers,
            &mut FromWrite::new(written),
        )),
        Err(_) => None,
    }
}

/// Whether `threads` with `workers` workers answers this, and has written just this.
fn threads_write<R: Threads + Wait + Sync + Clone + Send + Drop + 'static>(
    rt: &R,
    alloc: Global,
    trace: &[u8],
    script: &[u8],
    workers: u32,
    wanted: Result<(), BenchFault>,
    text: &[u8],
) -> bool
    requires { workers ≤ 16 }
{
    let mut written = Vec::new(alloc);
    let answer = threads_of(rt, alloc, trace, script, workers, &mut written);
    answer == Some(wanted) && written.as_slice() == text
}

/// Whether `threads` answers this without workers, and has written just this.
fn threads_give<R: Threads + Wait + Sync + Clone + Send + Drop + 'static>(
    rt: &R,
    alloc: Global,
    script: &[u8],
    wanted: Result<(), BenchFault>,
    text: &[u8],
) -> bool {
    threads_write(rt, alloc, ONE_LOCK, script, 0, wanted, text)
}

/// A script that is refused.
fn refused(line: u64, why: ScriptCause) -> BenchFault {
    BenchFault::Script {
        place: 1,
        refusal: ScriptRefusal { line, why },
    }
}

#[test]
fn one_script_in_a_thread(rt: HostRuntime) {
    let script = b"1 new A\n1 add A 3\n1 add A 4\n1 races A\n";
    let text =
        b"client 1\n0: done\n1: done\n2: done\npairs 0-5\nlog 3\n0 1 new A\n1 1 add A 3\n2 1 add A 4\n";
    let stranger = refused(2, ScriptCause::BadClient);
    let bad_word = refused(1, ScriptCause::BadWord);
    assert!(rt; threads_give(&rt, rt.alloc(), script, Ok(()), text));
    assert!(rt; threads_give(&rt, rt.alloc(), b"", Ok(()), b"client 1\nlog 0\n"));
    assert!(rt; threads_give(&rt, rt.alloc(), b"1 list\n2 list\n", Err(stranger), b""));
    assert!(rt; threads_give(&rt, rt.alloc(), b"1 New A\n", Err(bad_word), b""));
}

/// Whether a worker beside the script has this written.
fn worker_gives<R: Threads + Wait + Sync + Clone + Send + Drop + 'static>(
    rt: &R,
    alloc: Global,
    trace: &[u8],
    script: &[u8],
    text: &[u8],
) -> bool {
    threads_write(rt, alloc, trace, script, 1, Ok(()), text)
}

#[test]
fn a_worker_slices_and_a_further_client_proposes(rt: HostRuntime) {
    let two_pairs = b"T1|w(x)|1\nT2|r(x)|2\nT2|w(z)|3\nT1|w(z)|4\n";
    let proposed = b"client 1\nlog 2\n0 2 propose 0 1\n1 2 propose 2 3 0 1\n";
    let alone = b"client 1\n0: done\nlog 1\n0 1 new A\n";
    assert!(rt; worker_gives(&rt, rt.alloc(), two_pairs, b"", proposed));
    assert!(rt; worker_gives(&rt, rt.alloc(), ONE_LOCK, b"1 new A\n", alone));
}

/// Whether the fault's text is this.
fn is_text(alloc: Global, fault: &BenchFault, wanted: &str) -> bool {
    let mut text = Vec::new(alloc);
    let is_written = bench_fault_text(fault, &mut text).is_ok();
    is_written && text.as_slice() == wanted.as_bytes()
}

/// Whether its message is this.
fn is_message(alloc: Global, fault: &BenchFault, wanted: &str) -> bool {
    match format!(in alloc; "{fault}") {
        Ok(message) => message.as_str() == wanted,
        Err(_) => false,
    }
}

/// Whether the fault's text and its message are these.
fn is_told(alloc: Global, fault: &BenchFault, wanted: &str) -> bool {
    is_text(alloc, fault, wanted) && is_message(alloc, fault, wanted)
}

#[test]
fn texts_of_faults(rt: HostRuntime) {
    let unread = BenchFault::Replay(ReplayFault::Read {
        input: 3,
        why: ReadCause::Device,
    });
    let second = BenchFault::Script {
        place: 2,
        refusal: ScriptRefusal {
            line: 12,
            why: ScriptCause::BadClient,
        },
    };
    assert!(rt; is_told(rt.alloc(), &unread, "read failed"));
    assert!(rt; is_told(rt.alloc(), &second, "script 2 line 12: 83 bad client"));
    assert!(rt;
        is_told(
            rt.alloc(),
            &refused(0, ScriptCause::OutOfMemory),
            "out of memory"
        )
    );
    assert!(rt; is_told(rt.alloc(), &BenchFault::NoThread, "no thread"));
    assert!(rt; is_told(rt.alloc(), &BenchFault::TooManyScripts, "too many scripts"));
}
