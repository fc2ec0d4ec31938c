//! What a replay answers where its reader fails at any of its reads, or its writer after any of its bytes; that ample memory gives the trace of a
//! text; and that the message of a fault is the text that `fault_text` appends.
use crate::seats::fakes::{Broken, with_room};
use crate::seats::fixtures::ONE_LOCK;
use client_scripts::{
    ReadCause, ReplayFault, ScriptCause, ScriptRefusal, Tally, read_trace, replay_joint,
};
use std::alloc::Global;

// A trace of two threads, and a script.
const JOINT: &[u8] =
    b"T1|w(x)|1\nT1|acq(l)|2\nT1|rel(l)|3\nT2|acq(l)|4\nT2|rel(l)|5\nT2|w(x)|6\n---\n1 new A\n1 new A\n1 add A 3\n2 undo\n1 show A\n";

const ANSWERS: &[u8] =
    b"0: done\nrefused 43 name taken\n1: done\nrefused 51 nothing to undo\nshown 3\n";

const COUNTED: Tally = Tally {
    calls: 5,
    accepted: 3,
    refused: 2,
};

const UNREAD: ReplayFault = ReplayFault::Read {
    input: 1,
    why: ReadCause::Device,
};

// The text has 114 bytes: 38 reads of three bytes, and one more that finds the end.
const READS: u32 = 39;

// Whether the replay is answered so and has written `written` bytes of the lines. Its reader fails at this read, and
// its writer has this room.
fn is_answered(
    alloc: Global,
    fails_at: u32,
    room: usize,
    wanted: Result<Tally, ReplayFault>,
    written: usize,
) -> bool {
    let mut reader = Broken {
        left: JOINT,
        reads: 0,
        fails_at,
        failed: false,
    };
    let mut writer = with_room(alloc, room);
    let outcome = replay_joint(alloc, &mut reader, &mut writer);
    outcome == wanted && writer.taken.len() == written && ANSWERS.starts_with(&writer.taken)
}

#[test]
fn readers_that_fail(rt: HostRuntime) {
    let all = ANSWERS.len();
    for fails_at in 1..READS + 1 {
        assert!(rt; is_answered(rt.alloc(), fails_at, all, Err(UNREAD), 0));
    }
    assert!(rt; is_answered(rt.alloc(), READS + 1, all, Ok(COUNTED), all));
}

#[test]
fn writers_that_fail(rt: HostRuntime) {
    for room in 0..ANSWERS.len() {
        assert!(rt; is_answered(rt.alloc(), READS + 1, room, Err(ReplayFault::Write), room));
    }
}

fn has_message(alloc: Global, fault: ReplayFault, message: &str) -> bool {
    match format!(in alloc; "{fault}") {
        Ok(text) => text.as_str() == message,
        Err(_) => false,
    }
}

#[test]
fn a_fault_has_its_text_as_its_message(rt: HostRuntime) {
    let fault = ReplayFault::Script(ScriptRefusal {
        line: 2,
        why: ScriptCause::BadWord,
    });
    assert!(rt; has_message(rt.alloc(), fault, "script line 2: 81 bad word"));
}

// How many events the trace of a text has, where its reader fails at this read.
fn events_read(alloc: Global, text: &[u8], fails_at: u32) -> Result<u32, ReplayFault> {
    let mut reader = Broken {
        left: text,
        reads: 0,
        fails_at,
        failed: false,
    };
    match read_trace(alloc, &mut reader) {
        Ok(indexed) => Ok(indexed.len()),
        Err(fault) => Err(fault),
    }
}

fn is_refused(alloc: Global, text: &[u8], message: &str) -> bool {
    match events_read(alloc, text, READS + 1) {
        Ok(_) => false,
        Err(fault) => has_message(alloc, fault, message),
    }
}

#[test]
fn a_trace_is_read_whole(rt: HostRuntime) {
    assert!(rt; events_read(rt.alloc(), ONE_LOCK, READS) == Ok(6));
    assert!(rt; events_read(rt.alloc(), ONE_LOCK, 2) == Err(UNREAD));
    assert!(rt; is_refused(rt.alloc(), JOINT, "trace line 7: 1 no bar"));
}
