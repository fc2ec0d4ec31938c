//! What no clause says of refused memory: that a script is read, a bench made, a call answered and each text appended
//! if memory suffices. Made again, on what came back or was left, each gives its answer. The tests also check how often
//! the bench says that its rows were changed. Each test named `memory_` can be run with each of its allocations refused
//! in turn, one in a run.
use crate::seats::fixtures::{bench_at_last, script_at_last};
use client_scripts::{ReplayFault, Script, ScriptCause, ScriptRefusal, fault_text};
use event_index::{Indexed, Pairs};
use inverse_log::{Bench, Call, Refusal, Reply, SeatRefusal};
use moves::Workspace;
use report::{candidates, info, log, refusal, reply, seat_refusal};
use std::alloc::Global;

/// A text that a call appends.
#[derive(Clone, Copy)]
enum Text<'a> {
    Reply(&'a Reply),
    Refusal(&'a Indexed, &'a Refusal),
    SeatRefusal(&'a Indexed, &'a SeatRefusal),
    Info(&'a Indexed),
    NoCandidates(&'a Indexed),
    Log(&'a Bench),
    Fault(&'a ReplayFault),
}

// Appends the text, and says whether there was memory for it.
fn append(text: Text<'_>, out: &mut Vec<u8>) -> bool {
    let appended = match text {
        Text::Reply(told) => reply(told, out),
        Text::Refusal(indexed, why) => refusal(indexed, why, out),
        Text::SeatRefusal(indexed, why) => seat_refusal(indexed, why, out),
        Text::Info(indexed) => info(indexed, out),
        Text::NoCandidates(indexed) => candidates(indexed, &Pairs::new(*out.allocator()), out),
        Text::Log(bench) => log(bench, out),
        Text::Fault(fault) => fault_text(fault, out),
    };
    appended.is_ok()
}

// The same, once more where memory was wanting, which left what stood there.
fn append_at_last(text: Text<'_>, out: &mut Vec<u8>) -> bool {
    append(text, out) || append(text, out)
}

/// The line of a call for which there was no memory.
const NO_MEMORY: &[u8] = b"refused 56 out of memory\n";

// Whether the lines go on so after their first `told` bytes.
fn is_no_memory(lines: &[u8], told: usize) -> bool {
    match lines.get(told..) {
        Some(rest) => rest.starts_with(NO_MEMORY),
        None => false,
    }
}

// Makes the call, unless it was refused for memory; where memory was wanting, once more, as the refusal has changed nothing.
fn answer_at_last(
    bench: &mut Bench,
    client: u32,
    call: &Call,
    was_refused: bool,
) -> Result<Reply, Refusal> {
    if was_refused {
        return Err(Refusal::OutOfMemory);
    }
    if client == 0 || client > 32 {
        return Err(Refusal::LogFull);
    }
    match bench.call(client, call) {
        Err(Refusal::OutOfMemory) => bench.call(client, call),
        answer => answer,
    }
}

// Makes the call and appends the line of its answer, each once more where memory was wanting. Where these lines, with which what was appended
// begins, go on with a call for which there was no memory, so does what is appended.
fn append_answer(
    bench: &mut Bench,
    client: u32,
    call: &Call,
    lines: &[u8],
    out: &mut Vec<u8>,
) -> bool {
    let was_refused = is_no_memory(lines, out.len());
    match answer_at_last(bench, client, call, was_refused) {
        Ok(told) => append_at_last(Text::Reply(&told), out),
        Err(why) => append_at_last(Text::Refusal(bench.indexed(), &why), out),
    }
}

fn append_answers(bench: &mut Bench, script: &Script, lines: &[u8], out: &mut Vec<u8>) -> bool {
    let mut are_told = true;
    for at in 0..script.len() {
        let call = script.call(at);
        are_told = append_answer(bench, script.client(at), call.get(), lines, out) && are_told;
        drop(call);
    }
    are_told
}

/// Whether the bench answers the script with these lines. A call for which there was no memory, as its line says, is
/// not made.
pub(crate) fn has_answers(alloc: Global, bench: &mut Bench, script: &Script, lines: &[u8]) -> bool {
    let mut out = Vec::new(alloc);
    append_answers(bench, script, lines, &mut out) && out.as_slice() == lines
}

// A script, the lines of its answers, and how many changes and proposals the bench then counts.
type Row = (&'static [u8], &'static [u8], u64, usize);

fn is_right(alloc: Global, bench: &mut Bench, row: Row) -> bool {
    let (text, lines, edits, proposals) = row;
    let are_answered = match script_at_last(alloc, text) {
        Some(script) => {
            let has_answers = has_answers(alloc, bench, &script, lines);
            drop(script);
            has_answers
        }
        None => false,
    };
    are_answered && bench.edits() == edits && bench.board().len() == proposals
}

fn are_right(alloc: Global, bench: &mut Bench, rows: &[Row]) -> bool {
    let mut are_right = true;
    for row in rows {
        are_right = is_right(alloc, bench, *row) && are_right;
    }
    are_right
}

fn is_right_at_first(alloc: Global, row: Row) -> bool {
    match bench_at_last(alloc) {
        Some(mut bench) => {
            let is_right = is_right(alloc, &mut bench, row);
            drop(bench);
            is_right
        }
        None => false,
    }
}

const REFUSED_UNDO: Row = (
    b"1 new A\n1 add A 3\n2 branch A 1 B\n1 undo\n1 undo\n2 undo\n1 undo\n1 show A\n",
    b"0: done\n1: done\n2: done\nrefused 52 rests on 2 A\nrefused 52 rests on 2 A\n3: undone 2\n4: undone 1\nshown\n",
    5,
    0,
);

const UNDO_BY_NUMBER: Row = (
    b"1 new A\n1 new B\n1 add A 0\n1 undo 1\n1 list\n1 undo 0\n1 undo 1\n1 undo 3\n2 undo 2\n1 undo 4\n1 undo 2\n1 undo\n1 list\n",
    b"0: done\n1: done\n2: done\n3: undone 1\nnames A\nrefused 52 rests on 2 A\nrefused 59 not live\nrefused 58 not own\nrefused 58 not own\nrefused 57 no such entry\n4: undone 2\n5: undone 0\nnames\n",
    6,
    0,
);

const BACK_AND_SWAP: Row = (
    b"1 new A\n1 add A 3\n1 add A 0\n1 swap A 0\n1 back A\n1 undo\n1 undo\n1 show A\n",
    b"0: done\n1: done\n2: done\n3: done\n4: done\n5: undone 4\n6: undone 3\nshown 3 0\n",
    7,
    0,
);

const BATCHES: Row = (
    b"1 batch new A ; add A 3 ; new B\n1 list\n2 add B 0\n1 undo\n2 undo\n1 undo\n1 list\n1 batch new A ; add A 4\n1 new A\n1 batch drop A ; new B ; new A\n1 list\n1 undo\n1 list\n",
    b"0: done\nnames A B\n1: done\nrefused 52 rests on 1 B\n2: undone 1\n3: undone 0\nnames\nrefused 70 at 1 46 22 not next\n4: done\n5: done\nnames B A\n6: undone 5\nnames A\n",
    15,
    0,
);

const DROPPED: Row = (
    b"1 new A\n1 new B\n1 drop A\n2 new C\n1 undo\n1 list\n",
    b"0: done\n1: done\n2: done\n3: done\n4: undone 2\nnames A B C\n",
    5,
    0,
);

const PROPOSED: Row = (
    b"1 new A\n1 add A 0\n2 propose 0 5 3 4\n2 propose 0 5 3 5\n2 propose 0 5 3\n2 undo\n1 adopt A 1\n1 adopt A 0\n1 show A\n1 races A\n1 undo\n1 show A\n",
    b"0: done\n1: done\n2: proposed 0\nrefused 53 not a reordering at 1\nrefused 54 not shown\nrefused 51 nothing to undo\nrefused 44 no such proposal\n3: done\nshown 3 4\npairs 0-5\n4: undone 3\nshown 0\n",
    4,
    1,
);

const ROWS: &[Row] = &[
    REFUSED_UNDO,
    UNDO_BY_NUMBER,
    BACK_AND_SWAP,
    BATCHES,
    DROPPED,
    PROPOSED,
];

#[test]
fn memory_calls_are_answered_when_made_again(rt: HostRuntime) {
    for row in ROWS {
        assert!(rt; is_right_at_first(rt.alloc(), *row));
    }
}

// Whether the row at this place is the name's, with this birth and these events.
fn is_row(workspace: &Workspace, at: usize, name: &[u8], born: u64, events: &[u32]) -> bool {
    if at >= workspace.len() {
        return false;
    }
    let (of, birth, schedule) = workspace.row(at);
    let is_name = of.bytes() == name;
    let has_events = schedule.events() == events;
    is_name && has_events && birth.entry() == born
}

// Whether the workspace has these two rows: one that was dropped has its birth again.
fn are_rows(workspace: &Workspace) -> bool {
    let is_first = is_row(workspace, 0, b"A", 0, &[3, 4]);
    let is_second = is_row(workspace, 1, b"B", 2, &[]);
    workspace.len() == 2 && is_first && is_second
}

// Whether the scripts, each on the bench that the one before has left, are answered so, and leave these rows.
fn are_counted(alloc: Global, rows: &[Row]) -> bool {
    match bench_at_last(alloc) {
        Some(mut bench) => {
            let are_right = are_right(alloc, &mut bench, rows);
            let are_counted = are_rows(bench.workspace()) && are_right;
            drop(bench);
            are_counted
        }
        None => false,
    }
}

const CHANGES: &[Row] = &[
    (b"1 new A\n", b"0: done\n", 1, 0),
    (b"1 add A 3\n", b"1: done\n", 2, 0),
    (b"2 branch A 1 B\n", b"2: done\n", 3, 0),
    (b"1 undo\n", b"refused 52 rests on 2 A\n", 3, 0),
    (b"1 propose 0 5 3 4\n", b"3: proposed 0\n", 3, 1),
    (b"1 propose 0 5 3\n", b"refused 54 not shown\n", 3, 1),
    (b"1 adopt A 0\n", b"4: done\n", 4, 1),
    (b"2 back B\n", b"5: done\n", 5, 1),
    (b"2 drop B\n", b"6: done\n", 6, 1),
    (b"1 swap A 0\n", b"refused 47 29 dependent\n", 6, 1),
    (b"2 undo\n", b"7: undone 6\n", 7, 1),
    (b"1 show A\n", b"shown 3 4\n", 7, 1),
    (b"1 batch back A ; new C ; drop C\n", b"8: done\n", 10, 1),
    (b"1 undo\n", b"9: undone 8\n", 13, 1),
];

#[test]
fn each_change_is_counted_once(rt: HostRuntime) {
    assert!(rt; are_counted(rt.alloc(), CHANGES));
}

// Appends texts of the bench, of its trace and of faults.
fn append_texts(bench: &Bench, out: &mut Vec<u8>) -> bool {
    let why = ReplayFault::Script(ScriptRefusal {
        line: 2,
        why: ScriptCause::BadWord,
    });
    let spent = SeatRefusal::SeatSpent;
    let refused = SeatRefusal::Bench(Refusal::NotShown);
    let mut are_told = true;
    for text in &[
        Text::SeatRefusal(bench.indexed(), &spent),
        Text::SeatRefusal(bench.indexed(), &refused),
        Text::Info(bench.indexed()),
        Text::NoCandidates(bench.indexed()),
        Text::Log(bench),
        Text::Fault(&why),
    ] {
        are_told = append_at_last(*text, out) && are_told;
    }
    are_told
}

const BEGUN: Row = (b"1 new A\n1 add A 3\n", b"0: done\n1: done\n", 2, 0);

const TEXTS: &[u8] =
    b"refused 73 seat spent\nrefused 54 not shown\nevents 6\nthreads 2\nvariables 1\nlocks 1\nthread 0 T1 3\nthread 1 T2 3\ncandidates 0\nlog 2\n0 1 new A\n1 1 add A 3\nscript line 2: 81 bad word";

fn has_texts(alloc: Global, bench: &Bench) -> bool {
    let mut out = Vec::new(alloc);
    append_texts(bench, &mut out) && out.as_slice() == TEXTS
}

fn are_texts_right(alloc: Global) -> bool {
    match bench_at_last(alloc) {
        Some(mut bench) => {
            let is_right = is_right(alloc, &mut bench, BEGUN);
            let are_right = has_texts(alloc, &bench) && is_right;
            drop(bench);
            are_right
        }
        None => false,
    }
}

#[test]
fn memory_texts_are_appended_when_asked_again(rt: HostRuntime) {
    assert!(rt; are_texts_right(rt.alloc()));
}
