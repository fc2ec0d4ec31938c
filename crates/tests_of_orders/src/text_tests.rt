//! What no clause says and the program does not print: which numbers a text gives to its events, which text is
//! canonical, where sections end, and that a trace keeps hashers that its names and locations decide; and that a trace
//! is read, checked, indexed and printed if memory suffices.
//! Which texts are refused, and for what, is in `tests/judge_texts.py`.
use crate::fixtures::{ONE_LOCK, TWO_PAIRS};
use crate::questions::{Question, first_wrong};
use event_index::Indexed;
use rapid_text::{Event, Op, parse, print};
use std::alloc::Global;
use std::hash::{BuildHasher, Hasher};

pub(crate) fn is_printed(alloc: Global, indexed: &Indexed, canonical: &[u8]) -> Option<bool> {
    match print(alloc, indexed.trace().raw()) {
        Ok(printed) => Some(printed.items() == canonical),
        Err(_) => None,
    }
}

// Whether the trace has these events and no more.
pub(crate) fn are_events(indexed: &Indexed, events: &[Event]) -> bool {
    let raw = indexed.trace().raw();
    let mut are_right = raw.len() as usize == events.len();
    for event in 0..raw.len() {
        are_right = are_right && events.get(event as usize) == Some(&raw.event(event));
    }
    are_right
}

// Whether the events have these ends of sections, and there are no more events.
pub(crate) fn are_sections(indexed: &Indexed, ends: &[Option<u32>]) -> bool {
    let mut are_right = indexed.len() as usize == ends.len();
    for event in 0..indexed.len() {
        are_right = are_right && ends.get(event as usize) == Some(&indexed.section(event));
    }
    are_right
}

// Whether the trace has the hashers of this text, or None if memory ran out. Different hashers
// have different hashes of no bytes.
pub(crate) fn has_hashers_of(alloc: Global, indexed: &Indexed, text: &[u8]) -> Option<bool> {
    let kept = indexed.trace().raw().keyed().build_hasher().finish();
    match parse(alloc, text) {
        Ok(raw) => Some(kept == raw.keyed().build_hasher().finish()),
        Err(_) => None,
    }
}

const EVERY_OPERATION: &[u8] =
    b"M|w(x)|1\nM|acq(l)|2\nM|rel(l)|3\nM|fork(W)|4\nW|r(x)|5\nM|join(W)|6\n";

const TWO_LINES: &[u8] = b"T1|w(x)|1\nT2|r(x)|\n";

const CROSSED: &[u8] = b"A|w(x)|\nB|w(y)|\nA|r(y)|3\nB|r(x)|\n";

const SPACED: &[u8] = b"T1|w(x)|1\r\n\r\nT1|begin(b)|2\r\nT2| r( x ) ";

// Names that are also used of other kinds, each numbered by its first use among those of its kind.
const NUMBERED: &[u8] =
    b"b|acq(n)|\nb|w(n)|\nb|fork(n)|\na|acq(m)|x|y\nb|r(m)|\na|join(n)|\nb|rel(n)|\n";

const NUMBERS: [Event; 7] = [
    Event {
        thread: 0,
        op: Op::Acquire(0),
    },
    Event {
        thread: 0,
        op: Op::Write(0),
    },
    Event {
        thread: 0,
        op: Op::Fork(1),
    },
    Event {
        thread: 2,
        op: Op::Acquire(1),
    },
    Event {
        thread: 0,
        op: Op::Read(1),
    },
    Event {
        thread: 2,
        op: Op::Join(1),
    },
    Event {
        thread: 0,
        op: Op::Release(0),
    },
];

const TWO_EVENTS: [Event; 2] = [
    Event {
        thread: 0,
        op: Op::Write(0),
    },
    Event {
        thread: 1,
        op: Op::Read(0),
    },
];

const TWO_LOCKS: &[u8] =
    b"A|acq(l)|\nA|acq(m)|\nA|acq(l)|\nA|rel(m)|\nA|rel(l)|\nA|rel(l)|\nB|acq(l)|\nA|acq(m)|";

const TAKEN_TWICE: &[u8] = b"T1|acq(l)|\nT1|acq(l)|\nT1|rel(l)|\nT1|rel(l)|";

// Its first line is long, so that the key is made of the names; the second has no location.
const LONG_LINE: &[u8] =
    b"thread_of_a_long_name|w(variable_of_a_long_name)|/a/long/path/of/many/parts/so/that/\
      the/line/has/more/bytes/than/a/short/one/and/some/more/file.c:1234567\nT|r(x)\nT|w(y)|file.c:7654321 far_behind";

const OTHER_THREAD: &[u8] =
    b"thread_of_a_long_nama|w(variable_of_a_long_name)|/a/long/path/of/many/parts/so/that/\
      the/line/has/more/bytes/than/a/short/one/and/some/more/file.c:1234567\nT|r(x)\nT|w(y)|file.c:7654321 far_behind";

const OTHER_NAME: &[u8] =
    b"thread_of_a_long_name|w(variable_of_a_long_nama)|/a/long/path/of/many/parts/so/that/\
      the/line/has/more/bytes/than/a/short/one/and/some/more/file.c:1234567\nT|r(x)\nT|w(y)|file.c:7654321 far_behind";

const OTHER_LOCATION: &[u8] =
    b"thread_of_a_long_name|w(variable_of_a_long_name)|/a/long/path/of/many/parts/so/that/\
      the/line/has/more/bytes/than/a/short/one/and/some/more/file.c:1234567\nT|r(x)\nT|w(y)|file.c:7654321 far_behinc";

const OTHER_LAST_NAME: &[u8] =
    b"thread_of_a_long_name|w(variable_of_a_long_name)|/a/long/path/of/many/parts/so/that/\
      the/line/has/more/bytes/than/a/short/one/and/some/more/file.c:1234567\nT|r(x)\nT|w(z)|file.c:7654321 far_behind";

const ROWS: &[(&[u8], Question)] = &[
    (ONE_LOCK, Question::Text(ONE_LOCK)),
    (SPACED, Question::Text(TWO_LINES)),
    (TWO_LINES, Question::Text(TWO_LINES)),
    (b"", Question::Text(b"")),
    (b"|end|7\n\n  \t\r\n", Question::Text(b"")),
    (EVERY_OPERATION, Question::Text(EVERY_OPERATION)),
    (b"T1|w(f(x))|", Question::Text(b"T1|w(f(x))|\n")),
    (
        b" T 1 | w ( a b ) | x | y ",
        Question::Text(b"T 1|w(a b)|x | y\n"),
    ),
    (CROSSED, Question::Text(CROSSED)),
    // A vertical tab and a form feed are no blanks.
    (
        b"\x0bT|w(x\x0c)|\x0b",
        Question::Text(b"\x0bT|w(x\x0c)|\x0b\n"),
    ),
    (NUMBERED, Question::Text(NUMBERED)),
    (NUMBERED, Question::Events(&NUMBERS)),
    (SPACED, Question::Events(&TWO_EVENTS)),
    (
        ONE_LOCK,
        Question::Sections(&[None, Some(2), None, Some(4), None, None]),
    ),
    (
        TWO_LOCKS,
        Question::Sections(&[Some(5), Some(3), Some(4), None, None, None, None, None]),
    ),
    (
        TAKEN_TWICE,
        Question::Sections(&[Some(3), Some(2), None, None]),
    ),
    (TWO_PAIRS, Question::Hashers(TWO_PAIRS, true)),
    (TWO_PAIRS, Question::Hashers(ONE_LOCK, false)),
    // Each name and each location is a part of the key, however late it comes.
    (LONG_LINE, Question::Hashers(LONG_LINE, true)),
    (LONG_LINE, Question::Hashers(OTHER_THREAD, false)),
    (LONG_LINE, Question::Hashers(OTHER_NAME, false)),
    (LONG_LINE, Question::Hashers(OTHER_LOCATION, false)),
    (LONG_LINE, Question::Hashers(OTHER_LAST_NAME, false)),
];

#[test]
fn memory_a_trace_is_read_checked_indexed_and_printed(rt: HostRuntime) {
    assert_eq!(rt; first_wrong(rt.alloc(), ROWS), None);
}
