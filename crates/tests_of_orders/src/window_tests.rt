//! What no clause says of windows of a long trace: that they are made, and refused, if memory suffices. Each wanted
//! window is that of `tests/plain.py`.

use rapid_text::TextCause;
use std::alloc::Global;
use trace_rules::RuleCause;
use window::{Front, FrontFault, Window};

// What is wanted of a piece.
#[derive(Clone, Copy)]
enum Wanted {
    Window(&'static [u8]),
    Fault(FrontFault),
}

// A thread forks another, and takes a lock twice.
const FIRST: &[u8] = b"T1|fork(T2)|1\nT1|acq(l)|2\nT1|acq(l)|3\n";

const REST: &[u8] = b"T1|w(x)|4\nT2|w(x)|5\nT1|rel(l)|6\nT2|r(window)|7\nT1|rel(l)|8\n";

const FIRST_WINDOW: &[u8] =
    b"window|begin(FROM 0 TO 3 PROLOGUE 0)|\nT1|fork(T2)|1\nT1|acq(l)|2\nT1|acq(l)|3\n";

const LATER_WINDOW: &[u8] = b"window|begin(FROM 3 TO 6 PROLOGUE 20)|\n\
T1|acq(window_)|\nT1|r(window_)|\nT1|rel(window_)|\nT1|acq(l)|\nT1|acq(window_)|\nT1|w(window_)|\nT1|rel(window_)|\n\
T1|acq(window_)|\nT1|r(window_)|\nT1|rel(window_)|\nT1|acq(l)|\nT1|acq(window_)|\nT1|w(window_)|\nT1|rel(window_)|\n\
T1|acq(window_)|\nT1|r(window_)|\nT1|rel(window_)|\nT2|acq(window_)|\nT2|r(window_)|\nT2|rel(window_)|\n\
T1|w(x)|4\nT2|w(x)|5\nT1|rel(l)|6\n";

// The fifth event takes what another thread holds.
const HELD: FrontFault = FrontFault::Rule {
    event: 4,
    why: RuleCause::AcquireHeld,
};

// The sixth line has no parentheses.
const REFUSED: FrontFault = FrontFault::Text {
    line: 6,
    why: TextCause::BadParentheses,
};

// What was read before a piece, the piece, how many events its window may have, and what is wanted.
const ROWS: &[(&[u8], &[u8], u32, Wanted)] = &[
    (b"", FIRST, 8, Wanted::Window(FIRST_WINDOW)),
    (FIRST, REST, 3, Wanted::Window(LATER_WINDOW)),
    (FIRST, b"", 3, Wanted::Fault(FrontFault::NoSuchEvent)),
    (FIRST, b"T1|w(x)|4", 3, Wanted::Fault(FrontFault::Unended)),
    (FIRST, b"\nT2|w(x)|4\nT2|acq(l)|5\n", 3, Wanted::Fault(HELD)),
    (FIRST, b"\nT2|w(x)|4\nT2|acq|5\n", 3, Wanted::Fault(REFUSED)),
];

// What was read; None if memory ran out.
fn read(alloc: Global, before: &[u8]) -> Option<Front> {
    let mut front = Front::begin(alloc);
    match front.go_on(alloc, before) {
        Ok(()) => Some(front),
        Err(_) => None,
    }
}

// Whether a window with this text is wanted.
fn is_text(window: &Window, wanted: Wanted) -> bool {
    match wanted {
        Wanted::Window(text) => window.text.as_slice() == text,
        Wanted::Fault(_) => false,
    }
}

// Whether this fault is wanted.
fn is_fault(fault: FrontFault, wanted: Wanted) -> bool {
    match wanted {
        Wanted::Window(_) => false,
        Wanted::Fault(wanted) => fault == wanted,
    }
}

// Whether the window of the piece is as wanted; None if memory ran out.
fn is_made(alloc: Global, front: &Front, piece: &[u8], most: u32, wanted: Wanted) -> Option<bool> {
    if most == 0 {
        return Some(false);
    }
    match front.window(alloc, piece, most) {
        Ok(window) => Some(is_text(&window, wanted)),
        Err(FrontFault::OutOfMemory) => None,
        Err(fault) => Some(is_fault(fault, wanted)),
    }
}

// The same of a row.
fn is_right(alloc: Global, at: usize) -> Option<bool> {
    let (before, piece, most, wanted) = ROWS.get(at)?;
    let front = read(alloc, before)?;
    is_made(alloc, &front, piece, *most, *wanted)
}

// The number of the first row that is wrong. Each row is tried again if memory ran out.
fn first_wrong(alloc: Global) -> Option<usize> {
    for at in 0..ROWS.len() {
        let asked = match is_right(alloc, at) {
            Some(right) => Some(right),
            None => is_right(alloc, at),
        };
        if asked != Some(true) {
            return Some(at);
        }
    }
    None
}

#[test]
fn events_of_a_window_have_their_numbers_in_the_trace(rt: HostRuntime) {
    let window = Window {
        text: Vec::new(rt.alloc()),
        from: 10,
        to: 13,
        prologue: 7,
    };
    assert_eq!(rt; window.number_of(6), None);
    assert_eq!(rt; window.number_of(7), Some(10));
    assert_eq!(rt; window.number_of(9), Some(12));
    assert_eq!(rt; window.number_of(u64::MAX), None);
}

#[test]
fn memory_windows_of_a_long_trace_are_made(rt: HostRuntime) {
    assert_eq!(rt; first_wrong(rt.alloc()), None);
}
