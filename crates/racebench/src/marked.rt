//! Whether bytes that come in pieces begin with a UTF-8 byte order mark, and the note on a trace that does.

use crate::input::Input;
use crate::likeness::MARKED;
use crate::notes::{append_named, are_wanted};
use crate::telling::say;

/// What the first bytes are so far.
#[derive(Clone, Copy, PartialEq, Eq)]
pub(crate) enum Head {
    /// No byte came.
    Empty,
    /// The first byte of a mark.
    One,
    /// The first two bytes of a mark.
    Two,
    /// A whole mark.
    Mark,
    /// No mark.
    Other,
}

/// What the first bytes are after one more byte.
fn with_byte(head: Head, byte: u8) -> Head {
    match head {
        Head::Empty => { if byte == 0xef { Head::One } else { Head::Other } }
        Head::One => { if byte == 0xbb { Head::Two } else { Head::Other } }
        Head::Two => {
            if byte == 0xbf {
                Head::Mark
            } else {
                Head::Other
            }
        }
        Head::Mark => Head::Mark,
        Head::Other => Head::Other,
    }
}

/// What the first bytes are after the first `count` bytes of `bytes`. Three bytes decide.
pub(crate) fn after(mut head: Head, bytes: &[u8], count: usize) -> Head {
    for at in 0..bytes.len().min(count).min(3) {
        head = with_byte(head, bytes[at]);
    }
    head
}

/// Writes a note, if notes are wanted, that the trace with this name begins with a byte order mark.
pub(crate) fn say_marked(rt: &HostRuntime, name: &str) {
    if are_wanted(rt) {
        let mut line = Vec::new(rt.alloc());
        if append_named(&mut line, name, MARKED).is_ok() {
            say(rt, &line);
        }
    }
}

/// Writes that note, if the trace that this input gave begins with a mark.
pub(crate) fn tell_mark(rt: &HostRuntime, input: &Input, path: &str) {
    if input.has_mark() {
        say_marked(rt, path);
    }
}
