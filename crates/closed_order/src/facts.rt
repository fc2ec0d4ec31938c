//! What was derived, in the order of its derivation.

// Something that holds of each correct reordering after which the requests are next. `via` is how one event was found
// to precede another one: 0 by must-before alone, otherwise one more than the number of the arrow that leads there.
#[derive(Clone, Copy)]
pub(crate) enum Fact {
    // The first event precedes the second one.
    Arrow { from: u32, to: u32, reason: Reason },
    // An earlier arrow, since which more was found to precede its first event.
    Again { from: u32, to: u32, fact: u32 },
    // This event is there.
    There { event: u32, cause: Cause },
}

// Why one event precedes another one.
#[derive(Clone, Copy)]
pub(crate) enum Reason {
    Overwritten { read: u32, via: u32 },
    Unseen { writer: u32, via: u32 },
    Initial,
    Enters { event: u32, via: u32 },
    Ends { start: u32, via: u32 },
    Lasts { request: u32 },
}

// Why an event is there.
#[derive(Clone, Copy)]
pub(crate) enum Cause {
    // It is the base of this request.
    Base { request: u32 },
    // It precedes an event that is there.
    Before { event: u32, via: u32 },
}

// What cannot be.
#[derive(Clone, Copy)]
pub(crate) enum Conflict {
    // This request is there.
    Request { event: u32 },
    // The first event precedes the second one, and is it or comes after it in its thread.
    Circle { first: u32, second: u32, via: u32 },
}
