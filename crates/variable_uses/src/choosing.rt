//! The variables on which two sets of events conflict.
ghost use Rattle.std.specs.Prelude.{◌≡◌, ◌<◌, ◌≤◌, ◌+◌, ◌↔◌, ◌||◌, ℕ, length, All, IfOk, IsTrue, Some, false, true, slice_get, slice_index_or};
ghost use Rattle.event_index.specs.Relations.{is_access};
ghost use Rattle.variable_uses.specs.Owners.{AreSharingsBefore, are_two, with_thread};
ghost use Rattle.variable_uses.specs.Shared.{IsShared};

use crate::ends::flag_at;
use event_index::Indexed;
use rapid_text::{Op, OutOfMemory};
use std::alloc::Global;

/// Threads: none, one, or several.
#[derive(Clone, Copy)]
pub(crate) enum Threads {
    /// No thread.
    Nobody,
    /// One thread.
    Only(u32),
    /// Two threads or more.
    Several,
}

/// The threads that access a variable, and those that write it, in two sets of events.
#[derive(Clone, Copy)]
pub(crate) struct Sharing {
    pub(crate) ones: Threads,
    pub(crate) one_writers: Threads,
    pub(crate) others: Threads,
    pub(crate) other_writers: Threads,
}

/// For each variable whether two events conflict on it, one with a flag in `ones` and one with a flag in `others`. They
/// are of different threads, both access the variable, and at least one of them writes it. Fails if memory runs out.
pub fn shared_variables(
    alloc: Global,
    indexed: &Indexed,
    ones: &[bool],
    others: &[bool],
) -> Result<Vec<bool>, OutOfMemory>
    // Each variable of the trace has one flag.
    ensures len { IfOk result (λ chosen. length chosen.items ≡ length indexed.now.variables) }
    // A variable is chosen exactly if two events of different threads access it, one of each set, and one or both write
    // it (`IsShared`).
    ensures chosen { IfOk result (λ chosen. (x : ℕ) → x < length indexed.now.variables
        → (slice_index_or chosen.items x false ≡ true) ↔ IsShared indexed.now.events ones.now others.now x) }
{
    let sharing = sharing_of(alloc, indexed, ones, others)?;
    let mut chosen = Vec::with_capacity(alloc, sharing.len())?;
    for variable in 0..sharing.len() {
        chosen.push(is_shared(sharing[variable]))?;
    }
    Ok(chosen)
}

// The threads of each variable.
fn sharing_of(
    alloc: Global,
    indexed: &Indexed,
    ones: &[bool],
    others: &[bool],
) -> Result<Vec<Sharing>, OutOfMemory>
    ensures len { IfOk result (λ sharing. length sharing.items ≡ length indexed.now.variables) }
    ensures sharing { IfOk result (λ sharing. AreSharingsBefore indexed.now.events ones.now others.now (length indexed.now.events) sharing.items) }
{
    let nobody = Sharing {
        ones: Threads::Nobody,
        one_writers: Threads::Nobody,
        others: Threads::Nobody,
        other_writers: Threads::Nobody,
    };
    let mut sharing = vec![in alloc; nobody; indexed.variables() as usize]?;
    for event in 0..indexed.len() {
        note_access(sharing.as_mut_slice(), indexed, ones, others, event);
    }
    Ok(sharing)
}

// Notes the next event if it is an access.
fn note_access(
    sharing: &mut [Sharing],
    indexed: &Indexed,
    ones: &[bool],
    others: &[bool],
    event: u32,
)
    requires event { event < length indexed.now.events }
    requires len { length sharing.old ≡ length indexed.now.variables }
    requires sharing { AreSharingsBefore indexed.now.events ones.now others.now event sharing.old }
    ensures len { length sharing.new ≡ length sharing.old }
    ensures sharing { AreSharingsBefore indexed.now.events ones.now others.now (event + 1) sharing.new }
{
    let found = indexed.event(event);
    let one = flag_at(ones, event as usize);
    let other = flag_at(others, event as usize);
    match found.op {
        Op::Read(variable) => {
            let old = sharing[variable as usize];
            sharing[variable as usize] = with_read(old, found.thread, one, other);
        }
        Op::Write(variable) => {
            let old = sharing[variable as usize];
            sharing[variable as usize] = with_write(old, found.thread, one, other);
        }
        _ => {}
    }
}

// The threads after a read by this thread; the flags say in which sets it is.
fn with_read(old: Sharing, thread: u32, one: bool, other: bool) -> Sharing
    ensures ones { result.ones ≡ with_thread old.ones thread one }
    ensures one_writers { result.one_writers ≡ old.one_writers }
    ensures others { result.others ≡ with_thread old.others thread other }
    ensures other_writers { result.other_writers ≡ old.other_writers }
{
    Sharing {
        ones: with_thread(old.ones, thread, one),
        one_writers: old.one_writers,
        others: with_thread(old.others, thread, other),
        other_writers: old.other_writers,
    }
}

// The threads after a write by this thread; the flags say in which sets it is.
fn with_write(old: Sharing, thread: u32, one: bool, other: bool) -> Sharing
    ensures ones { result.ones ≡ with_thread old.ones thread one }
    ensures one_writers { result.one_writers ≡ with_thread old.one_writers thread one }
    ensures others { result.others ≡ with_thread old.others thread other }
    ensures other_writers { result.other_writers ≡ with_thread old.other_writers thread other }
{
    Sharing {
        ones: with_thread(old.ones, thread, one),
        one_writers: with_thread(old.one_writers, thread, one),
        others: with_thread(old.others, thread, other),
        other_writers: with_thread(old.other_writers, thread, other),
    }
}

// The threads with this one, if it counts.
fn with_thread(threads: Threads, thread: u32, counts: bool) -> Threads
    ensures { result ≡ with_thread threads thread counts }
{
    if !counts {
        return threads;
    }
    match threads {
        Threads::Nobody => Threads::Only(thread),
        Threads::Only(old) => {
            if old == thread {
                Threads::Only(old)
            } else {
                Threads::Several
            }
        }
        Threads::Several => Threads::Several,
    }
}

// Whether a writer of one set and a thread of the other set are two threads.
fn is_shared(sharing: Sharing) -> bool
    ensures { result ≡ (are_two sharing.one_writers sharing.others || are_two sharing.ones sharing.other_writers) }
{
    are_two(sharing.one_writers, sharing.others) || are_two(sharing.ones, sharing.other_writers)
}

// Whether some thread of the first is not some thread of the second.
fn are_two(first: Threads, second: Threads) -> bool
    ensures { result ≡ are_two first second }
{
    match first {
        Threads::Nobody => false,
        Threads::Only(one) => match second {
            Threads::Nobody => false,
            Threads::Only(other) => one != other,
            Threads::Several => true,
        },
        Threads::Several => match second {
            Threads::Nobody => false,
            Threads::Only(_) => true,
            Threads::Several => true,
        },
    }
}
