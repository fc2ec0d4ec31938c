//! An event of a trace: which thread did what.

/// What an event does. The number is that of a variable, a lock or a thread, each counted from 0 in the order of
/// first use.
#[derive(Clone, Copy, PartialEq, Eq, Debug)]
pub enum Op {
    /// Reads a variable.
    Read(u32),
    /// Writes a variable.
    Write(u32),
    /// Acquires a lock.
    Acquire(u32),
    /// Releases a lock.
    Release(u32),
    /// Starts a thread.
    Fork(u32),
    /// Waits for the end of a thread.
    Join(u32),
}

/// The kind of an operation. The text has a word for each: `r`, `w`, `acq`, `rel`, `fork`, `join`.
#[derive(Clone, Copy, PartialEq, Eq, Debug)]
pub enum Kind {
    /// `r`, of a variable.
    Reads,
    /// `w`, of a variable.
    Writes,
    /// `acq`, of a lock.
    Acquires,
    /// `rel`, of a lock.
    Releases,
    /// `fork`, of a thread.
    Forks,
    /// `join`, of a thread.
    Joins,
}

/// One event. Its number is its position in the trace, counted from 0.
#[derive(Clone, Copy, PartialEq, Eq, Debug)]
pub struct Event {
    /// The number of the event's thread.
    pub thread: u32,
    /// What the thread did.
    pub op: Op,
}
