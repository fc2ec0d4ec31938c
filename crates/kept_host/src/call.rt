//! The calls of a file, each with its answer.

/// How a wait for the lock ended.
#[derive(Clone, Copy)]
pub enum Taking {
    /// The lock was taken, and the file was read.
    Read,
    /// The lock was taken, and the file ended before the place.
    Shorter,
    /// The lock was not taken, or the file was not read.
    Failed,
}

/// A call of a file.
#[derive(Clone, Copy)]
pub enum FileCall {
    /// The lock was waited for, to read from a place on.
    Taken { from: usize, how: Taking },
    /// The lock was let go; others may change the file from a place on.
    Released { from: usize, is_done: bool },
    /// Bytes were written at a place.
    Written { at: usize, is_done: bool },
    /// The file was cut to a length.
    Cut { len: usize, is_done: bool },
    /// The file was put on the disk.
    Synced { is_done: bool },
}
