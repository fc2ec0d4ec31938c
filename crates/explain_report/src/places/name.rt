//! Names of accesses.

/// A name for accesses of a trace.
#[derive(Clone, Copy, PartialEq, Eq, Debug)]
pub enum Name<'a> {
    /// The event with this number.
    Event(u32),
    /// The accesses at the place that this word names.
    Place(&'a [u8]),
}
