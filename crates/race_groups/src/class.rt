//! The properties that events of one class share.
use indexmap::IndexSet;
use rapid_text::{Op, TextKeyed};

/// The lists of locks under which a trace accesses variables. A stranger chooses them, so the key of their hash is made
/// of the trace's names and locations.
pub type LockLists = IndexSet<Vec<u32>, TextKeyed>;

/// A place, an operation, and the locks held.
#[derive(Clone, Copy, PartialEq, Eq, Debug)]
pub struct Class {
    /// The number of the place.
    pub place: u32,
    /// The operation of the event.
    pub op: Op,
    /// The number of the list of locks that the event's thread holds before an access; 0 for another operation.
    pub held: u32,
}
