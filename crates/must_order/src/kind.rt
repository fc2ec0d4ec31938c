//! The kinds of conflicting pairs.

/// The kind of a conflicting pair of events: the first that fits.
#[derive(Clone, Copy, PartialEq, Eq, Debug)]
pub enum Kind {
    /// The later event has no base, or the earlier one is neither that base nor SHB-before it.
    Candidate,
    /// The earlier event is the later one's base, or must-before that base. No correct reordering shows the pair.
    Forced,
    /// Both threads hold one lock before their events. No correct reordering shows the pair.
    Guarded,
    /// None of the above: SHB keeps the two in order only by the order of critical sections.
    Open,
}
