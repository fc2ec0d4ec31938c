//! The kinds of conflicting pairs to look for.

/// The kind of conflicting pairs to look for.
#[derive(Clone, Copy, PartialEq, Eq, Debug)]
pub enum Wanted {
    /// Candidates.
    Candidate,
    /// Open pairs.
    Open,
    /// Pairs of any kind.
    Any,
}
