//! What a name has in a workspace.

use crate::birth::Birth;
use schedule::Schedule;

/// A named schedule, and when it was made.
#[derive(Drop)]
pub struct Row {
    /// When it was made: no two rows of a workspace have the same birth.
    pub birth: Birth,
    /// The schedule.
    pub schedule: Schedule,
}
