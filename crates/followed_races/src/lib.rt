//! How races ended that were followed on the real program: the lines that `record/confirm` writes, and which line is
//! about a race.
#![tactic(auto)]

mod choosing;
mod entries;
mod lines;
mod members;

pub use choosing::{is_on, told_of};
pub use entries::Followed;
pub use lines::{FollowedRefusal, MAX_LINE, MAX_LINES, followed_in};
