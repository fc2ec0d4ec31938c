//! The verdicts on a trace's pairs of locations as lines that editors and build logs read like a compiler's.

mod accesses;
mod blocks;
mod calls;
mod lines;
mod reasons;

pub use accesses::{spot, spot_of, thread_of, variable_of, verb_of};
pub use blocks::{append_about, append_locks, place_at};
pub use calls::append_calls;
pub use lines::triage_lines;
pub use reasons::{append_apart, append_race, append_undecided, plural_end};
