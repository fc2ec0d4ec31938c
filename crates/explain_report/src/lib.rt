//! Prints the explanation of a pair of conflicting events: why it is a race or is apart, and the schedule that shows
//! it.
#![tactic(auto)]

mod accesses;
mod apart;
mod causes;
mod chains;
mod contradicted;
mod event_lines;
pub mod findings;
mod folded;
pub mod picture;
mod pieces;
pub mod places;
mod raced;
mod run_lines;
mod runs;
mod shb_order;
mod verdict;
mod waiting;
mod witness;

pub use event_lines::{append_all_numbered, append_events, append_lock, append_thread_of};
pub use pieces::{append_count, append_number};
pub use raced::{candidates_are_told, first_raced};
pub use run_lines::append_runs;
pub use runs::{Run, run_count, runs_of};
pub use shb_order::shb_chain;
pub use verdict::{How, Verdict, append_head, explain_text};
pub use waiting::{waiters_of, words_between};
pub use witness::{Form, append_add, append_adds, witness_text};
