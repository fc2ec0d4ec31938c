//! Gives a verdict on each pattern of two requests that wait for each other: a deadlock that a schedule shows, apart in
//! every correct reordering, or undecided.
#![tactic(auto)]

mod closing;
mod finding;
mod judge;
mod judging;
mod needing;
mod outcomes;
mod patterns;
mod refusal;
mod requests;
mod rows;
mod searching;
mod stepping;
mod tries;
mod verdicts;

pub use finding::{Finding, are_requests, find};
pub use judge::MAX_PATTERNS;
pub use judging::how_of;
pub use outcomes::{How, Outcome, Verdict};
pub use patterns::{Part, Pattern};
pub use refusal::Refusal;
pub use requests::is_request;
pub use tries::is_try;
pub use verdicts::{Deadlocks, MAX_TRIES, deadlocks_of};
