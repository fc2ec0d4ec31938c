//! Must-before: which events come before an event in every correct reordering that has it, and which pairs of events
//! no correct reordering shows.
#![tactic(auto)]

mod analysis;
mod chains;
mod joins;
mod kind;
mod laws;
mod must;
mod owed;
mod reasons;
mod rows;
mod sections;

pub use analysis::Analysis;
pub use chains::{Chain, Reason, Step};
pub use kind::Kind;
pub use laws::{apart_is_never_shown, must_before_stands_before};
pub use must::Must;
