//! The calls on one pair of events, over a reader and a writer: `explain` says what is found of the pair, `witness`
//! prints the schedule that shows it, and `uses` lists all accesses of its variables.

mod explaining;
mod fault;
mod form;
mod naming;
mod requests;
mod using;
mod witnessing;
mod writing;

pub use explain_report::places::Name;
pub use explaining::explain;
pub use fault::{PairFault, pair_fault_text};
pub use form::Form;
pub use must_order::Kind;
pub use using::uses;
pub use witnessing::witness;
