//! The tables of an accepted trace: places, writers, forks and critical sections. Also tests whether two events
//! conflict or are independent.
#![tactic(auto)]

mod grouping;
mod indexed;
mod lists;
mod relations;
mod scans;
mod sections;
mod tables;

pub use indexed::Indexed;
pub use lists::{EventList, Pairs};
