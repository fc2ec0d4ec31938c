//! Exact counts of conflicting pairs by pair of places, without visiting the pairs.
#![tactic(auto)]

mod apart;
mod basis;
mod below;
mod class;
mod class_keys;
mod classes;
mod counted;
mod counting;
mod cuts;
mod finding;
mod fronts;
mod grouping;
mod guesses;
mod heavy;
mod holding;
mod kinds;
pub mod least_pairs;
mod listing;
mod loose;
mod owners;
mod passing;
mod rows;
mod runs;
mod shares;
mod sharing;
mod spread;
mod sums;
mod takers;
mod totals;
mod waiting;
mod walk;
mod weighing;
mod workers;
mod writers;

pub use apart::is_apart;
pub use class::{Class, LockLists};
pub use classes::Classes;
pub use kinds::{Counts, Groups, Row, groups_by_workers, groups_of};
pub use rows::RowsRefusal;
pub use sharing::are_sharing;
