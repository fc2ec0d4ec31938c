//! Finds schedules that show a pair of conflicting events.
#![tactic(auto)]

mod refusal;
mod searching;
mod slicing;
pub mod trace_order;
mod wanting;

pub use refusal::SliceRefusal;
pub use searching::greedy;
pub use slicing::slice;
