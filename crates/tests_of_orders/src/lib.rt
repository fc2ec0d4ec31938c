//! Tests of trace texts, of the index, of the order SHB, of schedules, of the search for witnesses, of the pool that searches, of windows and
//! of what is known of a pair of events, in a crate over theirs: with tests in it a crate would be proved twice, and the tests with its types seen from inside.
#![tactic(auto)]

#[cfg(test)]
mod clock_tests;
#[cfg(test)]
mod closed_tests;
#[cfg(test)]
mod fixtures;
#[cfg(test)]
mod in_order_tests;
#[cfg(test)]
mod list_tests;
#[cfg(test)]
mod must_tests;
#[cfg(test)]
mod pool_tests;
#[cfg(test)]
mod questions;
#[cfg(test)]
mod schedule_tests;
#[cfg(test)]
mod text_tests;
#[cfg(test)]
mod window_tests;
