//! Tests of commands on named schedules, and of the numbers under each name, in a crate over theirs: with tests in it a crate
//! would be proved twice, and the tests with its types seen from inside.

#[cfg(test)]
mod fixtures;
#[cfg(test)]
mod move_tests;
#[cfg(test)]
mod number_tests;
