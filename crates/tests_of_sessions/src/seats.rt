//! Tests of undo, of seats, of printed texts and of replays, in a crate over theirs: with tests in it a crate would be
//! proved twice, and the tests with its types seen from inside.

#[cfg(test)]
mod ample_tests;
#[cfg(test)]
mod door_tests;
#[cfg(test)]
mod fakes;
#[cfg(test)]
mod fixtures;
#[cfg(test)]
mod memory_tests;
#[cfg(test)]
mod plain_tests;
#[cfg(test)]
mod replay_tests;
#[cfg(test)]
mod seat_tests;
#[cfg(test)]
mod thread_tests;
