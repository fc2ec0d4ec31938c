//! Tests of the calls that the program makes, in a crate over theirs: with tests in it a crate would be proved twice, and the tests
//! with its types seen from inside.

#[cfg(test)]
mod call_tests;
#[cfg(test)]
mod leaving_tests;
#[cfg(test)]
mod sink_tests;
