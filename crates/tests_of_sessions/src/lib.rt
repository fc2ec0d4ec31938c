//! Tests of the shared workspace, of seats, and of what the program calls.
#![tactic(auto)]

#[cfg(test)]
mod program;
#[cfg(test)]
mod seats;
#[cfg(test)]
mod workspace;
