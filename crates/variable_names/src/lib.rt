//! Which part of a variable's name is the same in every recording of a program: all but its NUMBER, which counts the
//! blocks of one place or the activations of one function.
#![tactic(auto)]

mod numbers;
mod same;
#[cfg(test)]
mod tests;

pub use numbers::{is_address, parts_of};
pub use same::are_same;
