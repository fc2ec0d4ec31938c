//! The verdicts as lines that editors and build logs read like a compiler's.

mod blocks;
mod lines;
mod requests;

pub use lines::deadlocks_lines;
