//! The verdicts as JSON, for other programs: an object a line.

mod lines;
mod objects;
mod requests;

pub use lines::deadlocks_json;
