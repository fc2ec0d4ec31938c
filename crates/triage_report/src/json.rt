//! The verdicts on a trace's pairs of locations as JSON, for other programs: an object a line.

mod accesses;
mod lines;
mod members;
mod objects;

pub use accesses::names_of;
pub use lines::{append_left_out, append_line, triage_json};
pub use members::{object_with, put_number, put_text, put_word};
