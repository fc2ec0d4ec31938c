//! The races of a trace as JSON, as lines for editors, and as a SARIF log.
#![tactic(auto)]

pub mod folder;
pub mod json;
pub mod lines;
pub mod sarif;
