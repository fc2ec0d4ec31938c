//! Writes text from outside into markup (XML, SVG, HTML) so that it stays text.
#![tactic(auto)]

mod escaping;
mod laws;

pub use escaping::escape;
pub use laws::{escaped_is_text, escaped_reads_back};
