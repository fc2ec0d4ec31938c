//! The verdicts on a trace's pairs of locations as SARIF 2.1.0, for code-scanning pages and viewers.

mod accesses;
mod bases;
mod flows;
mod locations;
mod logs;
mod merged;
mod places;
mod prints;
mod results;
mod schedules;
mod sources;
mod stacks;
mod words;

pub use flows::{MOST_ORDER, MOST_STEPS};
pub use logs::{END, HEAD, MOST_FLOWS, PROPERTIES, TAIL, triage_sarif};
pub use merged::merged_sarif;
pub use places::{MOST_LINE, file_of, line_of};
pub use sources::{SourceLine, Sources};
