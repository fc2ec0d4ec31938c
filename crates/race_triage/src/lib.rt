//! Gives a verdict on each pair of locations with conflicting events: a race that a schedule shows, apart in every
//! correct reordering, or undecided. Prints the verdicts as text.
#![tactic(auto)]

mod between;
mod blocks;
mod chosen;
mod filters;
mod found;
mod judging;
mod known;
mod laws;
mod located;
mod outcomes;
mod pieces;
mod places;
mod settling;
mod tables;
mod text;
mod totals;
mod verdicts;
mod watch;
mod workers;

pub use between::{USUAL_TRIES, verdict_between};
pub use chosen::{Chosen, chosen_of, is_kept, is_known};
pub use filters::Filters;
pub use known::{Known, first_line, has_block, known_of, location_of};
pub use laws::{texts_are_one, totals_are_of_the_trace, verdicts_are_one};
pub use located::Located;
pub use pieces::append_event;
pub use places::Places;
pub use race_groups::{Counts, Row};
pub use text::triage_text;
pub use totals::Totals;
pub use verdicts::{
    Effort, MAX_PLACES, MAX_TRIES, Outcome, TriageRefusal, Verdict, Verdicts, triage,
};
pub use watch::{Silent, Watch};
