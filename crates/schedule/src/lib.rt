//! One correct reordering of a trace, which grows one event at a time.
#![tactic(auto)]

mod counts;
mod latest;
mod latest_table;
mod reads;
mod refusal;
mod refusing;
mod schedule;
mod showing;
mod swapping;
mod tables;

pub use refusal::{Disabled, ExtendRefusal, ListRefusal, PrefixRefusal, SwapRefusal};
pub use schedule::Schedule;
