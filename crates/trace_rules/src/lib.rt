//! The rules on locks, forks and joins that a trace has to keep.
#![tactic(auto)]

mod check_rules;
mod hold;
mod life;
mod refusal;
mod state;
mod trace;

pub use check_rules::check;
pub use refusal::{RuleCause, RuleRefusal};
pub use trace::Trace;
