//! Who uses the variables of a race: the table between two names, as text.
#![tactic(auto)]

mod between;
mod pieces;
mod refusal;
mod rows;
mod text;
mod totals;

pub use between::uses_between;
pub use refusal::UsesFault;
pub use text::uses_text;
