//! Prints replies to calls, refusals, the log, the contents of a trace, and candidates.
#![tactic(auto)]

mod candidate_lines;
mod causes;
mod commands;
mod info_lines;
mod log_lines;
mod pieces;
mod refusals;
mod replies;
mod seats;

pub use candidate_lines::candidates;
pub use info_lines::info;
pub use log_lines::{entry, log};
pub use pieces::{Piece, append_pieces};
pub use refusals::refusal;
pub use replies::{reply, shown};
pub use seats::seat_refusal;
