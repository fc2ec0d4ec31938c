//! A session answers the lines of a script one by one. Its bench has a log in a file that several processes can
//! share.
#![tactic(auto)]

mod answering;
mod asking;
mod catching;
mod fault;
mod head;
mod laws;
mod opening;
mod printing;
mod questions;
mod running;
mod session;

pub use fault::{SessionFault, session_fault_text};
pub use head::head_of;
pub use laws::{lines_are_script, replay_leaves_log};
pub use opening::make_log;
pub use printing::print_log;
pub use questions::answer_question;
pub use running::run_session;
pub use session::Session;
