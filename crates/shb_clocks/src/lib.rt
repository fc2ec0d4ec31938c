//! The order SHB of a trace's events, and the race candidates that it leaves.
#![tactic(auto)]

mod ahead;
mod candidates;
mod chains;
mod clocks;
mod kept;
mod laws;
mod partners;
mod rivals;
mod rows;
mod shared_rows;
mod spots;

pub use clocks::Clocks;
pub use laws::known_tells_shb;
pub use shared_rows::SharedRows;
