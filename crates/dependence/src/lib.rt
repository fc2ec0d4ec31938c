//! Which entries of a log touch which name, and which entries each client has.
#![tactic(auto)]

mod clients;
mod numbers;
mod touches;

pub use clients::Clients;
pub use touches::Touches;
