//! The log of a shared workspace: commands of several clients, proposals, and undo.
#![tactic(auto)]

mod bench;
mod call;
mod changing;
mod compact;
mod counted;
mod entry;
pub mod headline;
mod kept;
mod parts;
mod proposals;
mod races;
mod refusal;
mod reply;

pub use bench::Bench;
pub use call::Call;
pub use compact::CompactCommand;
pub use entry::Entry;
pub use refusal::{Refusal, SeatRefusal};
pub use reply::Reply;
