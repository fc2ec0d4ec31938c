//! The finding on a pair of conflicting events: a schedule that shows it, why no schedule does, or that neither was
//! found.

mod finding;
mod pairing;
mod searching;

pub use finding::Finding;
pub use pairing::pair_of;
pub use searching::{BUDGET, find};
