//! For each pair of places its least pairs of events: the least candidate, the least open pairs, and the least
//! conflicting pair.

mod firsts;
mod lanes;
mod least;
mod leasts;
mod noted;
mod noting;
mod reach;
mod sharing;
mod sweep;
mod taking;
mod tries;
mod uses;
mod wanted;
mod windows;

pub use firsts::firsts_of;
pub use least::Least;
pub use leasts::leasts_of;
pub use sharing::{Counted, leasts_by_workers};
pub use tries::{Between, Pair, Try};
pub use wanted::Wanted;
