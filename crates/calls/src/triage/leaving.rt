//! Which pairs of locations of a merged report are printed: known races are left out, and so is what filters drop.

mod choosing;
mod entries;
mod filters;
mod lines;
mod listed;
mod splitting;

pub use choosing::{Choice, Left, left_of};
pub use entries::is_met;
pub(crate) use lines::pairs_in;
