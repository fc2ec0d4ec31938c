//! The least list in the order of the trace that shows a pair, after U. Mathur, A. Pavlogiannis and M. Viswanathan,
//! "Optimal prediction of synchronization-preserving races" (POPL 2021).

mod acquires;
mod closing;
mod counting;
mod enabling;
mod fronts;
mod holding;
mod joining;
mod lasting;
mod laws;
mod listing;
mod needing;
mod noting;
mod ordering;
mod reaching;
mod refusal;
mod sizing;
mod turning;
mod wanting;
mod writing;

pub use acquires::Acquires;
pub use laws::{
    candidates_are_in_order, in_order_is_least, in_order_is_sound, ready_in_order_is_least,
    rising_reorderings_are_closed,
};
pub use listing::in_order;
pub use needing::needs_of;
pub use ordering::fewer_runs;
pub use refusal::InOrderRefusal;
pub use sizing::in_order_size;
pub use turning::{turned, turned_size};
