//! A caller that uses only the public contracts of a bench. For lists of calls of any clients, these contracts give it
//! the laws of `inverse_log`.

mod driving;

pub use driving::{Asked, Outcome, do_and_undo, make_all};
