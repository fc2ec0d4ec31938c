//! Deadlocks: requests of locks that wait for one another in a circle, the schedules that show them, and what no
//! schedule shows.
#![tactic(auto)]

mod cycles;
mod laws;
mod requiring;
mod showing;
mod waiting;

pub use cycles::is_cycle;
pub use laws::{
    deadlock_stays, forced_is_never_shown, guarded_is_never_shown, refuted_is_never_shown,
    required_is_there, shown_is_held,
};
pub use requiring::are_refuted;
pub use showing::shows;
pub use waiting::waits_for;
