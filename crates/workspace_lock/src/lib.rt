//! Lets the threads of several clients share one bench, each through a seat of its own.
#![tactic(auto)]

mod bells;
mod boxed;
mod door;
mod lock;
mod seat;
mod seats;

pub use door::BEST_ROOM;
pub use inverse_log::SeatRefusal;
pub use seat::{Gate, Seat, Told};
pub use seats::{CloseRefusal, OpenRefusal, Seats, open, open_with_room};
