//! The parts of a location: the place of an access, which may be a file and a line, and the calls that led there.

mod accesses;
mod arrows;
mod calls;
mod located;
mod name;
mod names;

pub use accesses::{are_apart, are_at_one_place, flags_of, place_of};
pub use arrows::{MAX_CALLS, cut_at_arrow};
pub use calls::{Call, call_of, cut_at_last, is_line};
pub use located::location_of;
pub use name::Name;
pub use names::{NO_FIT, is_tail, misfit};
