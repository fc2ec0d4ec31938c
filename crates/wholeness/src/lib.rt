//! Whether a recording is whole, what a report says of one that is not, and the exit status of `--fail`.
#![tactic(auto)]

mod loss;
mod marks;
mod saying;
mod status;
mod windows;

pub use loss::Loss;
pub use marks::{Wholeness, wholeness_of};
pub use saying::{Place, said};
pub use status::{Judged, status_of};
pub use windows::{append_begin, append_end};
