//! A window of a long trace, as a separate trace.
#![tactic(auto)]

mod cutting;
mod fault;
mod front;
mod heads;
mod holding;
mod known;
mod laws;
mod leaving;
mod levels;
mod lines;
mod moving;
mod naming;
mod past;
mod piece;
mod prologue;
mod telling;
mod touching;
mod whole;

pub use cutting::{Window, cut, cut_at};
pub use fault::{CutFault, FrontFault};
pub use front::Front;
pub use laws::{
    apart_in_window, cut_at_reads_as_window, cut_is_sound, cut_reads_as_window, prologue_is_apart,
    prologues_are_short, renaming_keeps_reorderings, stream_begins, stream_breaks, stream_goes_on,
    stream_is_sound, stream_keeps_rules, stream_reads, stream_refuses, window_is_complete,
    window_is_disciplined, window_is_made, window_is_sound, window_of_a_beginning,
    window_of_is_window,
};
