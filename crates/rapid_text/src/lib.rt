//! Reads a trace from its text in RAPID's standard format, and prints it back.
#![tactic(auto)]

mod cutting;
mod event;
mod items;
mod line;
mod marks;
mod memory;
mod names;
mod printing;
mod raw_trace;
mod reading;
mod recent;
mod recorder;
mod refusal;

pub use cutting::{is_a_blank, trim, trim_start};
pub use event::{Event, Kind, Op};
pub use items::{Bytes, Items};
pub use memory::OutOfMemory;
pub use names::TextKeyed;
pub use printing::print;
pub use raw_trace::{MAX_EVENTS, MAX_THREADS, RawTrace};
pub use reading::parse;
pub use refusal::{TextCause, TextRefusal};
