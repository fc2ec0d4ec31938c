//! Replays scripts: reads a trace and a script, makes the script's calls, and writes the answers.
#![tactic(auto)]

mod fault;
mod fault_texts;
mod joint;
mod loading;
mod replaying;
mod seats;
mod sink;
mod source;

pub use fault::{LIMIT, ReadCause, ReadFault, ReplayFault, Tally};
pub use fault_texts::{fault_text, script_words};
pub use loading::{load, load_owned, read_input, read_trace};
pub use replaying::{replay, replay_joint};
pub use script_language::{
    CommandVerb, GivenCall, PlainCall, Script, ScriptCall, ScriptCause, ScriptRefusal, Verb,
    read_script,
};
pub use seats::run_seat;
pub use sink::{FromWrite, Sink, write_all};
pub use source::{Failed, FromRead, Source, read_all};
