//! The language of scripts: lines with a client's number, a command word and its arguments.
#![tactic(auto)]

mod batches;
mod calls;
mod kept;
mod lines;
mod number;
mod plain;
mod question;
mod quick_batch;
mod reading;
mod refusal;
mod script;
mod simple;
mod verb;

pub use calls::read_line;
pub use lines::Lines;
pub use plain::{GivenCall, PlainCall};
pub use question::{Question, QuestionWord, read_question};
pub use reading::read_script;
pub use refusal::{ScriptCause, ScriptRefusal};
pub use script::{Script, ScriptCall};
pub use verb::{CommandVerb, Verb};
